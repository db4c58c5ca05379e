//! What an axiom says, by the cause that gives rise to it.

use crate::marks::feature_marks;
use crate::naming::{push_dependency, push_owner};
use crate::ranges::push_versions;
use features::{FeatureName, PackageName};
use lookups::{Cause, Problem, dependency_at};
use semver::Version;
use std::alloc::{AllocError, Global};
use vertices::OwnerRef;

/// What an axiom says: who does what, as `a 1.0.0` `needs` `b ^1` with feature f.
#[derive(Drop)]
pub(crate) struct Saying<'a> {
    /// What stands before the version, or for who does it where there is none.
    pub(crate) before: String,
    pub(crate) version: Option<(&'a PackageName, &'a Version)>,
    pub(crate) verb: &'static str,
    pub(crate) object: String,
    pub(crate) feature: Option<&'a FeatureName>,
    /// The dependency of which it says that it is there, if it does.
    pub(crate) about: String,
    /// Of two that say so of one dependency, the one with the greater weight says all that the other does.
    pub(crate) weight: usize,
}

/// What an axiom of this cause says; nothing for the one that the root is there, and for those that another tells too.
pub(crate) fn saying_of<'a>(
    alloc: Global,
    problem: &Problem<'a>,
    cause: Cause<'a>,
) -> Result<Option<Saying<'a>>, AllocError> {
    let saying = match cause {
        Cause::Root | Cause::Ask(..) => return Ok(None),
        Cause::Need(owner, number) | Cause::Target(owner, number, _) => {
            need(alloc, problem, owner, number, None)?
        }
        Cause::List(owner, number, _, feature) => {
            need(alloc, problem, owner, number, Some(feature))?
        }
        Cause::Feature(name, _, feature) => holders(alloc, problem, name, feature)?,
        Cause::Newest(owner, number, _, _, _) => newest(alloc, problem, owner, number)?,
        Cause::Entry(name, version, feature, other) => {
            let object = format!(in alloc; "feature {other}")?;
            let none = String::new(alloc);
            enabled(alloc, (name, version), feature, object, none, 0)?
        }
        Cause::Enabling(name, version, feature, _, number) => {
            let about = dependency_text(alloc, problem, &OwnerRef::Version(name, version), number)?;
            let object = format!(in alloc; "{about}")?;
            enabled(alloc, (name, version), feature, object, about, 1)?
        }
        Cause::Asking(name, version, feature, other, number) => {
            let about = dependency_text(alloc, problem, &OwnerRef::Version(name, version), number)?;
            let object = format!(in alloc; "feature {other} of {about}")?;
            enabled(alloc, (name, version), feature, object, about, 2)?
        }
        Cause::Weak(name, version, feature, other, number, _) => {
            let about = dependency_text(alloc, problem, &OwnerRef::Version(name, version), number)?;
            let object = format!(in alloc; "feature {other} of {about} if that is enabled")?;
            let none = String::new(alloc);
            enabled(alloc, (name, version), feature, object, none, 0)?
        }
    };
    Ok(Some(saying))
}

fn dependency_text(
    alloc: Global,
    problem: &Problem<'_>,
    owner: &OwnerRef<'_>,
    number: usize,
) -> Result<String, AllocError> {
    let mut text = String::new(alloc);
    push_dependency(&mut text, problem, owner, number)?;
    Ok(text)
}

/// `a 1.0.0 needs b ^1`, and with which feature.
fn need<'a>(
    alloc: Global,
    problem: &Problem<'a>,
    owner: OwnerRef<'a>,
    number: usize,
    feature: Option<&'a FeatureName>,
) -> Result<Saying<'a>, AllocError> {
    let about = dependency_text(alloc, problem, &owner, number)?;
    let object = format!(in alloc; "{about}")?;
    let verb = need_verb(problem, &owner, number);
    let mut saying = said_of(alloc, problem, owner, verb, object, about)?;
    saying.feature = feature;
    saying.weight = if feature.is_some() { 1 } else { 0 };
    Ok(saying)
}

/// A version has an optional dependency, the root needs each.
fn need_verb(problem: &Problem<'_>, owner: &OwnerRef<'_>, number: usize) -> &'static str {
    match (owner, dependency_at(problem, owner, number)) {
        (OwnerRef::Version(..), Some(dependency)) => {
            if dependency.optional {
                "has the optional dependency"
            } else {
                "needs"
            }
        }
        _ => "needs",
    }
}

/// What is said of an owner.
fn said_of<'a>(
    alloc: Global,
    problem: &Problem<'a>,
    owner: OwnerRef<'a>,
    verb: &'static str,
    object: String,
    about: String,
) -> Result<Saying<'a>, AllocError> {
    let mut before = String::new(alloc);
    let version = match owner {
        OwnerRef::Root => {
            push_owner(&mut before, problem, &owner)?;
            None
        }
        OwnerRef::Version(name, version) => Some((name, version)),
    };
    Ok(Saying {
        before,
        version,
        verb,
        object,
        feature: None,
        about,
        weight: 0,
    })
}

/// `only a 1.4.0 to 1.6.0 has feature f`.
fn holders<'a>(
    alloc: Global,
    problem: &Problem<'a>,
    name: &PackageName,
    feature: &FeatureName,
) -> Result<Saying<'a>, AllocError> {
    let versions = problem.catalogue.versions(name);
    let marks = feature_marks(alloc, problem, name, feature, versions)?;
    let mut before = String::new(alloc);
    if marks.contains(&true) && marks.contains(&false) {
        before.push_str("only ")?;
    }
    push_versions(alloc, &mut before, name, versions, &marks, "every")?;
    let object = format!(in alloc; "feature {feature}")?;
    Ok(Saying {
        before,
        version: None,
        verb: "has",
        object,
        feature: None,
        about: String::new(alloc),
        weight: 0,
    })
}

/// Of several versions of one name that an owner uses the newest counts.
fn newest<'a>(
    alloc: Global,
    problem: &Problem<'a>,
    owner: OwnerRef<'a>,
    number: usize,
) -> Result<Saying<'a>, AllocError> {
    let about = dependency_text(alloc, problem, &owner, number)?;
    let object = format!(in alloc; "{about} by the newest version that fits among those it uses")?;
    said_of(alloc, problem, owner, "meets", object, String::new(alloc))
}

/// What a feature of a version enables.
fn enabled<'a>(
    alloc: Global,
    version: (&'a PackageName, &'a Version),
    feature: &FeatureName,
    object: String,
    about: String,
    weight: usize,
) -> Result<Saying<'a>, AllocError> {
    let before = format!(in alloc; "feature {feature} of ")?;
    Ok(Saying {
        before,
        version: Some(version),
        verb: "enables",
        object,
        feature: None,
        about,
        weight,
    })
}
