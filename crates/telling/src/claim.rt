//! What a step says, as a clause: what can't be used, or what has to be.

use crate::marks::{class_marks, target_marks, version_marks};
use crate::naming::{push_dependency, push_owner};
use crate::ranges::{is_every, push_before, push_versions};
use classes::Class;
use features::{FeatureName, PackageName};
use lookups::{Problem, StateSet, Term, dependency_at};
use std::alloc::{AllocError, Global};
use vertices::{OwnerRef, StateRef, VertexRef};

/// What a term is in a clause.
#[derive(Clone, Copy, Debug, PartialEq, Eq)]
enum Role {
    /// That the root is there needs no word.
    Silent,
    /// What is taken to hold.
    Held,
    /// A feature that is taken to be on, of a package that is held.
    Joined,
    /// What can't be absent then: a state outside of the term's.
    Needed,
}

/// What a term is among these: a feature is joined to versions of its package, where these are held.
fn role_of(terms: &[Term<'_>], term: &Term<'_>) -> Role {
    let absent = is_absent(term);
    match &term.vertex {
        VertexRef::Root => { if absent { Role::Held } else { Role::Silent } }
        VertexRef::Feature(name, class, _) => {
            if absent {
                Role::Needed
            } else if is_held(terms, name, *class) {
                Role::Joined
            } else {
                Role::Held
            }
        }
        _ => { if absent { Role::Needed } else { Role::Held } }
    }
}

/// Whether a term has the state `absent`.
fn is_absent(term: &Term<'_>) -> bool {
    term.states.has(&StateRef::Absent)
}

/// Whether a term holds versions of a package.
fn is_held(terms: &[Term<'_>], name: &PackageName, class: Class) -> bool {
    terms.iter().any(|term| holds(term, name, class))
}

fn holds(term: &Term<'_>, name: &PackageName, class: Class) -> bool {
    match &term.vertex {
        VertexRef::Package(other, of) => *other == name && *of == class && !is_absent(term),
        _ => false,
    }
}

fn count(terms: &[Term<'_>], role: Role) -> usize {
    terms
        .iter()
        .filter(|term| role_of(terms, term) == role)
        .count()
}

/// Whether terms speak of versions of packages alone, and of features of these that are on.
pub(crate) fn is_plain(terms: &[Term<'_>]) -> bool {
    terms.iter().all(|term| match &term.vertex {
        VertexRef::Root | VertexRef::Package(..) => true,
        VertexRef::Feature(..) => role_of(terms, term) == Role::Joined,
        VertexRef::Dependency(..) | VertexRef::Ask(..) => false,
    })
}

/// What can't all hold, the other way round: `a 1.0.0 needs b 1.1.0 to 1.2.0`, `a 1.0.0 can't be used`.
pub(crate) fn push_claim(
    alloc: Global,
    text: &mut String,
    problem: &Problem<'_>,
    terms: &[Term<'_>],
) -> Result<(), AllocError> {
    let held = count(terms, Role::Held);
    let needed = count(terms, Role::Needed);
    if needed == 0 {
        return push_excluded(alloc, text, problem, terms, held);
    }
    push_nouns(alloc, text, problem, terms, Role::Held, 0)?;
    text.push_str(verb(held))?;
    push_nouns(alloc, text, problem, terms, Role::Needed, 0)?;
    if held == 0 {
        text.push_str(" has to be used")?;
    }
    Ok(())
}

/// What stands between what is held, of which there is so much, and what is needed.
fn verb(held: usize) -> &'static str {
    match held {
        0 => "",
        1 => " needs ",
        _ => " together need ",
    }
}

/// What can't be absent by a step that says no more than that: `a 1.0.0`; none of a step that says anything else.
pub(crate) fn needed_alone(
    alloc: Global,
    problem: &Problem<'_>,
    terms: &[Term<'_>],
) -> Result<Option<String>, AllocError> {
    if count(terms, Role::Held) > 0 || count(terms, Role::Needed) != 1 {
        return Ok(None);
    }
    let mut text = String::new(alloc);
    push_nouns(alloc, &mut text, problem, terms, Role::Needed, 0)?;
    // Of all versions it would have to be said that none can be used.
    if text.starts_with("some ") {
        Ok(None)
    } else {
        Ok(Some(text))
    }
}

/// Whether a step says that there is no lock.
pub(crate) fn is_end(terms: &[Term<'_>]) -> bool {
    count(terms, Role::Held) == 0 && count(terms, Role::Needed) == 0
}

fn push_end(text: &mut String, problem: &Problem<'_>) -> Result<(), AllocError> {
    let name = problem.manifest.name();
    let version = problem.manifest.version();
    write!(text, "there is no lock for {name} {version}")
}

/// What is held, so many things, can't be used; without any there is no lock.
fn push_excluded(
    alloc: Global,
    text: &mut String,
    problem: &Problem<'_>,
    terms: &[Term<'_>],
    held: usize,
) -> Result<(), AllocError> {
    if held == 0 {
        return push_end(text, problem);
    }
    match name_of_every(alloc, problem, terms)? {
        Some(name) => {
            write!(text, "no version of {name} can be used")?;
            if held > 1 {
                text.push_str(" together with ")?;
            }
            push_nouns(alloc, text, problem, terms, Role::Held, 1)
        }
        None => {
            push_nouns(alloc, text, problem, terms, Role::Held, 0)?;
            text.push_str(" can't be used")?;
            if held > 1 {
                text.push_str(" together")?;
            }
            Ok(())
        }
    }
}

/// The name of which the first term that is held has every version, without a feature, if that is so.
fn name_of_every<'a>(
    alloc: Global,
    problem: &Problem<'_>,
    terms: &[Term<'a>],
) -> Result<Option<&'a PackageName>, AllocError> {
    let first = terms.iter().find(|term| role_of(terms, term) == Role::Held);
    let Some(term) = first else {
        return Ok(None);
    };
    let VertexRef::Package(name, class) = &term.vertex else {
        return Ok(None);
    };
    if has_joined(terms, name, *class) {
        return Ok(None);
    }
    let versions = problem.catalogue.versions(*name);
    let marks = version_marks(alloc, versions, *class, &term.states, true)?;
    Ok(if is_every(&marks) { Some(*name) } else { None })
}

/// Whether terms take a feature of a package to be on.
fn has_joined(terms: &[Term<'_>], name: &PackageName, class: Class) -> bool {
    terms
        .iter()
        .any(|term| feature_on(term, name, class).is_some())
}

/// What the terms with a role say, one after another, without so many that come first.
fn push_nouns(
    alloc: Global,
    text: &mut String,
    problem: &Problem<'_>,
    terms: &[Term<'_>],
    role: Role,
    without: usize,
) -> Result<(), AllocError> {
    let all = count(terms, role);
    let word = if role == Role::Held { "and" } else { "or" };
    let every = word_for_every(role, all);
    let mut place = 0usize;
    for term in terms.iter() {
        if role_of(terms, term) == role && place < all {
            if place >= without {
                push_before(text, place - without, all - without, word)?;
                push_noun(alloc, text, problem, term, role == Role::Held, every)?;
                push_joined(text, terms, term)?;
            }
            place += 1;
        }
    }
    Ok(())
}

/// What is said for all versions, where so many things have the role: `some` of these is needed, `every` one of them by
/// itself or `any` together with others is held.
fn word_for_every(role: Role, count: usize) -> &'static str {
    match (role, count) {
        (Role::Needed, _) => "some",
        (_, 1) => "every",
        (_, _) => "any",
    }
}

/// The features that are taken to be on of a package that is held.
fn push_joined(text: &mut String, terms: &[Term<'_>], held: &Term<'_>) -> Result<(), AllocError> {
    let VertexRef::Package(name, class) = &held.vertex else {
        return Ok(());
    };
    if is_absent(held) {
        return Ok(());
    }
    let mut word = "with";
    for term in terms.iter() {
        if let Some(feature) = feature_on(term, *name, *class) {
            write!(text, " {word} feature {feature}")?;
            word = "and";
        }
    }
    Ok(())
}

/// The feature of a package that a term takes to be on.
fn feature_on<'a>(term: &Term<'a>, name: &PackageName, class: Class) -> Option<&'a FeatureName> {
    match &term.vertex {
        VertexRef::Feature(other, of, feature) => {
            if *other == name && *of == class && !is_absent(term) {
                Some(*feature)
            } else {
                None
            }
        }
        _ => None,
    }
}

/// The states of a term or, if `within` is false, those outside of it.
fn push_noun(
    alloc: Global,
    text: &mut String,
    problem: &Problem<'_>,
    term: &Term<'_>,
    within: bool,
    every: &str,
) -> Result<(), AllocError> {
    match &term.vertex {
        VertexRef::Root => text.push_str("nothing at all"),
        VertexRef::Package(name, class) => {
            let versions = problem.catalogue.versions(*name);
            let marks = version_marks(alloc, versions, *class, &term.states, within)?;
            push_versions(alloc, text, *name, versions, &marks, every)
        }
        VertexRef::Dependency(owner, number) => {
            push_target(alloc, text, problem, owner, *number, &term.states, within)
        }
        VertexRef::Feature(name, class, feature) => {
            push_feature(alloc, text, problem, *name, *class, *feature)
        }
        VertexRef::Ask(name, version, number, feature) => {
            let owner = OwnerRef::Version(*name, *version);
            write!(text, "feature {feature} of ")?;
            push_dependency(text, problem, &owner, *number)?;
            text.push_str(" for ")?;
            push_owner(text, problem, &owner)
        }
    }
}

/// The versions that a dependency may have its target among: `b 1.0.0 to 1.2.0 for a 1.0.0`.
fn push_target(
    alloc: Global,
    text: &mut String,
    problem: &Problem<'_>,
    owner: &OwnerRef<'_>,
    number: usize,
    states: &StateSet<'_>,
    within: bool,
) -> Result<(), AllocError> {
    match dependency_at(problem, owner, number) {
        Some(dependency) => {
            let name = &dependency.real_name;
            let versions = problem.catalogue.versions(name);
            let requirement = &dependency.requirement;
            let marks = target_marks(alloc, versions, requirement, states, within)?;
            push_versions(alloc, text, name, versions, &marks, "any")?;
        }
        None => write!(text, "dependency {number}")?,
    }
    text.push_str(" for ")?;
    push_owner(text, problem, owner)
}

/// A feature of the versions of a class.
fn push_feature(
    alloc: Global,
    text: &mut String,
    problem: &Problem<'_>,
    name: &PackageName,
    class: Class,
    feature: &FeatureName,
) -> Result<(), AllocError> {
    let versions = problem.catalogue.versions(name);
    let marks = class_marks(alloc, versions, class)?;
    write!(text, "feature {feature} of ")?;
    push_versions(alloc, text, name, versions, &marks, "any")
}
