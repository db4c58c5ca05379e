//! The terms of an instance by what they say: those of each kind of axiom stand here once. The checker makes sets of
//! states of them, and the search makes tests of the numbers that states have.

ghost use Rattle.std.specs.Prelude.{◌≡◌, ◌∷◌, [], IfOk};
ghost use Rattle.semver.specs.Identifiers.{parts_of};
ghost use Rattle.classes.specs.Classes.{class_view};
ghost use Rattle.features.specs.Views.{dependency_view};
ghost use Rattle.model.specs.Axioms.{at, owner_holds};
ghost use Rattle.model.specs.Causes as causes;
ghost use Rattle.model.specs.Causes.{feature_holds, terms_of_cause};
ghost use Rattle.model.specs.Content.{Problem as ModelProblem};
ghost use Rattle.model.specs.Selection.{class_of};
ghost use Rattle.model.specs.Vertices as model;
ghost use Rattle.vertices.specs.inner.RefViews.{owner_ref_view};
ghost use Rattle.lookups.specs.inner.CauseViews.{cause_view};
ghost use Rattle.lookups.specs.inner.Symbolic.{flag_state, symbolic_view, symbolic_views};
ghost use Rattle.lookups.specs.inner.Views.{problem_view};

use crate::cause::Cause;
use crate::owners::dependency_at;
use crate::problem::Problem;
use classes::Class;
use features::{DependencyParts, FeatureName, PackageName};
use semver::Version;
use std::alloc::{AllocError, Global};
use vertices::OwnerRef;

/// A term of an instance by what it says. A flag is whether the vertex is present, else it is absent.
#[derive(Clone, Copy)]
pub enum SymbolicTerm<'a> {
    /// The root counts, or doesn't.
    Root(bool),
    /// The feature is on in the class, or off.
    Feature(&'a PackageName, Class, &'a FeatureName, bool),
    /// The version asks the dependency with the number for the feature, or doesn't.
    Ask(&'a PackageName, &'a Version, usize, &'a FeatureName, bool),
    /// The version is chosen.
    Chosen(&'a PackageName, &'a Version),
    /// The dependency of the owner is absent.
    Absent(OwnerRef<'a>, usize),
    /// The dependency of the owner leads to the class.
    Leads(OwnerRef<'a>, usize, Class),
    /// The package is absent, or has a version of the class that the dependency doesn't match.
    Unmatched(&'a DependencyParts, Class),
    /// The package has a version of the class that the dependency matches.
    Matched(&'a DependencyParts, Class),
    /// The package is absent, or has a version of the class that lacks the feature.
    Lacking(&'a PackageName, Class, &'a FeatureName),
}

/// The owner counts.
fn holds(owner: OwnerRef<'_>) -> SymbolicTerm<'_>
    ensures { (q : ModelProblem) → symbolic_view q result ≡ owner_holds (owner_ref_view owner.entry) }
{
    match owner {
        OwnerRef::Root => SymbolicTerm::Root(true),
        OwnerRef::Version(name, version) => SymbolicTerm::Chosen(name, version),
    }
}

/// The feature of the version is on, or off.
fn own_feature<'a>(
    name: &'a PackageName,
    version: &'a Version,
    feature: &'a FeatureName,
    on: bool,
) -> SymbolicTerm<'a>
    ensures { (q : ModelProblem) → symbolic_view q result ≡ at (model.feat name.entry.now
        (class_of (parts_of version.entry.now)) feature.entry.now) (flag_state on ∷ []) }
{
    SymbolicTerm::Feature(name, Class::of(version), feature, on)
}

/// The feature is off in the class of the package that a dependency is on.
fn off<'a>(
    dependency: &'a DependencyParts,
    class: Class,
    feature: &'a FeatureName,
) -> SymbolicTerm<'a>
    ensures { (q : ModelProblem) → symbolic_view q result ≡ at (model.feat
        (dependency_view dependency.entry.now).real_name (class_view class) feature.entry.now) (model.absent ∷ []) }
{
    SymbolicTerm::Feature(&dependency.real_name, class, feature, false)
}

/// The terms of the instance that a cause gives rise to; none where a dependency isn't there.
///
/// # Errors
/// Want of memory.
pub fn symbolic_terms<'a>(
    alloc: Global,
    problem: &Problem<'a>,
    cause: &Cause<'a>,
) -> Result<Vec<SymbolicTerm<'a>>, AllocError>
    ensures { IfOk result (λ v. symbolic_views (problem_view problem.now) v.items
        ≡ terms_of_cause (problem_view problem.now) (cause_view cause.now)) }
{
    match *cause {
        Cause::Root => Ok(vec![in alloc; SymbolicTerm::Root(false)]?),
        Cause::Need(owner, number) => {
            Ok(vec![in alloc; holds(owner), SymbolicTerm::Absent(owner, number)]?)
        }
        Cause::Target(owner, number, class) => target(alloc, problem, owner, number, class),
        Cause::Feature(name, class, feature) => {
            let on = SymbolicTerm::Feature(name, class, feature, true);
            Ok(vec![in alloc; on, SymbolicTerm::Lacking(name, class, feature)]?)
        }
        Cause::List(owner, number, class, feature) => {
            list(alloc, problem, owner, number, class, feature)
        }
        Cause::Ask(name, version, number, feature, class) => {
            ask(alloc, problem, name, version, number, feature, class)
        }
        Cause::Entry(name, version, f, g) => {
            without(
                alloc,
                name,
                version,
                f,
                own_feature(name, version, g, false),
            )
        }
        Cause::Enabling(name, version, f, _, number) => {
            let owner = OwnerRef::Version(name, version);
            without(alloc, name, version, f, SymbolicTerm::Absent(owner, number))
        }
        Cause::Asking(name, version, f, asked, number) => {
            let ask = SymbolicTerm::Ask(name, version, number, asked, false);
            without(alloc, name, version, f, ask)
        }
        Cause::Newest(owner, number, other, class, higher) => {
            newest(alloc, problem, owner, number, other, class, higher)
        }
        Cause::Weak(name, version, f, g, number, class) => {
            weak(alloc, problem, name, version, f, g, number, class)
        }
    }
}

/// The feature of the version is on, and then a term that may not hold.
fn without<'a>(
    alloc: Global,
    name: &'a PackageName,
    version: &'a Version,
    feature: &'a FeatureName,
    term: SymbolicTerm<'a>,
) -> Result<Vec<SymbolicTerm<'a>>, AllocError>
    ensures { IfOk result (λ v. (q : ModelProblem) → symbolic_views q v.items ≡ feature_holds name.entry.now
        (parts_of version.entry.now) feature.entry.now (symbolic_view q term.entry ∷ [])) }
{
    Ok(vec![in alloc;
        SymbolicTerm::Chosen(name, version),
        own_feature(name, version, feature, true),
        term,
    ]?)
}

/// A dependency leads to a class in which no version that it matches is chosen.
fn target<'a>(
    alloc: Global,
    problem: &Problem<'a>,
    owner: OwnerRef<'a>,
    number: usize,
    class: Class,
) -> Result<Vec<SymbolicTerm<'a>>, AllocError>
    ensures { IfOk result (λ v. symbolic_views (problem_view problem.now) v.items ≡ terms_of_cause
        (problem_view problem.now) (causes.of_target (owner_ref_view owner.entry) number (class_view class))) }
{
    match dependency_at(problem, &owner, number) {
        Some(dependency) => Ok(vec![in alloc;
            SymbolicTerm::Leads(owner, number, class),
            SymbolicTerm::Unmatched(dependency, class),
        ]?),
        None => Ok(Vec::new(alloc)),
    }
}

/// A dependency leads to a class, and a feature that it asks for is off there.
fn list<'a>(
    alloc: Global,
    problem: &Problem<'a>,
    owner: OwnerRef<'a>,
    number: usize,
    class: Class,
    feature: &'a FeatureName,
) -> Result<Vec<SymbolicTerm<'a>>, AllocError>
    ensures { IfOk result
        (λ v. symbolic_views (problem_view problem.now) v.items ≡ terms_of_cause (problem_view problem.now)
        (causes.of_list (owner_ref_view owner.entry) number (class_view class) feature.entry.now)) }
{
    match dependency_at(problem, &owner, number) {
        Some(dependency) => Ok(vec![in alloc;
            SymbolicTerm::Leads(owner, number, class),
            off(dependency, class, feature),
        ]?),
        None => Ok(Vec::new(alloc)),
    }
}

/// A version asks a dependency for a feature, and that is off in the class to which the dependency leads.
fn ask<'a>(
    alloc: Global,
    problem: &Problem<'a>,
    name: &'a PackageName,
    version: &'a Version,
    number: usize,
    feature: &'a FeatureName,
    class: Class,
) -> Result<Vec<SymbolicTerm<'a>>, AllocError>
    ensures { IfOk result
        (λ v. symbolic_views (problem_view problem.now) v.items ≡ terms_of_cause (problem_view problem.now)
        (causes.of_ask name.entry.now (parts_of version.entry.now) number feature.entry.now (class_view class))) }
{
    let owner = OwnerRef::Version(name, version);
    match dependency_at(problem, &owner, number) {
        Some(dependency) => Ok(vec![in alloc;
            SymbolicTerm::Ask(name, version, number, feature, true),
            SymbolicTerm::Leads(owner, number, class),
            off(dependency, class, feature),
        ]?),
        None => Ok(Vec::new(alloc)),
    }
}

/// A dependency leads to a class, another one to a higher class, and there a version is chosen that the first matches.
fn newest<'a>(
    alloc: Global,
    problem: &Problem<'a>,
    owner: OwnerRef<'a>,
    number: usize,
    other: usize,
    class: Class,
    higher: Class,
) -> Result<Vec<SymbolicTerm<'a>>, AllocError>
    ensures { IfOk result
        (λ v. symbolic_views (problem_view problem.now) v.items ≡ terms_of_cause (problem_view problem.now)
        (causes.of_newest (owner_ref_view owner.entry) number other (class_view class) (class_view higher))) }
{
    match dependency_at(problem, &owner, number) {
        Some(dependency) => Ok(vec![in alloc;
            SymbolicTerm::Leads(owner, number, class),
            SymbolicTerm::Leads(owner, other, higher),
            SymbolicTerm::Matched(dependency, higher),
        ]?),
        None => Ok(Vec::new(alloc)),
    }
}

/// A feature of a version is on, a dependency leads to a class, and a feature is off there that an entry `d?/g` wants.
fn weak<'a>(
    alloc: Global,
    problem: &Problem<'a>,
    name: &'a PackageName,
    version: &'a Version,
    feature: &'a FeatureName,
    wanted: &'a FeatureName,
    number: usize,
    class: Class,
) -> Result<Vec<SymbolicTerm<'a>>, AllocError>
    ensures { IfOk result
        (λ v. symbolic_views (problem_view problem.now) v.items ≡ terms_of_cause (problem_view problem.now)
        (causes.of_weak name.entry.now (parts_of version.entry.now) feature.entry.now wanted.entry.now number
        (class_view class))) }
{
    let owner = OwnerRef::Version(name, version);
    match dependency_at(problem, &owner, number) {
        Some(dependency) => {
            let mut terms = vec![in alloc;
                SymbolicTerm::Chosen(name, version),
                own_feature(name, version, feature, true),
                SymbolicTerm::Leads(owner, number, class),
            ]?;
            terms.push(off(dependency, class, wanted))?;
            Ok(terms)
        }
        None => Ok(Vec::new(alloc)),
    }
}
