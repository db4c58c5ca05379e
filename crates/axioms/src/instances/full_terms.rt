//! Full terms: those with all states of their vertices.

ghost use Rattle.std.specs.Prelude.{◌≡◌, IfOk, map};
ghost use Rattle.std.specs.List.{list_all};
ghost use Rattle.features.specs.Views.{dependency_view};
ghost use Rattle.model.specs.Axioms.{is_full, without_full};
ghost use Rattle.model.specs.Vertices.{dep_classes, has_state};
ghost use Rattle.model.specs.Vertices as model;
ghost use Rattle.classes.specs.Classes.{class_view};
ghost use Rattle.semver.specs.Identifiers.{parts_of};
ghost use Rattle.features.specs.Views.{requirement_view};
ghost use Rattle.axioms.specs.inner.FullTerms.{has_if_matched, others};
ghost use Rattle.axioms.specs.inner.KeptViews.{problem_of};
ghost use Rattle.lookups.specs.inner.Views.{problem_view};
ghost use Rattle.lookups.specs.inner.TermViews.{term_view, term_views};
ghost use Rattle.vertices.specs.inner.RefViews.{owner_ref_view, vertex_ref_view};

use crate::instances::kept::Kept;
use classes::{Class, is_matched};
use features::{DependencyParts, PackageName};
use lookups::{Problem, StateSet, Term, class_versions, dependency_at};
use semver::{Version, VersionReq};
use std::alloc::{AllocError, Global};
use vertices::{OwnerRef, StateRef, VertexRef};

/// The terms that aren't full.
pub(crate) fn without_full<'a>(
    alloc: Global,
    kept: &Kept<'a>,
    terms: Vec<Term<'a>>,
) -> Result<Vec<Term<'a>>, AllocError>
    ensures { IfOk result
        (λ v. term_views v.items ≡ without_full (problem_of kept.now) (term_views terms.entry.items)) }
{
    let mut others = Vec::new(alloc);
    'terms: for term in terms {
        if !is_full(kept, &term) {
            others.push(term)?;
        }
    }
    Ok(others)
}

/// Whether all states of the vertex are among these.
fn is_full<'a>(kept: &Kept<'a>, term: &Term<'a>) -> bool
    ensures { result ≡ is_full (problem_of kept.now) (term_view term.now) }
{
    has_absent(&term.states) && has_others(kept, &term.vertex, &term.states)
}

fn has_absent(states: &StateSet<'_>) -> bool
    ensures { result ≡ has_state states.now model.absent }
{
    states.has(&StateRef::Absent)
}

fn has_present(states: &StateSet<'_>) -> bool
    ensures { result ≡ has_state states.now model.present }
{
    states.has(&StateRef::Present)
}

/// Whether the states have all of the vertex but `absent`.
fn has_others<'a>(kept: &Kept<'a>, vertex: &VertexRef<'a>, states: &StateSet<'a>) -> bool
    ensures { result
        ≡ list_all (has_state states.now) (others (problem_of kept.now) (vertex_ref_view vertex.now)) }
{
    match vertex {
        VertexRef::Root => has_present(states),
        VertexRef::Package(name, class) => has_versions(&kept.problem, name, *class, states),
        VertexRef::Dependency(owner, number) => has_classes(kept, owner, *number, states),
        VertexRef::Feature(_, _, _) => has_present(states),
        VertexRef::Ask(_, _, _, _) => has_present(states),
    }
}

/// Whether the states have each version of the class.
fn has_versions(
    problem: &Problem<'_>,
    name: &PackageName,
    class: Class,
    states: &StateSet<'_>,
) -> bool
    ensures { result
        ≡ list_all (has_state states.now) (others (problem_view problem.now) (model.pkg name.now (class_view class))) }
{
    all_in(class_versions(problem.catalogue, name, class), states)
}

fn all_in(versions: &[Version], states: &StateSet<'_>) -> bool
    ensures { result ≡ list_all (λ v. has_state states.now (model.version (parts_of v))) versions.now }
{
    versions.iter().all(|version| has_version(states, version))
}

fn has_version(states: &StateSet<'_>, version: &Version) -> bool
    ensures { result ≡ has_state states.now (model.version (parts_of version.now)) }
{
    states.has(&StateRef::Version(version))
}

/// Whether the states have each class to which the dependency of this number, if it is there, may lead.
fn has_classes<'a>(
    kept: &Kept<'a>,
    owner: &OwnerRef<'a>,
    number: usize,
    states: &StateSet<'a>,
) -> bool
    ensures { result ≡ list_all (has_state states.now)
        (others (problem_of kept.now) (model.dep (owner_ref_view owner.now) number)) }
{
    match dependency_at(&kept.problem, owner, number) {
        Some(dependency) => has_classes_of(kept, dependency, states),
        None => true,
    }
}

/// The same of a dependency that is there: its classes are found only where they aren't kept.
fn has_classes_of<'a>(
    kept: &Kept<'a>,
    dependency: &'a DependencyParts,
    states: &StateSet<'a>,
) -> bool
    ensures { result ≡ list_all (has_state states.now)
        (map model.in_class (dep_classes (problem_of kept.now) (dependency_view dependency.now))) }
{
    match kept.classes(dependency) {
        Some(classes) => all_classes_in(classes, states),
        None => all_matched_in(&kept.problem, dependency, states),
    }
}

fn all_classes_in(classes: &[Class], states: &StateSet<'_>) -> bool
    ensures { result ≡ list_all (λ k. has_state states.now (model.in_class (class_view k))) classes.now }
{
    classes.iter().all(|class| has_class(states, *class))
}

/// Whether the states have the class of each version that the dependency matches.
fn all_matched_in(
    problem: &Problem<'_>,
    dependency: &DependencyParts,
    states: &StateSet<'_>,
) -> bool
    ensures { result ≡ list_all (has_state states.now)
        (map model.in_class (dep_classes (problem_view problem.now) (dependency_view dependency.now))) }
{
    all_matched(
        problem.catalogue.versions(&dependency.real_name),
        &dependency.requirement,
        states,
    )
}

fn all_matched(versions: &[Version], requirement: &VersionReq, states: &StateSet<'_>) -> bool
    ensures { result
        ≡ list_all (λ v. has_if_matched states.now (requirement_view requirement.now) (parts_of v)) versions.now }
{
    versions
        .iter()
        .all(|version| has_if_matched(states, requirement, version))
}

#[tactic(auto, unfolding(crate::specs::inner::FullTerms::has_if_matched))]
fn has_if_matched(states: &StateSet<'_>, requirement: &VersionReq, version: &Version) -> bool
    ensures { result ≡ has_if_matched states.now (requirement_view requirement.now) (parts_of version.now) }
{
    !is_matched(requirement, version) || has_class(states, Class::of(version))
}

fn has_class(states: &StateSet<'_>, class: Class) -> bool
    ensures { result ≡ has_state states.now (model.in_class (class_view class)) }
{
    states.has(&StateRef::Class(class))
}
