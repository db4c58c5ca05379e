//! The versions that a dependency doesn't match.

ghost use Rattle.std.specs.Prelude.{◌≡◌, ◌∷◌, ◌++◌, true, IfOk, OnOk, map, not};
ghost use Rattle.std.specs.List.{list_all};
ghost use Rattle.semver.specs.Identifiers.{parts_of};
ghost use Rattle.classes.specs.Classes.{class_view};
ghost use Rattle.features.specs.Views.{dependency_view, requirement_view};
ghost use Rattle.model.specs.Axioms.{absent_or, at, matched};
ghost use Rattle.model.specs.Vertices as model;
ghost use Rattle.vertices.specs.inner.RefViews.{state_ref_views};
ghost use Rattle.lookups.specs.inner.Ranges.{AreRising, versions_with};
ghost use Rattle.lookups.specs.inner.TermViews.{term_view};
ghost use Rattle.lookups.specs.inner.Matching.{is_left, is_release};
ghost use Rattle.axioms.specs.inner.KeptViews.{problem_of};

use crate::instances::kept::{Kept, Number};
use classes::Class;
use features::DependencyParts;
use lookups::{StateSet, Term, class_versions, is_left, unmatched_ends};
use semver::{Version, VersionReq};
use std::alloc::{AllocError, Global};
use vertices::{StateRef, VertexRef};

/// The package is absent or has a version of the class that isn't matched.
pub(crate) fn left_term<'a>(
    alloc: Global,
    kept: &mut Kept<'a>,
    dependency: &'a DependencyParts,
    class: Class,
) -> Result<Term<'a>, AllocError>
    ensures term { IfOk result
        (λ t. term_view t ≡ at (model.pkg (dependency_view dependency.entry.now).real_name (class_view class))
        (absent_or (problem_of kept.old) (λ c. not (matched (dependency_view dependency.entry.now) c))
        (dependency_view dependency.entry.now).real_name (class_view class))) }
    ensures same { problem_of kept.new ≡ problem_of kept.old }
{
    Ok(Term {
        vertex: VertexRef::Package(&dependency.real_name, class),
        states: left_of(alloc, kept, class, dependency)?,
    })
}

/// `absent`, and the versions of the class that aren't matched: those that are kept, or else they are found, and kept
/// if they are few.
fn left_of<'a>(
    alloc: Global,
    kept: &mut Kept<'a>,
    class: Class,
    dependency: &'a DependencyParts,
) -> Result<StateSet<'a>, AllocError>
    ensures states { IfOk result (λ ss. ss ≡ absent_or (problem_of kept.old)
        (λ c. not (matched (dependency_view dependency.entry.now) c))
        (dependency_view dependency.entry.now).real_name (class_view class)) }
    ensures same { problem_of kept.new ≡ problem_of kept.old }
{
    if let Some(states) = kept.left(class, dependency) {
        return states.copy(alloc);
    }
    let (states, number) = left_set(alloc, kept, class, dependency)?;
    if let Number::Few = number {
        let copy = states.copy(alloc)?;
        kept.put_left(class, dependency, copy)?;
    }
    Ok(states)
}

/// `absent`, and the versions of the class that aren't matched; and how many of all these are.
fn left_set<'a>(
    alloc: Global,
    kept: &mut Kept<'a>,
    class: Class,
    dependency: &'a DependencyParts,
) -> Result<(StateSet<'a>, Number), AllocError>
    ensures states { IfOk result (λ s. s.0 ≡ absent_or (problem_of kept.old)
        (λ c. not (matched (dependency_view dependency.entry.now) c))
        (dependency_view dependency.entry.now).real_name (class_view class)) }
    ensures same { problem_of kept.new ≡ problem_of kept.old }
{
    let problem = kept.problem;
    let are_releases = kept.are_releases(&dependency.real_name, class)?;
    let versions = class_versions(problem.catalogue, &dependency.real_name, class);
    let states = left_states(alloc, &dependency.requirement, versions, are_releases)?;
    let number = Number::of(states.len(), versions.len());
    Ok((StateSet::rising(states), number))
}

/// `absent`, and the versions that aren't matched.
fn left_states<'a>(
    alloc: Global,
    requirement: &VersionReq,
    versions: &'a [Version],
    are_releases: bool,
) -> Result<Vec<StateRef<'a>>, AllocError>
    requires rising { AreRising versions.now }
    requires releases { are_releases ≡ true → list_all (λ v. is_release (parts_of v)) versions.now ≡ true }
    ensures { IfOk result (λ v. state_ref_views v.items ≡ model.absent
        ∷ versions_with (is_left (requirement_view requirement.now)) (map parts_of versions.entry.now)) }
{
    let (first, last) = unmatched_ends(requirement, versions, are_releases);
    let mut states = Vec::new(alloc);
    states.push(StateRef::Absent)?;
    push_left(&mut states, requirement, first)?;
    push_left(&mut states, requirement, last)?;
    Ok(states)
}

/// Adds the versions that aren't matched.
fn push_left<'a>(
    states: &mut Vec<StateRef<'a>>,
    requirement: &VersionReq,
    versions: &'a [Version],
) -> Result<(), AllocError>
    ensures { OnOk result (state_ref_views states.new.items ≡ state_ref_views states.old.items
        ++ versions_with (is_left (requirement_view requirement.now)) (map parts_of versions.entry.now)) }
{
    'versions: for version in versions.iter() {
        if is_left(requirement, version) {
            states.push(StateRef::Version(version))?;
        }
    }
    Ok(())
}
