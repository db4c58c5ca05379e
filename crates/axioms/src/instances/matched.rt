//! The versions that a dependency matches.

ghost use Rattle.std.specs.Prelude.{◌≡◌, IfOk, map};
ghost use Rattle.semver.specs.Identifiers.{parts_of};
ghost use Rattle.classes.specs.Classes.{class_view};
ghost use Rattle.features.specs.Views.{dependency_view, requirement_view};
ghost use Rattle.model.specs.Axioms.{at, matched, versions_that};
ghost use Rattle.model.specs.Vertices as model;
ghost use Rattle.vertices.specs.inner.RefViews.{state_ref_views};
ghost use Rattle.lookups.specs.inner.Ranges.{versions_with};
ghost use Rattle.lookups.specs.inner.Views.{problem_view};
ghost use Rattle.lookups.specs.inner.TermViews.{term_view};
ghost use Rattle.semver.specs.EvalViews.{matches_views};
ghost use Rattle.axioms.specs.inner.KeptViews.{problem_of};

use crate::instances::kept::{Kept, Number};
use classes::{Class, is_matched};
use features::DependencyParts;
use lookups::{Problem, StateSet, Term, class_versions, within};
use semver::{Version, VersionReq};
use std::alloc::{AllocError, Global};
use vertices::{StateRef, VertexRef};

/// The package has a version of the class that is matched.
pub(crate) fn taken_term<'a>(
    alloc: Global,
    kept: &mut Kept<'a>,
    dependency: &'a DependencyParts,
    class: Class,
) -> Result<Term<'a>, AllocError>
    ensures term { IfOk result
        (λ t. term_view t ≡ at (model.pkg (dependency_view dependency.entry.now).real_name (class_view class))
        (versions_that (problem_of kept.old) (matched (dependency_view dependency.entry.now))
        (dependency_view dependency.entry.now).real_name (class_view class))) }
    ensures same { problem_of kept.new ≡ problem_of kept.old }
{
    Ok(Term {
        vertex: VertexRef::Package(&dependency.real_name, class),
        states: taken_of(alloc, kept, class, dependency)?,
    })
}

/// The versions of the class that are matched: those that are kept, or else they are found, and kept if they are few.
fn taken_of<'a>(
    alloc: Global,
    kept: &mut Kept<'a>,
    class: Class,
    dependency: &'a DependencyParts,
) -> Result<StateSet<'a>, AllocError>
    ensures states { IfOk result (λ ss. ss ≡ versions_that (problem_of kept.old)
        (matched (dependency_view dependency.entry.now))
        (dependency_view dependency.entry.now).real_name (class_view class)) }
    ensures same { problem_of kept.new ≡ problem_of kept.old }
{
    if let Some(states) = kept.taken(class, dependency) {
        return states.copy(alloc);
    }
    let (states, number) = taken_set(alloc, &kept.problem, class, dependency)?;
    if let Number::Few = number {
        let copy = states.copy(alloc)?;
        kept.put_taken(class, dependency, copy)?;
    }
    Ok(states)
}

/// The versions of the class that are matched; and how many of all these are.
fn taken_set<'a>(
    alloc: Global,
    problem: &Problem<'a>,
    class: Class,
    dependency: &'a DependencyParts,
) -> Result<(StateSet<'a>, Number), AllocError>
    ensures { IfOk result (λ s. s.0 ≡ versions_that (problem_view problem.now)
        (matched (dependency_view dependency.entry.now))
        (dependency_view dependency.entry.now).real_name (class_view class)) }
{
    let requirement: &VersionReq = &dependency.requirement;
    let versions = class_versions(problem.catalogue, &dependency.real_name, class);
    let states = taken_states(alloc, requirement, within(requirement, versions))?;
    let number = Number::of(states.len(), versions.len());
    Ok((StateSet::rising(states), number))
}

/// The versions that are matched.
fn taken_states<'a>(
    alloc: Global,
    requirement: &VersionReq,
    versions: &'a [Version],
) -> Result<Vec<StateRef<'a>>, AllocError>
    ensures { IfOk result (λ v. state_ref_views v.items
        ≡ versions_with (matches_views (requirement_view requirement.now)) (map parts_of versions.entry.now)) }
{
    let mut states = Vec::new(alloc);
    'versions: for version in versions.iter() {
        if is_matched(requirement, version) {
            states.push(StateRef::Version(version))?;
        }
    }
    Ok(states)
}
