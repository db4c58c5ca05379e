//! The cause of `Needed`: an owner, and the number of a dependency that it needs, on which there may be no term.

ghost use Rattle.std.specs.Prelude.{◌≡◌, option_map, IfOk};
ghost use Rattle.std.specs.Option.{option_or};
ghost use Rattle.features.specs.Views.{dependency_view, dependency_views};
ghost use Rattle.model.specs.inner.Instances.{need_in, needed_unmatched, number_read};
ghost use Rattle.vertices.specs.inner.RefViews.{owner_ref_view};
ghost use Rattle.lookups.specs.inner.Views.{problem_view};
ghost use Rattle.lookups.specs.inner.CauseViews.{cause_view};
ghost use Rattle.lookups.specs.inner.TermViews.{term_views};
ghost use Rattle.lookups.specs.inner.NumbersViews.{problem_of};
ghost use Rattle.lookups.specs.inner.Needs.{is_needed_unmatched, place_from};

use crate::cause::Cause;
use crate::matching::is_unmatched;
use crate::named_by_terms::{first_dependency, first_owner};
use crate::numbers::Numbers;
use crate::owners::{dependencies_of, is_needed};
use crate::problem::Problem;
use crate::term::Term;
use features::Dependency;
use std::alloc::AllocError;
use vertices::OwnerRef;

/// The one cause of this kind that the terms can have: they name the owner.
pub(crate) fn need_in<'a>(
    numbers: &mut Numbers<'a>,
    terms: &[Term<'a>],
) -> Result<Option<Cause<'a>>, AllocError>
    ensures cause { IfOk result
        (λ c. option_map cause_view c ≡ need_in (problem_of numbers.old) (term_views terms.now)) }
    ensures same { problem_of numbers.new ≡ problem_of numbers.old }
{
    let Some(owner) = first_owner(terms) else {
        return Ok(None);
    };
    match needed_number(numbers, owner, terms)? {
        Some(number) => Ok(Some(Cause::Need(owner, number))),
        None => Ok(None),
    }
}

/// The number that a term names; where none does, that of the first which no candidate serves, as its term is full.
fn needed_number<'a>(
    numbers: &mut Numbers<'a>,
    owner: OwnerRef<'a>,
    terms: &[Term<'a>],
) -> Result<Option<usize>, AllocError>
    ensures number { IfOk result (λ n. n ≡ option_or (number_read (term_views terms.now))
        (needed_unmatched (problem_of numbers.old) (owner_ref_view owner.entry))) }
    ensures same { problem_of numbers.new ≡ problem_of numbers.old }
{
    match first_dependency(terms) {
        Some((_, number)) => Ok(Some(number)),
        None => needed_unmatched(numbers, owner),
    }
}

/// The number of the first dependency that the owner needs and no candidate serves.
fn needed_unmatched<'a>(
    numbers: &mut Numbers<'a>,
    owner: OwnerRef<'a>,
) -> Result<Option<usize>, AllocError>
    ensures number { IfOk result (λ n. n ≡ needed_unmatched (problem_of numbers.old) (owner_ref_view owner.entry)) }
    ensures same { problem_of numbers.new ≡ problem_of numbers.old }
{
    if let Some(number) = numbers.needed.get(&owner) {
        return Ok(Some(*number));
    }
    let problem = numbers.problem;
    let Some(number) = first_needed(&problem, &owner, dependencies_of(&problem, &owner)) else {
        return Ok(None);
    };
    numbers.needed.insert(owner, number)?;
    Ok(Some(number))
}

/// The number of the first dependency that the owner needs and no candidate serves.
fn first_needed(
    problem: &Problem<'_>,
    owner: &OwnerRef<'_>,
    dependencies: &[Dependency],
) -> Option<usize>
    ensures { result ≡ place_from (is_needed_unmatched (problem_view problem.now) (owner_ref_view owner.now)) 0
        (dependency_views dependencies.now) }
{
    'dependencies: for (number, dependency) in dependencies.iter().enumerate() {
        if is_needed_unmatched(problem, owner, dependency) {
            return Some(number);
        }
    }
    None
}

#[tactic(auto, unfolding(crate::specs::inner::Needs::is_needed_unmatched))]
fn is_needed_unmatched(problem: &Problem<'_>, owner: &OwnerRef<'_>, dependency: &Dependency) -> bool
    ensures { result
        ≡ is_needed_unmatched (problem_view problem.now) (owner_ref_view owner.now) (dependency_view dependency.now) }
{
    is_needed(owner, dependency) && is_unmatched(problem, dependency)
}
