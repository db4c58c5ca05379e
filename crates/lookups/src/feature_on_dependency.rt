//! The cause of `FeatureOnDependency`: an entry of a feature, and the number of the dependency that it enables, on
//! which there may be no term.

ghost use Rattle.std.specs.Prelude.{◌≡◌, option_map, IfOk};
ghost use Rattle.std.specs.Option.{option_or};
ghost use Rattle.semver.specs.Identifiers.{parts_of};
ghost use Rattle.model.specs.inner.Instances.{enabled_unmatched, enabling_in, number_read};
ghost use Rattle.lookups.specs.inner.CauseViews.{cause_view};
ghost use Rattle.lookups.specs.inner.TermViews.{term_views};
ghost use Rattle.lookups.specs.inner.NumbersViews.{problem_of};
ghost use Rattle.lookups.specs.inner.Needs.{enabling_by};

use crate::cause::Cause;
use crate::first_enabled::first_enabled;
use crate::first_enabling::first_enabling;
use crate::named_by_terms::{first_dependency, first_on, first_version};
use crate::numbers::Numbers;
use crate::owners::dependency_at;
use crate::term::Term;
use features::{FeatureName, PackageName};
use semver::Version;
use std::alloc::{AllocError, Global};
use vertices::OwnerRef;

/// The one cause of this kind that the terms can have: they name the version and the feature.
pub(crate) fn enabling_in<'a>(
    alloc: Global,
    numbers: &mut Numbers<'a>,
    terms: &[Term<'a>],
) -> Result<Option<Cause<'a>>, AllocError>
    ensures cause { IfOk result
        (λ c. option_map cause_view c ≡ enabling_in (problem_of numbers.old) (term_views terms.now)) }
    ensures same { problem_of numbers.new ≡ problem_of numbers.old }
{
    let Some((name, version)) = first_version(terms) else {
        return Ok(None);
    };
    let Some(on) = first_on(terms) else {
        return Ok(None);
    };
    match enabled_number(alloc, numbers, name, version, on, terms)? {
        Some(number) => enabling(alloc, numbers, name, version, on, number),
        None => Ok(None),
    }
}

/// The cause with the first entry that enables the dependency of this number.
fn enabling<'a>(
    alloc: Global,
    numbers: &mut Numbers<'a>,
    name: &'a PackageName,
    version: &'a Version,
    on: &'a FeatureName,
    number: usize,
) -> Result<Option<Cause<'a>>, AllocError>
    ensures cause { IfOk result (λ c. option_map cause_view c
        ≡ enabling_by (problem_of numbers.old) name.entry.now (parts_of version.entry.now) on.entry.now number) }
    ensures same { problem_of numbers.new ≡ problem_of numbers.old }
{
    let owner = OwnerRef::Version(name, version);
    let Some(dependency) = dependency_at(&numbers.problem, &owner, number) else {
        return Ok(None);
    };
    match first_enabling(alloc, numbers, name, version, on, &dependency.name)? {
        Some(entry) => Ok(Some(Cause::Enabling(name, version, on, entry, number))),
        None => Ok(None),
    }
}

/// The number that a term names; where none does, that of the first which no candidate serves, as its term is full.
fn enabled_number<'a>(
    alloc: Global,
    numbers: &mut Numbers<'a>,
    name: &'a PackageName,
    version: &'a Version,
    on: &'a FeatureName,
    terms: &[Term<'a>],
) -> Result<Option<usize>, AllocError>
    ensures number { IfOk result (λ n. n ≡ option_or (number_read (term_views terms.now))
        (enabled_unmatched (problem_of numbers.old) name.now (parts_of version.now) on.now)) }
    ensures same { problem_of numbers.new ≡ problem_of numbers.old }
{
    match first_dependency(terms) {
        Some((_, number)) => Ok(Some(number)),
        None => enabled_unmatched(alloc, numbers, name, version, on),
    }
}

/// The number of the first dependency that entries of the version's feature enable and no candidate serves.
fn enabled_unmatched<'a>(
    alloc: Global,
    numbers: &mut Numbers<'a>,
    name: &'a PackageName,
    version: &'a Version,
    on: &'a FeatureName,
) -> Result<Option<usize>, AllocError>
    ensures number { IfOk result
        (λ n. n ≡ enabled_unmatched (problem_of numbers.old) name.now (parts_of version.now) on.now) }
    ensures same { problem_of numbers.new ≡ problem_of numbers.old }
{
    let row = (OwnerRef::Version(name, version), on);
    if let Some(number) = numbers.enabled.get(&row) {
        return Ok(Some(*number));
    }
    let Some(number) = first_enabled(alloc, numbers, name, version, on)? else {
        return Ok(None);
    };
    numbers.enabled.insert(row, number)?;
    Ok(Some(number))
}
