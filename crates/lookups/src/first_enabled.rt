//! The first dependency that entries enable and no candidate serves.

ghost use Rattle.std.specs.Prelude.{◌≡◌, IfOk, OnOk};
ghost use Rattle.semver.specs.Identifiers.{parts_of};
ghost use Rattle.features.specs.Views.{dependency_view, dependency_views};
ghost use Rattle.features.specs.EntryViews.{entry_view, entry_views};
ghost use Rattle.model.specs.inner.Instances.{enabled_unmatched};
ghost use Rattle.lookups.specs.inner.ByName.{AreGone, PutsGone, least_enabled, lesser, named, number_enabled};
ghost use Rattle.lookups.specs.inner.NumbersViews.{problem_of};
ghost use Rattle.lookups.specs.inner.Views.{problem_view};

use crate::matching::is_unmatched;
use crate::new_names::put_new;
use crate::numbers::Numbers;
use crate::owners::{dependencies_of, entries_of};
use crate::problem::Problem;
use features::{Dependency, Entry, FeatureName, PackageName};
use semver::Version;
use std::alloc::{AllocError, Global};
use std::collections::HashMap;
use vertices::OwnerRef;

/// The number of the first dependency that entries of the version's feature enable and no candidate serves.
///
/// Many features can enable one dependency of many each, so all that no candidate serves are found once.
pub(crate) fn first_enabled<'a>(
    alloc: Global,
    numbers: &mut Numbers<'a>,
    name: &'a PackageName,
    version: &'a Version,
    on: &FeatureName,
) -> Result<Option<usize>, AllocError>
    ensures number { IfOk result
        (λ n. n ≡ enabled_unmatched (problem_of numbers.old) name.now (parts_of version.now) on.now) }
    ensures same { problem_of numbers.new ≡ problem_of numbers.old }
{
    let problem = numbers.problem;
    let owner = OwnerRef::Version(name, version);
    let entries = entries_of(&problem, name, version, on);
    if let Some(unmatched) = numbers.unmatched.get(&owner) {
        return Ok(least_enabled(unmatched, entries));
    }
    let unmatched = unmatched_by_name(alloc, &problem, dependencies_of(&problem, &owner))?;
    let least = least_enabled(&unmatched, entries);
    numbers.unmatched.insert(owner, unmatched)?;
    Ok(least)
}

/// By name, the number of the first dependency that is called so and no candidate serves.
fn unmatched_by_name<'a>(
    alloc: Global,
    problem: &Problem<'_>,
    dependencies: &'a [Dependency],
) -> Result<HashMap<&'a str, usize>, AllocError>
    ensures { IfOk result
        (λ numbers. AreGone (problem_view problem.now) (dependency_views dependencies.entry.now) numbers) }
{
    let mut numbers = HashMap::new(alloc);
    'dependencies: for (number, dependency) in dependencies.iter().enumerate() {
        put_unmatched(problem, &mut numbers, number, dependency)?;
    }
    Ok(numbers)
}

/// Puts the number of a dependency that no candidate serves, if it is the first of its name.
fn put_unmatched<'a>(
    problem: &Problem<'_>,
    numbers: &mut HashMap<&'a str, usize>,
    number: usize,
    dependency: &'a Dependency,
) -> Result<(), AllocError>
    ensures { OnOk result
        (PutsGone (problem_view problem.now) numbers.old number (dependency_view dependency.now) numbers.new) }
{
    if is_unmatched(problem, dependency) {
        put_new(numbers, dependency.name.as_str(), number)
    } else {
        Ok(())
    }
}

/// The least number that is kept of what entries enable.
fn least_enabled(numbers: &HashMap<&str, usize>, entries: &[Entry]) -> Option<usize>
    ensures { result ≡ least_enabled (named numbers.now) (entry_views entries.now) }
{
    let mut least = None;
    'entries: for entry in entries.iter() {
        least = lesser(least, number_enabled(numbers, entry));
    }
    least
}

/// The number that is kept for the name which an entry enables, if it enables one.
fn number_enabled(numbers: &HashMap<&str, usize>, entry: &Entry) -> Option<usize>
    ensures { result ≡ number_enabled (named numbers.now) (entry_view entry.now) }
{
    match entry {
        Entry::Feature(_) | Entry::WeakFeature(_, _) => None,
        Entry::Dependency(name) | Entry::DependencyFeature(name, _) => {
            number_named(numbers, name.as_str())
        }
    }
}

fn number_named(numbers: &HashMap<&str, usize>, name: &str) -> Option<usize>
    ensures { result ≡ named numbers.now name.now }
{
    match numbers.get(&name) {
        Some(number) => Some(*number),
        None => None,
    }
}

fn lesser(one: Option<usize>, other: Option<usize>) -> Option<usize>
    ensures { result ≡ lesser one other }
{
    let Some(n) = one else {
        return other;
    };
    match other {
        Some(m) => Some(n.min(m)),
        None => Some(n),
    }
}
