//! Lists that steps name entries of.
//!
//! Many steps may each name another entry of one long list. So such a list is put into a set where a step first names
//! one of its entries. Nothing but time rests on what is kept: a list that isn't is gone over.

ghost use Rattle.std.specs.Prelude.{◌≡◌, ◌&&◌, codes};
ghost use Rattle.std.specs.List.{list_any};
ghost use Rattle.semver.specs.Identifiers.{parts_of};
ghost use Rattle.features.specs.Views.{dependency_view};
ghost use Rattle.model.specs.Content.{passes};
ghost use Rattle.model.specs.Summary.{asked_of_target, same_text};
ghost use Rattle.model.specs.Causes.{dependency_at, has_entry, same_entry, some_entry};
ghost use Rattle.vertices.specs.inner.RefViews.{owner_ref_view};
ghost use Rattle.axioms.specs.inner.Entries.{named_view};
ghost use Rattle.axioms.specs.inner.GatheredViews.{problem_of};

use crate::entries::{Named, has_entry, has_named, put_entries, put_rows, some_row_has};
use crate::gathered::Gathered;
use crate::gathering::put_list;
use crate::pairs::Pairs;
use features::{DependencyParts, FeatureName, PackageName};
use lookups::{Cause, brings, dependency_at, entries_of};
use semver::Version;
use std::alloc::{AllocError, Global};
use std::collections::HashSet;
use vertices::OwnerRef;

/// Of so many entries or fewer nothing is kept: they are soon gone over.
const FEW: usize = 16;

/// Whether a feature of a version has the entry.
pub(crate) fn row_has(
    gathered: &Gathered<'_>,
    name: &PackageName,
    version: &Version,
    on: &FeatureName,
    entry: &Named<'_>,
) -> bool
    ensures { result
        ≡ has_entry (problem_of gathered.now) name.now (parts_of version.now) on.now (named_view entry.now) }
{
    let row = (OwnerRef::Version(name, version), on);
    match gathered.rows.get(&row) {
        Some(entries) => has_named(entry, entries),
        None => has_entry(entry, entries_of(&gathered.problem, name, version, on)),
    }
}

/// Whether some feature of a version has the entry.
pub(crate) fn version_has(
    gathered: &Gathered<'_>,
    name: &PackageName,
    version: &Version,
    entry: &Named<'_>,
) -> bool
    ensures { result
        ≡ some_entry (problem_of gathered.now) (same_entry (named_view entry.now)) name.now (parts_of version.now) }
{
    let owner = OwnerRef::Version(name, version);
    if let Some(entries) = gathered.versions.get(&owner) {
        return has_named(entry, entries);
    }
    match brings(&gathered.problem, &owner) {
        Some(owner) => some_row_has(entry, &owner.features),
        None => false,
    }
}

/// Whether a dependency asks for the feature by its list.
pub(crate) fn is_listed(
    gathered: &Gathered<'_>,
    owner: &OwnerRef<'_>,
    number: usize,
    feature: &FeatureName,
) -> bool
    ensures { result ≡ passes (λ d. list_any (same_text feature.now) (asked_of_target d))
        (dependency_at (problem_of gathered.now) (owner_ref_view owner.now) number) }
{
    match dependency_at(&gathered.problem, owner, number) {
        Some(dependency) => match gathered.lists.get(&(*owner, number)) {
            Some(list) => list.has(dependency.real_name.as_str(), feature.as_str()),
            None => lists(dependency, feature),
        },
        None => false,
    }
}

fn lists(dependency: &DependencyParts, feature: &FeatureName) -> bool
    ensures { result ≡ list_any (same_text feature.now) (asked_of_target (dependency_view dependency.now)) }
{
    has_name(feature, dependency.features.as_slice()) || is_default(dependency, feature)
}

fn has_name(feature: &FeatureName, features: &[FeatureName]) -> bool
    ensures { result ≡ list_any (same_text feature.now) features.now }
{
    features.iter().any(|found| feature == found)
}

fn is_default(dependency: &DependencyParts, feature: &FeatureName) -> bool
    ensures { result ≡ ((dependency_view dependency.now).default_features && same_text feature.now (codes "default")) }
{
    dependency.default_features && feature.as_str() == "default"
}

/// Keeps the list that a cause names an entry of, if it is long.
///
/// # Errors
/// Want of memory.
pub(crate) fn keep_list_of<'a>(
    alloc: Global,
    gathered: &mut Gathered<'a>,
    cause: &Cause<'a>,
) -> Result<(), AllocError>
    ensures { problem_of gathered.new ≡ problem_of gathered.old }
{
    match *cause {
        Cause::List(owner, number, _, _) => keep_list(alloc, gathered, owner, number),
        Cause::Ask(name, version, _, _, _) => keep_version(alloc, gathered, name, version),
        Cause::Entry(name, version, on, _)
        | Cause::Enabling(name, version, on, _, _)
        | Cause::Asking(name, version, on, _, _)
        | Cause::Weak(name, version, on, _, _, _) => keep_row(alloc, gathered, name, version, on),
        Cause::Root
        | Cause::Need(_, _)
        | Cause::Target(_, _, _)
        | Cause::Feature(_, _, _)
        | Cause::Newest(_, _, _, _, _) => Ok(()),
    }
}

/// Keeps the entries of a feature.
fn keep_row<'a>(
    alloc: Global,
    gathered: &mut Gathered<'a>,
    name: &'a PackageName,
    version: &'a Version,
    on: &'a FeatureName,
) -> Result<(), AllocError>
    ensures { problem_of gathered.new ≡ problem_of gathered.old }
{
    let entries = entries_of(&gathered.problem, name, version, on);
    let row = (OwnerRef::Version(name, version), on);
    if entries.len() <= FEW || gathered.rows.contains_key(&row) {
        return Ok(());
    }
    let mut set = HashSet::new(alloc);
    put_entries(&mut set, entries)?;
    gathered.rows.insert(row, set)?;
    Ok(())
}

/// Keeps the entries of all features of a version.
fn keep_version<'a>(
    alloc: Global,
    gathered: &mut Gathered<'a>,
    name: &'a PackageName,
    version: &'a Version,
) -> Result<(), AllocError>
    ensures { problem_of gathered.new ≡ problem_of gathered.old }
{
    let owner = OwnerRef::Version(name, version);
    if gathered.versions.contains_key(&owner) {
        return Ok(());
    }
    let Some(brought) = brings(&gathered.problem, &owner) else {
        return Ok(());
    };
    let mut set = HashSet::new(alloc);
    put_rows(&mut set, &brought.features)?;
    gathered.versions.insert(owner, set)?;
    Ok(())
}

/// Keeps the list of a dependency.
fn keep_list<'a>(
    alloc: Global,
    gathered: &mut Gathered<'a>,
    owner: OwnerRef<'a>,
    number: usize,
) -> Result<(), AllocError>
    ensures { problem_of gathered.new ≡ problem_of gathered.old }
{
    let Some(dependency) = dependency_at(&gathered.problem, &owner, number) else {
        return Ok(());
    };
    let place = (owner, number);
    if dependency.features.len() <= FEW || gathered.lists.contains_key(&place) {
        return Ok(());
    }
    let mut list = Pairs::new(alloc);
    put_list(&mut list, dependency.real_name.as_str(), dependency)?;
    gathered.lists.insert(place, list)?;
    Ok(())
}
