//! Every dependency that leads to a package.

ghost use Rattle.std.specs.Prelude.{◌≡◌, ◌++◌, filter, length, map, option_map, IfOk, OnOk};
ghost use Rattle.semver.specs.Identifiers.{parts_of};
ghost use Rattle.lockfile.specs.inner.Views.{package_views};
ghost use Rattle.facts.specs.inner.Chains.{AreBelow, has};
ghost use Rattle.changes.specs.inner.OnWays.{AreBetween, AreOnWays, all_pairs, are_both, pairs_at, rule};
ghost use Rattle.changes.specs.inner.OnWays.{rules_ahead, rules_back};
ghost use Rattle.changes.specs.inner.Ways.{is_meant, is_own};

use crate::searching::list_at;
use crate::ways::{is_meant, is_own};
use facts::{Rule, close};
use features::PackageName;
use lockfile::{LockContent, Package};
use manifest::Manifest;
use semver::Version;
use std::alloc::{AllocError, Global};

/// The dependencies on ways from the root to packages of a name, and of a version if there is one: the places of the
/// package and of the one that it lists, in the order of the lock and of its lists.
pub fn dependencies_to(
    alloc: Global,
    manifest: &Manifest,
    content: &LockContent,
    name: &PackageName,
    version: Option<&Version>,
) -> Result<Vec<(usize, usize)>, AllocError>
    ensures { IfOk result (λ v. AreOnWays content.now (is_own manifest.now)
        (is_meant name.now (option_map (λ v. parts_of v.now) version.entry)) v.items) }
{
    let packages = content.packages();
    let pairs = listed_pairs(alloc, packages)?;
    let mut ahead = own_marks(alloc, manifest, packages)?;
    let mut back = meant_marks(alloc, packages, name, version)?;
    pairs_between(alloc, &pairs, &mut ahead, &mut back)
}

/// The pairs that lie between marks: pairs lead to the first package ahead from a mark, and back to the second one.
fn pairs_between(
    alloc: Global,
    pairs: &[(usize, usize)],
    ahead: &mut [bool],
    back: &mut [bool],
) -> Result<Vec<(usize, usize)>, AllocError>
    requires ahead { AreBelow (length ahead.old) (rules_ahead pairs.now) }
    requires back { AreBelow (length back.old) (rules_back pairs.now) }
    ensures { IfOk result (λ v. AreBetween pairs.now ahead.old back.old v.items) }
{
    let rules = rules_ahead(alloc, pairs)?;
    close(alloc, ahead, rules.as_slice())?;
    let rules = rules_back(alloc, pairs)?;
    close(alloc, back, rules.as_slice())?;
    marked_pairs(alloc, pairs, ahead, back)
}

/// Each package with each that it lists.
fn listed_pairs(alloc: Global, packages: &[Package]) -> Result<Vec<(usize, usize)>, AllocError>
    ensures { IfOk result (λ v. v.items ≡ all_pairs (package_views packages.now)) }
{
    let mut pairs = Vec::new(alloc);
    'places: for place in 0..packages.len() {
        push_pairs(&mut pairs, place, list_at(packages, place))?;
    }
    Ok(pairs)
}

/// A pair for each place that a package lists.
fn push_pairs(
    pairs: &mut Vec<(usize, usize)>,
    from: usize,
    list: &[usize],
) -> Result<(), AllocError>
    ensures { OnOk result (pairs.new.items ≡ pairs.old.items ++ pairs_at from list.now) }
{
    'targets: for target in list.iter() {
        pairs.push((from, *target))?;
    }
    Ok(())
}

/// Whether each package is the root.
fn own_marks(
    alloc: Global,
    manifest: &Manifest,
    packages: &[Package],
) -> Result<Vec<bool>, AllocError>
    ensures { IfOk result (λ v. v.items ≡ map (is_own manifest.now) (package_views packages.now)) }
{
    let mut marks = Vec::new(alloc);
    'packages: for package in packages.iter() {
        marks.push(is_own(manifest, package))?;
    }
    Ok(marks)
}

/// Whether each package is meant.
fn meant_marks(
    alloc: Global,
    packages: &[Package],
    name: &PackageName,
    version: Option<&Version>,
) -> Result<Vec<bool>, AllocError>
    ensures { IfOk result (λ v. v.items ≡ map
        (is_meant name.now (option_map (λ v. parts_of v.now) version.entry)) (package_views packages.now)) }
{
    let mut marks = Vec::new(alloc);
    'packages: for package in packages.iter() {
        marks.push(is_meant(package, name, version))?;
    }
    Ok(marks)
}

/// From a package to those that it lists.
fn rules_ahead(alloc: Global, pairs: &[(usize, usize)]) -> Result<Vec<Rule>, AllocError>
    ensures { IfOk result (λ v. v.items ≡ rules_ahead pairs.now) }
{
    let mut rules = Vec::new(alloc);
    'pairs: for (from, to) in pairs.iter() {
        rules.push(rule(*from, *to))?;
    }
    Ok(rules)
}

/// From a package to those that list it.
fn rules_back(alloc: Global, pairs: &[(usize, usize)]) -> Result<Vec<Rule>, AllocError>
    ensures { IfOk result (λ v. v.items ≡ rules_back pairs.now) }
{
    let mut rules = Vec::new(alloc);
    'pairs: for (from, to) in pairs.iter() {
        rules.push(rule(*to, *from))?;
    }
    Ok(rules)
}

fn rule(from: usize, to: usize) -> Rule
    ensures { result ≡ rule from to }
{
    Rule {
        first: from,
        second: from,
        gives: to,
    }
}

/// The pairs whose first package is marked ahead, and the second one back.
fn marked_pairs(
    alloc: Global,
    pairs: &[(usize, usize)],
    ahead: &[bool],
    back: &[bool],
) -> Result<Vec<(usize, usize)>, AllocError>
    ensures { IfOk result (λ v. v.items ≡ filter (are_both ahead.now back.now) pairs.now) }
{
    let mut found = Vec::new(alloc);
    'pairs: for (from, to) in pairs.iter() {
        if is_marked(ahead, *from) && is_marked(back, *to) {
            found.push((*from, *to))?;
        }
    }
    Ok(found)
}

fn is_marked(marks: &[bool], place: usize) -> bool
    ensures { result ≡ has marks.now place }
{
    match marks.get(place) {
        Some(mark) => *mark,
        None => false,
    }
}
