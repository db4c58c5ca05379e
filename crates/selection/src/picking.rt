//! The candidate that a dependency picks.
//!
//! A name may have thousands of candidates, with a dependency on each of their classes. So those that a requirement can
//! match, by their numbers, are found by search: the order of preference has up to three runs, in each of which the
//! candidates are older and older. Mostly the newest of a run is picked, or one of the next, so a few are asked first.

ghost use Rattle.std.specs.Prelude.{◌≡◌, ◌≤◌, IfOk, OnOk, true, false, not, length, map, option_map, slice_get};
ghost use Rattle.std.specs.List.{All, concat};
ghost use Rattle.std.specs.List.Sorted.{IsPartitionPoint};
ghost use Rattle.semver.specs.Identifiers.{parts_of};
ghost use Rattle.features.specs.Views.{dependency_view, requirement_view};
ghost use Rattle.selection.specs.inner.Met.{AreOrders, AreRising, AreRuns, IsFalling, first_matched, is_lower};
ghost use Rattle.selection.specs.inner.Met.{is_matched, is_too_new, is_too_old, order_at, place_picked, run_views};

use catalogue::{Catalogue, is_beyond, is_short};
use features::{DependencyParts, PackageName};
use semver::{Version, VersionReq};
use std::alloc::{AllocError, Global};
use std::collections::HashMap;

/// So many of a run are asked before the others are searched.
const FEW: usize = 8;

/// The place of the first candidate, in the order of preference, that a dependency matches. The runs of the order are
/// kept for the next dependency on the name, for many are on few names.
pub(crate) fn pick(
    alloc: Global,
    catalogue: &Catalogue,
    orders: &mut HashMap<PackageName, Vec<Vec<u32>>>,
    dependency: &DependencyParts,
) -> Result<Option<usize>, AllocError>
    requires { AreOrders catalogue.now orders.old }
    ensures orders { OnOk result (AreOrders catalogue.now orders.new) }
    ensures place { IfOk result (λ o. o ≡ place_picked catalogue.now (dependency_view dependency.now)) }
{
    if let Some(runs) = orders.get(&dependency.real_name) {
        return Ok(pick_by(catalogue, dependency, runs.as_slice()));
    }
    let order = catalogue.prefer(&dependency.real_name)?;
    let runs = runs_of(alloc, order.as_slice())?;
    let place = pick_by(catalogue, dependency, runs.as_slice());
    let name = dependency.real_name.clone()?;
    orders.insert(name, runs)?;
    Ok(place)
}

/// An order of places as runs: the next begins where a place isn't lower than the one before.
fn runs_of(alloc: Global, order: &[u32]) -> Result<Vec<Vec<u32>>, AllocError>
    ensures { IfOk result (λ v. AreRuns order.now v.items) }
{
    let mut runs = Vec::new(alloc);
    let mut run = Vec::new(alloc);
    'places: for place in order {
        if !is_lower(run.as_slice(), *place) {
            runs.push(run)?;
            run = Vec::new(alloc);
        }
        run.push(*place)?;
    }
    runs.push(run)?;
    Ok(runs)
}

/// Whether a place is lower than the last of a run, if it has one.
fn is_lower(run: &[u32], place: u32) -> bool
    ensures { result ≡ is_lower run.now place }
{
    match run.last() {
        Some(last) => place < *last,
        None => true,
    }
}

/// The place of the first candidate, in the order of preference of the name, that a dependency matches.
fn pick_by(catalogue: &Catalogue, dependency: &DependencyParts, runs: &[Vec<u32>]) -> Option<usize>
    requires { AreRuns (order_at catalogue.now dependency.now.real_name) runs.now }
    ensures { result ≡ place_picked catalogue.now (dependency_view dependency.now) }
{
    let versions = catalogue.versions(&dependency.real_name);
    first_of_runs(&dependency.requirement, versions, runs)
}

/// The first of the places of these runs, one after another, at which a version stands that the requirement matches.
fn first_of_runs(requirement: &VersionReq, versions: &[Version], runs: &[Vec<u32>]) -> Option<usize>
    requires rising { AreRising versions.now }
    requires falling { All (λ r. IsFalling r.items) runs.now }
    ensures { result ≡ first_matched (requirement_view requirement.now) (map parts_of versions.now)
        (concat (run_views runs.now)) }
{
    'runs: for run in runs {
        let place = first_of_run(requirement, versions, run.as_slice());
        if place.is_some() {
            return place;
        }
    }
    None
}

/// The same of one run: log of it, and as many as lie within the requirement's bounds, down to the first that is
/// matched.
fn first_of_run(requirement: &VersionReq, versions: &[Version], run: &[u32]) -> Option<usize>
    requires rising { AreRising versions.now }
    requires falling { IsFalling run.now }
    ensures { result ≡ first_matched (requirement_view requirement.now) (map parts_of versions.now) run.now }
{
    let (few, rest) = run.split_at(run.len().min(FEW));
    let place = first_matched(requirement, versions, few);
    if place.is_some() {
        return place;
    }
    first_matched(requirement, versions, within(requirement, versions, rest))
}

/// Of places that fall those at which versions stand that the requirement can match, by their numbers.
fn within<'a>(requirement: &VersionReq, versions: &[Version], run: &'a [u32]) -> &'a [u32]
    requires rising { AreRising versions.now }
    requires falling { IsFalling run.now }
    ensures { first_matched (requirement_view requirement.now) (map parts_of versions.now) result.now
        ≡ first_matched (requirement_view requirement.now) (map parts_of versions.now) run.entry.now }
{
    let rest = &run[too_new(requirement, versions, run)..];
    &rest[..new_enough(requirement, versions, rest)]
}

/// At how many of these places, which fall, versions stand that are newer than all that is matched.
fn too_new(requirement: &VersionReq, versions: &[Version], run: &[u32]) -> usize
    requires rising { AreRising versions.now }
    requires falling { IsFalling run.now }
    ensures few { result ≤ length run.now }
    ensures place { IsPartitionPoint (λ n. is_too_new (requirement_view requirement.now)
        (slice_get (map parts_of versions.now) n) ≡ true)
        (λ n. is_too_new (requirement_view requirement.now) (slice_get (map parts_of versions.now) n) ≡ false)
        run.now result }
{
    run.partition_point(|place| is_too_new(requirement, versions, *place))
}

/// At how many of them versions stand that aren't older than all that is.
fn new_enough(requirement: &VersionReq, versions: &[Version], run: &[u32]) -> usize
    requires rising { AreRising versions.now }
    requires falling { IsFalling run.now }
    ensures few { result ≤ length run.now }
    ensures place { IsPartitionPoint (λ n. not (is_too_old (requirement_view requirement.now)
        (slice_get (map parts_of versions.now) n)) ≡ true)
        (λ n. not (is_too_old (requirement_view requirement.now) (slice_get (map parts_of versions.now) n)) ≡ false)
        run.now result }
{
    run.partition_point(|place| !is_too_old(requirement, versions, *place))
}

/// Whether the version at a place is newer than all that the requirement matches. What isn't there counts as newer.
fn is_too_new(requirement: &VersionReq, versions: &[Version], place: u32) -> bool
    ensures { result ≡ is_too_new (requirement_view requirement.now) (slice_get (map parts_of versions.now) place) }
{
    match versions.get(place as usize) {
        Some(version) => is_beyond(requirement, version),
        None => true,
    }
}

/// Whether the version at a place is older than all that the requirement matches.
fn is_too_old(requirement: &VersionReq, versions: &[Version], place: u32) -> bool
    ensures { result ≡ is_too_old (requirement_view requirement.now) (slice_get (map parts_of versions.now) place) }
{
    match versions.get(place as usize) {
        Some(version) => is_short(requirement, version),
        None => false,
    }
}

/// The first of these places at which a version stands that the requirement matches.
fn first_matched(requirement: &VersionReq, versions: &[Version], order: &[u32]) -> Option<usize>
    ensures { result ≡ first_matched (requirement_view requirement.now) (map parts_of versions.now) order.now }
{
    'order: for place in order.iter() {
        if is_matched(requirement, versions.get(*place as usize)) {
            return Some(*place as usize);
        }
    }
    None
}

fn is_matched(requirement: &VersionReq, version: Option<&Version>) -> bool
    ensures { result ≡ is_matched (requirement_view requirement.now) (option_map (λ v. parts_of v.now) version.entry) }
{
    match version {
        Some(version) => classes::is_matched(requirement, version),
        None => false,
    }
}
