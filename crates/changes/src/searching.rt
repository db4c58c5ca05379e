//! A shortest way from the root of a lock to a package.

ghost use Rattle.std.specs.Prelude.{◌≡◌, ◌<◌, ◌+◌, Bool, true, false, cond, [], ◌∷◌, ◌++◌, length, replicate};
ghost use Rattle.std.specs.Prelude.{slice_get, slice_set, IfOk, OnOk, Some, option_map};
ghost use Rattle.std.specs.List.{All, find};
ghost use Rattle.semver.specs.Identifiers.{parts_of};
ghost use Rattle.lockfile.specs.inner.Views.{package_views};
ghost use Rattle.model.specs.Content.{Content, list_if, passes};
ghost use Rattle.model.specs.Content as model;
ghost use Rattle.model.specs.Order.{IsContent};
ghost use Rattle.facts.specs.inner.Chains.{has};
ghost use Rattle.changes.specs.inner.Searches.{AreBehind, AreLed, IsBehind, IsLed, IsSearched, is_end, places_below};
ghost use Rattle.changes.specs.inner.Searches.{seen_with, visited};
ghost use Rattle.changes.specs.inner.Ways.{IsFound, is_meant, is_own, is_way};

use crate::ways::{ends, is_own};
use features::PackageName;
use lockfile::Package;
use manifest::Manifest;
use semver::Version;
use std::alloc::{AllocError, Global};

/// A package that was come to.
#[derive(Clone, Copy)]
struct Visit {
    place: usize,
    /// The number of the visit from whose package it was come to; of no matter at the root.
    before: usize,
    /// How many lists led there from the root.
    depth: usize,
}

/// The places on a shortest way from the root to a package that is meant; none where no way leads to one.
pub(crate) fn shortest_way(
    alloc: Global,
    manifest: &Manifest,
    packages: &[Package],
    name: &PackageName,
    version: Option<&Version>,
) -> Result<Option<Vec<usize>>, AllocError>
    requires content { IsContent (package_views packages.now) }
    ensures { IfOk result (λ o. IsFound (package_views packages.now) (is_own manifest.now)
        (is_meant name.now (option_map (λ v. parts_of v.now) version.entry)) (option_map (λ v. v.items) o)) }
{
    let visits = visits(alloc, manifest, packages)?;
    match nearest(packages, &visits, name, version) {
        Some(end) => Ok(Some(way_to(alloc, &visits, end)?)),
        None => Ok(None),
    }
}

/// Every package that lists lead to from the root, the nearest first.
fn visits(
    alloc: Global,
    manifest: &Manifest,
    packages: &[Package],
) -> Result<Vec<Visit>, AllocError>
    requires content { IsContent (package_views packages.now) }
    ensures { IfOk result (λ v. IsSearched (package_views packages.now) (is_own manifest.now) v.items) }
{
    let mut seen = vec![in alloc; false; packages.len()]?;
    visits_by(alloc, manifest, packages, &mut seen)
}

/// The same, where no package was seen before.
fn visits_by(
    alloc: Global,
    manifest: &Manifest,
    packages: &[Package],
    seen: &mut [bool],
) -> Result<Vec<Visit>, AllocError>
    requires content { IsContent (package_views packages.now) }
    requires seen { seen.old ≡ replicate (length packages.now) false }
    ensures { IfOk result (λ v. IsSearched (package_views packages.now) (is_own manifest.now) v.items) }
{
    let mut visits = Vec::new(alloc);
    let roots = roots(alloc, manifest, packages)?;
    visit_all(seen, &mut visits, &roots, 0, 0)?;
    let mut next = 0;
    'visits: while next < visits.len() {
        let Visit { place, depth, .. } = visit_at(&visits, next);
        visit_all(seen, &mut visits, list_at(packages, place), next, depth + 1)?;
        next += 1;
    }
    Ok(visits)
}

/// The places of the root: in a lock that Cargo writes there is one.
fn roots(alloc: Global, manifest: &Manifest, packages: &[Package]) -> Result<Vec<usize>, AllocError>
    ensures { IfOk result
        (λ v. v.items ≡ places_below (package_views packages.now) (is_own manifest.now) (length packages.now)) }
{
    let mut found = Vec::new(alloc);
    'places: for place in 0..packages.len() {
        push_root(&mut found, manifest, packages, place)?;
    }
    Ok(found)
}

/// Adds a place, if the root stands there.
fn push_root(
    found: &mut Vec<usize>,
    manifest: &Manifest,
    packages: &[Package],
    place: usize,
) -> Result<(), AllocError>
    ensures { OnOk result (found.new.items ≡ found.old.items
        ++ cond (passes (is_own manifest.now) (slice_get (package_views packages.now) place)) (place ∷ []) []) }
{
    if begins(manifest, packages, place) {
        found.push(place)?;
    }
    Ok(())
}

/// Whether the root stands at a place.
fn begins(manifest: &Manifest, packages: &[Package], place: usize) -> bool
    ensures { result ≡ passes (is_own manifest.now) (slice_get (package_views packages.now) place) }
{
    match packages.get(place) {
        Some(package) => is_own(manifest, package),
        None => false,
    }
}

/// The list of the package at a place.
pub(crate) fn list_at(packages: &[Package], place: usize) -> &[usize]
    ensures { result.now ≡ list_if (slice_get (package_views packages.now) place) }
{
    match packages.get(place) {
        Some(package) => package.list.as_slice(),
        None => &[],
    }
}

/// Visits the packages of a list that weren't seen.
#[tactic(auto, unfolding(crate::specs::inner::Searches::visited, crate::specs::inner::Searches::seen_with))]
fn visit_all(
    seen: &mut [bool],
    visits: &mut Vec<Visit>,
    list: &[usize],
    before: usize,
    depth: usize,
) -> Result<(), AllocError>
    requires within { All (λ j. j < length seen.old) list.now }
    ensures seen { OnOk result (seen.new ≡ seen_with seen.old list.now) }
    ensures visits { OnOk result
        (visits.new.items ≡ visited before depth seen.old visits.old.items list.now) }
{
    'places: for place in list.iter() {
        let visit = Visit {
            place: *place,
            before,
            depth,
        };
        visit_once(seen, visits, visit)?;
    }
    Ok(())
}

/// Visits a package, unless it was seen.
fn visit_once(seen: &mut [bool], visits: &mut Vec<Visit>, visit: Visit) -> Result<(), AllocError>
    requires within { visit.place < length seen.old }
    ensures length { length seen.new ≡ length seen.old }
    ensures seen { OnOk result
        (seen.new ≡ cond (has seen.old visit.place) seen.old (slice_set seen.old visit.place true)) }
    ensures visits { OnOk result (visits.new.items
        ≡ cond (has seen.old visit.place) visits.old.items (visits.old.items ++ visit ∷ [])) }
{
    if !seen[visit.place] {
        seen[visit.place] = true;
        visits.push(visit)?;
    }
    Ok(())
}

/// The nearest package that is meant.
fn nearest(
    packages: &[Package],
    visits: &[Visit],
    name: &PackageName,
    version: Option<&Version>,
) -> Option<Visit>
    ensures { result ≡ find (is_end (package_views packages.now)
        (is_meant name.now (option_map (λ v. parts_of v.now) version.entry))) visits.now }
{
    'visits: for visit in visits.iter() {
        if ends(packages, name, version, visit.place) {
            return Some(*visit);
        }
    }
    None
}

/// The places from the root to the package of a visit.
fn way_to(alloc: Global, visits: &[Visit], end: Visit) -> Result<Vec<usize>, AllocError>
    requires behind { AreBehind visits.now }
    requires end { IsBehind visits.now end.before end.depth }
    ensures length { IfOk result (λ v. length v.items ≡ end.depth + 1) }
    ensures way { IfOk result (λ v. (content : Content) (begins ends : model.Package → Bool)
        → AreLed content begins visits.now → IsLed content begins visits.now end.place end.before end.depth
        → is_end content ends end ≡ true → is_way content begins ends v.items ≡ true) }
{
    let mut places = Vec::new(alloc);
    let mut visit = end;
    'visits: while visit.depth > 0 {
        places.push(visit.place)?;
        visit = visit_at(visits, visit.before);
    }
    places.push(visit.place)?;
    places.reverse();
    Ok(places)
}

fn visit_at(visits: &[Visit], number: usize) -> Visit
    requires { number < length visits.now }
    ensures { slice_get visits.now number ≡ Some result }
{
    visits[number]
}
