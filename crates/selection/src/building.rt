//! The content of the packages that are here.

ghost use Rattle.std.specs.Prelude.{◌≡◌, ◌≢◌, [], Some, IfOk, OnOk, length, map, option_map, slice_get};
ghost use Rattle.std.specs.List.{AllPairs};
ghost use Rattle.std.specs.List.Sorted.{IsPermutation};
ghost use Rattle.std.specs.declared.cmp.Ordering.TheVariants.{Equal};
ghost use Rattle.facts.specs.inner.Graphs.{node_views};
ghost use Rattle.catalogue.specs.Problems.{problem_in};
ghost use Rattle.lockfile.specs.inner.Views.{package_view};
ghost use Rattle.model.specs.Vertices.{the_root};
ghost use Rattle.model.specs.Order.{package_cmp};
ghost use Rattle.model.specs.inner.ContentOf.{package_of};
ghost use Rattle.facts.specs.inner.Built.{IsBuilt};
ghost use Rattle.selection.specs.inner.Contents.{AreInOrder, AreKept, AreMetVersions, IsThere, placed_views, kept_with};
ghost use Rattle.selection.specs.inner.Contents.{met_owner, owners_of, package_if};

use crate::listing::listed;
use crate::met::{MetVersion, store_holds};
use crate::placed::PlacedPackage;
use catalogue::Catalogue;
use facts::{Facts, Node};
use lockfile::{LockContent, Package, package_order};
use manifest::Manifest;
use std::alloc::{AllocError, Global};

/// The content of the packages that are here, each with the targets of its enabled dependencies.
pub fn content_of(
    alloc: Global,
    manifest: &Manifest,
    catalogue: &Catalogue,
    versions: &[MetVersion],
    nodes: &[Node<'_>],
    facts: &Facts,
) -> Result<LockContent, AllocError>
    requires versions { AreMetVersions catalogue.now versions.now }
    requires nodes { length nodes.now ≡ length (owners_of catalogue.now versions.now) }
    ensures { IfOk result (λ content. IsBuilt (owners_of catalogue.now versions.now) (node_views nodes.now) (map (λ v.
        v.items) facts.now.enabled.items) (problem_in manifest.now catalogue.now) facts.now.here.items content) }
{
    store_holds(catalogue);
    let kept = kept_of(alloc, manifest, catalogue, versions, facts.here.as_slice())?;
    let kept = sorted(kept)?;
    let packages = listed(alloc, kept, nodes, facts)?;
    Ok(LockContent::new(packages))
}

/// The packages of the places that are here.
fn kept_of(
    alloc: Global,
    manifest: &Manifest,
    catalogue: &Catalogue,
    versions: &[MetVersion],
    here: &[bool],
) -> Result<Vec<PlacedPackage>, AllocError>
    requires versions { AreMetVersions catalogue.now versions.now }
    ensures { IfOk result (λ v. AreKept (problem_in manifest.now catalogue.now)
        (owners_of catalogue.now versions.now) here.now (length here.now) (placed_views v.items)) }
{
    let mut kept = Vec::new(alloc);
    'places: for (place, here) in here.iter().enumerate() {
        let found = package_if(alloc, manifest, catalogue, versions, place, *here)?;
        keep(&mut kept, found, place)?;
    }
    Ok(kept)
}

/// The package at a place that is here.
fn package_if(
    alloc: Global,
    manifest: &Manifest,
    catalogue: &Catalogue,
    versions: &[MetVersion],
    place: usize,
    here: bool,
) -> Result<Option<Package>, AllocError>
    requires { AreMetVersions catalogue.now versions.now }
    ensures { IfOk result (λ o. option_map package_view o ≡ package_if (problem_in manifest.now catalogue.now) here
        (slice_get (owners_of catalogue.now versions.now) place)) }
{
    if here {
        package_at(alloc, manifest, catalogue, versions, place)
    } else {
        Ok(None)
    }
}

/// Puts a package last, if there is one.
fn keep(
    kept: &mut Vec<PlacedPackage>,
    found: Option<Package>,
    place: usize,
) -> Result<(), AllocError>
    ensures { OnOk result
        (placed_views kept.new.items ≡ kept_with (placed_views kept.old.items) (option_map package_view found) place) }
{
    if let Some(locked) = found {
        kept.push(PlacedPackage { locked, place })?;
    }
    Ok(())
}

/// The package at a place, with an empty list: the root, or a version that is met.
fn package_at(
    alloc: Global,
    manifest: &Manifest,
    catalogue: &Catalogue,
    versions: &[MetVersion],
    place: usize,
) -> Result<Option<Package>, AllocError>
    requires { AreMetVersions catalogue.now versions.now }
    ensures { IfOk result (λ o. option_map package_view o ≡ option_map (λ n. package_of
        (problem_in manifest.now catalogue.now) n []) (slice_get (owners_of catalogue.now versions.now) place)) }
{
    if place == 0 {
        return Ok(Some(root_package(alloc, manifest, catalogue)?));
    }
    match versions.get(place - 1) {
        Some(met) => met_package(alloc, manifest, catalogue, met),
        None => Ok(None),
    }
}

/// The package of the root, with an empty list.
fn root_package(
    alloc: Global,
    manifest: &Manifest,
    catalogue: &Catalogue,
) -> Result<Package, AllocError>
    ensures { IfOk result (λ p. package_view p ≡ package_of (problem_in manifest.now catalogue.now) the_root []) }
{
    // The contract speaks of the catalogue too; that the name is one is what `as_str` promises.
    let _ = manifest.name().as_str();
    let _ = catalogue;
    Ok(Package {
        name: manifest.name().clone()?,
        version: manifest.version().clone()?,
        source: None,
        checksum: None,
        list: Vec::new(alloc),
    })
}

/// The package of a version that is met, with an empty list; none where no candidate has its place.
fn met_package(
    alloc: Global,
    manifest: &Manifest,
    catalogue: &Catalogue,
    met: &MetVersion,
) -> Result<Option<Package>, AllocError>
    requires { IsThere catalogue.now met.now }
    ensures { IfOk result (λ o. option_map package_view o
        ≡ Some (package_of (problem_in manifest.now catalogue.now) (met_owner catalogue.now met.now) [])) }
{
    store_holds(catalogue);
    // The contract speaks of the manifest too; that the name is one is what `as_str` promises.
    let _ = manifest;
    let _ = met.name.as_str();
    let Some(version) = catalogue.versions(&met.name).get(met.place) else {
        return Ok(None);
    };
    Ok(Some(Package {
        name: met.name.clone()?,
        version: version.clone()?,
        source: Some(String::from_str(alloc, catalogue.source())?),
        checksum: Some(
            catalogue
                .record(&met.name, met.place)
                .checksum
                .to_text(alloc)?,
        ),
        list: Vec::new(alloc),
    }))
}

/// The packages in package order; no two of them tie.
fn sorted(mut kept: Vec<PlacedPackage>) -> Result<Vec<PlacedPackage>, AllocError>
    requires { AllPairs (λ k m. package_cmp k.0 m.0 ≢ Equal) (placed_views kept.items) }
    ensures permutes { IfOk result (λ v. IsPermutation (placed_views kept.items) (placed_views v.items)) }
    ensures order { IfOk result (λ v. AreInOrder (placed_views v.items)) }
{
    kept.sort_by(|a, b| package_order(&a.locked, &b.locked))?;
    Ok(kept)
}
