//! Why a package is in a lock.

ghost use Rattle.std.specs.Prelude.{◌≡◌, ◌&&◌, IfOk, Some, option_map, slice_get};
ghost use Rattle.std.specs.List.{list_any};
ghost use Rattle.semver.specs.Identifiers.{parts_of};
ghost use Rattle.lockfile.specs.inner.Views.{package_view, package_views};
ghost use Rattle.model.specs.Content.{passes};
ghost use Rattle.changes.specs.inner.Ways.{IsWhy, is_meant, is_own, is_version};

use crate::searching::shortest_way;
use classes::version_order;
use features::PackageName;
use lockfile::{LockContent, Package};
use manifest::Manifest;
use semver::Version;
use std::alloc::{AllocError, Global};

/// Why a package is in a lock.
#[derive(Drop)]
pub enum Why {
    /// A shortest way to it over the lists of the lock: the places of its packages, that of the root first.
    Way(Vec<usize>),
    /// There is none of this name, and of this version if one is asked for.
    Absent,
    /// No lists lead there from the root.
    Unreached,
}

/// Why a package of a name, and of a version if there is one, is in the lock of a manifest; of several the nearest to
/// the root is meant.
pub fn reason_for(
    alloc: Global,
    manifest: &Manifest,
    content: &LockContent,
    name: &PackageName,
    version: Option<&Version>,
) -> Result<Why, AllocError>
    ensures { IfOk result
        (IsWhy content.now (is_own manifest.now) (is_meant name.now (option_map (λ v. parts_of v.now) version.entry))) }
{
    let packages = content.packages();
    if !has_meant(packages, name, version) {
        return Ok(Why::Absent);
    }
    match shortest_way(alloc, manifest, packages, name, version)? {
        Some(places) => Ok(Why::Way(places)),
        None => Ok(Why::Unreached),
    }
}

fn has_meant(packages: &[Package], name: &PackageName, version: Option<&Version>) -> bool
    ensures { result
        ≡ list_any (is_meant name.now (option_map (λ v. parts_of v.now) version.entry)) (package_views packages.now) }
{
    some_meant(packages, name, version)
}

fn some_meant(packages: &[Package], name: &PackageName, version: Option<&Version>) -> bool
    ensures { result ≡ list_any (λ p.
        is_meant name.now (option_map (λ v. parts_of v.now) version.entry) (package_view p)) packages.now }
{
    packages
        .iter()
        .any(|package| is_meant(package, name, version))
}

/// Whether a package has a name, and a version if there is one.
pub(crate) fn is_meant(locked: &Package, name: &PackageName, version: Option<&Version>) -> bool
    ensures { result ≡ is_meant name.now (option_map (λ v. parts_of v.now) version.entry) (package_view locked.now) }
{
    locked.name == *name && is_version(&locked.version, version)
}

fn is_version(version: &Version, wanted: Option<&Version>) -> bool
    ensures { result ≡ is_version (option_map (λ v. parts_of v.now) wanted.entry) (parts_of version.now) }
{
    match wanted {
        Some(wanted) => version_order(version, wanted).is_eq(),
        None => true,
    }
}

/// Whether a package is that of the manifest, the root.
pub(crate) fn is_own(manifest: &Manifest, locked: &Package) -> bool
    ensures { result ≡ is_own manifest.now (package_view locked.now) }
{
    locked.source().is_none() && is_meant(locked, manifest.name(), Some(manifest.version()))
}

/// Whether a package that is meant stands at a place.
pub(crate) fn ends(
    packages: &[Package],
    name: &PackageName,
    version: Option<&Version>,
    place: usize,
) -> bool
    ensures { result ≡ passes (is_meant name.now (option_map (λ v. parts_of v.now) version.entry))
        (slice_get (package_views packages.now) place) }
{
    match packages.get(place) {
        Some(package) => is_meant(package, name, version),
        None => false,
    }
}
