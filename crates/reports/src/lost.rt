//! Locked versions that an index can't give.

use catalogue::{Catalogue, is_locked};
use changes::{changes_between, named};
use classes::Class;
use features::PackageName;
use flaws::{MissingTold, why_lost};
use index_reader::{Folder, FolderFault};
use lockfile::{LockContent, Package};
use semver::Version;
use std::alloc::{AllocError, Global};

/// A sentence for each package of an old lock whose version the index can't give, and that has another compatible
/// version in a new lock, or is gone since what led to it has another one; none where the folder fails. Only those are
/// told that `rest` has too, what is still locked of the old lock.
pub fn lost_between<F: Folder>(
    alloc: Global,
    folder: &mut F,
    old: &LockContent,
    rest: &LockContent,
    new: &LockContent,
) -> Result<Vec<String>, AllocError> {
    let changes = changes_between(alloc, Some(old), new)?;
    let led_to = led_to(alloc, old, new, &changes.came)?;
    let mut sentences = Vec::new(alloc);
    for (package, is_led_to) in old.packages().iter().zip(led_to.iter()) {
        let is_behind = *is_led_to || is_replaced(package, &changes.came);
        if !is_behind || is_gone(package, rest) || !is_gone(package, new) {
            continue;
        }
        let Package { name, version, .. } = package;
        if let Some(why) = lost_version(alloc, folder, name, version)? {
            sentences.push(format!(in alloc; "{name} {version} is locked, but {why}")?)?;
        }
    }
    Ok(sentences)
}

/// Whether each package of an old lock is gone, and on the list of one that has another version in the new lock, or of
/// one that is itself such a package.
fn led_to(
    alloc: Global,
    old: &LockContent,
    new: &LockContent,
    came: &[&Package],
) -> Result<Vec<bool>, AllocError> {
    let packages = old.packages();
    let mut found = vec![in alloc; false; packages.len()]?;
    let mut places = replaced_places(alloc, packages, new, came)?;
    for at in 0..places.len() + packages.len() {
        let Some(package) = places.get(at).and_then(|place| packages.get(*place)) else {
            break;
        };
        follow(packages, package, new, &mut found, &mut places)?;
    }
    Ok(found)
}

/// The places of the packages of an old lock that have another version in the new one.
fn replaced_places(
    alloc: Global,
    packages: &[Package],
    new: &LockContent,
    came: &[&Package],
) -> Result<Vec<usize>, AllocError> {
    let mut places = Vec::new(alloc);
    for (place, package) in packages.iter().enumerate() {
        if is_gone(package, new) && !named(came, &package.name).is_empty() {
            places.push(place)?;
        }
    }
    Ok(places)
}

/// Finds what is gone of a package's list, and takes down the places of what wasn't found before.
fn follow(
    packages: &[Package],
    package: &Package,
    new: &LockContent,
    found: &mut [bool],
    places: &mut Vec<usize>,
) -> Result<(), AllocError> {
    for place in package.list.iter() {
        if let (Some(next), Some(is_found)) = (packages.get(*place), found.get_mut(*place)) {
            if !*is_found && is_gone(next, new) {
                *is_found = true;
                places.push(*place)?;
            }
        }
    }
    Ok(())
}

/// Whether a package has a source, and a lock lacks it.
fn is_gone(package: &Package, lock: &LockContent) -> bool {
    match package.source() {
        Some(source) => !is_locked(Some(lock), &package.name, &package.version, source),
        None => false,
    }
}

/// `this index has no such version; the newest is 0.4.20`, where the index can't give a version of a package; nothing
/// where the folder fails.
pub fn lost_version<F: Folder>(
    alloc: Global,
    folder: &mut F,
    name: &PackageName,
    version: &Version,
) -> Result<Option<String>, AllocError> {
    match why_lost(alloc, name, version, folder) {
        Ok(Some(why)) => {
            let why = MissingTold { name, why: &why };
            Ok(Some(format!(in alloc; "{why}")?))
        }
        Ok(None) | Err(FolderFault::Failed) => Ok(None),
        Err(FolderFault::OutOfMemory) => Err(AllocError),
    }
}

/// Whether an index lacks a locked version, so that nothing is changed unasked.
pub fn lacks_version(catalogue: &Catalogue, lock: &LockContent) -> bool {
    lock.packages().iter().any(|package| package.source().is_some()
        && catalogue
            .candidate(&package.name, &package.version)
            .is_none())
}

/// Whether one of some packages is another compatible version of a package, of the same source.
fn is_replaced(package: &Package, came: &[&Package]) -> bool {
    let class = Class::of(&package.version);
    named(came, &package.name).iter().any(|other| other.source() == package.source()
        && Class::of(&other.version) == class)
}
