//! Whose list changed between two locks.
//!
//! What came or went is told by itself, and with it that lists have it or no longer do. So of a list only what both
//! locks have is looked at: then lists that change are told where no package does, and an update isn't told of each
//! package that depends on it.

use crate::changing::push_if_one;
use lockfile::{LockContent, Package, package_order};
use std::alloc::{AllocError, Global};

/// A package that both locks have came onto a list or went from it, of a package that both have too.
#[derive(Clone, Copy)]
pub struct Relisting<'a> {
    /// The package whose list it is, as the new lock has it.
    pub package: &'a Package,
    pub listed: &'a Package,
    pub gained: bool,
}

/// What came onto lists and went from them: the package of the manifest first, whatever its version, then the packages
/// that `stood` in the old lock and `stayed` in the new one, in package order. Where a lock doesn't have the package of
/// the manifest, as one that was read in part, its lists say nothing.
pub(crate) fn relistings<'a>(
    alloc: Global,
    old: Option<&'a LockContent>,
    new: &'a LockContent,
    stood: &[&'a Package],
    stayed: &[&'a Package],
) -> Result<Vec<Relisting<'a>>, AllocError> {
    let mut found = Vec::new(alloc);
    let Some((before, after)) = roots(old, new) else {
        return Ok(found);
    };
    let Some(old) = old else {
        return Ok(found);
    };
    push_relistings(alloc, (old, before), (new, after), &mut found)?;
    for (before, after) in stood.iter().zip(stayed.iter()) {
        push_relistings(alloc, (old, *before), (new, *after), &mut found)?;
    }
    Ok(found)
}

/// The package of the manifest in each lock. In the new one it alone has no source; in the old one, where others from
/// paths may have none, it has its name, or another one if it alone has none.
fn roots<'a>(
    old: Option<&'a LockContent>,
    new: &'a LockContent,
) -> Option<(&'a Package, &'a Package)> {
    let packages = old?.packages();
    let after = new.packages().iter().find(|one| has_no_source(one))?;
    let is_alone = packages.iter().filter(|one| has_no_source(one)).count() == 1;
    let before = packages.iter().find(|one| has_no_source(one)
        && (is_alone || one.name == after.name))?;
    Some((before, after))
}

pub(crate) fn has_no_source(package: &Package) -> bool {
    package.source().is_none()
}

/// Adds what came onto the list of a package and went from it, of the old lock and of the new one.
fn push_relistings<'a>(
    alloc: Global,
    before: (&'a LockContent, &'a Package),
    after: (&'a LockContent, &'a Package),
    found: &mut Vec<Relisting<'a>>,
) -> Result<(), AllocError> {
    let had = shared_list(alloc, before.0, after.0, before.1)?;
    let has = shared_list(alloc, after.0, before.0, after.1)?;
    push_missing(after.1, &has, &had, true, found)?;
    push_missing(after.1, &had, &has, false, found)
}

/// What another lock has too of the list of a package; in package order, since lists rise.
fn shared_list<'a>(
    alloc: Global,
    own: &'a LockContent,
    others: &LockContent,
    package: &Package,
) -> Result<Vec<&'a Package>, AllocError> {
    let packages = own.packages();
    let mut shared = Vec::new(alloc);
    for place in package.list.iter() {
        if let Some(listed) = packages.get(*place) {
            push_if_one(&mut shared, listed, Some(others), true)?;
        }
    }
    Ok(shared)
}

/// Adds what is in a list and not in another, both in package order.
fn push_missing<'a>(
    package: &'a Package,
    list: &[&'a Package],
    other: &[&'a Package],
    gained: bool,
    found: &mut Vec<Relisting<'a>>,
) -> Result<(), AllocError> {
    for listed in list.iter() {
        if !has_one(other, *listed) {
            let listed = *listed;
            found.push(Relisting {
                package,
                listed,
                gained,
            })?;
        }
    }
    Ok(())
}

/// Whether a list in package order has a package.
fn has_one(list: &[&Package], package: &Package) -> bool {
    list.binary_search_by(|other| package_order(other, package))
        .is_ok()
}
