//! Package order, and the order of places.

ghost use Rattle.std.specs.Prelude.{◌≡◌, IfOk, option_map};
ghost use Rattle.model.specs.Order.{source_cmp, package_cmp};
ghost use Rattle.model.specs.Outcome.{Gives};
ghost use Rattle.lockfile.specs.Locks.{wants_memory, ordered_packages, ordered_places, locked_packages};
ghost use Rattle.lockfile.specs.inner.Search.{IsOrdered};
ghost use Rattle.lockfile.specs.inner.Views.{package_view, unlinked_views};

use crate::fault::LockFault;
use crate::package::Package;
use crate::packages::UnlinkedPackage;
use classes::version_order;
use std::cmp::Ordering;

/// A source before none, two by their bytes.
pub fn source_order(a: Option<&str>, b: Option<&str>) -> Ordering
    ensures { result ≡ source_cmp (option_map (λ s. s.now) a.entry) (option_map (λ s. s.now) b.entry) }
{
    match (a, b) {
        (Some(a), Some(b)) => a.cmp(b),
        (Some(_), None) => Ordering::Less,
        (None, Some(_)) => Ordering::Greater,
        (None, None) => Ordering::Equal,
    }
}

/// Packages by name, then version, then source.
pub fn package_order(a: &Package, b: &Package) -> Ordering
    ensures { result ≡ package_cmp (package_view a.now) (package_view b.now) }
{
    a.name
        .cmp(&b.name)
        .then_with(|| version_order(&a.version, &b.version))
        .then_with(|| source_order(a.source(), b.source()))
}

/// The packages in package order, no two alike.
pub(crate) fn ordered(mut packages: Vec<UnlinkedPackage>) -> Result<Vec<UnlinkedPackage>, LockFault>
    ensures value { Gives wants_memory
        (λ v. unlinked_views v.items) result (ordered_packages (unlinked_views packages.entry.items)) }
    ensures ordered { IfOk result (λ v. IsOrdered (locked_packages (unlinked_views v.items))) }
{
    packages.sort_by(|a, b| package_order(&a.locked, &b.locked))?;
    if packages.is_sorted_by(|a, b| package_order(&a.locked, &b.locked) == Ordering::Less) {
        Ok(packages)
    } else {
        Err(LockFault::LockShape)
    }
}

/// The places lowest first, none twice.
pub(crate) fn ordered_list(mut places: Vec<usize>) -> Result<Vec<usize>, LockFault>
    ensures { Gives wants_memory (λ v. v.items) result (ordered_places places.items) }
{
    places.sort_unstable();
    if places.is_sorted_by(|a, b| *a < *b) {
        Ok(places)
    } else {
        Err(LockFault::LockShape)
    }
}
