//! A package that is here.

use lockfile::Package;

/// A package that is here, with its place among the versions met; its list is filled in last.
#[derive(Drop)]
pub(crate) struct PlacedPackage {
    pub(crate) locked: Package,
    pub(crate) place: usize,
}
