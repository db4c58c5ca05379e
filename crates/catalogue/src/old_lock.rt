//! What the old lock holds.

ghost use Rattle.std.specs.Prelude.{◌≡◌, Some};
ghost use Rattle.semver.specs.Grammar.{IsValid};
ghost use Rattle.semver.specs.Identifiers.{parts_of};
ghost use Rattle.model.specs.Candidates.{is_locked};
ghost use Rattle.lockfile.specs.inner.Search.{sourced_cmp};
ghost use Rattle.lockfile.specs.inner.Views.{package_view};
ghost use Rattle.catalogue.specs.Loads.{packages_of_old};

use classes::version_order;
use features::PackageName;
use lockfile::{LockContent, Package, source_order};
use semver::Version;
use std::cmp::Ordering;

/// Whether a lock, if there is one, has a package of this name, version and source.
pub fn is_locked(
    old: Option<&LockContent>,
    name: &PackageName,
    version: &Version,
    source: &str,
) -> bool
    requires { IsValid (parts_of version.now) }
    ensures { result ≡ is_locked (packages_of_old old.entry) source.now name.now (parts_of version.now) }
{
    match old {
        Some(content) => is_locked_in(content, name, version, source),
        None => false,
    }
}

/// Whether a lock has a package of this name, version and source.
fn is_locked_in(content: &LockContent, name: &PackageName, version: &Version, source: &str) -> bool
    requires { IsValid (parts_of version.now) }
    ensures { result ≡ is_locked content.now source.now name.now (parts_of version.now) }
{
    let packages = content.packages();
    packages
        .binary_search_by(|locked| order_to(locked, name, version, source))
        .is_ok()
}

/// The order of a package to one of this name, version and source.
fn order_to(locked: &Package, name: &PackageName, version: &Version, source: &str) -> Ordering
    ensures { result ≡ sourced_cmp name.now (parts_of version.now) (Some source.now) (package_view locked.now) }
{
    locked
        .name
        .cmp(name)
        .then_with(|| version_order(&locked.version, version))
        .then_with(|| source_order(locked.source(), Some(source)))
}
