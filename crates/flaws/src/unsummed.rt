//! A lock without its checksums.

ghost use Rattle.std.specs.Prelude.{◌≡◌, IfOk, map, option_map, string_bytes};
ghost use Rattle.lockfile.specs.inner.Views.{package_view, package_views};
ghost use Rattle.flaws.specs.inner.Unsummed.{without_checksum};

use lockfile::{LockContent, Package};
use std::alloc::{AllocError, Global};

/// The same content without checksums, beside which an index loads whatever checksums it has.
pub fn without_checksums(alloc: Global, content: &LockContent) -> Result<LockContent, AllocError>
    ensures { IfOk result (λ c. c ≡ map without_checksum content.now) }
{
    let copies = copies_without(alloc, content.packages())?;
    Ok(LockContent::new(copies))
}

fn copies_without(alloc: Global, packages: &[Package]) -> Result<Vec<Package>, AllocError>
    ensures { IfOk result (λ v. package_views v.items ≡ map without_checksum (package_views packages.now)) }
{
    let mut copies = Vec::new(alloc);
    'packages: for locked in packages.iter() {
        copies.push(copy_without(alloc, locked)?)?;
    }
    Ok(copies)
}

/// A package without its checksum.
fn copy_without(alloc: Global, locked: &Package) -> Result<Package, AllocError>
    ensures { IfOk result (λ p. package_view p ≡ without_checksum (package_view locked.now)) }
{
    Ok(Package {
        name: locked.name.clone()?,
        version: locked.version.clone()?,
        source: copy_of(&locked.source)?,
        checksum: None,
        list: locked.list.iter().copied().collect(alloc)?,
    })
}

fn copy_of(text: &Option<String>) -> Result<Option<String>, AllocError>
    ensures { IfOk result (λ o. option_map string_bytes o ≡ option_map string_bytes text.now) }
{
    match text {
        Some(text) => Ok(Some(text.clone()?)),
        None => Ok(None),
    }
}
