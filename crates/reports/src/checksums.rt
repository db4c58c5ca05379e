//! The two checksums of a package, where that of the index isn't that of the lock.

use crate::reporting::Inputs;
use crate::verifying::loaded_beside;
use catalogue::LoadFault;
use features::PackageName;
use index_reader::Folder;
use semver::Version;
use std::alloc::Global;

/// The checksum that a lock has of a package, and that of an index.
#[derive(Drop)]
pub struct Checksums {
    pub locked: String,
    pub own: String,
}

/// The checksums of a package, if the lock and the index have one.
pub fn checksums_of<F: Folder>(
    alloc: Global,
    folder: &mut F,
    inputs: &Inputs,
    name: &PackageName,
    version: &Version,
) -> Result<Option<Checksums>, LoadFault> {
    let Some(lock) = &inputs.lock else {
        return Ok(None);
    };
    let catalogue = loaded_beside(alloc, folder, inputs, lock)?;
    let mut packages = lock.packages().iter();
    let package = packages.find(|package| package.name == *name && package.version == *version);
    match (package, catalogue.candidate(name, version)) {
        (Some(package), Some(candidate)) => Ok(Some(Checksums {
            locked: String::from_str(alloc, package.checksum().unwrap_or(""))?,
            own: candidate.checksum.to_text(alloc)?,
        })),
        _ => Ok(None),
    }
}
