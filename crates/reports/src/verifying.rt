//! The report on a lock: all that is wrong with it.

use crate::reporting::{Inputs, loaded_by, unless_failed};
use catalogue::{Catalogue, LoadFault, Prefer};
use changes::is_yanked;
use flaws::{has_metadata, tell_flaws, without_checksums};
use index_reader::Folder;
use lockfile::LockContent;
use std::alloc::{AllocError, Global};

/// All that is wrong with a lock, whose bytes these are; nothing where there is no lock, or the folder fails while it
/// is asked once more for the files of versions that aren't there.
pub fn flaws_of_lock<F: Folder>(
    alloc: Global,
    folder: &mut F,
    inputs: &Inputs,
    bytes: &[u8],
) -> Result<String, LoadFault> {
    let Some(lock) = &inputs.lock else {
        return Ok(String::new(alloc));
    };
    let catalogue = loaded_beside(alloc, folder, inputs, lock)?;
    let has_metadata = has_metadata(bytes);
    let flaws = tell_flaws(
        alloc,
        &inputs.manifest,
        &catalogue,
        lock,
        folder,
        has_metadata,
    );
    unless_failed(alloc, flaws)
}

/// What is loaded of an index beside a lock without its checksums, so that those that changed are told with all else.
pub fn loaded_beside<F: Folder>(
    alloc: Global,
    folder: &mut F,
    inputs: &Inputs,
    lock: &LockContent,
) -> Result<Box<Catalogue>, LoadFault> {
    let unsummed = without_checksums(alloc, lock)?;
    loaded_by(alloc, folder, inputs, Some(&unsummed), Prefer::Newest)
}

/// A sentence for each package of a lock that is yanked.
pub fn yanked_in(
    alloc: Global,
    catalogue: &Catalogue,
    lock: &LockContent,
) -> Result<Vec<String>, AllocError> {
    let mut sentences = Vec::new(alloc);
    for package in lock.packages().iter() {
        if is_yanked(catalogue, package) {
            let (name, version) = (&package.name, &package.version);
            let sentence = format!(in alloc; "{name} {version} is yanked")?;
            sentences.push(sentence)?;
        }
    }
    Ok(sentences)
}
