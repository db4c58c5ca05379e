//! The reports: each loads what it needs of the index, and gives its text.

use catalogue::{Catalogue, LoadFault, Prefer, Source, load};
use changes::{changes_between, tell_changes};
use classes::RustVersion;
use index_reader::{Folder, FolderFault};
use lockfile::LockContent;
use manifest::Manifest;
use std::alloc::{AllocError, Global};

/// What a report is about, beside an index: a manifest, a lock if there is one, the source of the index's packages, and
/// which of them are preferred.
#[derive(Drop)]
pub struct Inputs {
    pub manifest: Manifest,
    pub lock: Option<LockContent>,
    pub source: Source,
    pub prefer: Prefer,
}

impl Inputs {
    /// The Rust version at hand, where it counts.
    pub fn rust(&self) -> Option<RustVersion> {
        match self.prefer {
            Prefer::RustFirst => self.manifest.rust_version(),
            Prefer::Newest => None,
        }
    }
}

/// What is loaded of an index for these.
pub fn loaded<F: Folder>(
    alloc: Global,
    folder: &mut F,
    inputs: &Inputs,
) -> Result<Box<Catalogue>, LoadFault> {
    loaded_by(alloc, folder, inputs, inputs.lock.as_ref(), inputs.prefer)
}

/// What is loaded of an index for these by a lock and a preference; behind a box, since a check goes through all that
/// a function owns wherever it can end.
pub(crate) fn loaded_by<F: Folder>(
    alloc: Global,
    folder: &mut F,
    inputs: &Inputs,
    lock: Option<&LockContent>,
    prefer: Prefer,
) -> Result<Box<Catalogue>, LoadFault> {
    let catalogue = load(
        alloc,
        &inputs.manifest,
        folder,
        lock,
        &inputs.source,
        prefer,
    )?;
    Ok(Box::new(alloc, catalogue)?)
}

/// What changes from the lock to a new one.
pub fn changes_to<'a>(
    alloc: Global,
    catalogue: &'a Catalogue,
    inputs: &'a Inputs,
    new: &'a LockContent,
    all: bool,
) -> Result<String, AllocError> {
    let changes = changes_between(alloc, inputs.lock.as_ref(), new)?;
    tell_changes(alloc, catalogue, new, &changes, inputs.rust(), all)
}

/// What is told after the index was asked once more: nothing where its folder fails.
pub fn unless_failed(
    alloc: Global,
    told: Result<String, FolderFault>,
) -> Result<String, LoadFault> {
    match told {
        Ok(text) => Ok(text),
        Err(FolderFault::OutOfMemory) => Err(LoadFault::OutOfMemory),
        Err(FolderFault::Failed) => Ok(String::new(alloc)),
    }
}
