//! What an index has of a dependency for which nothing fits.

use crate::lack::{Lack, lack_of};
use crate::package_file::{IndexFile, file_of, out_of_memory};
use crate::slips::other_name;
use catalogue::Catalogue;
use features::{DependencyParts, PackageName};
use index_reader::{Folder, FolderFault, Record, Skip};
use std::alloc::Global;

/// Why nothing fits a dependency, and what an index has of its name.
#[derive(Drop)]
pub struct Missing {
    pub(crate) lack: Lack,
    pub(crate) file: Option<IndexFile>,
    /// Where nothing of its file can be used, a name like it that has a record.
    pub(crate) other: Option<PackageName>,
}

impl Missing {
    /// The lines of its file that can be used.
    pub(crate) fn records(&self) -> &[Record] {
        match &self.file {
            Some(file) => file.records.as_slice(),
            None => &[],
        }
    }

    /// Its lines that can't be used.
    pub(crate) fn skips(&self) -> &[Skip] {
        match &self.file {
            Some(file) => file.skips.as_slice(),
            None => &[],
        }
    }
}

/// Why nothing fits a dependency, if nothing does: only then the folder is asked, for its file, and where nothing of it
/// can be used for those of names like it.
///
/// # Errors
/// Want of memory, or the folder failed.
pub fn look_for<F: Folder>(
    alloc: Global,
    catalogue: &Catalogue,
    folder: &mut F,
    dependency: &DependencyParts,
) -> Result<Option<Missing>, FolderFault> {
    if lack_of(dependency, catalogue, None).is_none() {
        return Ok(None);
    }
    let name = &dependency.real_name;
    let file = file_of(alloc, folder, name)?;
    let other = match &file {
        Some(file) if !file.records.is_empty() => None,
        _ => other_name(alloc, folder, name)?,
    };
    let records = match &file {
        Some(file) => Some(file.records.as_slice()),
        None => None,
    };
    match lack_of(dependency, catalogue, records) {
        Some(lack) => Ok(Some(Missing { lack, file, other })),
        None => Ok(None),
    }
}
