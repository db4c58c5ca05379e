//! What the index has of a name, to tell why something isn't there.

use features::PackageName;
use index_reader::{Folder, FolderFault, MAX_LINES, Record, Skip, index_path, lines, read_file};
use std::alloc::{AllocError, Global};

/// The file of a name: its lines that can be used, and those that are skipped.
#[derive(Drop)]
pub struct IndexFile {
    pub bytes: Vec<u8>,
    pub records: Vec<Record>,
    pub skips: Vec<Skip>,
}

/// The file of a name, if there is one; of one with too many lines none is looked at.
///
/// # Errors
/// Want of memory, or the folder failed.
pub fn file_of<F: Folder>(
    alloc: Global,
    folder: &mut F,
    name: &PackageName,
) -> Result<Option<IndexFile>, FolderFault> {
    let path = index_path(alloc, name).map_err(out_of_memory)?;
    let Some(bytes) = folder.file(path.as_str())? else {
        return Ok(None);
    };
    let (records, skips) = if lines(&bytes) > MAX_LINES {
        (Vec::new(alloc), Vec::new(alloc))
    } else {
        read_file(alloc, name, &bytes).map_err(out_of_memory)?
    };
    Ok(Some(IndexFile {
        bytes,
        records,
        skips,
    }))
}

/// Want of memory, beside a folder that may fail too.
pub fn out_of_memory(_error: AllocError) -> FolderFault {
    FolderFault::OutOfMemory
}
