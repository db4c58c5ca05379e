//! Asking a folder for the file of a name.

ghost use Rattle.catalogue.specs.Loads.{Reads, SaysOfFile, SaysOfLimits};

use crate::fault::{Limit, LoadFault};
use features::PackageName;
use index_reader::{
    Folder, FolderFault, KnownDependencies, MAX_LINES, Record, Skip, index_path, lines,
    read_file_in,
};
use std::alloc::Global;
use trees::Scratch;

/// How many bytes a file has at most.
const MAX_BYTES: usize = 16_777_216;

/// The records and skips of a name, by one call of the folder.
pub(crate) fn read_name<F: Folder>(
    alloc: Global,
    folder: &mut F,
    name: &PackageName,
    scratch: &mut Scratch,
    known: &mut KnownDependencies,
) -> Result<(Vec<Record>, Vec<Skip>), LoadFault>
    ensures { Reads F.calls F.failed folder.old name.now result folder.new }
{
    let path = index_path(alloc, name)?;
    match folder.file(path.as_str()) {
        Ok(Some(bytes)) => read_bytes(alloc, name, bytes.as_slice(), scratch, known),
        Ok(None) => Ok((Vec::new(alloc), Vec::new(alloc))),
        Err(FolderFault::OutOfMemory) => Err(LoadFault::OutOfMemory),
        Err(FolderFault::Failed) => Err(LoadFault::FolderFailed(path)),
    }
}

/// The records and skips of a file that is within the limits.
fn read_bytes(
    alloc: Global,
    name: &PackageName,
    bytes: &[u8],
    scratch: &mut Scratch,
    known: &mut KnownDependencies,
) -> Result<(Vec<Record>, Vec<Skip>), LoadFault>
    ensures { SaysOfFile name.now bytes.now result }
{
    check_file(name, bytes)?;
    Ok(read_file_in(alloc, name, bytes, scratch, known)?)
}

/// A file past the limits isn't read.
///
/// # Errors
/// `TooLarge` where it has more bytes than `MAX_BYTES`, or else more lines than are read. Lines are counted only where
/// there are as many bytes: each line has one at least.
#[tactic(auto, using(crate::proofs::LineFacts::lines_few))]
pub fn check_file(name: &PackageName, bytes: &[u8]) -> Result<(), LoadFault>
    ensures { SaysOfLimits name.now bytes.now result }
{
    if bytes.len() > MAX_BYTES {
        return Err(LoadFault::TooLarge(Limit::File(name.clone()?)));
    }
    if bytes.len() > MAX_LINES && lines(bytes) > MAX_LINES {
        return Err(LoadFault::TooLarge(Limit::Lines(name.clone()?)));
    }
    Ok(())
}
