//! The files that a run reads, by their paths and their limits.

ghost use Rattle.words.specs.Views.{text_if};
ghost use Rattle.commands.specs.Disks.{IsFile, IsOld, IsKept, writes, most_of_manifest, most_of_lock, most_of_proof};

use crate::disk::Disk;
use crate::ending::Ending;
use derivations::Derivation;
use index_reader::FileFault;
use std::alloc::AllocError;

/// How many bytes of a manifest are read: one more than it may have.
const MANIFEST_BYTES: u64 = 1_048_577;

/// How many bytes of a lock are read: one more than it may have.
const LOCK_BYTES: u64 = 67_108_865;

pub(crate) fn read_manifest<'a, D: Disk>(disk: &D, path: &'a str) -> Result<Vec<u8>, Ending<'a>>
    ensures { IsFile (D.reads disk.now) path.entry.now most_of_manifest result }
{
    read_file(disk, path, MANIFEST_BYTES)
}

pub(crate) fn read_lock<'a, D: Disk>(disk: &D, path: &'a str) -> Result<Vec<u8>, Ending<'a>>
    ensures { IsFile (D.reads disk.now) path.entry.now most_of_lock result }
{
    read_file(disk, path, LOCK_BYTES)
}

/// A derivation is read whole.
pub(crate) fn read_proof<'a, D: Disk>(disk: &D, path: &'a str) -> Result<Vec<u8>, Ending<'a>>
    ensures { IsFile (D.reads disk.now) path.entry.now most_of_proof result }
{
    read_file(disk, path, u64::MAX)
}

/// The old lock, if one is named; a file that isn't there is none.
pub(crate) fn read_old<'a, D: Disk>(
    disk: &D,
    path: Option<&'a str>,
) -> Result<Option<Vec<u8>>, Ending<'a>>
    ensures { IsOld (D.reads disk.now) (text_if path.entry) result }
{
    let Some(path) = path else {
        return Ok(None);
    };
    match disk.read(path, LOCK_BYTES) {
        Ok(bytes) => Ok(Some(bytes)),
        Err(FileFault::NotFound) => Ok(None),
        Err(FileFault::OutOfMemory) => Err(Ending::from(AllocError)),
        Err(FileFault::Unreadable) => Err(Ending::CannotRead(path)),
    }
}

/// A file that has to be there.
fn read_file<'a, D: Disk>(disk: &D, path: &'a str, most: u64) -> Result<Vec<u8>, Ending<'a>>
    ensures { IsFile (D.reads disk.now) path.entry.now most result }
{
    match disk.read(path, most) {
        Ok(bytes) => Ok(bytes),
        Err(FileFault::OutOfMemory) => Err(Ending::from(AllocError)),
        Err(FileFault::NotFound | FileFault::Unreadable) => Err(Ending::CannotRead(path)),
    }
}

/// The derivation of a refusal goes to a file, if one is named.
pub(crate) fn write_proof<'a, D: Disk>(
    disk: &mut D,
    path: Option<&'a str>,
    derivation: &Derivation,
) -> Result<(), Ending<'a>>
    ensures { IsKept (writes D.writes disk.old disk.new) (text_if path.entry) derivation.now result }
{
    let Some(path) = path else {
        return Ok(());
    };
    let bytes = derivations::write(disk.memory(), derivation)?;
    if disk.write(path, bytes.as_slice()) {
        Ok(())
    } else {
        Err(Ending::CannotWriteFile(path))
    }
}
