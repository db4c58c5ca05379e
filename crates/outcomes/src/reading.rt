//! What the files of a project hold, up to their limits.

ghost use Rattle.std.specs.Prelude.{◌≡◌, ◌⊎◌, string_bytes, IfErr};
ghost use Rattle.outcomes.specs.inner.Faults.{IsAbout};

use crate::fault::ReadFault;
use crate::paths::Paths;
use std::fs;
use std::io::{self, ErrorKind, Read};
use std::rt::Files;

/// How many bytes of a manifest are read: one more than it may have.
pub(crate) const MANIFEST_BYTES: u64 = 1_048_577;

/// How many bytes of a lock are read: one more than it may have.
const LOCK_BYTES: u64 = 67_108_865;

/// The bytes of a manifest, and of a lock if there is one; and the source of the packages of the index.
#[derive(Drop)]
pub struct Bytes {
    pub manifest: Vec<u8>,
    pub lock: Option<Vec<u8>>,
    pub source: String,
}

/// The files of a run: where they are, and what they hold.
#[derive(Clone, Copy)]
pub struct Project<'a> {
    pub paths: &'a Paths<'a>,
    pub bytes: &'a Bytes,
}

impl<'a> Project<'a> {
    pub fn of(paths: &'a Paths<'a>, bytes: &'a Bytes) -> Project<'a> {
        Project { paths, bytes }
    }
}

/// What the files say, if they are there: the lock may be missing unless it is needed, the index has to be a folder.
pub fn read_files<'a, R: Files + AllocGlobal>(
    rt: &R,
    paths: &'a Paths<'a>,
    needs_lock: bool,
) -> Result<Bytes, ReadFault<'a>>
    ensures { IfErr result (λ fault. IsAbout (string_bytes paths.entry.now.index) fault
        ⊎ IsAbout paths.entry.now.manifest.now fault ⊎ IsAbout (string_bytes paths.entry.now.lock) fault) }
{
    check_index(rt, paths.index.as_str())?;
    let manifest = read_file(rt, paths.manifest, MANIFEST_BYTES)?;
    let lock = read_lock(rt, paths.lock.as_str(), needs_lock)?;
    let Ok(source) = String::from_str(rt.alloc(), paths.source) else {
        return Err(ReadFault::OutOfMemory);
    };
    Ok(Bytes {
        manifest,
        lock,
        source,
    })
}

fn read_file<'a, R: Files + AllocGlobal>(
    rt: &R,
    path: &'a str,
    most: u64,
) -> Result<Vec<u8>, ReadFault<'a>>
    ensures { IfErr result (IsAbout path.entry.now) }
{
    match front_of(rt, path, most) {
        Ok(bytes) => Ok(bytes),
        Err(error) => Err(fault_at(path, error)),
    }
}

/// The bytes of the lock; it may be absent, unless it is needed.
fn read_lock<'a, R: Files + AllocGlobal>(
    rt: &R,
    path: &'a str,
    is_needed: bool,
) -> Result<Option<Vec<u8>>, ReadFault<'a>>
    ensures { IfErr result (IsAbout path.entry.now) }
{
    match front_of(rt, path, LOCK_BYTES) {
        Ok(bytes) => Ok(Some(bytes)),
        Err(error) => {
            if !is_needed && error.kind() == ErrorKind::NotFound {
                Ok(None)
            } else {
                Err(fault_at(path, error))
            }
        }
    }
}

/// Whether the index is a folder: what is none would look like an empty index.
pub(crate) fn check_index<'a, R: Files>(rt: &R, path: &'a str) -> Result<(), ReadFault<'a>>
    ensures { IfErr result (IsAbout path.entry.now) }
{
    match fs::metadata(rt, path) {
        Ok(data) => {
            if data.is_dir() {
                Ok(())
            } else {
                Err(ReadFault::NoFolder(path))
            }
        }
        Err(error) => Err(fault_at(path, error)),
    }
}

/// The first bytes of a file, but at most this many.
pub(crate) fn front_of<R: Files + AllocGlobal>(
    rt: &R,
    path: &str,
    most: u64,
) -> io::Result<Vec<u8>> {
    let mut bytes = Vec::new(rt.alloc());
    fs::open(rt, path)?.take(most).read_to_end(&mut bytes)?;
    Ok(bytes)
}

/// Only a growth that was refused here is want of memory.
pub(crate) fn fault_at<'a>(path: &'a str, error: io::Error) -> ReadFault<'a>
    ensures { IsAbout path.entry.now result }
{
    if error.kind() == ErrorKind::OutOfMemory && error.raw_os_error().is_none() {
        ReadFault::OutOfMemory
    } else {
        ReadFault::CannotRead(path, error)
    }
}
