//! Going on where the old lock can't be read.

use crate::reading::Bytes;
use lock_faults::{Readable, readable_part};
use lockfile::LockFault;
use resolver::Fault;
use std::alloc::{AllocError, Global};

/// What is left of the files where the lock can't be read as a whole.
#[derive(Drop)]
pub(crate) struct Repaired {
    /// Why the lock can't be read.
    pub fault: Fault,
    /// How many packages of it could be.
    pub packages: usize,
    /// The files, with the lock of these packages; with none where there is no such package.
    pub bytes: Bytes,
}

/// What is left of the files, if there is a lock that can't be read.
pub(crate) fn readable_rest(alloc: Global, bytes: &Bytes) -> Result<Option<Repaired>, Fault> {
    let Some(lock) = &bytes.lock else {
        return Ok(None);
    };
    let Some(fault) = fault_of(alloc, lock)? else {
        return Ok(None);
    };
    let Readable { lock, packages } = readable_part(alloc, lock)?;
    let lock = if packages == 0 {
        None
    } else {
        Some(lock.into_bytes())
    };
    let bytes = Bytes {
        manifest: bytes.manifest.clone()?,
        lock,
        source: bytes.source.clone()?,
    };
    Ok(Some(Repaired {
        fault,
        packages,
        bytes,
    }))
}

/// Why a lock can't be read, if it can't.
fn fault_of(alloc: Global, lock: &[u8]) -> Result<Option<Fault>, AllocError> {
    match lockfile::read(alloc, lock) {
        Ok(_) => Ok(None),
        Err(LockFault::OutOfMemory) => Err(AllocError),
        Err(fault) => Ok(Some(Fault::from(fault))),
    }
}
