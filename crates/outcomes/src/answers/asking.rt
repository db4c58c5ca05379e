//! What the calls of `resolver` answer.

use crate::reading::Bytes;
use catalogue::{Catalogue, Prefer, Source, SourceFault};
use index_reader::Folder;
use manifest::Manifest;
use reports::Inputs;
use resolver::{Answer, Fault, resolve, verify_bytes_keeping};
use selection::Verdict;
use std::alloc::{AllocError, Global};

/// The source of the packages of an index, where no other is named.
pub const CRATES_IO: &str = "registry+https://github.com/rust-lang/crates.io-index";

fn crates_io(alloc: Global) -> Result<Source, AllocError> {
    match Source::parse(alloc, CRATES_IO) {
        Ok(source) => Ok(source),
        Err(SourceFault::OutOfMemory) => Err(AllocError),
        Err(SourceFault::NotASource) => unreachable!(),
    }
}

/// The source of a run; a text that is none stands for crates.io.
fn own_source(alloc: Global, bytes: &Bytes) -> Result<Source, AllocError> {
    match Source::parse(alloc, bytes.source.as_str()) {
        Ok(source) => Ok(source),
        Err(SourceFault::OutOfMemory) => Err(AllocError),
        Err(SourceFault::NotASource) => crates_io(alloc),
    }
}

/// A value behind a box, since a check goes through all that a function owns wherever it can end.
fn boxed<T: Drop>(alloc: Global, value: T) -> Result<Box<T>, AllocError> {
    Ok(Box::new(alloc, value)?)
}

/// What `resolve` answers.
pub(crate) fn new_lock<F: Folder>(
    alloc: Global,
    folder: &mut F,
    bytes: &Bytes,
    prefer: Prefer,
) -> Result<Box<Answer>, Fault> {
    let source = own_source(alloc, bytes)?;
    let lock = match &bytes.lock {
        Some(lock) => Some(lock.as_slice()),
        None => None,
    };
    let answer = resolve(alloc, &bytes.manifest, folder, lock, &source, prefer)?;
    Ok(boxed(alloc, answer)?)
}

/// Whether the lock is valid, and what was loaded for that.
pub(crate) fn verdict_on<F: Folder>(
    alloc: Global,
    folder: &mut F,
    bytes: &Bytes,
) -> Result<(Verdict, Catalogue), Fault> {
    let source = own_source(alloc, bytes)?;
    verify_bytes_keeping(alloc, &bytes.manifest, folder, lock_in(bytes), &source)
}

/// The bytes of the lock; none where there is no lock.
pub(crate) fn lock_in(bytes: &Bytes) -> &[u8] {
    match &bytes.lock {
        Some(lock) => lock.as_slice(),
        None => &[],
    }
}

/// What the files say, for a report, the newest versions preferred.
pub(crate) fn inputs_in(alloc: Global, bytes: &Bytes) -> Result<Box<Inputs>, Fault> {
    let manifest = Manifest::read(alloc, &bytes.manifest)?;
    let lock = match &bytes.lock {
        Some(lock) => Some(lockfile::read(alloc, lock)?),
        None => None,
    };
    let source = own_source(alloc, bytes)?;
    let inputs = Inputs {
        manifest,
        lock,
        source,
        prefer: Prefer::Newest,
    };
    Ok(boxed(alloc, inputs)?)
}
