//! The files without what the lock says of some packages.

use crate::answers::asking::{inputs_in, lock_in};
use crate::answers::why::meant_in;
use crate::reading::Bytes;
use crate::why::{NoWay, Question};
use lock_faults::{LeftOut, Readable, part_without};
use lockfile::LockContent;
use reports::{Inputs, Meant, Wanted};
use resolver::Fault;
use std::alloc::{AllocError, Global};

/// What is left of the files, or which words ask for no package of the lock.
pub(crate) enum Unlocked<'a> {
    Rest(Bytes),
    NoPackage(&'a str, NoWay),
}

/// The files without what the lock says of the packages that are asked for, or of any where none is.
///
/// # Errors
/// The manifest or the lock can't be read.
pub(crate) fn unlock<'a>(
    alloc: Global,
    bytes: &Bytes,
    asked: &[(&'a str, Question)],
) -> Result<Unlocked<'a>, Fault> {
    let inputs = inputs_in(alloc, bytes)?;
    Ok(unlocked_in(alloc, &inputs, bytes, asked)?)
}

/// The files without what the lock says of these packages, or the first words that don't mean one package.
fn unlocked_in<'a>(
    alloc: Global,
    inputs: &Inputs,
    bytes: &Bytes,
    asked: &[(&'a str, Question)],
) -> Result<Unlocked<'a>, AllocError> {
    let mut wanted = Vec::new(alloc);
    for (words, question) in asked {
        match found_in(alloc, inputs, question)? {
            Meant::One(one) => wanted.push(one)?,
            Meant::Absent => return Ok(Unlocked::NoPackage(words, NoWay::Absent)),
            Meant::Several => return Ok(Unlocked::NoPackage(words, NoWay::Several)),
        }
    }
    Ok(Unlocked::Rest(rest_of(alloc, bytes, &wanted)?))
}

/// The package of the lock that is asked for.
pub(crate) fn found_in(
    alloc: Global,
    inputs: &Inputs,
    question: &Question,
) -> Result<Meant, AllocError> {
    match (question, &inputs.lock) {
        (Question::Part(part), _) => meant_in(alloc, inputs, part),
        (Question::Whole(wanted), Some(lock)) => whole_in(lock, wanted),
        (Question::Whole(_), None) => Ok(Meant::Absent),
    }
}

/// The package of this name, and of this version if one is asked for, where just one is such.
fn whole_in(lock: &LockContent, wanted: &Wanted) -> Result<Meant, AllocError> {
    let mut is_found = false;
    for package in lock.packages().iter() {
        if wanted.is(package) {
            if is_found {
                return Ok(Meant::Several);
            }
            is_found = true;
        }
    }
    if is_found {
        Ok(Meant::One(wanted.copy()?))
    } else {
        Ok(Meant::Absent)
    }
}

/// The files without what the lock says of one package.
pub(crate) fn rest_without(
    alloc: Global,
    bytes: &Bytes,
    wanted: &Wanted,
) -> Result<Bytes, AllocError> {
    let mut one = Vec::new(alloc);
    one.push(wanted.copy()?)?;
    rest_of(alloc, bytes, &one)
}

/// The files with a lock that lacks these packages; with none where no package is left, or where these are none.
fn rest_of(alloc: Global, bytes: &Bytes, wanted: &[Wanted]) -> Result<Bytes, AllocError> {
    let mut without = Vec::new(alloc);
    for one in wanted {
        let version = one.version();
        without.push(LeftOut {
            name: &one.name,
            version,
        })?;
    }
    let Readable { lock, packages } = part_without(alloc, lock_in(bytes), &without)?;
    let is_empty = packages == 0 || wanted.is_empty();
    Ok(Bytes {
        manifest: bytes.manifest.clone()?,
        source: bytes.source.clone()?,
        lock: if is_empty {
            None
        } else {
            Some(lock.into_bytes())
        },
    })
}
