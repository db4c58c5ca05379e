//! Where and why a lock or a manifest doesn't read.

use crate::answers::form::Form;
use manifest::Manifest;
use std::alloc::{AllocError, Global};
use tables::Misreading;

/// Where and why the bytes of a lock don't read; nothing where they do.
pub(crate) fn misreading_in(
    alloc: Global,
    path: &str,
    lock: &[u8],
    form: Form,
) -> Result<String, AllocError> {
    match lock_faults::misreading_of(alloc, lock)? {
        Some(found) => told(alloc, path, &found, form),
        None => Ok(String::new(alloc)),
    }
}

/// Where and why the bytes of a manifest don't read; nothing where they do.
pub(crate) fn manifest_misreading_in(
    alloc: Global,
    path: &str,
    manifest: &[u8],
    form: Form,
) -> Result<String, AllocError> {
    let Err(fault) = Manifest::read(alloc, manifest) else {
        return Ok(String::new(alloc));
    };
    match manifest_faults::misreading_of(alloc, manifest, &fault)? {
        Some(found) => told(alloc, path, &found, form),
        None => Ok(String::new(alloc)),
    }
}

fn told(alloc: Global, path: &str, found: &Misreading, form: Form) -> Result<String, AllocError> {
    match form {
        Form::People => found.told(alloc, path),
        Form::Programs => reports::messages::misreading(
            alloc,
            path,
            found.line,
            found.why.as_str(),
        ),
    }
}
