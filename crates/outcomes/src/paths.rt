//! Where the files of a project are.

use std::alloc::{AllocError, Global};

/// Where the files of a run are.
#[derive(Drop)]
pub struct Paths<'a> {
    pub manifest: &'a str,
    pub lock: String,
    pub index: String,
    /// Whether the index is what Cargo fetched of it.
    pub is_fetched: bool,
    /// The source of the packages of the index, as locks have it.
    pub source: &'a str,
}

/// The path of the lock: the one that is named, else `Cargo.lock` beside the manifest.
pub fn lock_at(alloc: Global, named: Option<&str>, manifest: &str) -> Result<String, AllocError> {
    match named {
        Some(lock) => String::from_str(alloc, lock),
        None => beside(alloc, manifest),
    }
}

fn beside(alloc: Global, manifest: &str) -> Result<String, AllocError> {
    match manifest.rsplit_once('/') {
        Some((folder, _)) => format!(in alloc; "{folder}/Cargo.lock"),
        None => String::from_str(alloc, "Cargo.lock"),
    }
}
