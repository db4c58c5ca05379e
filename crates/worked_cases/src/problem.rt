//! A problem of the search: a manifest, and the index that is loaded for it.

use catalogue::{Catalogue, Prefer, Source, load};
use index_reader::DiskFolder;
use lockfile::LockContent;
use manifest::Manifest;
use std::alloc::Global;
use std::rt::Files;
use std::{fs, io};

const SOURCE: &str = "registry+https://github.com/rust-lang/crates.io-index";

/// A manifest and its index as they were read: it owns what a `Problem` of `lookups` borrows.
#[derive(Drop)]
pub(crate) struct Problem {
    pub(crate) manifest: Manifest,
    pub(crate) catalogue: Catalogue,
}

/// The problem in a folder.
pub(crate) fn read_problem<R: Files + AllocGlobal + Clone + Drop>(
    rt: &R,
    folder: &str,
) -> io::Result<Problem> {
    let manifest = read_manifest(rt, folder)?;
    let catalogue = read_index(rt, folder, &manifest)?;
    Ok(Problem {
        manifest,
        catalogue,
    })
}

fn read_manifest<R: Files + AllocGlobal>(rt: &R, folder: &str) -> io::Result<Manifest> {
    let path = format!(in rt.alloc(); "{folder}/Cargo.toml")?;
    let bytes = fs::read(rt, path.as_str())?;
    match Manifest::read(rt.alloc(), bytes.as_slice()) {
        Ok(manifest) => Ok(manifest),
        Err(_) => Err(wrong()),
    }
}

fn read_index<R: Files + AllocGlobal + Clone + Drop>(
    rt: &R,
    folder: &str,
    manifest: &Manifest,
) -> io::Result<Catalogue> {
    let lock = read_lock(rt, folder)?;
    let path = format!(in rt.alloc(); "{folder}/index")?;
    let Ok(source) = Source::parse(rt.alloc(), SOURCE) else {
        return Err(wrong());
    };
    let mut files = DiskFolder::open(rt, path.as_str())?;
    match load(
        rt.alloc(),
        manifest,
        &mut files,
        lock.as_ref(),
        &source,
        Prefer::Newest,
    ) {
        Ok(catalogue) => Ok(catalogue),
        Err(_) => Err(wrong()),
    }
}

/// The old lock, where there is one.
fn read_lock<R: Files + AllocGlobal>(rt: &R, folder: &str) -> io::Result<Option<LockContent>> {
    let path = format!(in rt.alloc(); "{folder}/Cargo.lock")?;
    match fs::read(rt, path.as_str()) {
        Ok(bytes) => Ok(Some(lock_of(rt.alloc(), bytes.as_slice())?)),
        Err(e) if e.kind() == io::ErrorKind::NotFound => Ok(None),
        Err(e) => Err(e),
    }
}

fn lock_of(alloc: Global, bytes: &[u8]) -> io::Result<LockContent> {
    match lockfile::read(alloc, bytes) {
        Ok(content) => Ok(content),
        Err(_) => Err(wrong()),
    }
}

fn wrong() -> io::Error {
    io::Error::from(io::ErrorKind::InvalidData)
}
