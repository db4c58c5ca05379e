//! The manifests above another, of which one may be that of its workspace.

use crate::reading::{MANIFEST_BYTES, front_of};
use std::alloc::{AllocError, Global};
use std::fs;
use std::rt::Files;

/// A manifest that lies above another.
#[derive(Drop)]
pub struct Above {
    pub path: String,
    pub bytes: Vec<u8>,
    /// The folder of the other one, from this one's.
    pub below: String,
}

/// The manifests in the folders above that of a manifest, the nearest first. What can't be read isn't there.
pub fn manifests_above<R: Files + AllocGlobal>(
    rt: &R,
    manifest: &str,
) -> Result<Vec<Above>, AllocError> {
    let alloc = rt.alloc();
    let mut found = Vec::new(alloc);
    let Ok(whole) = fs::canonicalize(rt, manifest) else {
        return Ok(found);
    };
    let (folder, _) = whole.as_str().rsplit_once('/').unwrap_or(("", ""));
    let names: Vec<&str> = folder.split('/').collect(alloc)?;
    let mut up = folder_of(alloc, manifest)?;
    for at in (1..names.len()).rev() {
        up = folder_above(alloc, up.as_str())?;
        let path = format!(in alloc; "{up}Cargo.toml")?;
        if let Ok(bytes) = front_of(rt, path.as_str(), MANIFEST_BYTES) {
            let below = joined(alloc, &names[at..])?;
            found.push(Above { path, bytes, below })?;
        }
    }
    Ok(found)
}

/// The folder of a file with what stands behind it, as `sub/`; nothing for the present one.
fn folder_of(alloc: Global, path: &str) -> Result<String, AllocError> {
    match path.rsplit_once('/') {
        Some((folder, _)) => format!(in alloc; "{folder}/"),
        None => Ok(String::new(alloc)),
    }
}

/// The folder above a folder, which has a `/` behind it or is the present one.
fn folder_above(alloc: Global, folder: &str) -> Result<String, AllocError> {
    let whole = folder.trim_end_matches('/');
    let (above, name) = match whole.rsplit_once('/') {
        Some((above, name)) => (format!(in alloc; "{above}/")?, name),
        None => (String::new(alloc), whole),
    };
    if matches!(name, "" | "." | "..") {
        format!(in alloc; "{folder}../")
    } else {
        Ok(above)
    }
}

fn joined(alloc: Global, names: &[&str]) -> Result<String, AllocError> {
    let mut path = String::new(alloc);
    for name in names.iter() {
        if !path.is_empty() {
            path.push('/')?;
        }
        path.push_str(name)?;
    }
    Ok(path)
}
