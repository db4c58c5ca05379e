//! The files below an index folder.

use crate::fault::ReadFault;
use crate::reading::{check_index, fault_at};
use std::alloc::{AllocError, Global};
use std::fs;
use std::io::{self, ErrorKind};
use std::rt::Files;

/// Whether there is nothing at a path.
pub fn is_missing<R: Files>(rt: &R, path: &str) -> bool {
    match fs::metadata(rt, path) {
        Ok(_) => false,
        Err(error) => error.kind() == ErrorKind::NotFound,
    }
}

/// The paths, below an index folder, of the files that lie in it and in folders of it, two deep, as those of an index
/// do. What has a name that begins with a dot is passed over.
pub fn paths_below<'a, R: Files + AllocGlobal + Clone + Drop>(
    rt: &R,
    index: &'a str,
) -> Result<Vec<String>, ReadFault<'a>> {
    check_index(rt, index)?;
    match listed(rt, index) {
        Ok(paths) => Ok(paths),
        Err(error) => Err(fault_at(index, error)),
    }
}

fn listed<R: Files + AllocGlobal + Clone + Drop>(rt: &R, index: &str) -> io::Result<Vec<String>> {
    let mut paths = Vec::new(rt.alloc());
    for folder in list(rt, index, "", &mut paths)?.iter() {
        for below in list(rt, index, folder.as_str(), &mut paths)?.iter() {
            list(rt, index, below.as_str(), &mut paths)?;
        }
    }
    Ok(paths)
}

/// The names in a folder.
pub(crate) fn list_names<R: Files + AllocGlobal + Clone + Drop>(
    rt: &R,
    folder: &str,
) -> io::Result<Vec<String>> {
    let mut names = Vec::new(rt.alloc());
    for entry in fs::read_dir(rt, folder)? {
        names.push(String::from_str(rt.alloc(), entry?.file_name())?)?;
    }
    Ok(names)
}

/// Adds the paths of the files in a folder below the index, and answers those of its folders.
fn list<R: Files + AllocGlobal + Clone + Drop>(
    rt: &R,
    index: &str,
    folder: &str,
    paths: &mut Vec<String>,
) -> io::Result<Vec<String>> {
    let alloc = rt.alloc();
    let whole = path_in(alloc, index, folder)?;
    let mut folders = Vec::new(alloc);
    for entry in fs::read_dir(rt, whole.as_str())? {
        let entry = entry?;
        let name = entry.file_name();
        if !name.starts_with('.') {
            let path = path_in(alloc, folder, name)?;
            if entry.file_type()?.is_dir() {
                folders.push(path)?;
            } else {
                paths.push(path)?;
            }
        }
    }
    Ok(folders)
}

/// A path below a folder; each of the two may be empty.
fn path_in(alloc: Global, folder: &str, path: &str) -> Result<String, AllocError> {
    if folder.is_empty() {
        String::from_str(alloc, path)
    } else if path.is_empty() {
        String::from_str(alloc, folder)
    } else {
        format!(in alloc; "{folder}/{path}")
    }
}
