//! What Cargo refuses of a lock that is a valid selection: a cycle of packages, and two that link to one library (Cargo
//! book, "The `links` Field").
//!
//! Packages whose lists lead nowhere are taken away, then those that list such alone, and so on: what is left leads
//! round, and from each of these some step stays among them, so that many steps end in a cycle.

use crate::refused::Refused;
use features::PackageName;
use flaws::out_of_memory;
use index_reader::{Folder, FolderFault, index_path};
use lockfile::{LockContent, Package};
use semver::Version;
use std::alloc::{AllocError, Global};
use std::collections::BTreeMap;
use std::str::from_utf8;
use trees::{Scratch, Tree, TreeFault, as_text, member, read_text, root};

/// A cycle of packages, if there is one, and each package that links to the library of another. Of the libraries
/// nothing is found where the folder fails.
pub fn refused_by_cargo<F: Folder>(
    alloc: Global,
    folder: &mut F,
    lock: &LockContent,
) -> Result<Vec<Refused>, AllocError> {
    let packages = lock.packages();
    let mut refused = Vec::new(alloc);
    if let Some(cycle) = cycle_in(alloc, packages)? {
        refused.push(Refused::Cycle(cycle))?;
    }
    match push_links(alloc, folder, packages, &mut refused) {
        Ok(()) | Err(FolderFault::Failed) => Ok(refused),
        Err(FolderFault::OutOfMemory) => Err(AllocError),
    }
}

/// The places of the packages of a cycle, in the order of its lists, if there is one.
fn cycle_in(alloc: Global, packages: &[Package]) -> Result<Option<Vec<usize>>, AllocError> {
    let open = open_in(alloc, packages)?;
    let Some(start) = open.iter().position(|is_open| *is_open) else {
        return Ok(None);
    };
    let mut at = start;
    for _ in packages.iter() {
        at = next_open(packages, &open, at);
    }
    let mut cycle = Vec::new(alloc);
    cycle.push(at)?;
    let mut next = next_open(packages, &open, at);
    for _ in packages.iter() {
        if next != at {
            cycle.push(next)?;
            next = next_open(packages, &open, next);
        }
    }
    Ok(Some(cycle))
}

/// A package on the list of one whose list leads round, that leads round too.
fn next_open(packages: &[Package], open: &[bool], at: usize) -> usize {
    let Some(package) = packages.get(at) else {
        return at;
    };
    let mut listed = package.list.iter();
    let next = listed.find(|place| open.get(**place) == Some(&true));
    next.copied().unwrap_or(at)
}

/// Of each package whether its list leads round.
fn open_in(alloc: Global, packages: &[Package]) -> Result<Vec<bool>, AllocError> {
    let listers = listers_in(alloc, packages)?;
    let mut open = Vec::new(alloc);
    let mut left = Vec::new(alloc);
    let mut done = Vec::new(alloc);
    for (place, package) in packages.iter().enumerate() {
        open.push(true)?;
        left.push(package.list.len())?;
        if package.list.is_empty() {
            done.push(place)?;
        }
    }
    for step in 0..packages.len() {
        let Some(place) = done.get(step).copied() else {
            return Ok(open);
        };
        if let Some(is_open) = open.get_mut(place) {
            *is_open = false;
        }
        if let Some(listers) = listers.get(place) {
            settle(listers, &mut left, &mut done)?;
        }
    }
    Ok(open)
}

/// Each of some packages has one listed package less to lead round by; those without one are done.
fn settle(listers: &[usize], left: &mut [usize], done: &mut Vec<usize>) -> Result<(), AllocError> {
    for lister in listers.iter() {
        if let Some(left) = left.get_mut(*lister) {
            *left = left.saturating_sub(1);
            if *left == 0 {
                done.push(*lister)?;
            }
        }
    }
    Ok(())
}

/// Of each package those on whose lists it is.
fn listers_in(alloc: Global, packages: &[Package]) -> Result<Vec<Vec<usize>>, AllocError> {
    let mut listers = Vec::new(alloc);
    for _ in packages.iter() {
        listers.push(Vec::new(alloc))?;
    }
    for (place, package) in packages.iter().enumerate() {
        list_at(&mut listers, package, place)?;
    }
    Ok(listers)
}

fn list_at(listers: &mut [Vec<usize>], package: &Package, place: usize) -> Result<(), AllocError> {
    for listed in package.list.iter() {
        if let Some(listers) = listers.get_mut(*listed) {
            listers.push(place)?;
        }
    }
    Ok(())
}

/// Adds each package that links to the library of one before it.
fn push_links<F: Folder>(
    alloc: Global,
    folder: &mut F,
    packages: &[Package],
    refused: &mut Vec<Refused>,
) -> Result<(), FolderFault> {
    let mut scratch = Scratch::new(alloc);
    let mut linked: BTreeMap<String, usize> = BTreeMap::new(alloc);
    for (place, package) in packages.iter().enumerate() {
        if package.source().is_some() {
            if let Some(library) = library_of(alloc, folder, package, &mut scratch)? {
                let told = match linked.get(library.as_str()).copied() {
                    Some(other) => push_both(refused, library, other, place),
                    None => insert(&mut linked, library, place),
                };
                told.map_err(out_of_memory)?;
            }
        }
    }
    Ok(())
}

fn insert(
    linked: &mut BTreeMap<String, usize>,
    library: String,
    place: usize,
) -> Result<(), AllocError> {
    linked.insert(library, place)?;
    Ok(())
}

fn push_both(
    refused: &mut Vec<Refused>,
    library: String,
    one: usize,
    other: usize,
) -> Result<(), AllocError> {
    refused.push(Refused::Links(library, one, other))?;
    Ok(())
}

/// The library to which a package links, as its line in the index says.
fn library_of<F: Folder>(
    alloc: Global,
    folder: &mut F,
    package: &Package,
    scratch: &mut Scratch,
) -> Result<Option<String>, FolderFault> {
    let Some(file) = file_of(alloc, folder, &package.name)? else {
        return Ok(None);
    };
    let version = text_of(alloc, &package.version).map_err(out_of_memory)?;
    for line in file.split(|byte| *byte == b'\n') {
        if may_link(line) {
            let library = library_in(alloc, line, version.as_str(), scratch);
            if let Some(library) = library.map_err(out_of_memory)? {
                return Ok(Some(library));
            }
        }
    }
    Ok(None)
}

fn file_of<F: Folder>(
    alloc: Global,
    folder: &mut F,
    name: &PackageName,
) -> Result<Option<Vec<u8>>, FolderFault> {
    let path = index_path(alloc, name).map_err(out_of_memory)?;
    folder.file(path.as_str())
}

fn text_of(alloc: Global, version: &Version) -> Result<String, AllocError> {
    format!(in alloc; "{version}")
}

/// Few lines name a library, so only these are read.
fn may_link(line: &[u8]) -> bool {
    match from_utf8(line) {
        Ok(text) => text.contains("\"links\""),
        Err(_) => false,
    }
}

/// The library that a line names, if it is of this version.
fn library_in(
    alloc: Global,
    line: &[u8],
    version: &str,
    scratch: &mut Scratch,
) -> Result<Option<String>, AllocError> {
    let read = match read_text(alloc, line, scratch) {
        Ok(read) => read,
        Err(TreeFault::OutOfMemory) => return Err(AllocError),
        Err(_) => return Ok(None),
    };
    let line = root(&read);
    match (text_at(&line, "vers"), text_at(&line, "links")) {
        (Some(found), Some(library)) if found == version => {
            Ok(Some(String::from_str(alloc, library)?))
        }
        _ => Ok(None),
    }
}

fn text_at<'a>(line: &Tree<'_, 'a>, key: &str) -> Option<&'a str> {
    as_text(&member(line, key)?)
}
