//! The lines of all files of an index.

use crate::wanted::name_in;
use catalogue::{LoadFault, check_file};
use features::PackageName;
use index_reader::{Folder, FolderFault, KnownDependencies, Skip, index_path, read_file_in};
use std::alloc::{AllocError, Global};
use trees::{Scratch, TreeFault, as_text, member, read_text, root};

/// The lines that were not used of the files at these paths, by the names of the files in order of their bytes. A file
/// that isn't where the name of a package would be looked for is passed over.
pub fn skips_at<F: Folder>(
    alloc: Global,
    folder: &mut F,
    paths: &[String],
) -> Result<Vec<Skip>, LoadFault> {
    let mut skips = Vec::new(alloc);
    let mut scratch = Scratch::new(alloc);
    let mut known = KnownDependencies::none(alloc);
    for name in names_at(alloc, paths)?.iter() {
        push_skips(alloc, folder, name, &mut scratch, &mut known, &mut skips)?;
    }
    Ok(skips)
}

/// The names of the packages whose files are at these paths.
fn names_at(alloc: Global, paths: &[String]) -> Result<Vec<PackageName>, AllocError> {
    let mut names = Vec::new(alloc);
    for path in paths.iter() {
        if let Some(name) = name_at(alloc, path.as_str())? {
            names.push(name)?;
        }
    }
    names.sort()?;
    Ok(names)
}

/// The name whose file lies at this path in an index, if one does.
fn name_at(alloc: Global, path: &str) -> Result<Option<PackageName>, AllocError> {
    let text = match path.rsplit_once('/') {
        Some((_, text)) => text,
        None => path,
    };
    let Some(name) = name_in(alloc, text)? else {
        return Ok(None);
    };
    let own = index_path(alloc, &name)?;
    if own.as_str() == path {
        Ok(Some(name))
    } else {
        Ok(None)
    }
}

/// Adds the lines of a file that were not used.
fn push_skips<F: Folder>(
    alloc: Global,
    folder: &mut F,
    name: &PackageName,
    scratch: &mut Scratch,
    known: &mut KnownDependencies,
    skips: &mut Vec<Skip>,
) -> Result<(), LoadFault> {
    let path = index_path(alloc, name)?;
    let bytes = match folder.file(path.as_str()) {
        Ok(Some(bytes)) => bytes,
        Ok(None) => return Ok(()),
        Err(FolderFault::OutOfMemory) => return Err(LoadFault::OutOfMemory),
        Err(FolderFault::Failed) => return Err(LoadFault::FolderFailed(path)),
    };
    check_file(name, &bytes)?;
    let spelt = spelt_in(alloc, name, &bytes, scratch)?;
    let name = match &spelt {
        Some(spelt) => spelt,
        None => name,
    };
    let (_, found) = read_file_in(alloc, name, &bytes, scratch, known)?;
    for skip in found.into_iter() {
        skips.push(skip)?;
    }
    Ok(())
}

/// The name of a file as its lines spell it, with the letters that are large there: the first name in them that is the
/// file's but for the case of letters.
fn spelt_in(
    alloc: Global,
    name: &PackageName,
    bytes: &[u8],
    scratch: &mut Scratch,
) -> Result<Option<PackageName>, AllocError> {
    for line in bytes.split(|byte| *byte == b'\n') {
        if let Some(spelt) = name_said(alloc, line, scratch)? {
            let lower = spelt.as_str().to_ascii_lowercase(alloc)?;
            if lower.as_str() == name.as_str() {
                return Ok(Some(spelt));
            }
        }
    }
    Ok(None)
}

/// The name that a line says.
fn name_said(
    alloc: Global,
    line: &[u8],
    scratch: &mut Scratch,
) -> Result<Option<PackageName>, AllocError> {
    let tape = match read_text(alloc, line, scratch) {
        Ok(tape) => tape,
        Err(TreeFault::OutOfMemory) => return Err(AllocError),
        Err(TreeFault::NotJson) => return Ok(None),
    };
    let Some(value) = member(&root(&tape), "name") else {
        return Ok(None);
    };
    let Some(text) = as_text(&value) else {
        return Ok(None);
    };
    name_in(alloc, text)
}
