//! A folder in which some packages have some of their versions alone.

use features::PackageName;
use index_reader::{Folder, FolderFault, LineFault, index_path, read_line};
use semver::Version;
use std::alloc::{AllocError, Global};
use std::collections::BTreeMap;

/// The versions that packages have alone, by the paths of their files.
#[derive(Drop)]
pub struct Pins {
    alloc: Global,
    pins: BTreeMap<String, Pin>,
}

#[derive(Drop)]
struct Pin {
    name: PackageName,
    versions: Vec<Version>,
}

impl Pins {
    pub(crate) fn none(alloc: Global) -> Pins {
        Pins {
            alloc,
            pins: BTreeMap::new(alloc),
        }
    }

    /// One version more that a package has.
    pub(crate) fn add(&mut self, name: &PackageName, version: &Version) -> Result<(), AllocError> {
        let path = index_path(self.alloc, name)?;
        let version = version.clone()?;
        if let Some(pin) = self.pins.get_mut(path.as_str()) {
            pin.versions.push(version)?;
            return Ok(());
        }
        let mut versions = Vec::new(self.alloc);
        versions.push(version)?;
        let name = name.clone()?;
        self.pins.insert(path, Pin { name, versions })?;
        Ok(())
    }

    /// What is left of the file at a path.
    fn rest_of(&self, path: &str, file: Vec<u8>) -> Result<Vec<u8>, AllocError> {
        match self.pins.get(path) {
            Some(pin) => lines_of(self.alloc, pin, &file),
            None => Ok(file),
        }
    }
}

/// The lines of a file that are of one of the versions.
fn lines_of(alloc: Global, pin: &Pin, file: &[u8]) -> Result<Vec<u8>, AllocError> {
    let mut lines = Vec::new(alloc);
    for line in file.split(|byte| *byte == b'\n') {
        if is_pinned(alloc, pin, line)? {
            lines.extend_from_slice(line)?;
            lines.push(b'\n')?;
        }
    }
    Ok(lines)
}

/// Whether a line is the record of one of the versions.
fn is_pinned(alloc: Global, pin: &Pin, line: &[u8]) -> Result<bool, AllocError> {
    match read_line(alloc, &pin.name, line) {
        Ok(record) => Ok(
            pin.versions
                .iter()
                .any(|version| *version == record.version),
        ),
        Err(LineFault::OutOfMemory) => Err(AllocError),
        Err(_) => Ok(false),
    }
}

/// A folder whose files have no other versions than the pinned ones, where there are such.
#[derive(Drop)]
pub struct Pinned<F: Folder + Drop> {
    folder: F,
    pins: Pins,
}

impl<F: Folder + Drop> Pinned<F> {
    pub fn new(folder: F, pins: Pins) -> Pinned<F> {
        Pinned { folder, pins }
    }
}

impl<F: Folder + Drop> Folder for Pinned<F> {
    ghost calls = { λ _ _ _ _. Unit {0} };

    ghost failed = { λ pinned. F.failed pinned.folder };

    fn file(&mut self, path: &str) -> Result<Option<Vec<u8>>, FolderFault> {
        let Some(file) = self.folder.file(path)? else {
            return Ok(None);
        };
        match self.pins.rest_of(path, file) {
            Ok(rest) => Ok(Some(rest)),
            Err(_) => Err(FolderFault::OutOfMemory),
        }
    }

    fn failures(&self) -> u64 {
        self.folder.failures()
    }
}
