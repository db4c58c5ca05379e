//! Why an index has no candidate of a version.

use crate::flawed::Flawed;
use crate::index_file::{newest_in, skipped_in};
use crate::package_file::{IndexFile, file_of, out_of_memory};
use catalogue::Catalogue;
use features::PackageName;
use index_reader::{Folder, FolderFault, SkipReason};
use lockfile::Package;
use semver::Version;
use std::alloc::{AllocError, Global};
use std::fmt;

/// Why an index has no candidate of a version.
#[derive(Drop)]
pub enum MissingVersion {
    /// Nothing that is known of depends on its name.
    Unasked,
    /// There is no file of its name.
    NoPackage,
    /// Its line, by the number from 1, is skipped.
    Skipped(u64, SkipReason),
    /// There is no line of it; the newest version that can be used, if there is one.
    NoLine(Option<Version>),
}

/// Why no candidate has a package's version; the folder is asked for the file of its name.
pub fn why_missing<F: Folder>(
    alloc: Global,
    catalogue: &Catalogue,
    package: &Package,
    folder: &mut F,
) -> Result<MissingVersion, FolderFault> {
    if !is_asked_for(catalogue, &package.name) {
        return Ok(MissingVersion::Unasked);
    }
    match file_of(alloc, folder, &package.name)? {
        Some(file) => why_no_line(alloc, &package.version, &file).map_err(out_of_memory),
        None => Ok(MissingVersion::NoPackage),
    }
}

/// Why an index can't give a version of a package, if it can't.
pub fn why_lost<F: Folder>(
    alloc: Global,
    name: &PackageName,
    version: &Version,
    folder: &mut F,
) -> Result<Option<MissingVersion>, FolderFault> {
    let Some(file) = file_of(alloc, folder, name)? else {
        return Ok(Some(MissingVersion::NoPackage));
    };
    let mut records = file.records.iter();
    if records.any(|record| record.version == *version) {
        return Ok(None);
    }
    let why = why_no_line(alloc, version, &file).map_err(out_of_memory)?;
    Ok(Some(why))
}

/// `this index has no such version; the newest is 0.4.20`.
#[derive(Clone, Copy)]
pub struct MissingTold<'a> {
    pub name: &'a PackageName,
    pub why: &'a MissingVersion,
}

impl fmt::Display for MissingTold<'_> {
    fn fmt<W: fmt::Write>(&self, f: &mut fmt::Formatter<W>) -> fmt::Result {
        let name = self.name;
        match self.why {
            MissingVersion::Unasked => write!(f, "nothing depends on {name}"),
            MissingVersion::NoPackage => write!(f, "there is no package {name} in this index"),
            MissingVersion::Skipped(line, reason) => write!(
                f,
                "line {line} of {name} in this index is skipped ({reason})"
            ),
            MissingVersion::NoLine(Some(newest)) => write!(
                f,
                "this index has no such version; the newest is {newest}"
            ),
            MissingVersion::NoLine(None) => f.write_str("this index has no such version"),
        }
    }
}

/// Whether something that was loaded depends on a name.
fn is_asked_for(catalogue: &Catalogue, name: &PackageName) -> bool {
    catalogue.names().iter().any(|asked| asked == name)
}

/// Of each package of a lock whether one that is no candidate lists it: nobody knows whether it is needed there.
pub fn listed_in(
    alloc: Global,
    packages: &[Package],
    flawed: &[Flawed],
) -> Result<Vec<bool>, AllocError> {
    let mut listed = Vec::new(alloc);
    for _ in packages.iter() {
        listed.push(false)?;
    }
    for flawed in flawed.iter() {
        if flawed.no_candidate.is_some() {
            if let Some(package) = packages.get(flawed.place) {
                mark(&mut listed, &package.list);
            }
        }
    }
    Ok(listed)
}

fn mark(listed: &mut [bool], list: &[usize]) {
    for place in list.iter() {
        if let Some(is_listed) = listed.get_mut(*place) {
            *is_listed = true;
        }
    }
}

/// Why a file has no line of a version that can be used.
fn why_no_line(
    alloc: Global,
    version: &Version,
    file: &IndexFile,
) -> Result<MissingVersion, AllocError> {
    if let Some((line, reason)) = skipped_in(alloc, file, version) {
        return Ok(MissingVersion::Skipped(line, reason));
    }
    match newest_in(file) {
        Some(newest) => Ok(MissingVersion::NoLine(Some(newest.clone()?))),
        None => Ok(MissingVersion::NoLine(None)),
    }
}
