//! A package that is asked for by the first numbers of its version, as Cargo's package ids have it.

use crate::wanted::{Wanted, name_in, version_in};
use features::PackageName;
use flaws::nearest;
use lockfile::{LockContent, Package};
use semver::Version;
use std::alloc::{AllocError, Global};

/// A package that is asked for by the first number of its version, or the first two.
#[derive(Drop)]
pub struct PartialId {
    name: PackageName,
    /// These numbers, with 0 for the others.
    version: Version,
    has_minor: bool,
}

/// What is asked for by a part of a version in a lock.
#[derive(Drop)]
pub enum Meant {
    /// This package alone.
    One(Wanted),
    Absent,
    Several,
}

/// What `NAME@1` or `NAME@1.2` asks for, if a text is such a one.
pub fn part_in(alloc: Global, text: &str) -> Result<Option<PartialId>, AllocError> {
    let Some((name, numbers)) = text.split_once('@') else {
        return Ok(None);
    };
    let Some(name) = name_in(alloc, name)? else {
        return Ok(None);
    };
    let whole = format!(in alloc; "{numbers}.0.0")?;
    if let Some(version) = numbers_in(alloc, whole.as_str())? {
        return Ok(Some(PartialId {
            name,
            version,
            has_minor: false,
        }));
    }
    let whole = format!(in alloc; "{numbers}.0")?;
    match numbers_in(alloc, whole.as_str())? {
        Some(version) => Ok(Some(PartialId {
            name,
            version,
            has_minor: true,
        })),
        None => Ok(None),
    }
}

/// The version of three numbers that a text is.
fn numbers_in(alloc: Global, text: &str) -> Result<Option<Version>, AllocError> {
    let Some(version) = version_in(alloc, text)? else {
        return Ok(None);
    };
    if version.pre.is_empty() && version.build.is_empty() {
        Ok(Some(version))
    } else {
        Ok(None)
    }
}

/// Which package of a lock a part of a version asks for.
pub fn meant_by(alloc: Global, part: &PartialId, lock: &LockContent) -> Result<Meant, AllocError> {
    let mut found: Option<&Package> = None;
    for package in lock.packages().iter() {
        if part.fits(package) {
            if found.is_some() {
                return Ok(Meant::Several);
            }
            found = Some(package);
        }
    }
    match found {
        Some(package) => Ok(Meant::One(Wanted {
            name: package.name.clone()?,
            version: Some(package.version.clone()?),
        })),
        None => Ok(Meant::Absent),
    }
}

/// The name of a package of a lock that is nearly the one that is asked for.
pub fn similar_name<'a>(
    alloc: Global,
    lock: &'a LockContent,
    name: &str,
) -> Result<Option<&'a str>, AllocError> {
    let mut names = Vec::new(alloc);
    for package in lock.packages().iter() {
        names.push(package.name.as_str())?;
    }
    nearest(alloc, &names, name)
}

impl PartialId {
    /// Whether a package has the name and these numbers; a pre-release has to be asked for as a whole.
    fn fits(&self, package: &Package) -> bool {
        let version = &package.version;
        let is_one = package.name == self.name && version.pre.is_empty();
        let has_major = version.major == self.version.major;
        is_one && has_major && (!self.has_minor || version.minor == self.version.minor)
    }
}
