//! The package that somebody asks for.

ghost use Rattle.std.specs.Prelude.{◌≡◌, IfOk, option_map};
ghost use Rattle.semver.specs.Identifiers.{parts_of};
ghost use Rattle.semver.specs.Parse.{version_parts};
ghost use Rattle.reports.specs.inner.Asked.{asked, asked_view, name_of, version_if, with_none, with_version};

use features::{NameFault, PackageName, name_and_version};
use lockfile::Package;
use semver::Version;
use std::alloc::{AllocError, Global};

/// A package that is asked for.
#[derive(Drop)]
pub struct Wanted {
    pub name: PackageName,
    pub version: Option<Version>,
}

impl Wanted {
    /// The version that is asked for, if one is.
    pub fn version(&self) -> Option<&Version>
        ensures { option_map (λ v. parts_of v.now) result ≡ option_map parts_of self.now.version }
    {
        match &self.version {
            Some(version) => Some(version),
            None => None,
        }
    }

    /// Whether a package of a lock has this name, and the version, if one is asked for.
    pub fn is(&self, package: &Package) -> bool {
        let is_version = match self.version() {
            Some(version) => *version == package.version,
            None => true,
        };
        is_version && package.name == self.name
    }

    /// The same once more.
    pub fn copy(&self) -> Result<Wanted, AllocError> {
        let version = match &self.version {
            Some(version) => Some(version.clone()?),
            None => None,
        };
        Ok(Wanted {
            name: self.name.clone()?,
            version,
        })
    }
}

/// What `NAME` or `NAME@VERSION` asks for, if a text is such a one.
pub fn package_in(alloc: Global, text: &str) -> Result<Option<Wanted>, AllocError>
    ensures { IfOk result (λ o. option_map asked_view o ≡ asked text.now) }
{
    match name_and_version(text) {
        Some((name, version)) => with_version(alloc, name, version),
        None => with_none(alloc, text),
    }
}

/// `NAME`
fn with_none(alloc: Global, text: &str) -> Result<Option<Wanted>, AllocError>
    ensures { IfOk result (λ o. option_map asked_view o ≡ with_none (name_of text.now)) }
{
    match name_in(alloc, text)? {
        Some(name) => Ok(Some(Wanted {
            name,
            version: None,
        })),
        None => Ok(None),
    }
}

/// `NAME@VERSION`
fn with_version(alloc: Global, name: &str, text: &str) -> Result<Option<Wanted>, AllocError>
    ensures { IfOk result
        (λ o. option_map asked_view o ≡ with_version (name_of name.now) (version_if (version_parts text.now))) }
{
    let Some(name) = name_in(alloc, name)? else {
        return Ok(None);
    };
    match version_in(alloc, text)? {
        Some(version) => Ok(Some(Wanted {
            name,
            version: Some(version),
        })),
        None => Ok(None),
    }
}

pub(crate) fn name_in(alloc: Global, text: &str) -> Result<Option<PackageName>, AllocError>
    ensures { IfOk result (λ o. o ≡ name_of text.now) }
{
    match PackageName::parse(alloc, text) {
        Ok(name) => Ok(Some(name)),
        Err(NameFault::NotAName) => Ok(None),
        Err(NameFault::OutOfMemory) => Err(AllocError),
    }
}

/// The version that a text is, if it is one.
pub(crate) fn version_in(alloc: Global, text: &str) -> Result<Option<Version>, AllocError>
    ensures { IfOk result (λ o. option_map parts_of o ≡ version_if (version_parts text.now)) }
{
    match Version::parse(alloc, text) {
        Ok(version) => Ok(Some(version)),
        Err(e) => {
            if e == semver::Error::from(AllocError) {
                Err(AllocError)
            } else {
                Ok(None)
            }
        }
    }
}
