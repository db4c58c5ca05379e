//! One package of a lock, as it stands there.

use crate::misread::Broken;
use features::{NameFault, PackageName};
use semver::Version;
use std::alloc::{AllocError, Global};
use std::cmp::Ordering;
use toml::{Table, Value};

/// What a section of a lock says of a package, but for its list.
#[derive(Clone, Copy)]
pub(crate) struct Section<'t> {
    pub(crate) name: &'t str,
    pub(crate) version: &'t str,
    pub(crate) source: Option<&'t str>,
    pub(crate) checksum: Option<&'t str>,
}

/// A package with the texts of its list.
#[derive(Clone, Copy)]
pub(crate) struct Listed<'t> {
    pub(crate) section: Section<'t>,
    pub(crate) list: &'t [Value],
}

/// What a section says of a package, if a lock may say so; its list isn't looked at.
pub(crate) fn readable_section(
    alloc: Global,
    table: &Table,
) -> Result<Option<Section<'_>>, AllocError> {
    match section_of(alloc, table) {
        Ok(section) => Ok(Some(section)),
        Err(Broken::OutOfMemory) => Err(AllocError),
        Err(_) => Ok(None),
    }
}

/// A package with its list, or what in it breaks a rule.
pub(crate) fn listed_of(alloc: Global, value: &Value) -> Result<Listed<'_>, Broken<'_>> {
    let Some(table) = value.as_table() else {
        return Err(Broken::NoText("name"));
    };
    let section = section_of(alloc, table)?;
    let list = list_at(table)?;
    Ok(Listed { section, list })
}

/// What a section says of a package, or what in it breaks a rule; its list isn't looked at.
fn section_of(alloc: Global, table: &Table) -> Result<Section<'_>, Broken<'_>> {
    let name = text_at(table, "name")?;
    check_name(alloc, name)?;
    let version = text_at(table, "version")?;
    read_version(alloc, version)?;
    let source = plain_at(table, "source")?;
    let checksum = plain_at(table, "checksum")?;
    Ok(Section {
        name,
        version,
        source,
        checksum,
    })
}

fn check_name(alloc: Global, text: &str) -> Result<(), Broken<'_>> {
    match PackageName::parse(alloc, text) {
        Ok(_) => Ok(()),
        Err(NameFault::NotAName) => Err(Broken::BadText("name", text)),
        Err(NameFault::OutOfMemory) => Err(Broken::OutOfMemory),
    }
}

/// The version that a text is.
pub(crate) fn read_version(alloc: Global, text: &str) -> Result<Version, Broken<'_>> {
    match Version::parse(alloc, text) {
        Ok(version) => Ok(version),
        Err(error) => {
            if error == semver::Error::from(AllocError) {
                Err(Broken::OutOfMemory)
            } else {
                Err(Broken::BadText("version", text))
            }
        }
    }
}

/// The text at a key that has to be there.
fn text_at<'t>(table: &'t Table, key: &'static str) -> Result<&'t str, Broken<'t>> {
    match table.get(key) {
        Some(value) => value.as_str().ok_or(Broken::NoText(key)),
        None => Err(Broken::NoText(key)),
    }
}

/// The text at a key that may be absent, of printable ASCII without `"` and `\`.
fn plain_at<'t>(table: &'t Table, key: &'static str) -> Result<Option<&'t str>, Broken<'t>> {
    let Some(value) = table.get(key) else {
        return Ok(None);
    };
    let Some(text) = value.as_str() else {
        return Err(Broken::NoText(key));
    };
    if text.as_bytes().iter().all(|byte| is_plain(*byte)) {
        Ok(Some(text))
    } else {
        Err(Broken::BadText(key, text))
    }
}

fn is_plain(byte: u8) -> bool {
    matches!(byte, b' '..=b'~') && byte != b'"' && byte != b'\\'
}

/// The elements of the list of a section, none where it has no list.
fn list_at(table: &Table) -> Result<&[Value], Broken<'_>> {
    let Some(value) = table.get("dependencies") else {
        return Ok(&[]);
    };
    let Some(values) = value.as_array() else {
        return Err(Broken::NoList);
    };
    if values.iter().all(|value| value.is_str()) {
        Ok(values.as_slice())
    } else {
        Err(Broken::NoListText)
    }
}

impl Section<'_> {
    /// By name, version and source, each by its bytes; a package without a source first.
    pub(crate) fn compare(&self, other: &Section<'_>) -> Ordering {
        self.name
            .cmp(other.name)
            .then_with(|| self.version.cmp(other.version))
            .then_with(|| self.source.cmp(&other.source))
    }
}
