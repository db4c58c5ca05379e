//! What can be read of a lock that can't be read as a whole.

use crate::marks::{Side, first_mark, side_of};
use crate::misread::Broken;
use crate::section::{Section, read_version, readable_section};
use classes::{Class, version_order};
use features::PackageName;
use semver::Version;
use std::alloc::{AllocError, Global};
use std::cmp::Ordering;
use tables::read_table;
use toml::{Table, Value};

/// A lock of the packages that could be read, each without its list, and how many these are.
#[derive(Drop)]
pub struct Readable {
    pub lock: String,
    pub packages: usize,
}

/// A package that is left out, or with no version all of its name.
#[derive(Clone, Copy)]
pub struct LeftOut<'a> {
    pub name: &'a PackageName,
    pub version: Option<&'a Version>,
}

/// A package of an index, with its version.
#[derive(Drop)]
struct Entry<'a> {
    section: Section<'a>,
    version: Version,
}

/// What can be read of a lock: each package that has a name, a version, a source and a checksum, and of those of one
/// name, source and class the newest; of those that are alike in this too the first. Where the lock is no TOML, these
/// are the packages of its sides, if it has the marks of a merge, ours first, and of a side that is no TOML those of
/// its sections that are.
pub fn readable_part(alloc: Global, bytes: &[u8]) -> Result<Readable, AllocError> {
    part_without(alloc, bytes, &[])
}

/// The same without some packages.
pub fn part_without(
    alloc: Global,
    bytes: &[u8],
    without: &[LeftOut<'_>],
) -> Result<Readable, AllocError> {
    let mut tables = Vec::new(alloc);
    if !push_table(alloc, bytes, &mut tables)? {
        push_sides(alloc, bytes, &mut tables)?;
    }
    part_of(alloc, &tables, without)
}

/// Adds the table that bytes are, and whether they are one.
fn push_table(alloc: Global, bytes: &[u8], tables: &mut Vec<Table>) -> Result<bool, AllocError> {
    let Some(table) = read_table(alloc, bytes)? else {
        return Ok(false);
    };
    tables.push(table)?;
    Ok(true)
}

/// Adds the tables of both sides of a merge, else those of the sections of the lock.
fn push_sides(alloc: Global, bytes: &[u8], tables: &mut Vec<Table>) -> Result<(), AllocError> {
    if first_mark(bytes).is_none() {
        return push_sections(alloc, bytes, tables);
    }
    push_side(alloc, bytes, Side::Ours, tables)?;
    push_side(alloc, bytes, Side::Theirs, tables)
}

fn push_side(
    alloc: Global,
    bytes: &[u8],
    side: Side,
    tables: &mut Vec<Table>,
) -> Result<(), AllocError> {
    let text = side_of(alloc, bytes, side)?;
    if push_table(alloc, &text, tables)? {
        return Ok(());
    }
    push_sections(alloc, &text, tables)
}

/// Adds the tables of the sections that are TOML: a line with a header begins one.
fn push_sections(alloc: Global, bytes: &[u8], tables: &mut Vec<Table>) -> Result<(), AllocError> {
    let mut section = Vec::new(alloc);
    for line in bytes.split(|byte| *byte == b'\n') {
        if line.starts_with("[".as_bytes()) {
            push_table(alloc, &section, tables)?;
            section.clear();
        }
        section.extend_from_slice(line)?;
        section.push(b'\n')?;
    }
    push_table(alloc, &section, tables)?;
    Ok(())
}

fn part_of(
    alloc: Global,
    tables: &[Table],
    without: &[LeftOut<'_>],
) -> Result<Readable, AllocError> {
    let mut entries = Vec::new(alloc);
    for table in tables.iter() {
        push_packages(alloc, table, &mut entries)?;
    }
    entries.sort_by(|one, other| entry_order(one, other))?;
    // Those of one kind stand beside each other, the newest first.
    entries.dedup_by(|next, first| kind_order(first, next) == Ordering::Equal);
    entries.retain(|entry| !is_left_out(entry, without));
    lock_of(alloc, &entries)
}

fn is_left_out(entry: &Entry<'_>, without: &[LeftOut<'_>]) -> bool {
    without.iter().any(|out| {
        let is_version = match out.version {
            Some(version) => *version == entry.version,
            None => true,
        };
        is_version && out.name.as_str() == entry.section.name
    })
}

/// Adds the packages of a table, as far as they are whole.
fn push_packages<'a>(
    alloc: Global,
    table: &'a Table,
    entries: &mut Vec<Entry<'a>>,
) -> Result<(), AllocError> {
    let Some(packages) = table
        .get("package")
        .and_then(|value: &Value| value.as_array())
    else {
        return Ok(());
    };
    for value in packages.iter() {
        if let Some(table) = value.as_table() {
            push_package(alloc, table, entries)?;
        }
    }
    Ok(())
}

/// Adds the package of a section, if it is whole.
fn push_package<'a>(
    alloc: Global,
    table: &'a Table,
    entries: &mut Vec<Entry<'a>>,
) -> Result<(), AllocError> {
    let Some(section) = readable_section(alloc, table)? else {
        return Ok(());
    };
    if section.source.is_none() || section.checksum.is_none() {
        return Ok(());
    }
    let version = match read_version(alloc, section.version) {
        Ok(version) => version,
        Err(Broken::OutOfMemory) => return Err(AllocError),
        Err(_) => return Ok(()),
    };
    entries.push(Entry { section, version })?;
    Ok(())
}

/// By name, source and class, the newest first, so that those of one of each stand beside each other.
fn entry_order(one: &Entry<'_>, other: &Entry<'_>) -> Ordering {
    kind_order(one, other).then_with(|| version_order(&other.version, &one.version))
}

fn kind_order(one: &Entry<'_>, other: &Entry<'_>) -> Ordering {
    one.section
        .name
        .cmp(other.section.name)
        .then_with(|| one.section.source.cmp(&other.section.source))
        .then_with(|| Class::of(&one.version).cmp(&Class::of(&other.version)))
}

/// The lock of these packages.
fn lock_of(alloc: Global, entries: &[Entry<'_>]) -> Result<Readable, AllocError> {
    let mut lock = String::from_str(alloc, "version = 4\n")?;
    for entry in entries.iter() {
        push_lines(&mut lock, entry.section)?;
    }
    let packages = entries.len();
    Ok(Readable { lock, packages })
}

fn push_lines(lock: &mut String, section: Section<'_>) -> Result<(), AllocError> {
    let Section { name, version, .. } = section;
    let source = section.source.unwrap_or("");
    let checksum = section.checksum.unwrap_or("");
    write!(
        lock,
        "\n[[package]]\nname = \"{name}\"\nversion = \"{version}\"\n"
    )?;
    write!(lock, "source = \"{source}\"\nchecksum = \"{checksum}\"\n")
}
