//! Look-ups in the tables of a lock.

ghost use Rattle.std.specs.Prelude.{◌≡◌, ◌≢◌, ◌⊎◌, true, option_map, string_bytes, IfOk};
ghost use Rattle.std.specs.List.{list_all};
ghost use Rattle.features.specs.Names.{is_package_name};
ghost use Rattle.semver.specs.Grammar.{IsValid};
ghost use Rattle.semver.specs.Identifiers.{parts_of};
ghost use Rattle.semver.specs.Parse.{memory_error};
ghost use Rattle.std.specs.Option.{ok_or};
ghost use Rattle.toml.specs.Data.{as_str};
ghost use Rattle.toml.specs.View.{table_view, items_view};
ghost use Rattle.model.specs.Outcome.{Gives, guard};
ghost use Rattle.lockfile.specs.Locks.{wants_memory, is_known_version, version_known, text_at};
ghost use Rattle.lockfile.specs.Locks.{checked, checked_version, is_plain_byte, plain_at, each_item};
ghost use Rattle.lockfile.specs.Locks.{dependencies_at};
ghost use Rattle.features.specs.Views.{text_views};

use crate::fault::LockFault;
use features::{NameFault, PackageName};
use semver::Version;
use std::alloc::{AllocError, Global};
use tables::member;
use toml::{Table, Value};

/// A fault for what doesn't pass.
pub(crate) fn check(passes: bool, fault: LockFault) -> Result<(), LockFault>
    ensures { Gives wants_memory (λ u. u) result (guard passes fault) }
{
    if passes { Ok(()) } else { Err(fault) }
}

/// A fault for a `version` of the format that isn't read.
pub(crate) fn check_version(table: &Table) -> Result<(), LockFault>
    ensures { Gives wants_memory (λ u. u) result (version_known (table_view table.now)) }
{
    let Some(value) = member(table, "version") else {
        return Ok(());
    };
    let Some(version) = value.as_integer() else {
        return Err(LockFault::LockShape);
    };
    check(is_known(version), LockFault::LockVersion)
}

fn is_known(version: i64) -> bool
    ensures { result ≡ is_known_version version }
{
    1 <= version && version <= 4
}

/// The text at a key that has to be there.
pub(crate) fn text<'a>(section: &'a Table, key: &str) -> Result<&'a str, LockFault>
    ensures { Gives wants_memory (λ s. s.now) result (text_at key.now (table_view section.now)) }
{
    match member(section, key) {
        Some(value) => match value.as_str() {
            Some(text) => Ok(text),
            None => Err(LockFault::LockShape),
        },
        None => Err(LockFault::LockShape),
    }
}

/// The package name that a text has to be.
pub(crate) fn package_name(alloc: Global, text: &str) -> Result<PackageName, LockFault>
    ensures value { Gives wants_memory (λ n. n) result (checked is_package_name text.now) }
    ensures named { IfOk result (λ n. is_package_name n ≡ true) }
{
    match PackageName::parse(alloc, text) {
        Ok(name) => Ok(name),
        Err(NameFault::OutOfMemory) => Err(LockFault::OutOfMemory),
        Err(NameFault::NotAName) => Err(LockFault::LockShape),
    }
}

/// The version that a text has to be.
pub(crate) fn version(alloc: Global, text: &str) -> Result<Version, LockFault>
    ensures value { Gives wants_memory parts_of result (checked_version text.now) }
    ensures reads { IfOk result (λ v. IsValid (parts_of v)) }
{
    match Version::parse(alloc, text) {
        Ok(version) => Ok(version),
        Err(e) => Err(fault_of(e)),
    }
}

/// What an error of `semver` is as a fault.
fn fault_of(e: semver::Error) -> LockFault
    ensures { ((result ≡ LockFault.OutOfMemory) × (e ≡ memory_error))
        ⊎ ((result ≡ LockFault.LockShape) × (e ≢ memory_error)) }
{
    if e == semver::Error::from(AllocError) {
        LockFault::OutOfMemory
    } else {
        LockFault::LockShape
    }
}

/// The text at a key that may be absent, as `source` and `checksum`.
pub(crate) fn plain_text(
    alloc: Global,
    section: &Table,
    key: &str,
) -> Result<Option<String>, LockFault>
    ensures { Gives wants_memory (option_map string_bytes) result (plain_at key.now (table_view section.now)) }
{
    let Some(value) = member(section, key) else {
        return Ok(None);
    };
    let Some(text) = value.as_str() else {
        return Err(LockFault::LockShape);
    };
    Ok(Some(plain(alloc, text)?))
}

fn plain(alloc: Global, text: &str) -> Result<String, LockFault>
    ensures { Gives wants_memory string_bytes result (checked (list_all is_plain_byte) text.now) }
{
    if is_plain(text.as_bytes()) {
        Ok(String::from_str(alloc, text)?)
    } else {
        Err(LockFault::LockShape)
    }
}

fn is_plain(text: &[u8]) -> bool
    ensures { result ≡ list_all is_plain_byte text.now }
{
    text.iter().all(|b| is_plain_ascii(*b))
}

fn is_plain_ascii(byte: u8) -> bool
    ensures { result ≡ is_plain_byte byte }
{
    byte >= b' ' && byte <= b'~' && byte != b'"' && byte != b'\\'
}

/// The texts of `dependencies`, none where it is absent.
pub(crate) fn dependencies(alloc: Global, section: &Table) -> Result<Vec<&str>, LockFault>
    ensures { Gives wants_memory (λ v. text_views v.items) result (dependencies_at (table_view section.now)) }
{
    let Some(value) = member(section, "dependencies") else {
        return Ok(Vec::new(alloc));
    };
    let Some(values) = value.as_array() else {
        return Err(LockFault::LockShape);
    };
    texts(alloc, values)
}

#[tactic(auto, unfolding(crate::specs::Locks::each_item))]
fn texts(alloc: Global, values: &Vec<Value>) -> Result<Vec<&str>, LockFault>
    ensures { Gives wants_memory (λ v. text_views v.items) result
        (each_item (λ d. ok_or (as_str d) LockFault.LockShape) (items_view values.now.items)) }
{
    let mut found = Vec::new(alloc);
    'items: for value in values.iter() {
        let Some(text) = value.as_str() else {
            return Err(LockFault::LockShape);
        };
        found.push(text)?;
    }
    Ok(found)
}
