//! Whether values and texts are what they have to be.

ghost use Rattle.std.specs.Prelude.{◌≡◌, ◌≢◌, true, IfOk, is_err, is_none, not, option_and_then, option_map};
ghost use Rattle.features.specs.Names.{entry_of, is_feature_name, is_package_name};
ghost use Rattle.toml.specs.Data.{as_table};
ghost use Rattle.toml.specs.View.{table_view, view};
ghost use Rattle.manifest.specs.Packages.{is_inherited};
ghost use Rattle.manifest_faults.specs.inner.Reasons.{is_foreign, is_no, is_not, lacks_source};
ghost use Rattle.semver.specs.Parse.{memory_error, req_of, version_parts};

use crate::entries::entry_of;
use crate::why::{Kind, Sort};
use features::{FeatureName, NameFault, PackageName};
use manifest::{Unsupported, unsupported_in};
use semver::{Version, VersionReq};
use std::alloc::{AllocError, Global};
use tables::has_key;
use toml::{Table, Value};

/// Whether a value isn't what it has to be.
pub(crate) fn is_not(kind: Kind, value: &Value) -> bool
    ensures { result ≡ is_not kind (view value.now) }
{
    match kind {
        Kind::Table => !value.is_table(),
        Kind::Dependency => {
            if value.is_str() {
                false
            } else {
                !value.is_table()
            }
        }
        Kind::Sourced => match value.as_table() {
            Some(table) => lacks_source(table),
            None => false,
        },
        Kind::Text => !value.is_str(),
        Kind::OwnText => {
            if value.is_str() {
                false
            } else {
                !is_inherited(Some(value))
            }
        }
        Kind::Flag => value.as_bool().is_none(),
        Kind::List => value.as_array().is_none(),
    }
}

/// Whether a value is a table with the key `workspace`.
pub(crate) fn is_inherited(value: Option<&Value>) -> bool
    ensures { result ≡ is_inherited (option_and_then as_table (option_map (λ v. view v.now) value.entry)) }
{
    match value {
        Some(value) => match value.as_table() {
            Some(table) => has_key(table, "workspace"),
            None => false,
        },
        None => false,
    }
}

/// Whether a table says neither a version nor another source.
fn lacks_source(table: &Table) -> bool
    ensures { result ≡ lacks_source (table_view table.now) }
{
    if has_key(table, "workspace") {
        false
    } else if has_key(table, "version") {
        false
    } else {
        unsupported_in(table).is_none()
    }
}

/// Whether a dependency is from this source.
pub(crate) fn is_foreign(source: Unsupported, table: &Table) -> bool
    ensures { result ≡ is_foreign source (table_view table.now) }
{
    if has_key(table, "workspace") {
        return false;
    }
    match unsupported_in(table) {
        Some(own) => source == own,
        None => false,
    }
}

/// Whether a text isn't what it has to be.
pub(crate) fn is_no(alloc: Global, sort: Sort, text: &str) -> Result<bool, AllocError>
    ensures { IfOk result (λ b. b ≡ is_no sort text.now) }
{
    match sort {
        Sort::PackageName => is_no_package_name(alloc, text),
        Sort::FeatureName => is_no_feature_name(alloc, text),
        Sort::AskedFeature => {
            if text.is_empty() {
                Ok(false)
            } else {
                is_no_feature_name(alloc, text)
            }
        }
        Sort::Version => is_no_version(alloc, text),
        Sort::Requirement => is_no_requirement(alloc, text),
        Sort::Entry => is_no_entry(alloc, text),
    }
}

fn is_no_package_name(alloc: Global, text: &str) -> Result<bool, AllocError>
    ensures { IfOk result (λ b. b ≡ not (is_package_name text.now)) }
{
    match PackageName::parse(alloc, text) {
        Ok(_) => Ok(false),
        Err(NameFault::NotAName) => Ok(true),
        Err(NameFault::OutOfMemory) => Err(AllocError),
    }
}

fn is_no_feature_name(alloc: Global, text: &str) -> Result<bool, AllocError>
    ensures { IfOk result (λ b. b ≡ not (is_feature_name text.now)) }
{
    match FeatureName::parse(alloc, text) {
        Ok(_) => Ok(false),
        Err(NameFault::NotAName) => Ok(true),
        Err(NameFault::OutOfMemory) => Err(AllocError),
    }
}

fn is_no_version(alloc: Global, text: &str) -> Result<bool, AllocError>
    ensures { IfOk result (λ b. b ≡ is_err (version_parts text.now)) }
{
    match Version::parse(alloc, text) {
        Ok(_) => Ok(false),
        Err(e) => unread(e),
    }
}

fn is_no_requirement(alloc: Global, text: &str) -> Result<bool, AllocError>
    ensures { IfOk result (λ b. b ≡ is_err (req_of text.now)) }
{
    match VersionReq::parse(alloc, text) {
        Ok(_) => Ok(false),
        Err(e) => unread(e),
    }
}

/// That a text says nothing, unless memory was wanting.
fn unread(e: semver::Error) -> Result<bool, AllocError>
    ensures { IfOk result (λ b. (b ≡ true) × (e ≢ memory_error)) }
{
    if e == semver::Error::from(AllocError) {
        Err(AllocError)
    } else {
        Ok(true)
    }
}

fn is_no_entry(alloc: Global, text: &str) -> Result<bool, AllocError>
    ensures { IfOk result (λ b. b ≡ is_none (entry_of text.now)) }
{
    let entry = entry_of(alloc, text)?;
    Ok(entry.is_none())
}
