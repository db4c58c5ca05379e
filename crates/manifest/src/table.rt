//! Values and keys of TOML tables.

ghost use Rattle.std.specs.Prelude.{◌≡◌, option_map, Some, None, Ok};
ghost use Rattle.toml.specs.Data.{as_str, as_bool, as_table, as_array, get_member};
ghost use Rattle.toml.specs.View.{view, table_view, array_view};
ghost use Rattle.model.specs.Outcome.{Gives, ◌>>=◌ as and_then};
ghost use Rattle.manifest.specs.Faults.{wants_memory};
ghost use Rattle.manifest.specs.Values.{wanted, or_absent, text_of, flag_of, table_of, either_at};
ghost use Rattle.manifest.specs.Values.{package_name_of, feature_name_of};
ghost use Rattle.manifest.specs.Packages.{is_written};

use crate::fault::{ManifestFault, Part};
use features::{FeatureName, NameFault, PackageName};
use std::alloc::Global;
use tables::{has_rows, member};
use toml::value::{Array, Table, Value};

/// The value at a key with a dash, which may be spelled with an underscore, but not in both ways.
pub(crate) fn either<'a>(
    table: &'a Table,
    dashed: &str,
    underscored: &str,
    part: Part,
) -> Result<Option<&'a Value>, ManifestFault>
    ensures { Gives wants_memory (option_map (λ v. view v.now)) result
        (either_at part dashed.now underscored.now (table_view table.now)) }
{
    match member(table, dashed) {
        Some(value) => match member(table, underscored) {
            Some(_) => Err(ManifestFault::Shape(part)),
            None => Ok(Some(value)),
        },
        None => Ok(member(table, underscored)),
    }
}

/// A value that has to be a text.
pub(crate) fn text(value: &Value, part: Part) -> Result<&str, ManifestFault>
    ensures { Gives wants_memory (λ s. s.now) result (text_of part (view value.now)) }
{
    match value.as_str() {
        Some(text) => Ok(text),
        None => Err(ManifestFault::Shape(part)),
    }
}

/// A value that has to be a list.
pub(crate) fn list(value: &Value, part: Part) -> Result<&Array, ManifestFault>
    ensures { Gives wants_memory (λ v. array_view v.now) result (wanted part (as_array (view value.now))) }
{
    match value.as_array() {
        Some(items) => Ok(items),
        None => Err(ManifestFault::Shape(part)),
    }
}

/// A value that has to be a table.
pub(crate) fn table(value: &Value, part: Part) -> Result<&Table, ManifestFault>
    ensures { Gives wants_memory (λ t. table_view t.now) result (table_of part (view value.now)) }
{
    match value.as_table() {
        Some(table) => Ok(table),
        None => Err(ManifestFault::Shape(part)),
    }
}

/// The text at a key, if the key is there.
pub(crate) fn text_at<'a>(
    table: &'a Table,
    key: &str,
    part: Part,
) -> Result<Option<&'a str>, ManifestFault>
    ensures { Gives wants_memory (option_map (λ s. s.now)) result
        (or_absent None (λ d. and_then (text_of part d) (λ text. Ok (Some text)))
        (get_member key.now (table_view table.now))) }
{
    match member(table, key) {
        Some(value) => Ok(Some(text(value, part)?)),
        None => Ok(None),
    }
}

/// A flag that may be absent.
pub(crate) fn flag(value: Option<&Value>, absent: bool, part: Part) -> Result<bool, ManifestFault>
    ensures { Gives wants_memory
        (λ b. b) result (or_absent absent (flag_of part) (option_map (λ v. view v.now) value.entry)) }
{
    match value {
        Some(value) => match value.as_bool() {
            Some(flag) => Ok(flag),
            None => Err(ManifestFault::Shape(part)),
        },
        None => Ok(absent),
    }
}

/// Whether the table at a key, which may be absent, has entries.
pub(crate) fn is_written(top: &Table, key: &str, part: Part) -> Result<bool, ManifestFault>
    ensures { Gives wants_memory (λ b. b) result (is_written part key.now (table_view top.now)) }
{
    match member(top, key) {
        Some(value) => Ok(has_rows(table(value, part)?)),
        None => Ok(false),
    }
}

/// A text that has to be the name of a package.
pub(crate) fn package_name(
    alloc: Global,
    text: &str,
    part: Part,
) -> Result<PackageName, ManifestFault>
    ensures { Gives wants_memory (λ n. n) result (package_name_of part text.now) }
{
    match PackageName::parse(alloc, text) {
        Ok(name) => Ok(name),
        Err(NameFault::OutOfMemory) => Err(ManifestFault::OutOfMemory),
        Err(NameFault::NotAName) => Err(ManifestFault::Shape(part)),
    }
}

/// A text that has to be the name of a feature.
pub(crate) fn feature_name(
    alloc: Global,
    text: &str,
    part: Part,
) -> Result<FeatureName, ManifestFault>
    ensures { Gives wants_memory (λ n. n) result (feature_name_of part text.now) }
{
    match FeatureName::parse(alloc, text) {
        Ok(name) => Ok(name),
        Err(NameFault::OutOfMemory) => Err(ManifestFault::OutOfMemory),
        Err(NameFault::NotAName) => Err(ManifestFault::Shape(part)),
    }
}
