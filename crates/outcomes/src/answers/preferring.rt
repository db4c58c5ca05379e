//! What Cargo goes by beside what a resolution needs: which versions it prefers, and the format of a lock.

use crate::answers::asking::lock_in;
use crate::reading::Bytes;
use catalogue::Prefer;
use std::alloc::{AllocError, Global};
use tables::read_table;
use toml::Table;

/// The format of a new lock.
const FORMAT: i64 = 4;

/// What Cargo prefers (Cargo book, "Resolver versions"): with `resolver = "3"`, which edition 2024 has where none is
/// named, the versions that the manifest's `rust-version` fits.
pub(crate) fn preferred_by_cargo(alloc: Global, manifest: &[u8]) -> Result<Prefer, AllocError> {
    match read_table(alloc, manifest)? {
        Some(table) if is_rust_first(&table) => Ok(Prefer::RustFirst),
        _ => Ok(Prefer::Newest),
    }
}

fn is_rust_first(manifest: &Table) -> bool {
    let of_package = text_in(manifest, "package", "resolver");
    match of_package.or(text_in(manifest, "workspace", "resolver")) {
        Some(resolver) => resolver == "3",
        None => text_in(manifest, "package", "edition") == Some("2024"),
    }
}

fn text_in<'t>(manifest: &'t Table, table: &str, key: &str) -> Option<&'t str> {
    manifest.get(table)?.as_table()?.get(key)?.as_str()
}

/// Whether there is a lock of another format than that of a new one.
pub(crate) fn is_of_old_format(alloc: Global, bytes: &Bytes) -> Result<bool, AllocError> {
    if bytes.lock.is_none() {
        return Ok(false);
    }
    let format = match read_table(alloc, lock_in(bytes))? {
        Some(table) => number_in(&table, "version"),
        None => Some(FORMAT),
    };
    Ok(format != Some(FORMAT))
}

fn number_in(table: &Table, key: &str) -> Option<i64> {
    table.get(key)?.as_integer()
}
