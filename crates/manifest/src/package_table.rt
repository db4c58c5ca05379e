//! The table `[package]`.

ghost use Rattle.std.specs.Prelude.{◌≡◌, option_map, IfOk, IfSome};
ghost use Rattle.std.specs.Result.{result_ok};
ghost use Rattle.toml.specs.Data.{as_table};
ghost use Rattle.toml.specs.View.{view, table_view};
ghost use Rattle.semver.specs.Grammar.{IsValid};
ghost use Rattle.semver.specs.Identifiers.{parts_of};
ghost use Rattle.semver.specs.Parse.{version_parts};
ghost use Rattle.classes.specs.Classes.{rust_version_view};
ghost use Rattle.model.specs.Outcome.{Gives};
ghost use Rattle.manifest.specs.Faults.{wants_memory};
ghost use Rattle.manifest.specs.Values.{wanted};
ghost use Rattle.manifest.specs.Packages.{is_inherited, name_of, version_of, rust_version_in};
ghost use Rattle.manifest.specs.Packages.{package_in, package_of};
ghost use Rattle.manifest.specs.inner.ShapeViews.{package_view};

use crate::fault::{ManifestFault, Part};
use crate::package::Package;
use crate::table::{package_name, table, text};
use crate::workspace::has_members;
use classes::RustVersion;
use features::PackageName;
use semver::Version;
use std::alloc::{AllocError, Global};
use tables::{has_key, member};
use toml::{Table, Value};

/// `[package]`, or none where its name or version is left to a workspace, or where it is absent beside a workspace with
/// members.
#[tactic(auto, unfolding(crate::specs::Packages::package_of))]
pub(crate) fn own_package(alloc: Global, top: &Table) -> Result<Option<Package>, ManifestFault>
    ensures { Gives wants_memory (option_map package_view) result (package_of (table_view top.now)) }
{
    match member(top, "package") {
        Some(value) => package_in(alloc, table(value, Part::Package)?),
        None => {
            if has_members(top).unwrap_or(false) {
                Ok(None)
            } else {
                Err(ManifestFault::Shape(Part::Package))
            }
        }
    }
}

/// `[package]`, or none where its name or version is left to a workspace.
#[tactic(auto, unfolding(crate::specs::Packages::package_in))]
fn package_in(alloc: Global, section: &Table) -> Result<Option<Package>, ManifestFault>
    ensures { Gives wants_memory (option_map package_view) result (package_in (table_view section.now)) }
{
    let name = own_name(alloc, section)?;
    let version = own_version(alloc, section)?;
    match (name, version) {
        (Some(name), Some(version)) => Ok(Some(Package {
            name,
            version,
            rust_version: rust_version(section),
        })),
        _ => Ok(None),
    }
}

/// `package.name`, or none where it is left to a workspace.
#[tactic(auto, unfolding(crate::specs::Packages::name_of))]
fn own_name(alloc: Global, section: &Table) -> Result<Option<PackageName>, ManifestFault>
    ensures { Gives wants_memory (λ o. o) result (name_of (table_view section.now)) }
{
    let Some(value) = member(section, "name") else {
        return Err(ManifestFault::Shape(Part::Package));
    };
    if is_inherited(value) {
        return Ok(None);
    }
    let name = package_name(alloc, text(value, Part::Package)?, Part::Package)?;
    Ok(Some(name))
}

/// `package.version`, 0.0.0 where it is absent, or none where it is left to a workspace.
#[tactic(auto, unfolding(crate::specs::Packages::version_of))]
fn own_version(alloc: Global, section: &Table) -> Result<Option<Version>, ManifestFault>
    ensures value { Gives wants_memory (option_map parts_of) result (version_of (table_view section.now)) }
    ensures valid { IfOk result (λ o. IfSome o (λ v. IsValid (parts_of v))) }
{
    let Some(value) = member(section, "version") else {
        return Ok(Some(Version::new(0, 0, 0)));
    };
    if is_inherited(value) {
        return Ok(None);
    }
    Ok(Some(version(alloc, text(value, Part::Package)?)?))
}

/// The version that a text has to be: that memory is wanting is another fault than that it is none.
fn version(alloc: Global, text: &str) -> Result<Version, ManifestFault>
    ensures value { Gives wants_memory parts_of result (wanted Part.Package (result_ok (version_parts text.now))) }
    ensures valid { IfOk result (λ v. IsValid (parts_of v)) }
{
    match Version::parse(alloc, text) {
        Ok(version) => Ok(version),
        Err(e) => {
            if e == semver::Error::from(AllocError) {
                Err(ManifestFault::OutOfMemory)
            } else {
                Err(ManifestFault::Shape(Part::Package))
            }
        }
    }
}

/// `package.rust-version`: what is no Rust version counts as absent.
fn rust_version(section: &Table) -> Option<RustVersion>
    ensures { option_map rust_version_view result ≡ rust_version_in (table_view section.now) }
{
    RustVersion::parse(member(section, "rust-version")?.as_str()?)
}

/// Whether a value is a table with the key `workspace`.
fn is_inherited(value: &Value) -> bool
    ensures { result ≡ is_inherited (as_table (view value.now)) }
{
    match value.as_table() {
        Some(table) => has_key(table, "workspace"),
        None => false,
    }
}
