//! The package that a manifest is for, as `[package]` says it.

ghost use Rattle.semver.specs.Grammar.{IsValid};
ghost use Rattle.semver.specs.Identifiers.{parts_of};

use classes::RustVersion;
use features::PackageName;
use semver::Version;

/// What `[package]` says.
#[derive(Drop)]
pub(crate) struct Package {
    pub name: PackageName,
    pub version: Version,
    pub rust_version: Option<RustVersion>,
    ghost valid: { IsValid (parts_of version) },
}
