//! Whether there is a newer version than the locked one, and what Rust they need.

use catalogue::{Candidate, Catalogue};
use classes::{Class, RustVersion};
use lockfile::Package;
use semver::Version;
use std::cmp::Ordering;
use std::fmt;

/// A Rust version that is needed, as `1.90` or `1.56.1`.
#[derive(Clone, Copy)]
pub struct NeededRust(RustVersion);

impl fmt::Display for NeededRust {
    fn fmt<W: fmt::Write>(&self, f: &mut fmt::Formatter<W>) -> fmt::Result {
        let RustVersion {
            major,
            minor,
            patch,
        } = self.0;
        write!(f, "{major}.{minor}")?;
        if patch == 0 {
            Ok(())
        } else {
            write!(f, ".{patch}")
        }
    }
}

/// A version that is newer than a locked one.
#[derive(Clone, Copy)]
pub(crate) struct Newer<'a> {
    pub version: &'a Version,
    /// The Rust version that it needs, if the one at hand doesn't do.
    pub rust: Option<NeededRust>,
}

/// The newest of what is looked at: of those that the Rust version at hand fits, and of all.
#[derive(Clone, Copy)]
struct Newest<'a> {
    fitting: Option<Newer<'a>>,
    any: Option<Newer<'a>>,
}

impl<'a> Newest<'a> {
    fn put(&mut self, newer: Newer<'a>) {
        self.any = Some(newer);
        if newer.rust.is_none() {
            self.fitting = Some(newer);
        }
    }
}

/// The newest version that is newer than a locked one: the newest compatible one, if there is one, else of a package
/// that the manifest itself asks for (`direct`) the newest of all; and of these rather one that the Rust version at
/// hand fits. A yanked version doesn't count, and a pre-release only where its numbers are those of the locked version.
pub(crate) fn available<'a>(
    catalogue: &'a Catalogue,
    package: &Package,
    direct: bool,
    rust: Option<RustVersion>,
) -> Option<Newer<'a>> {
    let class = Class::of(&package.version);
    let mut compatible = Newest {
        fitting: None,
        any: None,
    };
    let mut newest = compatible;
    let versions = catalogue.versions(&package.name).iter();
    let candidates = catalogue.candidates(&package.name).iter();
    for (version, candidate) in versions.zip(candidates) {
        if is_newer(version, &package.version) && !candidate.yanked {
            let rust = beyond(candidate, rust);
            let newer = Newer { version, rust };
            if direct {
                newest.put(newer);
            }
            if Class::of(version) == class {
                compatible.put(newer);
            }
        }
    }
    let fitting = compatible.fitting.or(newest.fitting);
    fitting.or(compatible.any.or(newest.any))
}

/// The Rust version that a locked package needs, if the one at hand doesn't do.
pub(crate) fn needed(
    catalogue: &Catalogue,
    package: &Package,
    rust: Option<RustVersion>,
) -> Option<NeededRust> {
    beyond(catalogue.candidate(&package.name, &package.version)?, rust)
}

/// The Rust version that a candidate needs, if the one at hand doesn't do.
fn beyond(candidate: &Candidate, rust: Option<RustVersion>) -> Option<NeededRust> {
    let needed = candidate.rust_version?;
    match needed.cmp(&rust?) {
        Ordering::Greater => Some(NeededRust(needed)),
        _ => None,
    }
}

/// Whether a version is newer than the locked one, and no pre-release of other numbers.
fn is_newer(version: &Version, locked: &Version) -> bool {
    let is_alike = version.major == locked.major
        && version.minor == locked.minor
        && version.patch == locked.patch;
    let is_greater = version.cmp_precedence(locked) == Ordering::Greater;
    is_greater && (version.pre.is_empty() || is_alike)
}
