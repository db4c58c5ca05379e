//! How packages and dependencies are called, and which packages may serve a dependency.

use features::{Dependency, Entry, FeatureTable, PackageName};
use lockfile::Package;
use std::fmt;

/// `b 1.2.0`.
#[derive(Clone, Copy)]
pub(crate) struct Named<'a>(pub(crate) &'a Package);

impl fmt::Display for Named<'_> {
    fn fmt<W: fmt::Write>(&self, f: &mut fmt::Formatter<W>) -> fmt::Result {
        let Package { name, version, .. } = self.0;
        write!(f, "{name} {version}")
    }
}

/// `b ^1 as c`.
#[derive(Clone, Copy)]
pub(crate) struct Needed<'a>(pub(crate) &'a Dependency);

impl fmt::Display for Needed<'_> {
    fn fmt<W: fmt::Write>(&self, f: &mut fmt::Formatter<W>) -> fmt::Result {
        let name = &self.0.name;
        let real_name = &self.0.real_name;
        let requirement = &self.0.requirement;
        write!(f, "{real_name} {requirement}")?;
        if name != real_name {
            write!(f, " as {name}")?;
        }
        Ok(())
    }
}

/// Whether a package is one of an index that a dependency matches.
pub(crate) fn may_serve(dependency: &Dependency, package: &Package) -> bool {
    package.source().is_some()
        && dependency.real_name == package.name
        && dependency.requirement.matches(&package.version)
}

/// The last package that may serve a dependency.
pub fn last_serving<'a>(dependency: &Dependency, packages: &'a [Package]) -> Option<&'a Package> {
    let mut found = None;
    for package in packages.iter() {
        if may_serve(dependency, package) {
            found = Some(package);
        }
    }
    found
}

/// Whether an entry `d?/g` of a table speaks of the dependency called d.
pub(crate) fn has_weak_entry(table: &FeatureTable, called: &PackageName) -> bool {
    for (_, entries) in table.iter() {
        for entry in entries.iter() {
            if let Entry::WeakFeature(name, _) = entry {
                if name == called {
                    return true;
                }
            }
        }
    }
    false
}
