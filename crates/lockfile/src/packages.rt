//! The packages of a lock, before their dependency texts are looked up.

ghost use Rattle.std.specs.Prelude.{◌≡◌};
ghost use Rattle.toml.specs.View.{view, table_view, items_view};
ghost use Rattle.model.specs.Outcome.{Gives};
ghost use Rattle.lockfile.specs.Locks.{wants_memory, linked, unlinked_of, each_item, packages_at};
ghost use Rattle.lockfile.specs.inner.Views.{package_view, unlinked_view, unlinked_views};

use crate::fault::LockFault;
use crate::package::Package;
use crate::table::{dependencies, package_name, plain_text, text, version};
use std::alloc::Global;
use tables::member;
use toml::{Table, Value};

/// A package with the texts of its dependencies: what these mean is still to be found, and its list is empty.
#[derive(Drop)]
pub(crate) struct UnlinkedPackage<'a> {
    pub locked: Package,
    pub texts: Vec<&'a str>,
}

impl UnlinkedPackage<'_> {
    /// The package with its list.
    pub(crate) fn linked(self, list: Vec<usize>) -> Package
        ensures { package_view result ≡ linked (unlinked_view self.entry, list.items) }
    {
        let UnlinkedPackage {
            mut locked,
            texts: _,
        } = self;
        locked.list = list;
        locked
    }
}

/// One table of `package`.
#[tactic(auto, unfolding(crate::specs::Locks::unlinked_of))]
fn one_package(alloc: Global, value: &Value) -> Result<UnlinkedPackage<'_>, LockFault>
    ensures { Gives wants_memory unlinked_view result (unlinked_of (view value.now)) }
{
    let Some(section) = value.as_table() else {
        return Err(LockFault::LockShape);
    };
    let name = package_name(alloc, text(section, "name")?)?;
    let version = version(alloc, text(section, "version")?)?;
    let source = plain_text(alloc, section, "source")?;
    let checksum = plain_text(alloc, section, "checksum")?;
    let texts = dependencies(alloc, section)?;
    let list = Vec::new(alloc);
    let locked = Package {
        name,
        version,
        source,
        checksum,
        list,
    };
    Ok(UnlinkedPackage { locked, texts })
}

#[tactic(auto, unfolding(crate::specs::Locks::each_item))]
fn packages_in(alloc: Global, values: &Vec<Value>) -> Result<Vec<UnlinkedPackage<'_>>, LockFault>
    ensures { Gives wants_memory
        (λ v. unlinked_views v.items) result (each_item unlinked_of (items_view values.now.items)) }
{
    let mut found = Vec::new(alloc);
    'items: for value in values.iter() {
        found.push(one_package(alloc, value)?)?;
    }
    Ok(found)
}

/// The packages as they stand in the lock.
pub(crate) fn packages(alloc: Global, table: &Table) -> Result<Vec<UnlinkedPackage<'_>>, LockFault>
    ensures { Gives wants_memory (λ v. unlinked_views v.items) result (packages_at (table_view table.now)) }
{
    let Some(value) = member(table, "package") else {
        return Ok(Vec::new(alloc));
    };
    let Some(values) = value.as_array() else {
        return Err(LockFault::LockShape);
    };
    packages_in(alloc, values)
}
