//! Reading a lock.

ghost use Rattle.std.specs.Prelude.{◌≡◌, IfOk, map};
ghost use Rattle.std.specs.List.{zip};
ghost use Rattle.toml.specs.View.{table_view};
ghost use Rattle.model.specs.Outcome.{Gives};
ghost use Rattle.lockfile.specs.Locks.{wants_memory, linked, locked_packages, content_of, content_of_table};
ghost use Rattle.lockfile.specs.Locks.{content_of_bytes};
ghost use Rattle.lockfile.specs.inner.Search.{IsOrdered};
ghost use Rattle.lockfile.specs.inner.Views.{package_view, package_views, unlinked_view, unlinked_views, list_views};

use crate::content::LockContent;
use crate::fault::LockFault;
use crate::meaning::lists;
use crate::order::ordered;
use crate::package::Package;
use crate::packages::{UnlinkedPackage, packages};
use crate::table::check_version;
use std::alloc::{AllocError, Global};
use tables::read_table;
use toml::Table;

/// The greatest number of bytes that a lock may have: 64 MiB.
const MOST_BYTES: usize = 67_108_864;

/// What the bytes of a Cargo.lock say, or their fault (Cargo book, "Cargo.toml vs Cargo.lock").
#[tactic(auto, unfolding(crate::specs::Locks::content_of_bytes))]
pub fn read(alloc: Global, bytes: &[u8]) -> Result<LockContent, LockFault>
    ensures { Gives wants_memory (λ c. c) result (content_of_bytes bytes.now) }
{
    if bytes.len() > MOST_BYTES {
        return Err(LockFault::TooLarge);
    }
    let Some(table) = read_table(alloc, bytes)? else {
        return Err(LockFault::NotToml);
    };
    content_in(alloc, &table)
}

#[tactic(auto, unfolding(crate::specs::Locks::content_of_table))]
fn content_in(alloc: Global, table: &Table) -> Result<LockContent, LockFault>
    ensures { Gives wants_memory (λ c. c) result (content_of_table (table_view table.now)) }
{
    check_version(table)?;
    let packages = ordered(packages(alloc, table)?)?;
    content(alloc, packages)
}

/// The content of packages that stand in package order.
#[tactic(auto, unfolding(crate::specs::Locks::content_of))]
fn content(alloc: Global, packages: Vec<UnlinkedPackage>) -> Result<LockContent, LockFault>
    requires { IsOrdered (locked_packages (unlinked_views packages.items)) }
    ensures { Gives wants_memory (λ c. c) result (content_of (unlinked_views packages.entry.items)) }
{
    let lists = lists(alloc, &packages)?;
    Ok(LockContent::new(all_linked(alloc, packages, lists)?))
}

/// Each package with its list.
fn all_linked(
    alloc: Global,
    packages: Vec<UnlinkedPackage>,
    lists: Vec<Vec<usize>>,
) -> Result<Vec<Package>, AllocError>
    ensures { IfOk result
        (λ v. package_views v.items ≡ map linked (zip (unlinked_views packages.entry.items) (list_views lists.items))) }
{
    packages
        .into_iter()
        .zip(lists.into_iter())
        .map(
            |pair: (UnlinkedPackage, Vec<usize>)| -> Package
                ensures { package_view result ≡ linked (unlinked_view pair.entry.0, pair.entry.1.items) }
            { pair.0.linked(pair.1) },
        )
        .collect(alloc)
}
