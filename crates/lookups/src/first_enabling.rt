//! The first entry that enables a dependency of a name.

ghost use Rattle.std.specs.Prelude.{◌≡◌, option_map, IfOk, OnOk};
ghost use Rattle.std.specs.List.{find};
ghost use Rattle.semver.specs.Identifiers.{parts_of};
ghost use Rattle.features.specs.EntryViews.{entry_view, entry_views};
ghost use Rattle.model.specs.Causes.{enables, entries_of};
ghost use Rattle.lookups.specs.inner.ByName.{AreFirst, PutsEntry, entry_named};
ghost use Rattle.lookups.specs.inner.NumbersViews.{problem_of};

use crate::new_names::put_new;
use crate::numbers::Numbers;
use crate::owners::entries_of;
use features::{Entry, FeatureName, PackageName};
use semver::Version;
use std::alloc::{AllocError, Global};
use std::collections::HashMap;
use vertices::OwnerRef;

/// Of so many entries or fewer nothing is kept: they are soon gone over.
const FEW: usize = 16;

/// The first entry of the version's feature that enables a dependency of the name.
pub(crate) fn first_enabling<'a>(
    alloc: Global,
    numbers: &mut Numbers<'a>,
    name: &'a PackageName,
    version: &'a Version,
    on: &'a FeatureName,
    enabled: &PackageName,
) -> Result<Option<&'a Entry>, AllocError>
    ensures entry { IfOk result (λ e. option_map (λ e. entry_view e.now) e
        ≡ find (enables enabled.now) (entries_of (problem_of numbers.old) name.now (parts_of version.now) on.now)) }
    ensures same { problem_of numbers.new ≡ problem_of numbers.old }
{
    let entries = entries_of(&numbers.problem, name, version, on);
    if entries.len() <= FEW {
        return Ok(first_among(enabled, entries));
    }
    let row = (OwnerRef::Version(name, version), on);
    if let Some(firsts) = numbers.firsts.get(&row) {
        return Ok(first_named(enabled, firsts));
    }
    let firsts = first_entries(alloc, entries)?;
    let first = first_named(enabled, &firsts);
    numbers.firsts.insert(row, firsts)?;
    Ok(first)
}

/// The first entry that enables a dependency of the name, of few.
fn first_among<'a>(name: &PackageName, entries: &'a [Entry]) -> Option<&'a Entry>
    ensures { option_map (λ e. entry_view e.now) result ≡ find (enables name.now) (entry_views entries.entry.now) }
{
    'entries: for entry in entries.iter() {
        if enables(name, entry) {
            return Some(entry);
        }
    }
    None
}

/// Whether an entry is `dep:d` or `d/g`.
pub fn enables(name: &PackageName, entry: &Entry) -> bool
    ensures { result ≡ enables name.now (entry_view entry.now) }
{
    match entry {
        Entry::Feature(_) => false,
        Entry::Dependency(found) => name == found,
        Entry::DependencyFeature(found, _) => name == found,
        Entry::WeakFeature(_, _) => false,
    }
}

fn first_named<'a>(name: &PackageName, firsts: &HashMap<&'a str, &'a Entry>) -> Option<&'a Entry>
    ensures { option_map (λ e. entry_view e.now) result ≡ entry_named firsts.now name.now }
{
    match firsts.get(&name.as_str()) {
        Some(entry) => Some(*entry),
        None => None,
    }
}

/// By name, the first entry that enables a dependency called so.
fn first_entries<'a>(
    alloc: Global,
    entries: &'a [Entry],
) -> Result<HashMap<&'a str, &'a Entry>, AllocError>
    ensures { IfOk result (λ firsts. AreFirst (entry_views entries.entry.now) firsts) }
{
    let mut firsts = HashMap::new(alloc);
    'entries: for entry in entries.iter() {
        put_entry(&mut firsts, entry)?;
    }
    Ok(firsts)
}

/// Puts an entry at the name of what it enables, if it is the first there.
fn put_entry<'a>(
    firsts: &mut HashMap<&'a str, &'a Entry>,
    entry: &'a Entry,
) -> Result<(), AllocError>
    ensures { OnOk result (PutsEntry firsts.old (entry_view entry.now) firsts.new) }
{
    match entry {
        Entry::Feature(_) | Entry::WeakFeature(_, _) => Ok(()),
        Entry::Dependency(name) | Entry::DependencyFeature(name, _) => {
            put_new(firsts, name.as_str(), entry)
        }
    }
}
