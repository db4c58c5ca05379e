//! Entries of features whose names lie elsewhere, and sets of them.

ghost use Rattle.std.specs.Prelude.{◌≡◌, List, OnOk};
ghost use Rattle.std.specs.List.{list_any};
ghost use Rattle.features.specs.EntryViews.{entry_view, entry_views};
ghost use Rattle.model.specs.Summary as model;
ghost use Rattle.model.specs.Causes.{same_entry};
ghost use Rattle.axioms.specs.inner.Entries.{AddsEntries, has_named, named_view, row_has};

use features::{Entry, FeatureName, FeatureTable, PackageName};
use std::alloc::AllocError;
use std::collections::HashSet;

/// An entry of a feature, with names that lie elsewhere.
#[derive(Clone, Copy, PartialEq, Eq, Hash)]
pub(crate) enum Named<'a> {
    /// `g`
    Feature(&'a FeatureName),
    /// `dep:d`
    Dependency(&'a PackageName),
    /// `d/g`
    Asking(&'a PackageName, &'a FeatureName),
    /// `d?/g`
    Weak(&'a PackageName, &'a FeatureName),
}

impl<'a> Named<'a> {
    /// The same entry, borrowed.
    pub(crate) fn of(entry: &'a Entry) -> Named<'a>
        ensures { named_view result ≡ entry_view entry.entry.now }
    {
        match entry {
            Entry::Feature(feature) => Named::Feature(feature),
            Entry::Dependency(name) => Named::Dependency(name),
            Entry::DependencyFeature(name, feature) => Named::Asking(name, feature),
            Entry::WeakFeature(name, feature) => Named::Weak(name, feature),
        }
    }
}

/// Whether an entry is among entries.
pub(crate) fn has_entry(named: &Named<'_>, entries: &[Entry]) -> bool
    ensures { result ≡ list_any (same_entry (named_view named.now)) (entry_views entries.now) }
{
    entries.iter().any(|entry| is_same(named, entry))
}

fn is_same(named: &Named<'_>, entry: &Entry) -> bool
    ensures { result ≡ same_entry (named_view named.now) (entry_view entry.now) }
{
    *named == Named::of(entry)
}

/// Whether an entry is in a set.
pub(crate) fn has_named(named: &Named<'_>, set: &HashSet<Named<'_>>) -> bool
    ensures { result ≡ has_named set.now named.now }
{
    set.contains(named)
}

/// Whether an entry is among those of some feature.
pub(crate) fn some_row_has(named: &Named<'_>, table: &FeatureTable) -> bool
    ensures { result ≡ list_any (row_has (named_view named.now) table.now) table.now }
{
    'rows: for (row, _) in table.iter() {
        if row_has(named, table, row) {
            return true;
        }
    }
    false
}

#[tactic(auto, unfolding(crate::specs::inner::Entries::row_has))]
fn row_has(named: &Named<'_>, table: &FeatureTable, row: &FeatureName) -> bool
    ensures { (es : List model.Entry) → result ≡ row_has (named_view named.now) table.now (row.now, es) }
{
    has_entry(named, table.entries(row))
}

/// Puts the entries of all features.
pub(crate) fn put_rows<'a>(
    set: &mut HashSet<Named<'a>>,
    table: &'a FeatureTable,
) -> Result<(), AllocError>
    ensures { OnOk result (AddsEntries set.old set.new (λ e. list_any (row_has e table.now) table.now)) }
{
    'rows: for (row, _) in table.iter() {
        put_entries(set, table.entries(row))?;
    }
    Ok(())
}

/// Puts entries.
pub(crate) fn put_entries<'a>(
    set: &mut HashSet<Named<'a>>,
    entries: &'a [Entry],
) -> Result<(), AllocError>
    ensures { OnOk result (AddsEntries set.old set.new (λ e. list_any (same_entry e) (entry_views entries.now))) }
{
    'entries: for entry in entries.iter() {
        put_entry(set, entry)?;
    }
    Ok(())
}

fn put_entry<'a>(set: &mut HashSet<Named<'a>>, entry: &'a Entry) -> Result<(), AllocError>
    ensures { OnOk result (AddsEntries set.old set.new (λ e. same_entry e (entry_view entry.now))) }
{
    set.insert(Named::of(entry))?;
    Ok(())
}
