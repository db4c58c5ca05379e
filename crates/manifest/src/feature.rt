//! The features that a manifest writes.

ghost use Rattle.std.specs.Prelude.{◌≡◌, option_map, IfOk};
ghost use Rattle.toml.specs.View.{view, table_view, array_view};
ghost use Rattle.model.specs.Outcome.{Gives};
ghost use Rattle.features.specs.EntryViews.{entry_view, entry_views};
ghost use Rattle.features.specs.Names.{entry_of};
ghost use Rattle.features.specs.inner.Tables.{rows_of};
ghost use Rattle.manifest.specs.Faults.{wants_memory};
ghost use Rattle.manifest.specs.Values.{wanted, each_member};
ghost use Rattle.manifest.specs.Shapes.{strong, entries_in, feature_of, features_of};

use crate::fault::{ManifestFault, Part};
use crate::table::{feature_name, list, table, text};
use features::{Entry, EntryFault, FeatureName};
use std::alloc::Global;
use std::collections::BTreeMap;
use tables::member;
use toml::value::{Array, Table, Value};

/// The features of `[features]`.
pub(crate) fn written_features(
    alloc: Global,
    top: &Table,
) -> Result<BTreeMap<FeatureName, Vec<Entry>>, ManifestFault>
    ensures { Gives wants_memory (λ m. rows_of m.entries) result (features_of (table_view top.now)) }
{
    match member(top, "features") {
        Some(value) => features_in(alloc, table(value, Part::Features)?),
        None => Ok(BTreeMap::new(alloc)),
    }
}

#[tactic(auto, unfolding(crate::specs::Values::each_member))]
fn features_in(
    alloc: Global,
    table: &Table,
) -> Result<BTreeMap<FeatureName, Vec<Entry>>, ManifestFault>
    ensures { Gives wants_memory (λ m. rows_of m.entries) result (each_member feature_of (table_view table.now)) }
{
    let mut found = BTreeMap::new(alloc);
    'members: for (key, value) in table.iter() {
        let (name, entries) = one_feature(alloc, key.as_str(), value)?;
        found.insert(name, entries)?;
    }
    Ok(found)
}

/// A feature and its entries, by its key and its value.
#[tactic(auto, unfolding(crate::specs::Shapes::feature_of))]
fn one_feature(
    alloc: Global,
    key: &str,
    value: &Value,
) -> Result<(FeatureName, Vec<Entry>), ManifestFault>
    ensures row { Gives wants_memory (λ p. (p.0, entry_views p.1.items)) result (feature_of key.now (view value.now)) }
    ensures name { IfOk result (λ p. p.0 ≡ key.now) }
{
    let name = feature_name(alloc, key, Part::Features)?;
    let entries = entries(alloc, list(value, Part::Features)?)?;
    Ok((name, entries))
}

#[tactic(auto, unfolding(crate::specs::Shapes::entries_in))]
fn entries(alloc: Global, items: &Array) -> Result<Vec<Entry>, ManifestFault>
    ensures { Gives wants_memory (λ v. entry_views v.items) result (entries_in (array_view items.now)) }
{
    let mut found = Vec::new(alloc);
    'items: for value in items.iter() {
        found.push(entry(alloc, text(value, Part::Features)?)?)?;
    }
    Ok(found)
}

/// A text that has to be an entry of a feature, as the root means it.
fn entry(alloc: Global, text: &str) -> Result<Entry, ManifestFault>
    ensures { Gives wants_memory entry_view result (wanted Part.Features (option_map strong (entry_of text.now))) }
{
    match Entry::parse(alloc, text) {
        Ok(entry) => Ok(strong(entry)),
        Err(EntryFault::OutOfMemory) => Err(ManifestFault::OutOfMemory),
        Err(EntryFault::NotAnEntry) => Err(ManifestFault::Shape(Part::Features)),
    }
}

/// All dependencies of the root count, so its entry `d?/g` says what `d/g` does.
fn strong(entry: Entry) -> Entry
    ensures { entry_view result ≡ strong (entry_view entry) }
{
    match entry {
        Entry::WeakFeature(name, feature) => Entry::DependencyFeature(name, feature),
        entry => entry,
    }
}
