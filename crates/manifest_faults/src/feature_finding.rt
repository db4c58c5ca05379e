//! The first part of `[features]` that has the fault which is sought.
//!
//! What is called how is put into maps first, so that each entry is looked at once; what is found is then held against
//! the manifest itself.

ghost use Rattle.manifest_faults.specs.inner.Finding.{IsFound};

use crate::called::is_optional;
use crate::entries::{dependency_in, entry_in, feature_in, is_written, named_in};
use crate::finding::{TABLES, first_item};
use crate::place::{Place, items_at, table_at};
use crate::sought::{Sought, blamed, first_blamed};
use crate::why::{Culprit, Kind, Sort, Why};
use features::{Entry, FeatureName};
use manifest::TableFault;
use std::alloc::{AllocError, Global};
use std::collections::BTreeMap;
use tables::member;
use toml::{Table, Value};

/// What is wrong with the shape of `[features]`.
pub(crate) fn feature_culprit<'t>(
    alloc: Global,
    sought: Sought<'t>,
) -> Result<Option<Culprit<'t>>, AllocError>
    ensures { IsFound sought.entry result }
{
    let features = Place::of("features");
    if let Some(found) = blamed(alloc, sought, features, Why::NoSuch(Kind::Table))? {
        return Ok(Some(found));
    }
    let Some(table) = table_at(sought.top, &features) else {
        return Ok(None);
    };
    for (name, _) in table.iter() {
        let own = features.at_name(name.as_str());
        let tried = [
            (own, Why::NoKey(Sort::FeatureName)),
            (own, Why::NoSuch(Kind::List)),
        ];
        if let Some(found) = first_blamed(alloc, sought, &tried)? {
            return Ok(Some(found));
        }
        if let Some(found) = first_item(alloc, sought, own, Sort::Entry)? {
            return Ok(Some(found));
        }
    }
    Ok(None)
}

/// The first entry of a feature that leads nowhere.
pub(crate) fn entry_culprit<'t>(
    alloc: Global,
    sought: Sought<'t>,
    fault: TableFault,
    feature: &'t FeatureName,
) -> Result<Option<Culprit<'t>>, AllocError>
    ensures { IsFound sought.entry result }
{
    let list = Place::of("features").at_name(feature.as_str());
    let Some(items) = items_at(sought.top, &list) else {
        return Ok(None);
    };
    let named = names_in(alloc, sought.top)?;
    for (number, value) in items.iter().enumerate() {
        if let Some(entry) = entry_in(alloc, value)? {
            if let Some(why) = lead(sought.top, &named, &entry, fault) {
                return blamed(alloc, sought, list.at_item(number), why);
            }
        }
    }
    Ok(None)
}

/// What the manifest calls dependencies, and where entries `dep:d` are.
#[derive(Drop)]
struct Named<'t> {
    /// Whether a dependency of the name is optional.
    called: BTreeMap<&'t str, bool>,
    /// The feature with an entry `dep:d`, and which entry it is.
    by_entry: BTreeMap<&'t str, (&'t str, usize)>,
}

fn names_in(alloc: Global, top: &Table) -> Result<Named<'_>, AllocError> {
    let mut named = Named {
        called: BTreeMap::new(alloc),
        by_entry: BTreeMap::new(alloc),
    };
    name_dependencies(&mut named, top)?;
    if let Some(targets) = table_in(top, "target") {
        for (_, target) in targets.iter() {
            if let Some(table) = target.as_table() {
                name_dependencies(&mut named, table)?;
            }
        }
    }
    if let Some(features) = table_in(top, "features") {
        for (feature, value) in features.iter() {
            name_by_entries(&mut named, feature.as_str(), value)?;
        }
    }
    Ok(named)
}

fn table_in<'t>(table: &'t Table, key: &str) -> Option<&'t Table> {
    member(table, key)?.as_table()
}

/// Notes the dependencies of the tables that stand in one.
fn name_dependencies<'t>(named: &mut Named<'t>, table: &'t Table) -> Result<(), AllocError> {
    for section in TABLES {
        if let Some(dependencies) = table_in(table, section) {
            note_names(&mut named.called, dependencies)?;
        }
    }
    Ok(())
}

fn note_names<'t>(
    called: &mut BTreeMap<&'t str, bool>,
    dependencies: &'t Table,
) -> Result<(), AllocError> {
    for (name, dependency) in dependencies.iter() {
        let name = name.as_str();
        let before = is_noted(called, name);
        called.insert(name, is_optional(dependency) | before)?;
    }
    Ok(())
}

/// Whether an optional dependency is called so.
fn is_noted(called: &BTreeMap<&str, bool>, name: &str) -> bool {
    match called.get(name) {
        Some(optional) => *optional,
        None => false,
    }
}

/// Notes the entries `dep:d` of a feature.
fn name_by_entries<'t>(
    named: &mut Named<'t>,
    feature: &'t str,
    value: &'t Value,
) -> Result<(), AllocError> {
    let Some(items) = value.as_array() else {
        return Ok(());
    };
    for (number, item) in items.iter().enumerate() {
        if let Some(name) = dependency_named(item) {
            named.by_entry.insert(name, (feature, number))?;
        }
    }
    Ok(())
}

fn dependency_named(item: &Value) -> Option<&str> {
    item.as_str()?.strip_prefix("dep:")
}

/// Why an entry has the fault, if it seems to.
fn lead<'t>(top: &Table, named: &Named<'t>, entry: &Entry, fault: TableFault) -> Option<Why<'t>> {
    match fault {
        TableFault::NoSuchFeature => lead_of_feature(top, named, entry),
        TableFault::NoSuchDependency => {
            if named.called.contains_key(named_in(entry)?) {
                None
            } else {
                Some(Why::NoSuchDependency)
            }
        }
        TableFault::NotOptional => {
            if is_noted(&named.called, dependency_in(entry)?) {
                None
            } else {
                Some(Why::NotOptional)
            }
        }
    }
}

fn lead_of_feature<'t>(top: &Table, named: &Named<'t>, entry: &Entry) -> Option<Why<'t>> {
    let name = feature_in(entry)?;
    if is_written(name, top) {
        return None;
    }
    match named.by_entry.get(name) {
        Some((by, number)) => Some(Why::Taken(*by, *number)),
        None => {
            if is_noted(&named.called, name) {
                None
            } else {
                Some(Why::NoFeature)
            }
        }
    }
}
