//! Rows of features that rise by their names.

ghost use Rattle.std.specs.Prelude.{◌≡◌, true, IfOk, OnOk, Some, option_map};
ghost use Rattle.std.specs.BTreeMap.{is_at, insert_entry, IsFromIterResult};
ghost use Rattle.std.specs.Map.{lookup};
ghost use Rattle.model.specs.Order.{text_cmp};
ghost use Rattle.model.specs.Summary.{has_feature};
ghost use Rattle.features.specs.inner.Drafts.{with_rows};
ghost use Rattle.features.specs.inner.Places.{place_of};
ghost use Rattle.features.specs.inner.Tables.{AreRising, rows_of};

use crate::entry::Entry;
use crate::feature_name::FeatureName;
use crate::row::{Row, copies, shared};
use std::alloc::{AllocError, Global};
use std::collections::BTreeMap;

/// How many rows are put one by one where they belong. More go through a map, for each that is put moves those behind
/// it.
const FEW: usize = 16;

/// The entries of a feature.
pub(crate) fn entries_in<'a>(rows: &'a [Row], name: &str) -> Option<&'a Vec<Entry>>
    requires { AreRising rows.now }
    ensures { option_map (λ v. v.now) result ≡ lookup (is_at (text_cmp name.now)) rows.now }
{
    match rows.binary_search_by(|row| row.name().as_str().cmp(name)) {
        Ok(place) => Some(rows[place].entries()),
        Err(_) => None,
    }
}

/// Whether there is a row of this feature.
pub(crate) fn has_row(rows: &[Row], name: &str) -> bool
    requires { AreRising rows.now }
    ensures { result ≡ has_feature (rows_of rows.now) name.now }
{
    entries_in(rows, name).is_some()
}

/// The place of the row of a feature.
pub(crate) fn place_in(rows: &[Row], name: &str) -> Option<usize>
    requires { AreRising rows.now }
    ensures { result ≡ place_of name.now (rows_of rows.now) }
{
    rows.binary_search_by(|row| row.name().as_str().cmp(name))
        .ok()
}

/// Whether the row of a feature is at this place.
pub(crate) fn is_at(rows: &[Row], name: &FeatureName, place: usize) -> bool
    requires { AreRising rows.now }
    ensures { result ≡ true → place_of name.now (rows_of rows.now) ≡ Some place }
{
    match rows.get(place) {
        Some(row) => row.name() == name,
        None => false,
    }
}

/// Puts a row where it belongs: in the place of that of its feature, if there is one.
pub(crate) fn put_row(rows: &mut Vec<Row>, row: Row) -> Result<(), AllocError>
    requires { AreRising rows.old.items }
    ensures put { OnOk result (rows.new.items ≡ insert_entry text_cmp rows.old.items row.0 row.1) }
    ensures rising { OnOk result (AreRising rows.new.items) }
{
    match rows.binary_search_by(|other| other.name().cmp(row.name())) {
        Ok(place) => rows[place] = row,
        Err(place) => rows.insert(place, row)?,
    }
    Ok(())
}

/// The rows with these too.
pub(crate) fn with_rows(
    alloc: Global,
    rows: Vec<Row>,
    more: Vec<Row>,
) -> Result<Vec<Row>, AllocError>
    requires { AreRising rows.items }
    ensures rows { IfOk result (λ v. rows_of v.items ≡ with_rows (rows_of rows.items) (rows_of more.items)) }
    ensures rising { IfOk result (λ v. AreRising v.items) }
{
    if more.len() <= FEW {
        return with_few(rows, more);
    }
    let features = with_many(alloc, &rows, &more)?;
    shared(alloc, rows_of(alloc, features)?)
}

/// The rows with these too, each put where it belongs.
fn with_few(mut rows: Vec<Row>, more: Vec<Row>) -> Result<Vec<Row>, AllocError>
    requires { AreRising rows.items }
    ensures rows { IfOk result (λ v. rows_of v.items ≡ with_rows (rows_of rows.items) (rows_of more.items)) }
    ensures rising { IfOk result (λ v. AreRising v.items) }
{
    rows.reserve_exact(more.len())?;
    'rows: for row in more {
        put_row(&mut rows, row)?;
    }
    Ok(rows)
}

/// The same as a map.
fn with_many(
    alloc: Global,
    rows: &[Row],
    more: &[Row],
) -> Result<BTreeMap<FeatureName, Vec<Entry>>, AllocError>
    requires { AreRising rows.now }
    ensures { IfOk result (λ m. rows_of m.entries ≡ with_rows (rows_of rows.now) (rows_of more.now)) }
{
    let mut features = map_of(alloc, copies(alloc, rows)?)?;
    let added = copies(alloc, more)?;
    'rows: for (name, entries) in added {
        features.insert(name, entries)?;
    }
    Ok(features)
}

/// The map of rows, which rise.
pub fn map_of(
    alloc: Global,
    rows: Vec<(FeatureName, Vec<Entry>)>,
) -> Result<BTreeMap<FeatureName, Vec<Entry>>, AllocError>
    requires { AreRising rows.items }
    ensures { IfOk result (λ m. m.entries ≡ rows.items) }
{
    let features = collected(alloc, rows)?;
    Ok(features)
}

fn collected(
    alloc: Global,
    rows: Vec<(FeatureName, Vec<Entry>)>,
) -> Result<BTreeMap<FeatureName, Vec<Entry>>, AllocError>
    ensures { IfOk result (IsFromIterResult text_cmp rows.items) }
{
    rows.into_iter().collect(alloc)
}

/// The rows of a map, which rise.
pub fn rows_of(
    alloc: Global,
    features: BTreeMap<FeatureName, Vec<Entry>>,
) -> Result<Vec<(FeatureName, Vec<Entry>)>, AllocError>
    ensures { IfOk result (λ v. v.items ≡ features.entries) }
{
    let mut rows = Vec::with_capacity(alloc, features.len())?;
    'rows: for row in features {
        rows.push(row)?;
    }
    Ok(rows)
}
