//! Tables of features.

ghost use Rattle.std.specs.Prelude.{◌≡◌, [], IfOk, map, not, unwrap_or};
ghost use Rattle.std.specs.Option.{is_none};
ghost use Rattle.model.specs.Outcome.{Gives};
ghost use Rattle.model.specs.Summary.{entries_at, has_feature};
ghost use Rattle.model.specs.Tables.{IsInOrder, with_default};
ghost use Rattle.features.specs.inner.Places.{place_of};
ghost use Rattle.features.specs.inner.Tables.{AreRising, dep_names_view, rows_of, table_wants_memory, built};
ghost use Rattle.features.specs.EntryViews.{entry_views};

use crate::draft::implicit_rows;
use crate::entry::Entry;
use crate::feature_name::FeatureName;
use crate::name::PackageName;
use crate::row::{Row, shared};
use crate::rows::{entries_in, has_row, is_at, place_in, put_row, rows_of, with_rows};
use std::alloc::{AllocError, Global};
use std::collections::BTreeMap;
use std::marker::Model;
use std::rc::Rc;
use thiserror::Error;

/// The name that a dependency is called by, and whether it is optional.
#[derive(Drop)]
pub struct DepName {
    pub name: PackageName,
    pub optional: bool,
}

/// The fault of a feature table: the lowest of its faults, at the first feature that has it by the bytes of the names.
#[derive(Debug, Drop, PartialEq, Error)]
pub enum FeatureFault {
    #[error("out of memory")]
    OutOfMemory,
    /// An entry of this feature is `g`, and there is no feature g.
    #[error("feature {0} has an entry that is no feature")]
    NoSuchFeature(FeatureName),
    /// An entry of this feature is `dep:d`, `d/g` or `d?/g`, and no dependency is called d.
    #[error("feature {0} has an entry on no dependency")]
    NoSuchDependency(FeatureName),
    /// An entry of this feature is `dep:d`, and the dependency d isn't optional.
    #[error("feature {0} has an entry on a dependency that isn't optional")]
    NotOptional(FeatureName),
}

impl From<AllocError> for FeatureFault {
    ghost use Rattle.std.specs.Prelude.{◌≡◌};
    ghost use Rattle.features.specs.declared.table.FeatureFault.TheVariants.{OutOfMemory};

    ghost from_gives = { λ _ e. e ≡ OutOfMemory };

    fn from(_e: AllocError) -> FeatureFault {
        FeatureFault::OutOfMemory
    }
}

/// The features of a package, each with its entries, by the bytes of their names: implicit features and `default` are
/// among them. They lie in a row of just their number, which takes a third of a tree's room. A clone has the same row,
/// for many versions of a package have the same features.
#[derive(Drop)]
pub struct FeatureTable {
    features: Rc<Vec<Row>>,
}

impl Model for FeatureTable {
    ghost use Rattle.model.specs.Summary.{Table};
    ghost use Rattle.features.specs.inner.Tables.{AreRising, rows_of};

    ghost Value = { Table };

    ghost view = { λ t. rows_of t.features.value.items };

    ghost invariant = { λ t. AreRising t.features.value.items };
}

impl FeatureTable {
    /// The table of a package with these dependencies that writes these features: with an implicit feature for each
    /// optional dependency that no entry `dep:d` names and no feature is called by, and with `default` (Cargo book,
    /// "Features" and "Optional dependencies").
    ///
    /// # Errors
    /// The lowest fault, at the first feature that has it by the bytes of the names.
    pub fn build(
        alloc: Global,
        dependencies: &[DepName],
        written: BTreeMap<FeatureName, Vec<Entry>>,
    ) -> Result<FeatureTable, FeatureFault>
        ensures { Gives table_wants_memory
            (λ t. t) result (built (dep_names_view dependencies.now) (rows_of written.entries)) }
    {
        let written = shared(alloc, rows_of(alloc, written)?)?;
        FeatureTable::of_rows(alloc, dependencies, written)
    }

    /// The same, where what is written rises by the names of the features.
    ///
    /// # Errors
    /// The lowest fault, at the first feature that has it by the bytes of the names.
    pub fn of_rows(
        alloc: Global,
        dependencies: &[DepName],
        written: Vec<Row>,
    ) -> Result<FeatureTable, FeatureFault>
        requires { AreRising written.items }
        ensures { Gives table_wants_memory
            (λ t. t) result (built (dep_names_view dependencies.now) (rows_of written.items)) }
    {
        let implicit = implicit_rows(alloc, dependencies, &written)?;
        let features = with_rows(alloc, written, implicit)?;
        Ok(of_features(alloc, with_default(alloc, features)?)?)
    }

    /// The entries of a feature: none where the table lacks it.
    pub fn entries(&self, name: &FeatureName) -> &[Entry]
        ensures { entry_views result.now ≡ unwrap_or (entries_at name.now self.now) [] }
    {
        match entries_in(self.features.as_slice(), name.as_str()) {
            Some(entries) => entries.as_slice(),
            None => &[],
        }
    }

    /// The features with their entries, in the order of their names.
    pub fn iter(&self) -> Rows<'_>
        ensures rows { rows_of result ≡ self.now }
        ensures order { IsInOrder self.now }
    {
        Rows {
            rest: self.features.as_slice(),
        }
    }

    /// The place of a feature among the rows, by the bytes of the names.
    pub fn place_of(&self, name: &str) -> Option<usize>
        ensures { result ≡ place_of name.now self.now }
    {
        place_in(self.features.as_slice(), name)
    }

    /// The same, looked for at this place first: where tables of neighbouring versions have the same rows, one look
    /// finds it.
    pub fn place_near(&self, name: &FeatureName, near: usize) -> Option<usize>
        ensures place { result ≡ place_of name.now self.now }
        ensures lacking { is_none result ≡ not (has_feature self.now name.now) }
    {
        if is_at(self.features.as_slice(), name, near) {
            Some(near)
        } else {
            self.place_of(name.as_str())
        }
    }

    /// Whether the table has a feature.
    pub fn has(&self, name: &FeatureName) -> bool
        ensures { result ≡ has_feature self.now name.now }
    {
        has_row(self.features.as_slice(), name.as_str())
    }
}

/// The features of a table with their entries, one after another.
#[derive(Drop)]
pub struct Rows<'a> {
    rest: &'a [Row],
}

impl<'a> Model for Rows<'a> {
    ghost use Rattle.std.specs.Prelude.{ℕ, List, Vec};
    ghost use Rattle.std.specs.declared.alloc.Global.{Global};
    ghost use Rattle.features.specs.declared.entry.Entry.{Entry};

    ghost Value = { List (List ℕ × Vec Entry Global) };

    ghost view = { λ r. r.rest.now };
}

impl<'a> Iterator for Rows<'a> {
    type Item = (&'a FeatureName, &'a Vec<Entry>);

    ghost use Rattle.std.specs.Prelude.{length};
    ghost use Rattle.std.specs.Iterator.{at_most};
    ghost use Rattle.std.specs.Map.Iter.{TakesFirst, deref_pair};

    ghost next_gives = { TakesFirst deref_pair };

    ghost remaining = { λ s. at_most (length s) };

    fn next(&mut self) -> Option<(&'a FeatureName, &'a Vec<Entry>)> {
        let (first, rest) = self.rest.split_first()?;
        self.rest = rest;
        Some((first.name(), first.entries()))
    }
}

impl Clone for FeatureTable {
    ghost is_clone = { λ table copy. copy ≡ table };

    fn clone(&self) -> Result<FeatureTable, AllocError> {
        Ok(FeatureTable {
            features: self.features.clone()?,
        })
    }
}

/// The table with just these features.
fn of_features(alloc: Global, features: Vec<Row>) -> Result<FeatureTable, AllocError>
    requires { AreRising features.items }
    ensures { IfOk result (λ t. t ≡ rows_of features.items) }
{
    Ok(FeatureTable {
        features: Rc::new(alloc, features)?,
    })
}

/// Rows with one of the feature `default` too, without entries where it isn't there yet.
fn with_default(alloc: Global, mut rows: Vec<Row>) -> Result<Vec<Row>, AllocError>
    requires { AreRising rows.items }
    ensures rows { IfOk result (λ v. rows_of v.items ≡ with_default (rows_of rows.items)) }
    ensures rising { IfOk result (λ v. AreRising v.items) }
{
    if has_row(&rows, "default") {
        return Ok(rows);
    }
    rows.reserve_exact(1)?;
    let name = FeatureName::default_name(alloc)?;
    put_row(&mut rows, Row::new(alloc, name, Vec::new(alloc))?)?;
    Ok(rows)
}
