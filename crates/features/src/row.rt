//! A feature with its entries.

ghost use Rattle.std.specs.Prelude.{◌≡◌, IfOk};
ghost use Rattle.features.specs.EntryViews.{entry_views};
ghost use Rattle.features.specs.inner.Tables.{rows_of};

use crate::entry::Entry;
use crate::feature_name::FeatureName;
use std::alloc::{AllocError, Global};
use std::marker::Model;
use std::rc::Rc;

/// A feature with its entries. A clone has the same: a feature mostly stands word for word in the next version too.
#[derive(Drop)]
pub struct Row {
    parts: Rc<(FeatureName, Vec<Entry>)>,
}

impl Model for Row {
    ghost use Rattle.std.specs.Prelude.{ℕ, List, Vec};
    ghost use Rattle.std.specs.declared.alloc.Global.{Global};
    ghost use Rattle.features.specs.declared.entry.Entry.{Entry};

    ghost Value = { List ℕ × Vec Entry Global };

    ghost view = { λ r. r.parts.value };
}

impl Row {
    pub fn new(alloc: Global, name: FeatureName, entries: Vec<Entry>) -> Result<Row, AllocError>
        ensures { IfOk result (λ r. r ≡ (name, entries)) }
    {
        Ok(Row {
            parts: Rc::new(alloc, (name, entries))?,
        })
    }

    pub fn name(&self) -> &FeatureName
        ensures { result.now ≡ self.now.0 }
    {
        &self.parts.0
    }

    pub fn entries(&self) -> &Vec<Entry>
        ensures { result.now ≡ self.now.1 }
    {
        &self.parts.1
    }
}

impl Clone for Row {
    ghost is_clone = { λ row copy. copy ≡ row };

    fn clone(&self) -> Result<Row, AllocError> {
        Ok(Row {
            parts: self.parts.clone()?,
        })
    }
}

/// Rows of just these features and entries.
pub fn shared(alloc: Global, rows: Vec<(FeatureName, Vec<Entry>)>) -> Result<Vec<Row>, AllocError>
    ensures { IfOk result (λ v. v.items ≡ rows.items) }
{
    let mut found = Vec::with_capacity(alloc, rows.len())?;
    'rows: for (name, entries) in rows {
        found.push(Row::new(alloc, name, entries)?)?;
    }
    Ok(found)
}

/// The features and entries of rows, in memory of their own.
pub(crate) fn copies(
    alloc: Global,
    rows: &[Row],
) -> Result<Vec<(FeatureName, Vec<Entry>)>, AllocError>
    ensures { IfOk result (λ v. rows_of v.items ≡ rows_of rows.now) }
{
    let mut found = Vec::with_capacity(alloc, rows.len())?;
    'rows: for row in rows {
        found.push((row.name().clone()?, entries_again(alloc, row.entries())?))?;
    }
    Ok(found)
}

fn entries_again(alloc: Global, entries: &[Entry]) -> Result<Vec<Entry>, AllocError>
    ensures { IfOk result (λ v. entry_views v.items ≡ entry_views entries.now) }
{
    let mut found = Vec::with_capacity(alloc, entries.len())?;
    'entries: for entry in entries {
        found.push(entry.clone()?)?;
    }
    Ok(found)
}
