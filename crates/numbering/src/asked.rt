//! What entries of features ask dependencies for, by the names that they call these by.

ghost use Rattle.std.specs.Prelude.{◌≡◌, ◌∷◌, [], IfOk, OnOk};
ghost use Rattle.std.specs.List.{flat_map};
ghost use Rattle.features.specs.EntryViews.{entry_view, entry_views};
ghost use Rattle.manifest.specs.Manifests.{asked_by, root_asks};
ghost use Rattle.numbering.specs.inner.Asked.{Asks, IsAsked, asked_so, those_asked};

use crate::lists::put_behind;
use features::{Entry, FeatureName, FeatureTable, PackageName};
use std::alloc::{AllocError, Global};
use std::collections::HashMap;
use std::marker::Model;

/// A feature that some entry asks for.
#[derive(Clone, Copy)]
pub(crate) struct Wanted<'a> {
    pub(crate) feature: &'a FeatureName,
}

/// The features that the entries of a table ask for, found by the name of the dependency that is asked.
#[derive(Drop)]
pub(crate) struct Asked<'a> {
    table: &'a FeatureTable,
    asked: HashMap<&'a str, Vec<Wanted<'a>>>,
}

impl<'a> Model for Asked<'a> {
    ghost use Rattle.std.specs.Prelude.{ℕ, List};
    ghost use Rattle.manifest.specs.Manifests.{root_asks};
    ghost use Rattle.numbering.specs.inner.Asked.{IsAsked};

    ghost Value = { List (List ℕ × List ℕ) };

    ghost view = { λ a. root_asks a.table.now };

    ghost invariant = { λ a. IsAsked a.asked (root_asks a.table.now) };
}

impl<'a> Asked<'a> {
    /// What the entries of the table ask for, put by name in one pass.
    ///
    /// # Errors
    /// Memory is wanting.
    pub(crate) fn of(alloc: Global, table: &'a FeatureTable) -> Result<Asked<'a>, AllocError>
        ensures { IfOk result (λ a. a ≡ root_asks table.entry.now) }
    {
        let asked = by_name(alloc, table)?;
        Ok(Asked { table, asked })
    }

    /// What the dependencies called so are asked for, in the order of the entries, if they are asked for something.
    pub(crate) fn those(&self, name: &'a str) -> Option<&[Wanted<'a>]>
        ensures { those_asked result ≡ asked_so name.entry.now self.now }
    {
        match self.asked.get(&name) {
            Some(those) => Some(those.as_slice()),
            None => None,
        }
    }
}

fn by_name<'a>(
    alloc: Global,
    table: &'a FeatureTable,
) -> Result<HashMap<&'a str, Vec<Wanted<'a>>>, AllocError>
    ensures { IfOk result (λ asked. IsAsked asked (root_asks table.entry.now)) }
{
    let mut asked = HashMap::new(alloc);
    'rows: for (_, entries) in table.iter() {
        put_row(alloc, &mut asked, entries.as_slice())?;
    }
    Ok(asked)
}

/// What the entries of one feature ask for.
fn put_row<'a>(
    alloc: Global,
    asked: &mut HashMap<&'a str, Vec<Wanted<'a>>>,
    entries: &'a [Entry],
) -> Result<(), AllocError>
    ensures { OnOk result (Asks asked.old (flat_map asked_by (entry_views entries.entry.now)) asked.new) }
{
    'entries: for entry in entries.iter() {
        put_entry(alloc, asked, entry)?;
    }
    Ok(())
}

/// An entry `d/g` or `d?/g` asks the dependencies called d for g.
fn put_entry<'a>(
    alloc: Global,
    asked: &mut HashMap<&'a str, Vec<Wanted<'a>>>,
    entry: &'a Entry,
) -> Result<(), AllocError>
    ensures { OnOk result (Asks asked.old (asked_by (entry_view entry.entry.now)) asked.new) }
{
    match entry {
        Entry::Feature(_) => Ok(()),
        Entry::Dependency(_) => Ok(()),
        Entry::DependencyFeature(called, feature) => put_asked(alloc, asked, called, feature),
        Entry::WeakFeature(called, feature) => put_asked(alloc, asked, called, feature),
    }
}

/// Puts a feature behind those that the dependencies called so are asked for too.
fn put_asked<'a>(
    alloc: Global,
    asked: &mut HashMap<&'a str, Vec<Wanted<'a>>>,
    called: &'a PackageName,
    feature: &'a FeatureName,
) -> Result<(), AllocError>
    ensures { OnOk result (Asks asked.old ((called.entry.now, feature.entry.now) ∷ []) asked.new) }
{
    put_behind(alloc, asked, called.as_str(), Wanted { feature })
}
