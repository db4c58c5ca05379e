//! What a line brings, where its dependencies and features are read on their own.

ghost use Rattle.std.specs.Prelude.{◌≡◌, [], IfOk, IfSome, IsTrue, Ok, true};
ghost use Rattle.std.proofs.Props.{props};
ghost use Rattle.std.specs.List.{list_all, zip};
ghost use Rattle.model.specs.Outcome.{Gives};
ghost use Rattle.features.specs.inner.Tables.{dep_name_view, dep_names_view};
ghost use Rattle.features.specs.Views.{dependency_views};
ghost use Rattle.trees.specs.inner.Parts.{keys_rise};
ghost use Rattle.index_lines.specs.Shapes.{wants_memory};
ghost use Rattle.index_lines.specs.inner.ByParts.{dependencies_of_bytes, table_of_bytes};
ghost use Rattle.index_lines.specs.inner.Names.{same_name};
ghost use Rattle.index_lines.specs.inner.Rows.{braced, row_texts, row_views};

use crate::fault::LineFault;
use crate::known::KnownDependencies;
use crate::parts::unless_null;
use crate::shape::features_if_any;
use crate::shortcuts::item::ItemRead;
use crate::shortcuts::items::{items_after, names, those_taking_part};
use crate::shortcuts::row::RowRead;
use crate::shortcuts::rows::{copied_rows, rows_after};
use crate::shortcuts::split::LineParts;
use crate::values::read_part;
use crate::written::{features_alone, table};
use features::{DepName, Dependency, FeatureTable, Summary};
use std::alloc::{AllocError, Global};
use trees::{Scratch, root};

/// The dependencies of a line, and the bytes that they were read off.
#[derive(Drop)]
struct DependenciesRead<'a> {
    bytes: &'a [u8],
    /// Each of them with its own bytes.
    items: Vec<ItemRead<'a>>,
    /// What those of each kind are called.
    names: Vec<DepName>,
    dependencies: Vec<Dependency>,
    ghost read: { dependencies_of_bytes bytes.now
        ≡ Ok (dep_names_view names.items, dependency_views dependencies.items) },
}

/// The features of a line, and the bytes that they are read off.
#[derive(Drop)]
struct FeaturesRead<'a> {
    bytes: &'a [u8],
    /// Each of them with its own bytes: none where they can't be read one by one.
    rows: Option<Vec<RowRead<'a>>>,
    ghost told: { IfSome rows (λ v. bytes.now ≡ braced (row_texts v.items)) } by { Prim.hlevel props },
    ghost rising: { IfSome rows (λ v. keys_rise [] (row_views v.items) ≡ true) } by { Prim.hlevel props },
}

/// What a line brings, and the bytes that it was read off.
#[derive(Drop)]
pub(crate) struct Brought<'a> {
    dependencies: DependenciesRead<'a>,
    features: FeaturesRead<'a>,
    /// The table that these features make.
    table: FeatureTable,
    ghost made: { table_of_bytes (dep_names_view dependencies.names.items) features.bytes.now ≡ Ok table },
}

/// What a line of these parts brings: what the line before brought, as far as its bytes are the same.
///
/// # Errors
/// `Skipped` where a part can't be read on its own, or the line is no record.
pub(crate) fn brought_after<'a>(
    alloc: Global,
    line: &LineParts<'a>,
    before: Option<Brought<'a>>,
    scratch: &mut Scratch,
    known: &mut KnownDependencies,
) -> Result<Brought<'a>, LineFault>
    ensures dependencies { IfOk result (λ b. b.dependencies.bytes.now ≡ line.now.dependencies.now) }
    ensures features { IfOk result (λ b. b.features.bytes.now ≡ line.now.features.now) }
{
    let Some(before) = before else {
        let dependencies = dependencies_after(alloc, line.dependencies, &[], scratch, known)?;
        let no_rows = Some(Vec::new(alloc));
        let features = features_after(alloc, line.features, no_rows, scratch)?;
        return with_features(alloc, dependencies, features, scratch);
    };
    if before.dependencies.bytes != line.dependencies {
        let items = &before.dependencies.items;
        let dependencies = dependencies_after(alloc, line.dependencies, items, scratch, known)?;
        return before.with_dependencies(alloc, dependencies, line.features, scratch);
    }
    if before.features.bytes != line.features {
        let features = features_after(alloc, line.features, before.features.rows, scratch)?;
        return with_features(alloc, before.dependencies, features, scratch);
    }
    Ok(before)
}

/// These dependencies with the table that these features make.
fn with_features<'a>(
    alloc: Global,
    dependencies: DependenciesRead<'a>,
    features: FeaturesRead<'a>,
    scratch: &mut Scratch,
) -> Result<Brought<'a>, LineFault>
    ensures dependencies { IfOk result (λ b. b.dependencies.bytes.now ≡ dependencies.entry.bytes.now) }
    ensures features { IfOk result (λ b. b.features.bytes.now ≡ features.entry.bytes.now) }
{
    let table = features.table(alloc, &dependencies.names, scratch)?;
    Ok(Brought {
        dependencies,
        features,
        table,
    })
}

/// The dependencies of a list: what those of the line before said, as far as their bytes are the same.
fn dependencies_after<'a>(
    alloc: Global,
    bytes: &'a [u8],
    before: &[ItemRead<'a>],
    scratch: &mut Scratch,
    known: &mut KnownDependencies,
) -> Result<DependenciesRead<'a>, LineFault>
    ensures { IfOk result (λ d. d.bytes.now ≡ bytes.entry.now) }
{
    let items = items_after(alloc, bytes, before, scratch, known)?;
    let names = names(alloc, &items)?;
    let dependencies = those_taking_part(alloc, &items)?;
    Ok(DependenciesRead {
        bytes,
        items,
        names,
        dependencies,
    })
}

/// The features of an object: what those of the line before said, as far as their bytes are the same. Where those of
/// the line before can't be read one by one, it isn't tried with these.
fn features_after<'a>(
    alloc: Global,
    bytes: &'a [u8],
    before: Option<Vec<RowRead<'a>>>,
    scratch: &mut Scratch,
) -> Result<FeaturesRead<'a>, LineFault>
    ensures { IfOk result (λ f. f.bytes.now ≡ bytes.entry.now) }
{
    let Some(before) = before else {
        return Ok(FeaturesRead { bytes, rows: None });
    };
    match rows_after(alloc, bytes, before, scratch) {
        Ok(rows) => Ok(FeaturesRead {
            bytes,
            rows: Some(rows),
        }),
        Err(LineFault::Skipped(_)) => Ok(FeaturesRead { bytes, rows: None }),
        Err(LineFault::OutOfMemory) => Err(LineFault::OutOfMemory),
    }
}

impl FeaturesRead<'_> {
    /// The table that they make where dependencies are called so.
    fn table(
        &self,
        alloc: Global,
        names: &[DepName],
        scratch: &mut Scratch,
    ) -> Result<FeatureTable, LineFault>
        ensures { Gives wants_memory (λ t. t) result (table_of_bytes (dep_names_view names.now) self.now.bytes.now) }
    {
        match &self.rows {
            Some(rows) => table_of_rows(alloc, rows, names),
            None => table_of_bytes(alloc, self.bytes, names, scratch),
        }
    }
}

/// The table that features make that are read one by one.
fn table_of_rows(
    alloc: Global,
    rows: &[RowRead<'_>],
    names: &[DepName],
) -> Result<FeatureTable, LineFault>
    requires { keys_rise [] (row_views rows.now) ≡ true }
    ensures { Gives wants_memory
        (λ t. t) result (table_of_bytes (dep_names_view names.now) (braced (row_texts rows.now))) }
{
    let rows = copied_rows(alloc, rows)?;
    table(alloc, names, rows)
}

/// The table that features make that are read together.
#[tactic(auto, unfolding(crate::specs::inner::ByParts::table_of_bytes))]
fn table_of_bytes(
    alloc: Global,
    bytes: &[u8],
    names: &[DepName],
    scratch: &mut Scratch,
) -> Result<FeatureTable, LineFault>
    ensures { Gives wants_memory (λ t. t) result (table_of_bytes (dep_names_view names.now) bytes.now) }
{
    let tape = read_part(alloc, bytes, scratch)?;
    let shapes = features_if_any(alloc, &unless_null(root(&tape)))?;
    features_alone(alloc, &shapes, names)
}

impl<'a> Brought<'a> {
    /// The same with other dependencies: with this table too, if they are called so and the features are the same.
    fn with_dependencies(
        self,
        alloc: Global,
        dependencies: DependenciesRead<'a>,
        features: &'a [u8],
        scratch: &mut Scratch,
    ) -> Result<Brought<'a>, LineFault>
        ensures dependencies { IfOk result (λ b. b.dependencies.bytes.now ≡ dependencies.entry.bytes.now) }
        ensures features { IfOk result (λ b. b.features.bytes.now ≡ features.entry.now) }
    {
        if self.features.bytes != features {
            let features = features_after(alloc, features, self.features.rows, scratch)?;
            return with_features(alloc, dependencies, features, scratch);
        }
        if !are_names(&self.dependencies.names, &dependencies.names) {
            return with_features(alloc, dependencies, self.features, scratch);
        }
        Ok(Brought {
            dependencies,
            features: self.features,
            table: self.table,
        })
    }

    /// The bytes of its dependencies, and those of its features.
    pub(crate) fn bytes(&self) -> (&'a [u8], &'a [u8]) {
        (self.dependencies.bytes, self.features.bytes)
    }

    /// The same for a record of its own.
    pub(crate) fn summary(&self) -> Result<Summary, AllocError>
        ensures { IfOk result
            (λ s. (dependency_views s.dependencies.items ≡ dependency_views self.now.dependencies.dependencies.items)
            × (s.features ≡ self.now.table)) }
    {
        Ok(Summary {
            dependencies: self.dependencies.dependencies.clone()?,
            features: self.table.clone()?,
        })
    }
}

/// Whether these names are the same, and the same of them optional.
fn are_names(known: &[DepName], names: &[DepName]) -> bool
    ensures { IsTrue result → dep_names_view known.now ≡ dep_names_view names.now }
{
    known.len() == names.len() && all_names(known, names)
}

fn all_names(known: &[DepName], names: &[DepName]) -> bool
    ensures { result ≡ list_all (λ p. same_name (dep_name_view p.0) (dep_name_view p.1)) (zip known.now names.now) }
{
    known
        .iter()
        .zip(names)
        .all(|(known, name)| is_name(known, name))
}

fn is_name(known: &DepName, name: &DepName) -> bool
    ensures { result ≡ same_name (dep_name_view known.now) (dep_name_view name.now) }
{
    known.name == name.name && known.optional == name.optional
}
