//! The features that a line writes, and the table that they make.

ghost use Rattle.std.specs.Prelude.{◌≡◌, [], IfOk, Ok};
ghost use Rattle.std.specs.Ordering.{is_lt};
ghost use Rattle.model.specs.Order.{text_cmp};
ghost use Rattle.model.specs.Outcome.{Gives};
ghost use Rattle.model.specs.Tables.{table_of};
ghost use Rattle.features.specs.EntryViews.{entry_view, entry_views};
ghost use Rattle.features.specs.inner.Tables.{AreRising, dep_name_view, dep_names_view, rows_of};
ghost use Rattle.index_lines.specs.inner.ByParts.{table_alone};
ghost use Rattle.index_lines.specs.Shapes.{wants_memory};
ghost use Rattle.features.specs.Views.{text_views};
ghost use Rattle.index_lines.specs.inner.ShapeViews.{feature_view, feature_views, line_dependency_view};
ghost use Rattle.index_lines.specs.inner.ShapeViews.{line_dependency_views, shape_view};
ghost use Rattle.index_lines.specs.Records.{feature_name_of, entry_read, entries_read, feature_read, features_read};
ghost use Rattle.index_lines.specs.Records.{joined, names_rise, with_feature, with_features, written_of, dep_name_of};
ghost use Rattle.index_lines.specs.Records.{dep_names_of, unless_faulty, features_of, skip_of};

use crate::fault::{LineFault, SkipReason};
use crate::shape::{DependencyShape, FeatureShape, LineShape};
use features::{
    DepName, Entry, EntryFault, FeatureFault, FeatureName, FeatureTable, NameFault, Row, map_of,
    rows_of, shared,
};
use std::alloc::{AllocError, Global};
use std::collections::BTreeMap;

/// The feature table of a line.
#[tactic(auto, unfolding(crate::specs::Records::features_of))]
pub(crate) fn features(alloc: Global, line: &LineShape<'_>) -> Result<FeatureTable, LineFault>
    ensures { Gives wants_memory (λ t. t) result (features_of (shape_view line.now)) }
{
    let names = dep_names(alloc, &line.dependencies)?;
    let written = written(alloc, line)?;
    table(alloc, &names, shared(alloc, written)?)
}

/// The feature table of features with no further ones, where dependencies are called so.
pub(crate) fn features_alone(
    alloc: Global,
    features: &[FeatureShape<'_>],
    names: &[DepName],
) -> Result<FeatureTable, LineFault>
    ensures { Gives wants_memory
        (λ t. t) result (table_alone (dep_names_view names.now) (feature_views features.now)) }
{
    let written = first_features(alloc, features)?;
    table(alloc, names, shared(alloc, written)?)
}

/// The features that a line writes, by their names: those of `features2` behind those of `features`. They lie in rows,
/// for few lines have both, and a map is what takes longest to make.
fn written(alloc: Global, line: &LineShape<'_>) -> Result<Vec<(FeatureName, Vec<Entry>)>, LineFault>
    ensures read { Gives wants_memory (λ v. rows_of v.items) result (written_of (shape_view line.now)) }
    ensures rising { IfOk result (λ v. AreRising v.items) }
{
    let written = first_features(alloc, &line.features)?;
    if line.features2.as_slice().is_empty() {
        return Ok(written);
    }
    let written = with_features(alloc, map_of(alloc, written)?, &line.features2)?;
    Ok(rows_of(alloc, written)?)
}

/// The rows of features: as they are read where their names rise, as those of a registry do.
fn first_features(
    alloc: Global,
    features: &[FeatureShape<'_>],
) -> Result<Vec<(FeatureName, Vec<Entry>)>, LineFault>
    ensures read { Gives wants_memory (λ v. rows_of v.items) result (with_features [] (feature_views features.now)) }
    ensures rising { IfOk result (λ v. AreRising v.items) }
{
    if names_rise(features) {
        return rows(alloc, features);
    }
    let written = with_features(alloc, BTreeMap::new(alloc), features)?;
    Ok(rows_of(alloc, written)?)
}

/// Whether each feature's name comes after the one before it.
fn names_rise(features: &[FeatureShape<'_>]) -> bool
    ensures { result ≡ names_rise [] (feature_views features.now) }
{
    let mut before = "";
    'features: for feature in features {
        if !comes_before(before, feature.name) {
            return false;
        }
        before = feature.name;
    }
    true
}

pub(crate) fn comes_before(name: &str, next: &str) -> bool
    ensures { result ≡ is_lt (text_cmp name.now next.now) }
{
    name < next
}

/// The features with their entries, one after another.
#[tactic(auto, unfolding(crate::specs::Records::features_read))]
fn rows(
    alloc: Global,
    features: &[FeatureShape<'_>],
) -> Result<Vec<(FeatureName, Vec<Entry>)>, LineFault>
    ensures { Gives wants_memory (λ v. rows_of v.items) result (features_read (feature_views features.now)) }
{
    let mut found = Vec::with_capacity(alloc, features.len())?;
    'features: for feature in features {
        found.push(row(alloc, feature)?)?;
    }
    Ok(found)
}

#[tactic(auto, unfolding(crate::specs::Records::feature_read))]
fn row(alloc: Global, feature: &FeatureShape<'_>) -> Result<(FeatureName, Vec<Entry>), LineFault>
    ensures { Gives wants_memory
        (λ row. (row.0, entry_views row.1.items)) result (feature_read (feature_view feature.now)) }
{
    let name = feature_name(alloc, feature.name)?;
    let entries = entries(alloc, &feature.entries)?;
    Ok((name, entries))
}

#[tactic(auto, unfolding(crate::specs::Records::with_features))]
fn with_features(
    alloc: Global,
    mut written: BTreeMap<FeatureName, Vec<Entry>>,
    features: &[FeatureShape<'_>],
) -> Result<BTreeMap<FeatureName, Vec<Entry>>, LineFault>
    ensures { Gives wants_memory
        (λ m. rows_of m.entries) result (with_features (rows_of written.entries) (feature_views features.now)) }
{
    'features: for feature in features {
        written = with_feature(alloc, written, feature)?;
    }
    Ok(written)
}

#[tactic(auto, unfolding(crate::specs::Records::feature_read))]
fn with_feature(
    alloc: Global,
    written: BTreeMap<FeatureName, Vec<Entry>>,
    feature: &FeatureShape<'_>,
) -> Result<BTreeMap<FeatureName, Vec<Entry>>, LineFault>
    ensures { Gives wants_memory
        (λ m. rows_of m.entries) result (with_feature (rows_of written.entries) (feature_view feature.now)) }
{
    let name = feature_name(alloc, feature.name)?;
    let entries = entries(alloc, &feature.entries)?;
    Ok(with_entries(written, name, entries)?)
}

/// With these entries of a feature too, behind those that it has.
fn with_entries(
    mut written: BTreeMap<FeatureName, Vec<Entry>>,
    name: FeatureName,
    mut entries: Vec<Entry>,
) -> Result<BTreeMap<FeatureName, Vec<Entry>>, AllocError>
    ensures { IfOk result
        (λ m. rows_of m.entries ≡ joined (rows_of written.entries) (name, entry_views entries.items)) }
{
    if let Some(before) = written.get_mut(&name) {
        before.append(&mut entries)?;
        return Ok(written);
    }
    written.insert(name, entries)?;
    Ok(written)
}

#[tactic(auto, unfolding(crate::specs::Records::entries_read))]
pub(crate) fn entries(alloc: Global, texts: &[&str]) -> Result<Vec<Entry>, LineFault>
    ensures { Gives wants_memory (λ v. entry_views v.items) result (entries_read (text_views texts.now)) }
{
    let mut found = Vec::with_capacity(alloc, texts.len())?;
    'texts: for text in texts {
        found.push(entry(alloc, text)?)?;
    }
    Ok(found)
}

fn entry(alloc: Global, text: &str) -> Result<Entry, LineFault>
    ensures { Gives wants_memory entry_view result (entry_read text.now) }
{
    match Entry::parse(alloc, text) {
        Ok(entry) => Ok(entry),
        Err(EntryFault::OutOfMemory) => Err(LineFault::OutOfMemory),
        Err(EntryFault::NotAnEntry) => Err(LineFault::Skipped(SkipReason::BadFeatures)),
    }
}

pub(crate) fn feature_name(alloc: Global, text: &str) -> Result<FeatureName, LineFault>
    ensures { Gives wants_memory (λ n. n) result (feature_name_of text.now) }
{
    match FeatureName::parse(alloc, text) {
        Ok(name) => Ok(name),
        Err(NameFault::OutOfMemory) => Err(LineFault::OutOfMemory),
        Err(NameFault::NotAName) => Err(LineFault::Skipped(SkipReason::BadFeatures)),
    }
}

/// What the dependencies are called, of whatever kind.
fn dep_names(
    alloc: Global,
    dependencies: &[DependencyShape<'_>],
) -> Result<Vec<DepName>, AllocError>
    ensures { IfOk result (λ v. dep_names_view v.items ≡ dep_names_of (line_dependency_views dependencies.now)) }
{
    let mut found = Vec::with_capacity(alloc, dependencies.len())?;
    'dependencies: for dependency in dependencies {
        found.push(dep_name(dependency)?)?;
    }
    Ok(found)
}

pub(crate) fn dep_name(dependency: &DependencyShape<'_>) -> Result<DepName, AllocError>
    ensures { IfOk result (λ d. dep_name_view d ≡ dep_name_of (line_dependency_view dependency.now)) }
{
    match dependency {
        DependencyShape::Dev(name) => Ok(DepName {
            name: name.clone()?,
            optional: false,
        }),
        DependencyShape::Part(part) => Ok(DepName {
            name: part.name.clone()?,
            optional: part.optional,
        }),
    }
}

/// The table of features whose names rise, where dependencies are called so.
pub(crate) fn table(
    alloc: Global,
    names: &[DepName],
    written: Vec<Row>,
) -> Result<FeatureTable, LineFault>
    requires { AreRising written.items }
    ensures { Gives wants_memory
        (λ t. t) result (unless_faulty (table_of (dep_names_view names.now) (rows_of written.items))) }
{
    match FeatureTable::of_rows(alloc, names, written) {
        Ok(table) => Ok(table),
        Err(fault) => Err(fault_of(fault)),
    }
}

/// What a fault of a table is as a reason to skip.
fn fault_of(fault: FeatureFault) -> LineFault
    ensures { result ≡ skip_of fault }
{
    match fault {
        FeatureFault::OutOfMemory => LineFault::OutOfMemory,
        FeatureFault::NoSuchFeature(_)
        | FeatureFault::NoSuchDependency(_)
        | FeatureFault::NotOptional(_) => LineFault::Skipped(SkipReason::BadFeatures),
    }
}
