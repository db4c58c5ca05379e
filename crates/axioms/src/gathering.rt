//! The features of packages that are known: those that some candidate has, or that some dependency asks for.
//!
//! Whether the vertex of a feature is there is a question about all owners: anyone's dependency may ask for the
//! feature. A checker with many steps can't go over all of them for each step. So `known_features` gathers all pairs of
//! a name and a feature in one pass, by references into the manifest and the index. Entries `d/g` name a dependency by
//! what its owner calls it, so what a package's entries ask of each name is gathered first and then put to the package
//! that is meant.
//!
//! A layer above may rely on this: a pair is there exactly where some candidate of the name has the feature or some
//! dependency asks for it, by its list, by `default` or by an entry.

ghost use Rattle.std.specs.Prelude.{◌≡◌, ◌&&◌, ◌||◌, IfOk, OnOk, slice_get};
ghost use Rattle.std.specs.List.{list_any};
ghost use Rattle.semver.specs.Identifiers.{parts_of};
ghost use Rattle.features.specs.Views.{dependency_view, dependency_views, summary_view};
ghost use Rattle.features.specs.EntryViews.{entry_view, entry_views};
ghost use Rattle.model.specs.Content.{candidates_of, passes};
ghost use Rattle.model.specs.Summary.{asked_of_target, has_feature, same_text};
ghost use Rattle.model.specs.Causes.{asks_for, same_pair};
ghost use Rattle.catalogue.specs.Problems.{problem_in};
ghost use Rattle.catalogue.specs.Stores.{rows_by_name};
ghost use Rattle.axioms.specs.inner.Asking.{row_may_ask, row_names};
ghost use Rattle.axioms.specs.inner.Gathered.{asks_by, brings_in, is_asked_by_root, is_asked_by_some};
ghost use Rattle.axioms.specs.inner.Gathered.{is_asked_by_version, is_had, is_known_by, is_known_feature, some_asks_by};
ghost use Rattle.axioms.specs.inner.Pairs.{Adds, HasThose, has_pair};

use crate::pairs::Pairs;
use catalogue::Catalogue;
use features::{
    Dependency, DependencyParts, Entry, FeatureName, FeatureTable, PackageName, Summary,
};
use manifest::Manifest;
use semver::Version;
use std::alloc::{AllocError, Global};

/// The features that some candidate of a name has, or that some dependency asks for.
pub fn known_features<'a>(
    alloc: Global,
    manifest: &'a Manifest,
    catalogue: &'a Catalogue,
) -> Result<Pairs<'a>, AllocError>
    ensures { IfOk result (λ p. HasThose p (is_known_feature (problem_in manifest.entry.now catalogue.entry.now))) }
{
    let mut known = Pairs::new(alloc);
    put_root(alloc, &mut known, manifest.brings())?;
    put_names(alloc, &mut known, catalogue, catalogue.names())?;
    Ok(known)
}

/// Puts what the root's dependencies ask for.
fn put_root<'a>(alloc: Global, known: &mut Pairs<'a>, owner: &'a Summary) -> Result<(), AllocError>
    ensures { OnOk result (Adds known.old known.new (is_asked_by_root (summary_view owner.now))) }
{
    let asked = asked_by_root(alloc, &owner.features)?;
    put_dependencies(known, &asked, owner.dependencies.as_slice())
}

/// Puts what the candidates of these names have and ask for.
fn put_names<'a>(
    alloc: Global,
    known: &mut Pairs<'a>,
    catalogue: &'a Catalogue,
    names: &'a [PackageName],
) -> Result<(), AllocError>
    ensures { OnOk result
        (Adds known.old known.new (λ n f. list_any (λ name. is_known_by catalogue.now name n f) names.now)) }
{
    'names: for name in names.iter() {
        put_name(alloc, known, catalogue, name)?;
    }
    Ok(())
}

/// Puts what the candidates of a name have and ask for.
#[tactic(auto, unfolding(crate::specs::inner::Gathered::is_known_by))]
fn put_name<'a>(
    alloc: Global,
    known: &mut Pairs<'a>,
    catalogue: &'a Catalogue,
    name: &'a PackageName,
) -> Result<(), AllocError>
    ensures { OnOk result (Adds known.old known.new (is_known_by catalogue.now name.now)) }
{
    put_had(known, catalogue, name)?;
    put_asked(alloc, known, catalogue, name)
}

/// Puts the features that candidates of the name have.
fn put_had<'a>(
    known: &mut Pairs<'a>,
    catalogue: &'a Catalogue,
    name: &'a PackageName,
) -> Result<(), AllocError>
    ensures { OnOk result (Adds known.old known.new (is_had catalogue.now name.now)) }
{
    let count = catalogue.versions(name).len();
    'places: for place in 0..count {
        put_had_at(known, catalogue, name, place)?;
    }
    Ok(())
}

/// Puts the features of the candidate at a place, if there is one.
fn put_had_at<'a>(
    known: &mut Pairs<'a>,
    catalogue: &'a Catalogue,
    name: &'a PackageName,
    place: usize,
) -> Result<(), AllocError>
    ensures { OnOk result (Adds known.old known.new (λ n f. same_text n name.now && passes (λ c. has_feature
        c.brings.features f) (slice_get (candidates_of (rows_by_name catalogue.now) name.now) place))) }
{
    match catalogue.candidates(name).get(place) {
        Some(candidate) => put_table(known, name.as_str(), &candidate.brings.features),
        None => Ok(()),
    }
}

/// Puts the features of one candidate.
fn put_table<'a>(
    known: &mut Pairs<'a>,
    name: &'a str,
    table: &'a FeatureTable,
) -> Result<(), AllocError>
    ensures { OnOk result
        (Adds known.old known.new (λ n f. list_any (λ row. same_pair (n, f) (name.now, row.0)) table.now)) }
{
    'rows: for (feature, _) in table.iter() {
        known.put(name, feature.as_str())?;
    }
    Ok(())
}

/// Puts what dependencies of the name's candidates ask for.
fn put_asked<'a>(
    alloc: Global,
    known: &mut Pairs<'a>,
    catalogue: &'a Catalogue,
    name: &'a PackageName,
) -> Result<(), AllocError>
    ensures { OnOk result (Adds known.old known.new (is_asked_by_some catalogue.now name.now)) }
{
    put_versions(alloc, known, catalogue, name, catalogue.versions(name))
}

/// Puts what the candidates of these versions ask for.
fn put_versions<'a>(
    alloc: Global,
    known: &mut Pairs<'a>,
    catalogue: &'a Catalogue,
    name: &'a PackageName,
    versions: &'a [Version],
) -> Result<(), AllocError>
    ensures { OnOk result (Adds known.old known.new (λ n f.
        list_any (λ v. is_asked_by_version (brings_in catalogue.now name.now (parts_of v)) n f) versions.now)) }
{
    'versions: for version in versions.iter() {
        put_version(alloc, known, catalogue, name, version)?;
    }
    Ok(())
}

/// Puts what the candidate of a version asks for, if it is there.
fn put_version<'a>(
    alloc: Global,
    known: &mut Pairs<'a>,
    catalogue: &'a Catalogue,
    name: &'a PackageName,
    version: &'a Version,
) -> Result<(), AllocError>
    ensures { OnOk result
        (Adds known.old known.new (is_asked_by_version (brings_in catalogue.now name.now (parts_of version.now)))) }
{
    match catalogue.candidate(name, version) {
        Some(candidate) => put_owner(alloc, known, &candidate.brings),
        None => Ok(()),
    }
}

#[tactic(auto, unfolding(crate::specs::inner::Gathered::is_asked_by_version))]
fn put_owner<'a>(alloc: Global, known: &mut Pairs<'a>, owner: &'a Summary) -> Result<(), AllocError>
    ensures { OnOk result (Adds known.old known.new (is_asked_by_version (summary_view owner.now))) }
{
    let asked = asked_by_version(alloc, &owner.features)?;
    put_dependencies(known, &asked, owner.dependencies.as_slice())
}

/// Puts what dependencies ask for, by their lists and by the entries that name them.
fn put_dependencies<'a>(
    known: &mut Pairs<'a>,
    asked: &Pairs<'a>,
    dependencies: &'a [Dependency],
) -> Result<(), AllocError>
    ensures { OnOk result
        (Adds known.old known.new (some_asks_by (has_pair asked.now) (dependency_views dependencies.now))) }
{
    'dependencies: for dependency in dependencies.iter() {
        put_dependency(known, asked, dependency)?;
    }
    Ok(())
}

/// Puts what a dependency asks for by its list, and what entries ask those called so for.
fn put_dependency<'a>(
    known: &mut Pairs<'a>,
    asked: &Pairs<'a>,
    dependency: &'a Dependency,
) -> Result<(), AllocError>
    ensures { OnOk result (Adds known.old known.new (asks_by (has_pair asked.now) (dependency_view dependency.now))) }
{
    let name = dependency.real_name.as_str();
    put_list(known, name, dependency)?;
    known.put_those(name, asked, dependency.name.as_str())
}

/// Puts the features of a dependency's list, and `default` where it asks for default features.
pub(crate) fn put_list<'a>(
    known: &mut Pairs<'a>,
    name: &'a str,
    dependency: &'a DependencyParts,
) -> Result<(), AllocError>
    ensures { OnOk result (Adds known.old known.new
        (λ n f. same_text n name.now && list_any (same_text f) (asked_of_target (dependency_view dependency.now)))) }
{
    put_features(known, name, dependency.features.as_slice())?;
    if dependency.default_features {
        known.put(name, "default")?;
    }
    Ok(())
}

fn put_features<'a>(
    known: &mut Pairs<'a>,
    name: &'a str,
    features: &'a [FeatureName],
) -> Result<(), AllocError>
    ensures { OnOk result
        (Adds known.old known.new (λ n f. list_any (λ g. same_pair (n, f) (name.now, g)) features.now)) }
{
    'features: for feature in features.iter() {
        known.put(name, feature.as_str())?;
    }
    Ok(())
}

/// What entries of the root ask for, by the names that dependencies are called by.
pub(crate) fn asked_by_root<'a>(
    alloc: Global,
    table: &'a FeatureTable,
) -> Result<Pairs<'a>, AllocError>
    ensures { IfOk result (λ p. HasThose p (λ d g. list_any (row_names d g) table.entry.now)) }
{
    let mut asked = Pairs::new(alloc);
    put_root_rows(&mut asked, table)?;
    Ok(asked)
}

fn put_root_rows<'a>(asked: &mut Pairs<'a>, table: &'a FeatureTable) -> Result<(), AllocError>
    ensures { OnOk result (Adds asked.old asked.new (λ d g. list_any (row_names d g) table.now)) }
{
    'rows: for (_, entries) in table.iter() {
        put_entries(asked, entries.as_slice())?;
    }
    Ok(())
}

/// The same of a version.
fn asked_by_version<'a>(alloc: Global, table: &'a FeatureTable) -> Result<Pairs<'a>, AllocError>
    ensures { IfOk result (λ p. HasThose p (λ d g. list_any (row_may_ask d g table.entry.now) table.entry.now)) }
{
    let mut asked = Pairs::new(alloc);
    put_rows(&mut asked, table)?;
    Ok(asked)
}

fn put_rows<'a>(asked: &mut Pairs<'a>, table: &'a FeatureTable) -> Result<(), AllocError>
    ensures { OnOk result (Adds asked.old asked.new (λ d g. list_any (row_may_ask d g table.now) table.now)) }
{
    'rows: for (row, _) in table.iter() {
        put_entries(asked, table.entries(row))?;
    }
    Ok(())
}

/// Puts what entries `d/g` and `d?/g` ask for.
fn put_entries<'a>(asked: &mut Pairs<'a>, entries: &'a [Entry]) -> Result<(), AllocError>
    ensures { OnOk result (Adds asked.old asked.new (λ d g. list_any (asks_for d g) (entry_views entries.now))) }
{
    'entries: for entry in entries.iter() {
        put_entry(asked, entry)?;
    }
    Ok(())
}

/// Puts what an entry asks for, under the name that it asks.
fn put_entry<'a>(asked: &mut Pairs<'a>, entry: &'a Entry) -> Result<(), AllocError>
    ensures { OnOk result (Adds asked.old asked.new (λ d g. asks_for d g (entry_view entry.now))) }
{
    match entry {
        Entry::Feature(_) | Entry::Dependency(_) => Ok(()),
        Entry::DependencyFeature(name, feature) | Entry::WeakFeature(name, feature) => {
            asked.put(name.as_str(), feature.as_str())
        }
    }
}
