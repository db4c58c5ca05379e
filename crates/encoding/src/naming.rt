//! All vertices of a manifest and a loaded index, many of them more than once.

ghost use Rattle.std.specs.Prelude.{◌≡◌, ◌++◌, [], IfOk, OnOk, map, codes, if◌then◌else◌};
ghost use Rattle.std.specs.List.{flat_map};
ghost use Rattle.semver.specs.Identifiers.{parts_of};
ghost use Rattle.features.specs.EntryViews.{entry_view, entry_views};
ghost use Rattle.features.specs.Views.{dependency_view, dependency_views, summary_view};
ghost use Rattle.model.specs.Summary.{asked_of_target};
ghost use Rattle.model.specs.Vertices.{version_of};
ghost use Rattle.numbering.specs.inner.KnownProblem.{KnowsDefault, problem};
ghost use Rattle.vertices.specs.inner.RefViews.{owner_ref_view};
ghost use Rattle.encoding.specs.inner.Everything.{ask_if, asked_for, asked_if, asked_of, asks_of, feature_of, in_each};
ghost use Rattle.encoding.specs.inner.Everything.{named};
ghost use Rattle.numbering.specs.inner.CausesAt.{each_from};
ghost use Rattle.encoding.specs.inner.Everything.{of_dependency, of_entry, of_feature, of_name, of_root, of_table};
ghost use Rattle.encoding.specs.inner.Everything.{of_version};
ghost use Rattle.encoding.specs.Views.{vertex_views};

use classes::Class;
use features::{
    Dependency, DependencyParts, Entry, FeatureName, FeatureTable, PackageName, Summary,
};
use numbering::KnownProblem;
use semver::Version;
use std::alloc::{AllocError, Global};
use vertices::{OwnerRef, VertexRef};

/// A version of a package.
#[derive(Clone, Copy)]
struct Release<'a> {
    name: &'a PackageName,
    version: &'a Version,
}

/// The vertices of the root, and those of the candidates of each name.
pub(crate) fn named<'a>(
    alloc: Global,
    known: &KnownProblem<'a>,
) -> Result<Vec<VertexRef<'a>>, AllocError>
    requires default { KnowsDefault known.now }
    ensures { IfOk result (λ vs. vertex_views vs.items ≡ named (problem known.now)) }
{
    let mut vertices = Vec::new(alloc);
    put_root(known, &mut vertices)?;
    put_names(known, &mut vertices, known.problem.catalogue.names())?;
    Ok(vertices)
}

/// The root, its dependencies, and what the entries of its features ask these for.
fn put_root<'a>(
    known: &KnownProblem<'a>,
    vertices: &mut Vec<VertexRef<'a>>,
) -> Result<(), AllocError>
    requires default { KnowsDefault known.now }
    ensures { OnOk result
        (vertex_views vertices.new.items ≡ vertex_views vertices.old.items ++ of_root (problem known.now)) }
{
    let dependencies = known.problem.manifest.dependencies();
    vertices.push(VertexRef::Root)?;
    put_dependencies(known, vertices, OwnerRef::Root, dependencies)?;
    put_rows(
        known,
        vertices,
        dependencies,
        known.problem.manifest.features(),
    )
}

/// What the entries of all features of a table ask these dependencies for.
fn put_rows<'a>(
    known: &KnownProblem<'a>,
    vertices: &mut Vec<VertexRef<'a>>,
    dependencies: &'a [Dependency],
    table: &'a FeatureTable,
) -> Result<(), AllocError>
    ensures { OnOk result (vertex_views vertices.new.items ≡ vertex_views vertices.old.items ++ flat_map (λ row.
        flat_map (asked_for (problem known.now) (dependency_views dependencies.entry.now)) row.1) table.entry.now) }
{
    'rows: for (_, entries) in table.iter() {
        put_row(known, vertices, dependencies, entries.as_slice())?;
    }
    Ok(())
}

/// What the entries of one feature ask these dependencies for.
fn put_row<'a>(
    known: &KnownProblem<'a>,
    vertices: &mut Vec<VertexRef<'a>>,
    dependencies: &'a [Dependency],
    entries: &'a [Entry],
) -> Result<(), AllocError>
    ensures { OnOk result (vertex_views vertices.new.items ≡ vertex_views vertices.old.items ++ flat_map (asked_for
        (problem known.now) (dependency_views dependencies.entry.now)) (entry_views entries.entry.now)) }
{
    'entries: for entry in entries.iter() {
        put_asked(known, vertices, dependencies, entry)?;
    }
    Ok(())
}

/// The candidates of each name.
fn put_names<'a>(
    known: &KnownProblem<'a>,
    vertices: &mut Vec<VertexRef<'a>>,
    names: &'a [PackageName],
) -> Result<(), AllocError>
    requires default { KnowsDefault known.now }
    ensures { OnOk result (vertex_views vertices.new.items
        ≡ vertex_views vertices.old.items ++ flat_map (of_name (problem known.now)) names.entry.now) }
{
    'names: for name in names.iter() {
        put_versions(
            known,
            vertices,
            name,
            known.problem.catalogue.versions(name),
        )?;
    }
    Ok(())
}

/// These versions of a package, and what each brings.
fn put_versions<'a>(
    known: &KnownProblem<'a>,
    vertices: &mut Vec<VertexRef<'a>>,
    name: &'a PackageName,
    versions: &'a [Version],
) -> Result<(), AllocError>
    requires default { KnowsDefault known.now }
    ensures { OnOk result (vertex_views vertices.new.items ≡ vertex_views vertices.old.items
        ++ flat_map (of_version (problem known.now) name.entry.now) (map parts_of versions.entry.now)) }
{
    'versions: for version in versions.iter() {
        put_version(known, vertices, Release { name, version })?;
    }
    Ok(())
}

/// A version in its class, and what it brings.
fn put_version<'a>(
    known: &KnownProblem<'a>,
    vertices: &mut Vec<VertexRef<'a>>,
    release: Release<'a>,
) -> Result<(), AllocError>
    requires default { KnowsDefault known.now }
    ensures { OnOk result (vertex_views vertices.new.items ≡ vertex_views vertices.old.items
        ++ of_version (problem known.now) release.entry.name.now (parts_of release.entry.version.now)) }
{
    vertices.push(VertexRef::Package(release.name, Class::of(release.version)))?;
    match known
        .problem
        .catalogue
        .candidate(release.name, release.version)
    {
        Some(candidate) => put_brought(known, vertices, release, &candidate.brings),
        None => Ok(()),
    }
}

/// The dependencies of a version, and its features.
fn put_brought<'a>(
    known: &KnownProblem<'a>,
    vertices: &mut Vec<VertexRef<'a>>,
    release: Release<'a>,
    brings: &'a Summary,
) -> Result<(), AllocError>
    requires default { KnowsDefault known.now }
    ensures { OnOk result (vertex_views vertices.new.items
        ≡ vertex_views vertices.old.items ++ (each_from (of_dependency (problem known.now)
        (version_of release.entry.name.now (parts_of release.entry.version.now))) 0
        (summary_view brings.entry.now).dependencies ++ of_table (problem known.now) release.entry.name.now
        (parts_of release.entry.version.now) (summary_view brings.entry.now))) }
{
    let owner = OwnerRef::Version(release.name, release.version);
    put_dependencies(known, vertices, owner, brings.dependencies.as_slice())?;
    put_table(known, vertices, release, brings)
}

/// The features of a version, and what their entries ask for.
fn put_table<'a>(
    known: &KnownProblem<'a>,
    vertices: &mut Vec<VertexRef<'a>>,
    release: Release<'a>,
    brings: &'a Summary,
) -> Result<(), AllocError>
    ensures { OnOk result (vertex_views vertices.new.items
        ≡ vertex_views vertices.old.items ++ of_table (problem known.now) release.entry.name.now
        (parts_of release.entry.version.now) (summary_view brings.entry.now)) }
{
    'rows: for (feature, _) in brings.features.iter() {
        put_feature(known, vertices, release, brings, feature)?;
    }
    Ok(())
}

/// A feature of a version, and what its entries ask for.
fn put_feature<'a>(
    known: &KnownProblem<'a>,
    vertices: &mut Vec<VertexRef<'a>>,
    release: Release<'a>,
    brings: &'a Summary,
    feature: &'a FeatureName,
) -> Result<(), AllocError>
    ensures { OnOk result (vertex_views vertices.new.items
        ≡ vertex_views vertices.old.items ++ of_feature (problem known.now) release.entry.name.now
        (parts_of release.entry.version.now) (summary_view brings.entry.now) feature.entry.now) }
{
    put_in_each(known, vertices, release.name, feature)?;
    put_entries(
        known,
        vertices,
        release,
        brings.dependencies.as_slice(),
        brings.features.entries(feature),
    )
}

/// What these entries of a feature of a version ask its dependencies for.
fn put_entries<'a>(
    known: &KnownProblem<'a>,
    vertices: &mut Vec<VertexRef<'a>>,
    release: Release<'a>,
    dependencies: &'a [Dependency],
    entries: &'a [Entry],
) -> Result<(), AllocError>
    ensures { OnOk result (vertex_views vertices.new.items
        ≡ vertex_views vertices.old.items ++ flat_map (of_entry (problem known.now) release.entry.name.now (parts_of
        release.entry.version.now) (dependency_views dependencies.entry.now)) (entry_views entries.entry.now)) }
{
    'entries: for entry in entries.iter() {
        put_entry(known, vertices, release, dependencies, entry)?;
    }
    Ok(())
}

/// What one entry asks for: the asks, and the features that they are for.
fn put_entry<'a>(
    known: &KnownProblem<'a>,
    vertices: &mut Vec<VertexRef<'a>>,
    release: Release<'a>,
    dependencies: &'a [Dependency],
    entry: &'a Entry,
) -> Result<(), AllocError>
    ensures { OnOk result (vertex_views vertices.new.items
        ≡ vertex_views vertices.old.items ++ of_entry (problem known.now) release.entry.name.now (parts_of
        release.entry.version.now) (dependency_views dependencies.entry.now) (entry_view entry.entry.now)) }
{
    put_asks(vertices, release, dependencies, entry)?;
    put_asked(known, vertices, dependencies, entry)
}

/// The vertices of what an entry `d/g` asks the dependencies called d for.
fn put_asks<'a>(
    vertices: &mut Vec<VertexRef<'a>>,
    release: Release<'a>,
    dependencies: &'a [Dependency],
    entry: &'a Entry,
) -> Result<(), AllocError>
    ensures { OnOk result
        (vertex_views vertices.new.items ≡ vertex_views vertices.old.items ++ asks_of release.entry.name.now
        (parts_of release.entry.version.now) (dependency_views dependencies.entry.now) (entry_view entry.entry.now)) }
{
    match entry {
        Entry::Feature(_) | Entry::Dependency(_) | Entry::WeakFeature(_, _) => Ok(()),
        Entry::DependencyFeature(name, asked) => {
            put_each_ask(vertices, release, dependencies, name, asked)
        }
    }
}

/// The ask of each of the dependencies that are called so.
fn put_each_ask<'a>(
    vertices: &mut Vec<VertexRef<'a>>,
    release: Release<'a>,
    dependencies: &'a [Dependency],
    name: &'a PackageName,
    asked: &'a FeatureName,
) -> Result<(), AllocError>
    ensures { OnOk result (vertex_views vertices.new.items ≡ vertex_views vertices.old.items
        ++ each_from (ask_if release.entry.name.now (parts_of release.entry.version.now) name.entry.now
        asked.entry.now) 0 (dependency_views dependencies.entry.now)) }
{
    'dependencies: for (number, dependency) in dependencies.iter().enumerate() {
        put_ask_if(vertices, release, number, dependency, name, asked)?;
    }
    Ok(())
}

/// An ask of a dependency, if it is called so.
fn put_ask_if<'a>(
    vertices: &mut Vec<VertexRef<'a>>,
    release: Release<'a>,
    number: usize,
    dependency: &'a DependencyParts,
    name: &'a PackageName,
    asked: &'a FeatureName,
) -> Result<(), AllocError>
    ensures { OnOk result (vertex_views vertices.new.items ≡ vertex_views vertices.old.items
        ++ ask_if release.entry.name.now (parts_of release.entry.version.now) name.entry.now asked.entry.now number
        (dependency_view dependency.entry.now)) }
{
    if dependency.name == *name {
        vertices.push(VertexRef::Ask(release.name, release.version, number, asked))?;
    }
    Ok(())
}

/// The features that an entry `d/g` or `d?/g` asks of the dependencies called d.
fn put_asked<'a>(
    known: &KnownProblem<'a>,
    vertices: &mut Vec<VertexRef<'a>>,
    dependencies: &'a [Dependency],
    entry: &'a Entry,
) -> Result<(), AllocError>
    ensures { OnOk result (vertex_views vertices.new.items ≡ vertex_views vertices.old.items
        ++ asked_for (problem known.now) (dependency_views dependencies.entry.now) (entry_view entry.entry.now)) }
{
    match entry {
        Entry::Feature(_) | Entry::Dependency(_) => Ok(()),
        Entry::DependencyFeature(name, asked) | Entry::WeakFeature(name, asked) => {
            put_each_asked(known, vertices, dependencies, name, asked)
        }
    }
}

/// The feature that is asked for, of the package of each dependency that is called so.
fn put_each_asked<'a>(
    known: &KnownProblem<'a>,
    vertices: &mut Vec<VertexRef<'a>>,
    dependencies: &'a [Dependency],
    name: &'a PackageName,
    asked: &'a FeatureName,
) -> Result<(), AllocError>
    ensures { OnOk result (vertex_views vertices.new.items ≡ vertex_views vertices.old.items ++ asked_of
        (problem known.now) (dependency_views dependencies.entry.now) name.entry.now asked.entry.now) }
{
    'dependencies: for dependency in dependencies.iter() {
        put_asked_if(known, vertices, dependency, name, asked)?;
    }
    Ok(())
}

/// A feature of the package of a dependency, if that is called so.
fn put_asked_if<'a>(
    known: &KnownProblem<'a>,
    vertices: &mut Vec<VertexRef<'a>>,
    dependency: &'a DependencyParts,
    name: &'a PackageName,
    asked: &'a FeatureName,
) -> Result<(), AllocError>
    ensures { OnOk result (vertex_views vertices.new.items ≡ vertex_views vertices.old.items ++ asked_if
        (problem known.now) name.entry.now asked.entry.now (dependency_view dependency.entry.now)) }
{
    if dependency.name == *name {
        put_in_each(known, vertices, &dependency.real_name, asked)
    } else {
        Ok(())
    }
}

/// Dependencies, and the features that they ask for.
fn put_dependencies<'a>(
    known: &KnownProblem<'a>,
    vertices: &mut Vec<VertexRef<'a>>,
    owner: OwnerRef<'a>,
    dependencies: &'a [Dependency],
) -> Result<(), AllocError>
    requires default { KnowsDefault known.now }
    ensures { OnOk result (vertex_views vertices.new.items ≡ vertex_views vertices.old.items ++ each_from (of_dependency
        (problem known.now) (owner_ref_view owner.entry)) 0 (dependency_views dependencies.entry.now)) }
{
    'dependencies: for (number, dependency) in dependencies.iter().enumerate() {
        put_dependency(known, vertices, owner, number, dependency)?;
    }
    Ok(())
}

/// A dependency, and the features that it asks for by itself.
fn put_dependency<'a>(
    known: &KnownProblem<'a>,
    vertices: &mut Vec<VertexRef<'a>>,
    owner: OwnerRef<'a>,
    number: usize,
    dependency: &'a Dependency,
) -> Result<(), AllocError>
    requires default { KnowsDefault known.now }
    ensures { OnOk result (vertex_views vertices.new.items ≡ vertex_views vertices.old.items ++ of_dependency
        (problem known.now) (owner_ref_view owner.entry) number (dependency_view dependency.entry.now)) }
{
    vertices.push(VertexRef::Dependency(owner, number))?;
    put_wanted(known, vertices, dependency)
}

/// The features of a dependency's own list, and `default`.
fn put_wanted<'a>(
    known: &KnownProblem<'a>,
    vertices: &mut Vec<VertexRef<'a>>,
    dependency: &'a DependencyParts,
) -> Result<(), AllocError>
    requires default { KnowsDefault known.now }
    ensures { OnOk result (vertex_views vertices.new.items ≡ vertex_views vertices.old.items
        ++ flat_map (feature_of (problem known.now) (dependency_view dependency.entry.now).real_name)
        (asked_of_target (dependency_view dependency.entry.now))) }
{
    put_listed(
        known,
        vertices,
        &dependency.real_name,
        dependency.features.as_slice(),
    )?;
    put_default(known, vertices, dependency)
}

/// Features of a name, in the class of each candidate.
fn put_listed<'a>(
    known: &KnownProblem<'a>,
    vertices: &mut Vec<VertexRef<'a>>,
    name: &'a PackageName,
    features: &'a [FeatureName],
) -> Result<(), AllocError>
    ensures { OnOk result (vertex_views vertices.new.items ≡ vertex_views vertices.old.items
        ++ flat_map (feature_of (problem known.now) name.entry.now) features.entry.now) }
{
    'features: for feature in features.iter() {
        put_in_each(known, vertices, name, feature)?;
    }
    Ok(())
}

/// The feature `default`, where the dependency asks for default features.
fn put_default<'a>(
    known: &KnownProblem<'a>,
    vertices: &mut Vec<VertexRef<'a>>,
    dependency: &'a DependencyParts,
) -> Result<(), AllocError>
    requires default { KnowsDefault known.now }
    ensures { OnOk result (vertex_views vertices.new.items ≡ vertex_views vertices.old.items
        ++ (if (dependency_view dependency.entry.now).default_features then feature_of (problem known.now)
        (dependency_view dependency.entry.now).real_name (codes "default") else [])) }
{
    if dependency.default_features {
        put_in_each(known, vertices, &dependency.real_name, known.default)?;
    }
    Ok(())
}

/// A feature of a name, in the class of each candidate.
fn put_in_each<'a>(
    known: &KnownProblem<'a>,
    vertices: &mut Vec<VertexRef<'a>>,
    name: &'a PackageName,
    feature: &'a FeatureName,
) -> Result<(), AllocError>
    ensures { OnOk result (vertex_views vertices.new.items
        ≡ vertex_views vertices.old.items ++ feature_of (problem known.now) name.entry.now feature.entry.now) }
{
    put_classes(
        vertices,
        name,
        feature,
        known.problem.catalogue.versions(name),
    )
}

/// A feature of a name, in the class of each of these versions.
fn put_classes<'a>(
    vertices: &mut Vec<VertexRef<'a>>,
    name: &'a PackageName,
    feature: &'a FeatureName,
    versions: &[Version],
) -> Result<(), AllocError>
    ensures { OnOk result (vertex_views vertices.new.items ≡ vertex_views vertices.old.items
        ++ in_each name.entry.now feature.entry.now (map parts_of versions.now)) }
{
    'versions: for version in versions.iter() {
        vertices.push(VertexRef::Feature(name, Class::of(version), feature))?;
    }
    Ok(())
}
