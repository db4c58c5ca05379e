//! Reading a manifest.

ghost use Rattle.std.specs.Prelude.{◌≡◌, ◌≢◌, ◌⊎◌, IfOk, Some, option_map};
ghost use Rattle.semver.specs.Grammar.{IsValid};
ghost use Rattle.semver.specs.Identifiers.{parts_of};
ghost use Rattle.semver.specs.Parse.{memory_error};
ghost use Rattle.toml.specs.View.{table_view};
ghost use Rattle.model.specs.Outcome.{Gives, guard};
ghost use Rattle.classes.specs.Classes.{rust_version_view};
ghost use Rattle.features.specs.inner.Valid.{BringsValid};
ghost use Rattle.features.specs.Views.{dependency_view, dependency_views, summary_view};
ghost use Rattle.manifest.specs.Faults.{wants_memory};
ghost use Rattle.manifest.specs.Manifests.{uses, sources_allowed, dependency_with, dependencies_of};
ghost use Rattle.manifest.specs.Manifests.{manifest_of, manifest_of_bytes};
ghost use Rattle.manifest.specs.inner.ShapeViews as shaped;

use crate::check::check;
use crate::dependency::DependencyShape;
use crate::fault::{ManifestFault, Unsupported};
use crate::root_features::root_features;
use crate::shape::{Shape, read_shape};
use classes::RustVersion;
use features::{Dependency, DependencyParts, FeatureTable, PackageName, Requirement, Summary};
use semver::{Version, VersionReq};
use std::alloc::{AllocError, Global};
use std::marker::Model;
use tables::read_table;
use toml::Table;

/// The most bytes that a manifest may have: 1 MiB.
const LIMIT: usize = 1_048_576;

/// What a manifest says of its package: its name and version, the Rust version that it needs, its dependencies and its
/// features (Cargo book, "The Manifest Format").
#[derive(Drop)]
pub struct Manifest {
    name: PackageName,
    version: Version,
    rust_version: Option<RustVersion>,
    brings: Summary,
}

impl Model for Manifest {
    ghost use Rattle.std.specs.Prelude.{option_map};
    ghost use Rattle.semver.specs.Grammar.{IsValid};
    ghost use Rattle.semver.specs.Identifiers.{parts_of};
    ghost use Rattle.classes.specs.Classes.{rust_version_view};
    ghost use Rattle.features.specs.inner.Valid.{BringsValid};
    ghost use Rattle.features.specs.Views.{summary_view};
    ghost use Rattle.manifest.specs.Manifests.{ManifestView};

    ghost Value = { ManifestView };

    ghost view = { λ m. record {
      name = m.name;
      version = parts_of m.version;
      rust_version =
          option_map rust_version_view m.rust_version;
      brings = summary_view m.brings;
    } };

    ghost invariant = { λ m. IsValid (parts_of m.version) × BringsValid (summary_view m.brings) };
}

impl Manifest {
    /// The manifest that the bytes of a Cargo.toml are, or the first fault.
    #[tactic(auto, unfolding(crate::specs::Manifests::manifest_of_bytes))]
    pub fn read(alloc: Global, bytes: &[u8]) -> Result<Manifest, ManifestFault>
        ensures { Gives wants_memory (λ m. m) result (manifest_of_bytes bytes.now) }
    {
        check(bytes.len() <= LIMIT, ManifestFault::TooLarge)?;
        let Some(table) = read_table(alloc, bytes)? else {
            return Err(ManifestFault::NotToml);
        };
        manifest_in(alloc, &table)
    }

    /// The name of the package.
    pub fn name(&self) -> &PackageName
        ensures { result.now ≡ self.now.name }
    {
        &self.name
    }

    /// The version of the package: 0.0.0 where the manifest has none.
    pub fn version(&self) -> &Version
        ensures parts { parts_of result.now ≡ self.now.version }
        ensures valid { IsValid (parts_of result.now) }
    {
        &self.version
    }

    /// The Rust version that the package needs, where the manifest has one.
    pub fn rust_version(&self) -> Option<RustVersion>
        ensures { option_map rust_version_view result ≡ self.now.rust_version }
    {
        self.rust_version
    }

    /// What the package brings: its dependencies by number, and its features.
    pub fn brings(&self) -> &Summary
        ensures { summary_view result.now ≡ self.now.brings }
    {
        &self.brings
    }

    /// The dependencies by number: normal, dev and build ones, then those of each target in the same way, each table by
    /// the bytes of the names.
    pub fn dependencies(&self) -> &[Dependency]
        ensures { dependency_views result.now ≡ self.now.brings.dependencies }
    {
        self.brings.dependencies.as_slice()
    }

    /// The features of the package.
    pub fn features(&self) -> &FeatureTable
        ensures { result.now ≡ self.now.brings.features }
    {
        &self.brings.features
    }
}

/// What a manifest brings is of names that are names, and it has no more dependencies than there are numbers of 32
/// bits.
pub fn manifests_bring_valid_parts(manifest: &Manifest)
    ensures { BringsValid manifest.now.brings }
{
    let _ = &manifest.brings;
}

/// What a table says as a manifest.
#[tactic(auto, unfolding(crate::specs::Manifests::manifest_of))]
fn manifest_in(alloc: Global, top: &Table) -> Result<Manifest, ManifestFault>
    requires { IfOk (manifest_of (table_view top.now)) (λ m. BringsValid m.brings) }
    ensures { Gives wants_memory (λ m. m) result (manifest_of (table_view top.now)) }
{
    let shape = read_shape(alloc, top)?;
    allow(!shape.patches, Unsupported::Patch)?;
    allow(!shape.replaces, Unsupported::Replace)?;
    let Shape {
        own,
        dependencies,
        features,
        has_members,
        ..
    } = shape;
    let Some(package) = own else {
        return Err(ManifestFault::UnsupportedSource(Unsupported::Workspace));
    };
    check_sources(has_members, dependencies.as_slice())?;
    let dependencies = requirements(alloc, dependencies)?;
    let features = root_features(alloc, dependencies.as_slice(), features)?;
    Ok(Manifest {
        name: package.name,
        version: package.version,
        rust_version: package.rust_version,
        brings: Summary {
            dependencies,
            features,
        },
    })
}

/// The workspace has no members, and each dependency is from the registry; or the first source, in the order of
/// `Unsupported`, that isn't.
#[tactic(auto, unfolding(crate::specs::Manifests::sources_allowed))]
fn check_sources(
    has_members: bool,
    dependencies: &[DependencyShape<'_>],
) -> Result<(), ManifestFault>
    ensures { Gives wants_memory
        (λ u. u) result (sources_allowed has_members (shaped.dependency_views dependencies.now)) }
{
    allow(
        !(has_members || uses(dependencies, Unsupported::Workspace)),
        Unsupported::Workspace,
    )?;
    allow(!uses(dependencies, Unsupported::Git), Unsupported::Git)?;
    allow(!uses(dependencies, Unsupported::Path), Unsupported::Path)?;
    allow(
        !uses(dependencies, Unsupported::Registry),
        Unsupported::Registry,
    )
}

fn allow(passes: bool, source: Unsupported) -> Result<(), ManifestFault>
    ensures { Gives wants_memory (λ u. u) result (guard passes (ManifestFault.UnsupportedSource source)) }
{
    check(passes, ManifestFault::UnsupportedSource(source))
}

fn uses(dependencies: &[DependencyShape<'_>], source: Unsupported) -> bool
    ensures { result ≡ uses source (shaped.dependency_views dependencies.now) }
{
    dependencies.iter().any(|d| d.is_from(source))
}

/// The dependencies by number, with their requirements read.
#[tactic(auto, unfolding(crate::specs::Manifests::dependencies_of))]
fn requirements(
    alloc: Global,
    shapes: Vec<DependencyShape<'_>>,
) -> Result<Vec<Dependency>, ManifestFault>
    ensures { Gives wants_memory
        (λ v. dependency_views v.items) result (dependencies_of (shaped.dependency_views shapes.entry.items)) }
{
    let mut found = Vec::new(alloc);
    'shapes: for shape in shapes {
        found.push(with_requirement(alloc, shape)?)?;
    }
    Ok(found)
}

/// A dependency with its requirement read.
#[tactic(auto, unfolding(crate::specs::Manifests::dependency_with))]
fn with_requirement(alloc: Global, shape: DependencyShape<'_>) -> Result<Dependency, ManifestFault>
    ensures { Gives wants_memory dependency_view result (dependency_with (shaped.dependency_view shape.entry)) }
{
    match VersionReq::parse(alloc, shape.requirement) {
        Ok(requirement) => Ok(Dependency::new(
            alloc,
            DependencyParts {
                name: shape.name,
                real_name: shape.real_name,
                requirement: Requirement::new(alloc, requirement)?,
                optional: shape.optional,
                default_features: shape.default_features,
                features: shape.features,
            },
        )?),
        Err(e) => Err(requirement_fault(e, shape.name)),
    }
}

/// What an error of `semver` is as a fault of the dependency of this name.
fn requirement_fault(e: semver::Error, name: PackageName) -> ManifestFault
    ensures { ((result ≡ ManifestFault.OutOfMemory) × (e ≡ memory_error))
        ⊎ ((result ≡ ManifestFault.BadRequirement name) × (e ≢ memory_error)) }
{
    if e == semver::Error::from(AllocError) {
        ManifestFault::OutOfMemory
    } else {
        ManifestFault::BadRequirement(name)
    }
}
