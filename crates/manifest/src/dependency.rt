//! The dependencies that a manifest writes, before their requirements are read.

ghost use Rattle.std.specs.Prelude.{◌≡◌, ◌||◌, ◌++◌, [], false, codes, is_some, option_map};
ghost use Rattle.std.specs.Option.{option_map_or};
ghost use Rattle.toml.specs.Data.{get_member, no_members};
ghost use Rattle.toml.specs.View.{view, table_view, array_view};
ghost use Rattle.model.specs.Outcome.{Gives, ◌>>=◌ as and_then};
ghost use Rattle.manifest.specs.Faults.{wants_memory};
ghost use Rattle.manifest.specs.Manifests.{same_source};
ghost use Rattle.manifest.specs.Values.{or_absent, each_member, text_of, package_name_of};
ghost use Rattle.manifest.specs.Dependencies.{unsupported_in, detailed};
ghost use Rattle.manifest.specs.Dependencies.{may_be_optional, feature_names, feature_list, default_features_in};
ghost use Rattle.manifest.specs.Dependencies.{dependency_in};
ghost use Rattle.manifest.specs.Dependencies.{described, dependency_of};
ghost use Rattle.manifest.specs.inner.ShapeViews.{dependency_view, dependency_views};

use crate::check::check;
use crate::fault::{ManifestFault, Part, Unsupported};
use crate::table::{either, feature_name, flag, list, package_name, text, text_at};
use features::{DependencyKind, FeatureName, PackageName};
use std::alloc::Global;
use tables::{has_key, member};
use toml::value::{Array, Table, Value};

/// A dependency with its requirement as it is written.
#[derive(Drop)]
pub(crate) struct DependencyShape<'a> {
    /// The name that it is called by.
    pub name: PackageName,
    /// The name of the package that it means.
    pub real_name: PackageName,
    /// Empty where none is written.
    pub requirement: &'a str,
    /// The first source that is unsupported and that its keys ask for.
    pub unsupported: Option<Unsupported>,
    pub optional: bool,
    pub default_features: bool,
    pub features: Vec<FeatureName>,
}

impl DependencyShape<'_> {
    /// Whether it is from this source.
    pub(crate) fn is_from(&self, source: Unsupported) -> bool
        ensures { result ≡ option_map_or (same_source source) self.now.unsupported false }
    {
        match self.unsupported {
            None => false,
            Some(own) => own == source,
        }
    }
}

/// The dependencies of one table.
#[tactic(auto, unfolding(crate::specs::Values::each_member))]
pub(crate) fn dependencies_in(
    alloc: Global,
    table: &Table,
    part: Part,
    kind: DependencyKind,
) -> Result<Vec<DependencyShape<'_>>, ManifestFault>
    ensures { Gives wants_memory
        (λ v. dependency_views v.items) result (each_member (dependency_of part kind) (table_view table.now)) }
{
    let mut found = Vec::new(alloc);
    'members: for (key, value) in table.iter() {
        found.push(dependency(alloc, key.as_str(), value, part, kind)?)?;
    }
    Ok(found)
}

/// A dependency by its key and its value, which is a text or a table.
#[tactic(auto, unfolding(crate::specs::Dependencies::dependency_of))]
fn dependency<'a>(
    alloc: Global,
    key: &str,
    value: &'a Value,
    part: Part,
    kind: DependencyKind,
) -> Result<DependencyShape<'a>, ManifestFault>
    ensures { Gives wants_memory dependency_view result (dependency_of part kind key.now (view value.now)) }
{
    let name = package_name(alloc, key, part)?;
    described(alloc, name, value, part, kind)
}

/// A dependency of this name: a requirement or a table.
fn described<'a>(
    alloc: Global,
    name: PackageName,
    value: &'a Value,
    part: Part,
    kind: DependencyKind,
) -> Result<DependencyShape<'a>, ManifestFault>
    ensures { Gives wants_memory dependency_view result (described part kind name (view value.now)) }
{
    match value {
        Value::String(text) => bare(alloc, name, text.as_str(), None, part, kind),
        Value::Table(table) => {
            if has_key(table, "workspace") {
                bare(alloc, name, "", Some(Unsupported::Workspace), part, kind)
            } else {
                dependency_in(alloc, name, table, part, kind)
            }
        }
        _ => Err(ManifestFault::Shape(part)),
    }
}

/// A dependency of which no more is said than its requirement or its source.
#[tactic(auto, unfolding(crate::specs::Dependencies::detailed))]
fn bare<'a>(
    alloc: Global,
    name: PackageName,
    requirement: &'a str,
    unsupported: Option<Unsupported>,
    part: Part,
    kind: DependencyKind,
) -> Result<DependencyShape<'a>, ManifestFault>
    ensures { Gives wants_memory dependency_view result
        (detailed part kind name requirement.now unsupported no_members) }
{
    let real_name = name.clone()?;
    Ok(DependencyShape {
        name,
        real_name,
        requirement,
        unsupported,
        optional: false,
        default_features: true,
        features: Vec::new(alloc),
    })
}

/// A dependency that is written as a table: only one of an unsupported source may lack a version.
#[tactic(auto, unfolding(crate::specs::Dependencies::dependency_in))]
fn dependency_in<'a>(
    alloc: Global,
    name: PackageName,
    table: &'a Table,
    part: Part,
    kind: DependencyKind,
) -> Result<DependencyShape<'a>, ManifestFault>
    ensures { Gives wants_memory dependency_view result (dependency_in part kind name (table_view table.now)) }
{
    let version = text_at(table, "version", part)?;
    let unsupported = unsupported_in(table);
    check(
        is_described(version, unsupported),
        ManifestFault::Shape(part),
    )?;
    detailed(
        alloc,
        name,
        version.unwrap_or(""),
        unsupported,
        table,
        part,
        kind,
    )
}

/// A dependency with this requirement, and what else a table says of it.
#[tactic(auto, unfolding(crate::specs::Dependencies::detailed))]
fn detailed<'a>(
    alloc: Global,
    name: PackageName,
    requirement: &'a str,
    unsupported: Option<Unsupported>,
    table: &Table,
    part: Part,
    kind: DependencyKind,
) -> Result<DependencyShape<'a>, ManifestFault>
    ensures { Gives wants_memory dependency_view result
        (detailed part kind name requirement.now unsupported (table_view table.now)) }
{
    let real_name = real_name(alloc, &name, table, part)?;
    let optional = flag(member(table, "optional"), false, part)?;
    check(
        !optional || may_be_optional(kind),
        ManifestFault::Shape(part),
    )?;
    let default_features = default_features(table, part)?;
    let features = feature_list(alloc, table, part)?;
    Ok(DependencyShape {
        name,
        real_name,
        requirement,
        unsupported,
        optional,
        default_features,
        features,
    })
}

/// Whether a dependency has a version, or else a source that is unsupported.
fn is_described(version: Option<&str>, unsupported: Option<Unsupported>) -> bool
    ensures { result ≡ (is_some (option_map (λ s. s.now) version.entry) || is_some unsupported) }
{
    match version {
        Some(_) => true,
        None => unsupported.is_some(),
    }
}

/// Whether a dependency of this kind may be optional.
fn may_be_optional(kind: DependencyKind) -> bool
    ensures { result ≡ may_be_optional kind }
{
    match kind {
        DependencyKind::Normal | DependencyKind::Build => true,
        DependencyKind::Dev => false,
    }
}

/// Whether a dependency asks for `default`: it does where it says nothing.
fn default_features(table: &Table, part: Part) -> Result<bool, ManifestFault>
    ensures { Gives wants_memory (λ b. b) result (default_features_in part (table_view table.now)) }
{
    let value = either(table, "default-features", "default_features", part)?;
    flag(value, true, part)
}

/// The first source that is unsupported and that a key in the table of a dependency asks for.
pub fn unsupported_in(table: &Table) -> Option<Unsupported>
    ensures { result ≡ unsupported_in (table_view table.now) }
{
    if has_key(table, "git") {
        Some(Unsupported::Git)
    } else if has_key(table, "path") {
        Some(Unsupported::Path)
    } else if has_key(table, "registry") {
        Some(Unsupported::Registry)
    } else if has_key(table, "registry-index") {
        Some(Unsupported::Registry)
    } else {
        None
    }
}

/// The name of the package that a dependency means: `package`, where it is there.
fn real_name(
    alloc: Global,
    name: &PackageName,
    table: &Table,
    part: Part,
) -> Result<PackageName, ManifestFault>
    ensures { Gives wants_memory (λ n. n) result
        (or_absent name.now (λ d. and_then (text_of part d) (package_name_of part))
        (get_member (codes "package") (table_view table.now))) }
{
    match member(table, "package") {
        Some(value) => package_name(alloc, text(value, part)?, part),
        None => Ok(name.clone()?),
    }
}

/// The features that the key `features` asks for.
fn feature_list(alloc: Global, table: &Table, part: Part) -> Result<Vec<FeatureName>, ManifestFault>
    ensures { Gives wants_memory (λ v. v.items) result
        (or_absent [] (feature_list part) (get_member (codes "features") (table_view table.now))) }
{
    match member(table, "features") {
        Some(value) => feature_names(alloc, list(value, part)?, part),
        None => Ok(Vec::new(alloc)),
    }
}

/// The names of features in a list; an empty text is none.
#[tactic(auto, unfolding(crate::specs::Dependencies::feature_names))]
fn feature_names(
    alloc: Global,
    items: &Array,
    part: Part,
) -> Result<Vec<FeatureName>, ManifestFault>
    ensures { Gives wants_memory (λ v. v.items) result (feature_names part (array_view items.now)) }
{
    let mut found = Vec::new(alloc);
    'items: for value in items.iter() {
        let text = text(value, part)?;
        if !text.is_empty() {
            found.push(feature_name(alloc, text, part)?)?;
        }
    }
    Ok(found)
}
