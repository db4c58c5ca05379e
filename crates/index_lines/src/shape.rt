//! The shape of a line, before its texts are read.

ghost use Rattle.std.specs.Prelude.{◌≡◌, IfOk, Some, None, option_map};
ghost use Rattle.model.specs.Outcome.{Gives};
ghost use Rattle.features.specs.declared.dependency.DependencyKind.TheVariants.{Normal};
ghost use Rattle.index_lines.specs.Shapes.{wants_memory, optional, package_name_of, needed_name};
ghost use Rattle.index_lines.specs.Shapes.{package_name_or_none, kind_of, kind_of_text, part_with, by_kind};
ghost use Rattle.index_lines.specs.Shapes.{dependency_of, dependencies_in, needed_dependencies, features_in};
ghost use Rattle.index_lines.specs.Shapes.{features_or_none, rust_version_in, shape_of, texts_of};
ghost use Rattle.features.specs.Views.{text_views};
ghost use Rattle.classes.specs.Classes.{rust_version_view};
ghost use Rattle.index_lines.specs.inner.ShapeViews.{feature_views, part_view, line_dependency_view};
ghost use Rattle.index_lines.specs.inner.ShapeViews.{line_dependency_views};
ghost use Rattle.index_lines.specs.inner.ShapeViews.{shape_view, values_view};
ghost use Rattle.trees.specs.Trees.{left_items, tree_view, entries_view, listed_view};

use crate::fault::{LineFault, SkipReason};
use crate::parts::{DependencyValues, LineValues};
use crate::values::{flag, needed_text, text_if_any, texts, texts_if_any, whole};
use classes::RustVersion;
use features::{DependencyKind, NameFault, PackageName};
use std::alloc::Global;
use trees::{
    Elements, Members, Tree, are_rising, as_members, as_text, by_key, elements, next_element,
};

/// What a line says, with its texts as they stand there.
#[derive(Drop)]
pub(crate) struct LineShape<'a> {
    pub name: &'a str,
    pub version: &'a str,
    pub checksum: &'a str,
    pub dependencies: Vec<DependencyShape<'a>>,
    pub features: Vec<FeatureShape<'a>>,
    /// The features that older readers are to read over.
    pub features2: Vec<FeatureShape<'a>>,
    pub yanked: bool,
    pub format: u64,
    pub rust_version: Option<RustVersion>,
}

/// What a line says of a dependency.
#[derive(Drop)]
pub(crate) enum DependencyShape<'a> {
    /// A dev dependency takes no part: only its name and kind are read.
    Dev(PackageName),
    Part(PartShape<'a>),
}

/// What a line says of a dependency that takes part.
#[derive(Drop)]
pub(crate) struct PartShape<'a> {
    pub name: PackageName,
    /// The package that a renamed dependency means.
    pub real_name: Option<PackageName>,
    pub requirement: &'a str,
    pub optional: bool,
    pub default_features: bool,
    pub features: Vec<&'a str>,
    pub registry: Option<&'a str>,
}

/// What a line says of a feature.
#[derive(Drop)]
pub(crate) struct FeatureShape<'a> {
    pub name: &'a str,
    pub entries: Vec<&'a str>,
}

/// The shape of a line.
#[tactic(auto, unfolding(crate::specs::Shapes::shape_of, crate::specs::Shapes::dependencies_at))]
pub(crate) fn read_shape<'a>(alloc: Global, line: &Tree<'_, 'a>) -> Result<LineShape<'a>, LineFault>
    ensures { Gives wants_memory shape_view result (shape_of (tree_view line.now)) }
{
    let mut values = LineValues::none();
    values.take(line);
    let name = needed_text(&values.name)?;
    let version = needed_text(&values.version)?;
    let checksum = needed_text(&values.checksum)?;
    let dependencies = needed_dependencies(alloc, &values.dependencies)?;
    let features = features_if_any(alloc, &values.features)?;
    let features2 = features_if_any(alloc, &values.features2)?;
    let yanked = flag(&values.yanked, false)?;
    let format = whole(&values.format, 1)?;
    Ok(LineShape {
        name,
        version,
        checksum,
        dependencies,
        features,
        features2,
        yanked,
        format,
        rust_version: rust_version(&values.rust_version),
    })
}

/// The Rust version of a line: whatever is none counts as absent.
pub(crate) fn rust_version(found: &Option<Tree<'_, '_>>) -> Option<RustVersion>
    ensures { option_map rust_version_view result ≡ rust_version_in (option_map tree_view found.now) }
{
    match found {
        Some(found) => match as_text(found) {
            Some(text) => RustVersion::parse(text),
            None => None,
        },
        None => None,
    }
}

/// The package name that a value has to be.
fn package_name(alloc: Global, value: &Tree<'_, '_>) -> Result<PackageName, LineFault>
    ensures { Gives wants_memory (λ n. n) result (package_name_of (tree_view value.now)) }
{
    let Some(text) = as_text(value) else {
        return Err(LineFault::Skipped(SkipReason::Shape));
    };
    match PackageName::parse(alloc, text) {
        Ok(name) => Ok(name),
        Err(NameFault::OutOfMemory) => Err(LineFault::OutOfMemory),
        Err(NameFault::NotAName) => Err(LineFault::Skipped(SkipReason::Shape)),
    }
}

/// A package name that has to be there.
fn needed_name(alloc: Global, found: &Option<Tree<'_, '_>>) -> Result<PackageName, LineFault>
    ensures { Gives wants_memory (λ n. n) result (needed_name (option_map tree_view found.now)) }
{
    match found {
        Some(found) => package_name(alloc, found),
        None => Err(LineFault::Skipped(SkipReason::Shape)),
    }
}

/// A package name, if it is there.
fn name_if_any(
    alloc: Global,
    found: &Option<Tree<'_, '_>>,
) -> Result<Option<PackageName>, LineFault>
    ensures { Gives wants_memory (λ n. n) result (package_name_or_none (option_map tree_view found.now)) }
{
    match found {
        Some(found) => Ok(Some(package_name(alloc, found)?)),
        None => Ok(None),
    }
}

/// The kind that a text names.
pub(crate) fn kind_of_text(text: &str) -> Option<DependencyKind>
    ensures { result ≡ kind_of_text text.now }
{
    if text == "normal" {
        Some(DependencyKind::Normal)
    } else if text == "build" {
        Some(DependencyKind::Build)
    } else if text == "dev" {
        Some(DependencyKind::Dev)
    } else {
        None
    }
}

/// The kind of a dependency: normal where it says none.
fn kind(found: &Option<Tree<'_, '_>>) -> Result<DependencyKind, LineFault>
    ensures { Gives wants_memory (λ k. k) result (optional Normal kind_of (option_map tree_view found.now)) }
{
    let Some(found) = found else {
        return Ok(DependencyKind::Normal);
    };
    let Some(text) = as_text(found) else {
        return Err(LineFault::Skipped(SkipReason::Shape));
    };
    match kind_of_text(text) {
        Some(kind) => Ok(kind),
        None => Err(LineFault::Skipped(SkipReason::Shape)),
    }
}

#[tactic(auto, unfolding(crate::specs::Shapes::part_with))]
fn part<'a>(
    alloc: Global,
    name: PackageName,
    values: &DependencyValues<'_, 'a>,
) -> Result<PartShape<'a>, LineFault>
    ensures { Gives wants_memory part_view result (part_with name (values_view values.now)) }
{
    let real_name = name_if_any(alloc, &values.package)?;
    let requirement = needed_text(&values.requirement)?;
    let optional = flag(&values.optional, false)?;
    let default_features = flag(&values.default_features, true)?;
    let features = texts_if_any(alloc, &values.features)?;
    let registry = text_if_any(&values.registry)?;
    Ok(PartShape {
        name,
        real_name,
        requirement,
        optional,
        default_features,
        features,
        registry,
    })
}

fn of_kind<'a>(
    alloc: Global,
    name: PackageName,
    kind: DependencyKind,
    values: &DependencyValues<'_, 'a>,
) -> Result<DependencyShape<'a>, LineFault>
    ensures { Gives wants_memory line_dependency_view result (by_kind name kind (values_view values.now)) }
{
    match kind {
        DependencyKind::Dev => Ok(DependencyShape::Dev(name)),
        DependencyKind::Normal | DependencyKind::Build => {
            Ok(DependencyShape::Part(part(alloc, name, values)?))
        }
    }
}

#[tactic(auto, unfolding(crate::specs::Shapes::dependency_of))]
fn dependency<'t, 'a>(
    alloc: Global,
    value: &Tree<'t, 'a>,
    values: &mut DependencyValues<'t, 'a>,
) -> Result<DependencyShape<'a>, LineFault>
    ensures { Gives wants_memory line_dependency_view result (dependency_of (tree_view value.now)) }
{
    values.take(value);
    let name = needed_name(alloc, &values.name)?;
    let kind = kind(&values.kind)?;
    of_kind(alloc, name, kind, values)
}

/// What a value says of a dependency that is read on its own.
pub(crate) fn one_dependency<'a>(
    alloc: Global,
    value: &Tree<'_, 'a>,
) -> Result<DependencyShape<'a>, LineFault>
    ensures { Gives wants_memory line_dependency_view result (dependency_of (tree_view value.now)) }
{
    dependency(alloc, value, &mut DependencyValues::none())
}

#[tactic(auto, unfolding(crate::specs::Shapes::dependencies_in))]
fn dependencies_in<'t, 'a>(
    alloc: Global,
    mut items: Elements<'t, 'a>,
) -> Result<Vec<DependencyShape<'a>>, LineFault>
    ensures { Gives wants_memory
        (λ v. line_dependency_views v.items) result (dependencies_in (left_items items.entry)) }
{
    let mut found = Vec::new(alloc);
    let mut values = DependencyValues::none();
    'items: while let Some(item) = next_element(&mut items) {
        found.push(dependency(alloc, &item, &mut values)?)?;
    }
    Ok(found)
}

/// Dependencies that have to be there.
fn needed_dependencies<'a>(
    alloc: Global,
    found: &Option<Tree<'_, 'a>>,
) -> Result<Vec<DependencyShape<'a>>, LineFault>
    ensures { Gives wants_memory (λ v. line_dependency_views v.items) result
        (needed_dependencies (option_map tree_view found.now)) }
{
    match found {
        Some(found) => match elements(found) {
            Some(items) => dependencies_in(alloc, items),
            None => Err(LineFault::Skipped(SkipReason::Shape)),
        },
        None => Err(LineFault::Skipped(SkipReason::Shape)),
    }
}

fn features_in<'a>(
    alloc: Global,
    members: &Members<'_, 'a>,
) -> Result<Vec<FeatureShape<'a>>, LineFault>
    ensures { Gives wants_memory (λ v. feature_views v.items) result (features_in (entries_view members.now.items)) }
{
    if are_rising(members) {
        return features_as_listed(alloc, members);
    }
    features_by_key(alloc, members)
}

/// The features of members in the order in which they are listed.
#[tactic(auto, unfolding(crate::specs::Shapes::features_in))]
fn features_as_listed<'a>(
    alloc: Global,
    members: &Members<'_, 'a>,
) -> Result<Vec<FeatureShape<'a>>, LineFault>
    ensures { Gives wants_memory (λ v. feature_views v.items) result (features_in (listed_view members.now.items)) }
{
    let mut found = Vec::with_capacity(alloc, members.len())?;
    'members: for member in members {
        found.push(feature(alloc, member.0, &member.1)?)?;
    }
    Ok(found)
}

/// The features of members in whatever order.
#[tactic(auto, unfolding(crate::specs::Shapes::features_in))]
fn features_by_key<'a>(
    alloc: Global,
    members: &Members<'_, 'a>,
) -> Result<Vec<FeatureShape<'a>>, LineFault>
    ensures { Gives wants_memory (λ v. feature_views v.items) result (features_in (entries_view members.now.items)) }
{
    let mut found = Vec::with_capacity(alloc, members.len())?;
    let sorted = by_key(alloc, members)?;
    'members: for (name, value) in sorted.iter() {
        found.push(feature(alloc, name, value)?)?;
    }
    Ok(found)
}

/// The feature of this name, whose entries a value lists.
fn feature<'a>(
    alloc: Global,
    name: &'a str,
    value: &Tree<'_, 'a>,
) -> Result<FeatureShape<'a>, LineFault>
    ensures entries { Gives wants_memory (λ f. text_views f.entries.items) result (texts_of (tree_view value.now)) }
    ensures named { IfOk result (λ f. f.name.now ≡ name.entry.now) }
{
    let entries = texts(alloc, value)?;
    Ok(FeatureShape { name, entries })
}

/// Features: none where they are absent.
pub(crate) fn features_if_any<'a>(
    alloc: Global,
    found: &Option<Tree<'_, 'a>>,
) -> Result<Vec<FeatureShape<'a>>, LineFault>
    ensures { Gives wants_memory
        (λ v. feature_views v.items) result (features_or_none (option_map tree_view found.now)) }
{
    match found {
        Some(found) => match as_members(alloc, found)? {
            Some(members) => features_in(alloc, &members),
            None => Err(LineFault::Skipped(SkipReason::Shape)),
        },
        None => Ok(Vec::new(alloc)),
    }
}
