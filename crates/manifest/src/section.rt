//! The tables of dependencies: of which kind they are, where they stand, and what they hold.

ghost use Rattle.std.specs.Prelude.{◌≡◌, option_map};
ghost use Rattle.toml.specs.View.{table_view, view};
ghost use Rattle.model.specs.Outcome.{Gives};
ghost use Rattle.manifest.specs.Dependencies.{part_of, section_at, section_of, sections_of};
ghost use Rattle.manifest.specs.Dependencies.{targets_in, targets_of};
ghost use Rattle.manifest.specs.Faults.{wants_memory};
ghost use Rattle.manifest.specs.inner.ShapeViews.{dependency_views};

use crate::dependency::{DependencyShape, dependencies_in};
use crate::fault::{ManifestFault, Part};
use crate::table::{either, table};
use features::DependencyKind;
use std::alloc::Global;
use tables::member;
use toml::value::{Table, Value};

/// Where a table of dependencies stands.
#[derive(Clone, Copy, Debug, PartialEq, Eq)]
pub(crate) enum SectionPlace {
    /// At the top of the manifest.
    Top,
    /// In a table of `[target]`.
    Target,
}

impl SectionPlace {
    /// The part that the table of this kind is, here.
    pub(crate) fn part(self, kind: DependencyKind) -> Part
        ensures { result ≡ part_of self kind }
    {
        match (self, kind) {
            (SectionPlace::Target, _) => Part::Target,
            (SectionPlace::Top, DependencyKind::Normal) => Part::Dependencies,
            (SectionPlace::Top, DependencyKind::Dev) => Part::DevDependencies,
            (SectionPlace::Top, DependencyKind::Build) => Part::BuildDependencies,
        }
    }
}

/// The dependencies of the targets, in the order of their texts.
pub(crate) fn target_dependencies(
    alloc: Global,
    top: &Table,
) -> Result<Vec<DependencyShape<'_>>, ManifestFault>
    ensures { Gives wants_memory (λ v. dependency_views v.items) result (targets_of (table_view top.now)) }
{
    match member(top, "target") {
        Some(value) => targets(alloc, table(value, Part::Target)?),
        None => Ok(Vec::new(alloc)),
    }
}

/// The dependencies of each table of `[target]`.
#[tactic(auto, unfolding(crate::specs::Dependencies::targets_in))]
fn targets(alloc: Global, targets: &Table) -> Result<Vec<DependencyShape<'_>>, ManifestFault>
    ensures { Gives wants_memory (λ v. dependency_views v.items) result (targets_in (table_view targets.now)) }
{
    let mut found = Vec::new(alloc);
    'members: for (_, value) in targets.iter() {
        let mut own = sections(alloc, table(value, Part::Target)?, SectionPlace::Target)?;
        found.append(&mut own)?;
    }
    Ok(found)
}

/// The normal, dev and build dependencies of a table, in this order.
#[tactic(auto, unfolding(crate::specs::Dependencies::sections_of))]
pub(crate) fn sections(
    alloc: Global,
    table: &Table,
    place: SectionPlace,
) -> Result<Vec<DependencyShape<'_>>, ManifestFault>
    ensures { Gives wants_memory (λ v. dependency_views v.items) result (sections_of place (table_view table.now)) }
{
    let mut found = section(
        alloc,
        table,
        place.part(DependencyKind::Normal),
        DependencyKind::Normal,
    )?;
    let mut dev = section(
        alloc,
        table,
        place.part(DependencyKind::Dev),
        DependencyKind::Dev,
    )?;
    let mut build = section(
        alloc,
        table,
        place.part(DependencyKind::Build),
        DependencyKind::Build,
    )?;
    found.append(&mut dev)?;
    found.append(&mut build)?;
    Ok(found)
}

/// The dependencies of one kind.
#[tactic(auto, unfolding(crate::specs::Dependencies::section_of))]
fn section(
    alloc: Global,
    table_in: &Table,
    part: Part,
    kind: DependencyKind,
) -> Result<Vec<DependencyShape<'_>>, ManifestFault>
    ensures { Gives wants_memory
        (λ v. dependency_views v.items) result (section_of part kind (table_view table_in.now)) }
{
    let Some(value) = section_value(table_in, part, kind)? else {
        return Ok(Vec::new(alloc));
    };
    dependencies_in(alloc, table(value, part)?, part, kind)
}

/// What stands at the key of a kind, which for two of the kinds may be spelled in two ways.
fn section_value(
    table: &Table,
    part: Part,
    kind: DependencyKind,
) -> Result<Option<&Value>, ManifestFault>
    ensures { Gives wants_memory (option_map (λ v. view v.now)) result (section_at part kind (table_view table.now)) }
{
    match kind {
        DependencyKind::Normal => Ok(member(table, "dependencies")),
        DependencyKind::Dev => either(table, "dev-dependencies", "dev_dependencies", part),
        DependencyKind::Build => either(table, "build-dependencies", "build_dependencies", part),
    }
}
