//! The shape of a manifest: what its tables say before requirements are read, part by part.

ghost use Rattle.toml.specs.View.{table_view};
ghost use Rattle.model.specs.Outcome.{Gives};
ghost use Rattle.manifest.specs.Faults.{wants_memory};
ghost use Rattle.manifest.specs.Shapes.{all_dependencies, shape_of};
ghost use Rattle.manifest.specs.inner.ShapeViews.{dependency_views, shape_view};

use crate::dependency::DependencyShape;
use crate::fault::{ManifestFault, Part};
use crate::feature::written_features;
use crate::package::Package;
use crate::package_table::own_package;
use crate::section::{SectionPlace, sections, target_dependencies};
use crate::table::is_written;
use crate::workspace::has_members;
use features::{Entry, FeatureName};
use std::alloc::Global;
use std::collections::BTreeMap;
use toml::Table;

/// What the tables of a manifest say.
#[derive(Drop)]
pub(crate) struct Shape<'a> {
    /// None where its name or version is left to a workspace, or where it is absent beside a workspace with members.
    pub own: Option<Package>,
    /// By number.
    pub dependencies: Vec<DependencyShape<'a>>,
    /// The features that are written.
    pub features: BTreeMap<FeatureName, Vec<Entry>>,
    /// Whether the workspace has members.
    pub has_members: bool,
    /// Whether there are patches.
    pub patches: bool,
    /// Whether there are replacements.
    pub replaces: bool,
}

/// The shape of a manifest, or the first part that has another one.
#[tactic(auto, unfolding(crate::specs::Shapes::shape_of))]
pub(crate) fn read_shape(alloc: Global, top: &Table) -> Result<Shape<'_>, ManifestFault>
    ensures { Gives wants_memory shape_view result (shape_of (table_view top.now)) }
{
    let own = own_package(alloc, top)?;
    let dependencies = all_dependencies(alloc, top)?;
    let features = written_features(alloc, top)?;
    let has_members = has_members(top)?;
    let patches = is_written(top, "patch", Part::Patch)?;
    let replaces = is_written(top, "replace", Part::Replace)?;
    Ok(Shape {
        own,
        dependencies,
        features,
        has_members,
        patches,
        replaces,
    })
}

/// The dependencies by number: those at the top, then those of the targets.
#[tactic(auto, unfolding(crate::specs::Shapes::all_dependencies))]
fn all_dependencies(alloc: Global, top: &Table) -> Result<Vec<DependencyShape<'_>>, ManifestFault>
    ensures { Gives wants_memory (λ v. dependency_views v.items) result (all_dependencies (table_view top.now)) }
{
    let mut found = sections(alloc, top, SectionPlace::Top)?;
    let mut targets = target_dependencies(alloc, top)?;
    found.append(&mut targets)?;
    Ok(found)
}
