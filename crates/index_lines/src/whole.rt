//! Reading a line as a whole: its JSON, its shape and its texts.

ghost use Rattle.std.specs.Prelude.{◌≡◌};
ghost use Rattle.std.specs.List.{list_all};
ghost use Rattle.model.specs.Outcome.{Gives};
ghost use Rattle.features.specs.Views.{dependency_views};
ghost use Rattle.index_lines.specs.Shapes.{wants_memory};
ghost use Rattle.index_lines.specs.Records.{unless, required, dependencies_read, is_of_index};
ghost use Rattle.index_lines.specs.Records.{unchecked_of_shape, unchecked_of_line};
ghost use Rattle.index_lines.specs.inner.ShapeViews.{line_dependency_view, line_dependency_views, shape_view};
ghost use Rattle.index_lines.specs.Views.{record_view, required_views};

use crate::fault::{LineFault, SkipReason};
use crate::known::KnownDependencies;
use crate::record::Record;
use crate::required::{Required, dependency, is_of_index, part_required};
use crate::shape::{DependencyShape, LineShape, read_shape};
use crate::texts::{check, version};
use crate::values::read_json;
use crate::written::features;
use features::{Dependency, PackageName, Summary};
use std::alloc::Global;
use trees::{Scratch, root};

/// The record that a line is, whatever its checksum is, or why it is none.
#[tactic(auto, unfolding(crate::specs::Records::unchecked_of_line))]
pub(crate) fn read_whole(
    alloc: Global,
    name: &PackageName,
    line: &[u8],
    scratch: &mut Scratch,
    known: &mut KnownDependencies,
) -> Result<Record, LineFault>
    ensures { Gives wants_memory record_view result (unchecked_of_line name.now line.now) }
{
    let tape = read_json(alloc, line, scratch)?;
    let shape = read_shape(alloc, &root(&tape))?;
    record_in(alloc, name, &shape, known)
}

#[tactic(auto, unfolding(crate::specs::Records::unchecked_of_shape))]
fn record_in(
    alloc: Global,
    name: &PackageName,
    shape: &LineShape<'_>,
    known: &mut KnownDependencies,
) -> Result<Record, LineFault>
    ensures { Gives wants_memory record_view result (unchecked_of_shape name.now (shape_view shape.now)) }
{
    check(
        shape.format == 1 || shape.format == 2,
        SkipReason::NewerFormat,
    )?;
    check(shape.name == name.as_str(), SkipReason::OtherName)?;
    let version = version(alloc, shape.version)?;
    let parts = requirements(alloc, &shape.dependencies, known)?;
    let dependencies = dependencies(alloc, parts, known)?;
    let features = features(alloc, shape)?;
    check_registries(&shape.dependencies)?;
    Ok(Record {
        version,
        checksum: String::from_str(alloc, shape.checksum)?,
        yanked: shape.yanked,
        rust_version: shape.rust_version,
        brings: Summary {
            dependencies,
            features,
        },
    })
}

/// The dependencies that take part, with their requirements.
#[tactic(auto, unfolding(crate::specs::Records::required))]
fn requirements<'p, 'a>(
    alloc: Global,
    shapes: &'p [DependencyShape<'a>],
    known: &KnownDependencies,
) -> Result<Vec<Required<'p, 'a>>, LineFault>
    ensures { Gives wants_memory (λ v. required_views v.items) result (required (line_dependency_views shapes.now)) }
{
    let mut found = Vec::with_capacity(alloc, shapes.len())?;
    'shapes: for shape in shapes {
        match shape {
            DependencyShape::Dev(_) => {}
            DependencyShape::Part(part) => found.push(part_required(alloc, part, known)?)?,
        }
    }
    Ok(found)
}

/// The dependencies, of which those that weren't known are now.
#[tactic(auto, unfolding(crate::specs::Records::dependencies_read))]
fn dependencies(
    alloc: Global,
    parts: Vec<Required<'_, '_>>,
    known: &mut KnownDependencies,
) -> Result<Vec<Dependency>, LineFault>
    ensures { Gives wants_memory
        (λ v. dependency_views v.items) result (dependencies_read (required_views parts.entry.items)) }
{
    let mut found = Vec::with_capacity(alloc, parts.len())?;
    'parts: for part in parts {
        found.push(dependency(alloc, part, known)?)?;
    }
    Ok(found)
}

/// A dependency of another registry is one of another index.
#[tactic(auto, using(crate::proofs::ReadLemmas::views))]
fn check_registries(dependencies: &[DependencyShape<'_>]) -> Result<(), LineFault>
    ensures { Gives wants_memory (λ u. u) result
        (unless (list_all is_of_index (line_dependency_views dependencies.now)) SkipReason.OtherRegistry) }
{
    check(are_of_index(dependencies), SkipReason::OtherRegistry)
}

fn are_of_index(dependencies: &[DependencyShape<'_>]) -> bool
    ensures { result ≡ list_all (λ d. is_of_index (line_dependency_view d)) dependencies.now }
{
    dependencies.iter().all(|d| is_of_index(d))
}
