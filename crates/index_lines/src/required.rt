//! A dependency of a line that takes part: its requirement is read before its features, as the order of reasons has it.

ghost use Rattle.std.specs.Prelude.{◌≡◌, IfOk, unwrap_or};
ghost use Rattle.semver.specs.Parse.{req_of};
ghost use Rattle.model.specs.Outcome.{Gives};
ghost use Rattle.features.specs.Views.{requirement_view, dependency_view, text_views};
ghost use Rattle.index_lines.specs.Shapes.{wants_memory};
ghost use Rattle.index_lines.specs.Records.{semver_or, required_part, feature_names, dependency_read, is_of_index};
ghost use Rattle.index_lines.specs.inner.ShapeViews.{line_dependency_view, part_view};
ghost use Rattle.index_lines.specs.Views.{required_view};

use crate::fault::{LineFault, SkipReason};
use crate::known::{KnownDependencies, PartAgain, RequirementRead};
use crate::shape::{DependencyShape, PartShape};
use crate::texts::requirement_read;
use crate::written::feature_name;
use features::{Dependency, DependencyParts, FeatureName, PackageName, Requirement};
use std::alloc::{AllocError, Global};

/// A dependency that takes part, with its requirement.
#[derive(Drop)]
pub(crate) enum Required<'p, 'a> {
    /// One that was read before.
    Again(PartAgain<'p, 'a>),
    Read(RequirementRead<'p, 'a>),
}

/// A dependency that takes part, with its requirement: one that was read before, where it says the same.
pub(crate) fn part_required<'p, 'a>(
    alloc: Global,
    part: &'p PartShape<'a>,
    known: &KnownDependencies,
) -> Result<Required<'p, 'a>, LineFault>
    ensures { Gives wants_memory required_view result (required_part (part_view part.entry.now)) }
{
    match known.find(part)? {
        Some(again) => Ok(Required::Again(again)),
        None => Ok(Required::Read(RequirementRead {
            part,
            requirement: requirement(alloc, part.requirement, known)?,
        })),
    }
}

/// The requirement that a text is: one that was read before, if it is kept.
fn requirement(
    alloc: Global,
    text: &str,
    known: &KnownDependencies,
) -> Result<Requirement, LineFault>
    ensures { Gives wants_memory requirement_view result (semver_or SkipReason.BadRequirement (req_of text.now)) }
{
    match known.requirement(text)? {
        Some(requirement) => Ok(requirement),
        None => Ok(Requirement::new(alloc, requirement_read(alloc, text)?)?),
    }
}

pub(crate) fn dependency(
    alloc: Global,
    required: Required<'_, '_>,
    known: &mut KnownDependencies,
) -> Result<Dependency, LineFault>
    ensures { Gives wants_memory dependency_view result (dependency_read (required_view required.entry)) }
{
    match required {
        Required::Again(again) => Ok(again.dependency),
        Required::Read(part) => read_dependency(alloc, part, known),
    }
}

#[tactic(auto, unfolding(crate::specs::Records::dependency_read))]
fn read_dependency(
    alloc: Global,
    required: RequirementRead<'_, '_>,
    known: &mut KnownDependencies,
) -> Result<Dependency, LineFault>
    ensures { Gives wants_memory dependency_view result
        (dependency_read (part_view required.entry.part.now, requirement_view required.entry.requirement)) }
{
    let part = required.part;
    let features = feature_names(alloc, &part.features)?;
    let dependency = Dependency::new(
        alloc,
        DependencyParts {
            name: part.name.clone()?,
            real_name: real_name(part)?,
            requirement: required.requirement,
            optional: part.optional,
            default_features: part.default_features,
            features,
        },
    )?;
    known.keep(alloc, part, &dependency)?;
    Ok(dependency)
}

/// The name of the package that a dependency means.
fn real_name(part: &PartShape<'_>) -> Result<PackageName, AllocError>
    ensures { IfOk result (λ n. n ≡ unwrap_or part.now.real_name part.now.name) }
{
    match &part.real_name {
        Some(name) => name.clone(),
        None => part.name.clone(),
    }
}

/// The features that texts name: empty ones are left out.
#[tactic(auto, unfolding(crate::specs::Records::feature_names))]
fn feature_names(alloc: Global, texts: &[&str]) -> Result<Vec<FeatureName>, LineFault>
    ensures { Gives wants_memory (λ v. v.items) result (feature_names (text_views texts.now)) }
{
    let mut found = Vec::with_capacity(alloc, texts.len())?;
    'texts: for text in texts {
        if text.is_empty() {
            continue;
        }
        found.push(feature_name(alloc, text)?)?;
    }
    Ok(found)
}

pub(crate) fn is_of_index(dependency: &DependencyShape<'_>) -> bool
    ensures { result ≡ is_of_index (line_dependency_view dependency.now) }
{
    match dependency {
        DependencyShape::Dev(_) => true,
        DependencyShape::Part(part) => part.registry.is_none(),
    }
}
