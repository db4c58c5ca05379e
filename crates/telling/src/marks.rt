//! Which versions of a name are meant by what a vertex may be.

ghost use Rattle.std.specs.Prelude.{◌≡◌, IfOk, map, not};
ghost use Rattle.semver.specs.Identifiers.{parts_of};
ghost use Rattle.features.specs.Views.{requirement_view};
ghost use Rattle.model.specs.Selection.{class_of};
ghost use Rattle.model.specs.Vertices.{same_class};
ghost use Rattle.classes.specs.Classes.{class_view};
ghost use Rattle.vertices.specs.inner.RefViews.{state_ref_view};
ghost use Rattle.lookups.specs.inner.Matching.{is_lacking};
ghost use Rattle.lookups.specs.inner.Views.{problem_view};
ghost use Rattle.telling.specs.inner.Marks.{is_among, is_target_of, is_version_of};

use classes::{Class, is_matched};
use features::{FeatureName, PackageName};
use lookups::{Problem, StateSet, is_lacking};
use semver::{Version, VersionReq};
use std::alloc::{AllocError, Global};
use vertices::{StateRef, same_state};

/// A mark for each version: that it is of a class, and in a set of states or, if `within` is false, outside of it.
pub(crate) fn version_marks(
    alloc: Global,
    versions: &[Version],
    class: Class,
    states: &StateSet<'_>,
    within: bool,
) -> Result<Vec<bool>, AllocError>
    ensures { IfOk result
        (λ v. v.items ≡ map (λ v. is_version_of (class_view class) states.now within (parts_of v)) versions.now) }
{
    versions
        .iter()
        .map(|version| is_version_of(class, states, within, version))
        .collect(alloc)
}

fn is_version_of(class: Class, states: &StateSet<'_>, within: bool, version: &Version) -> bool
    ensures { result ≡ is_version_of (class_view class) states.now within (parts_of version.now) }
{
    is_of(class, version) && is_among(states, within, &StateRef::Version(version))
}

fn is_of(class: Class, version: &Version) -> bool
    ensures { result ≡ same_class (class_view class) (class_of (parts_of version.now)) }
{
    same_state(
        &StateRef::Class(class),
        &StateRef::Class(Class::of(version)),
    )
}

fn is_among(states: &StateSet<'_>, within: bool, state: &StateRef<'_>) -> bool
    ensures { result ≡ is_among states.now within (state_ref_view state.now) }
{
    let has = states.has(state);
    if within { has } else { !has }
}

/// A mark for each version: that a requirement matches it, and its class is in a set of states or, if `within` is
/// false, outside of it.
pub(crate) fn target_marks(
    alloc: Global,
    versions: &[Version],
    requirement: &VersionReq,
    states: &StateSet<'_>,
    within: bool,
) -> Result<Vec<bool>, AllocError>
    ensures { IfOk result (λ v. v.items
        ≡ map (λ v. is_target_of (requirement_view requirement.now) states.now within (parts_of v)) versions.now) }
{
    versions
        .iter()
        .map(|version| is_target_of(requirement, states, within, version))
        .collect(alloc)
}

/// Whether a requirement matches a version, and its class is among these states, or outside of them.
fn is_target_of(
    requirement: &VersionReq,
    states: &StateSet<'_>,
    within: bool,
    version: &Version,
) -> bool
    ensures { result ≡ is_target_of (requirement_view requirement.now) states.now within (parts_of version.now) }
{
    is_matched(requirement, version)
        && is_among(states, within, &StateRef::Class(Class::of(version)))
}

/// A mark for each version: that it is of a class.
pub(crate) fn class_marks(
    alloc: Global,
    versions: &[Version],
    class: Class,
) -> Result<Vec<bool>, AllocError>
    ensures { IfOk result
        (λ v. v.items ≡ map (λ v. same_class (class_view class) (class_of (parts_of v))) versions.now) }
{
    versions
        .iter()
        .map(|version| is_of(class, version))
        .collect(alloc)
}

/// A mark for each version of a name: that it has a feature.
pub(crate) fn feature_marks(
    alloc: Global,
    problem: &Problem<'_>,
    name: &PackageName,
    feature: &FeatureName,
    versions: &[Version],
) -> Result<Vec<bool>, AllocError>
    ensures { IfOk result (λ v. v.items
        ≡ map (λ v. not (is_lacking (problem_view problem.now) name.now feature.now (parts_of v))) versions.now) }
{
    versions
        .iter()
        .map(|version| !is_lacking(problem, name, feature, version))
        .collect(alloc)
}
