//! Which candidates requirements match, and which lack a feature.

ghost use Rattle.std.specs.Prelude.{◌≡◌};
ghost use Rattle.std.specs.List.{list_any};
ghost use Rattle.semver.specs.EvalViews.{matches_views};
ghost use Rattle.semver.specs.Identifiers.{parts_of};
ghost use Rattle.features.specs.Views.{dependency_view, requirement_view};
ghost use Rattle.classes.specs.Classes.{class_view};
ghost use Rattle.model.specs.Causes.{has_class, is_unmatched};
ghost use Rattle.lookups.specs.inner.Matching.{is_lacking, is_left};
ghost use Rattle.lookups.specs.inner.Ranges.{AreRising};
ghost use Rattle.lookups.specs.inner.Views.{problem_view};

use crate::narrowing::within;
use crate::owners::brings;
use crate::problem::Problem;
use crate::ranges::class_versions;
use classes::{Class, is_matched, some_matched};
use features::{DependencyParts, FeatureName, PackageName};
use semver::{Version, VersionReq};
use vertices::OwnerRef;

/// Whether some candidate of the class is matched.
pub fn has_class(problem: &Problem<'_>, class: Class, dependency: &DependencyParts) -> bool
    ensures { result ≡ has_class (problem_view problem.now) (class_view class) (dependency_view dependency.now) }
{
    let versions = class_versions(problem.catalogue, &dependency.real_name, class);
    some_within(&dependency.requirement, versions)
}

/// Whether no candidate is matched.
pub fn is_unmatched(problem: &Problem<'_>, dependency: &DependencyParts) -> bool
    ensures { result ≡ is_unmatched (problem_view problem.now) (dependency_view dependency.now) }
{
    let versions = problem.catalogue.versions(&dependency.real_name);
    !some_within(&dependency.requirement, versions)
}

/// Whether some version is matched, of versions that are oldest first.
fn some_within(requirement: &VersionReq, versions: &[Version]) -> bool
    requires { AreRising versions.now }
    ensures { result ≡ list_any (λ v. matches_views (requirement_view requirement.now) (parts_of v)) versions.now }
{
    some_matched(requirement, within(requirement, versions))
}

/// Whether the requirement doesn't match the version.
#[tactic(auto, unfolding(crate::specs::inner::Matching::is_left))]
pub fn is_left(requirement: &VersionReq, version: &Version) -> bool
    ensures { result ≡ is_left (requirement_view requirement.now) (parts_of version.now) }
{
    !is_matched(requirement, version)
}

/// Whether a version of the name lacks the feature; one that is no candidate does.
#[tactic(auto, unfolding(crate::specs::inner::Matching::is_lacking))]
pub fn is_lacking(
    problem: &Problem<'_>,
    name: &PackageName,
    feature: &FeatureName,
    version: &Version,
) -> bool
    ensures { result ≡ is_lacking (problem_view problem.now) name.now feature.now (parts_of version.now) }
{
    match brings(problem, &OwnerRef::Version(name, version)) {
        Some(owner) => !owner.features.has(feature),
        None => true,
    }
}
