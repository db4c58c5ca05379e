//! What owners bring, looked up in the manifest and in the loaded index.

ghost use Rattle.std.specs.Prelude.{◌≡◌, option_map};
ghost use Rattle.semver.specs.Identifiers.{parts_of};
ghost use Rattle.features.specs.Views.{dependency_view, dependency_views, brings_view};
ghost use Rattle.features.specs.EntryViews.{entry_views};
ghost use Rattle.model.specs.Vertices.{owner_brings};
ghost use Rattle.model.specs.Causes.{dependency_at, entries_of, is_needed};
ghost use Rattle.lookups.specs.inner.Views.{problem_view};
ghost use Rattle.vertices.specs.inner.RefViews.{owner_ref_view};

use crate::problem::Problem;
use features::{Dependency, DependencyParts, Entry, FeatureName, PackageName, Summary};
use semver::Version;
use vertices::OwnerRef;

/// What an owner brings: nothing where it is neither the root nor a candidate.
pub fn brings<'a>(problem: &Problem<'a>, owner: &OwnerRef<'_>) -> Option<&'a Summary>
    ensures { brings_view result ≡ owner_brings (problem_view problem.now) (owner_ref_view owner.now) }
{
    match owner {
        OwnerRef::Root => Some(problem.manifest.brings()),
        OwnerRef::Version(name, version) => {
            let candidate = problem.catalogue.candidate(name, version)?;
            Some(&candidate.brings)
        }
    }
}

/// The dependencies of an owner.
pub fn dependencies_of<'a>(problem: &Problem<'a>, owner: &OwnerRef<'_>) -> &'a [Dependency]
    ensures { dependency_views result.now
        ≡ (owner_brings (problem_view problem.now) (owner_ref_view owner.now)).dependencies }
{
    match brings(problem, owner) {
        Some(owner) => owner.dependencies.as_slice(),
        None => &[],
    }
}

/// The dependency of an owner that has this number.
pub fn dependency_at<'a>(
    problem: &Problem<'a>,
    owner: &OwnerRef<'_>,
    number: usize,
) -> Option<&'a DependencyParts>
    ensures { option_map (λ d. dependency_view d.now) result
        ≡ dependency_at (problem_view problem.now) (owner_ref_view owner.now) number }
{
    Some(dependencies_of(problem, owner).get(number)?)
}

/// The entries of a feature of a version.
pub fn entries_of<'a>(
    problem: &Problem<'a>,
    name: &PackageName,
    version: &Version,
    feature: &FeatureName,
) -> &'a [Entry]
    ensures { entry_views result.now
        ≡ entries_of (problem_view problem.now) name.now (parts_of version.now) feature.now }
{
    match brings(problem, &OwnerRef::Version(name, version)) {
        Some(owner) => owner.features.entries(feature),
        None => &[],
    }
}

/// Whether the owner needs the dependency: the root each one, a version those that aren't optional.
pub fn is_needed(owner: &OwnerRef<'_>, dependency: &DependencyParts) -> bool
    ensures { result ≡ is_needed (owner_ref_view owner.now) (dependency_view dependency.now) }
{
    match owner {
        OwnerRef::Root => true,
        OwnerRef::Version(_, _) => !dependency.optional,
    }
}
