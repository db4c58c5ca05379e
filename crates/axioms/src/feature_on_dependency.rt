//! Whether what `FeatureOnDependency` names is there: an entry of the feature, which enables the dependency.

ghost use Rattle.std.specs.Prelude.{◌≡◌};
ghost use Rattle.semver.specs.Identifiers.{parts_of};
ghost use Rattle.features.specs.EntryViews.{entry_view};
ghost use Rattle.model.specs.Vertices.{version_of};
ghost use Rattle.model.specs.Causes.{dependency_at, enables, is_cause, of_enabling};
ghost use Rattle.model.specs.Content.{passes};
ghost use Rattle.axioms.specs.inner.GatheredViews.{problem_of};
ghost use Rattle.lookups.specs.inner.Views.{problem_view};

use crate::entries::Named;
use crate::gathered::Gathered;
use crate::listed::row_has;
use features::{Entry, FeatureName, PackageName};
use lookups::{Problem, dependency_at, enables};
use semver::Version;
use vertices::OwnerRef;

/// Whether the feature has the entry, and that enables the dependency of this number.
pub(crate) fn is_enabling(
    gathered: &Gathered<'_>,
    name: &PackageName,
    version: &Version,
    on: &FeatureName,
    entry: &Entry,
    number: usize,
) -> bool
    ensures { result ≡ is_cause (problem_of gathered.now)
        (of_enabling name.now (parts_of version.now) on.now (entry_view entry.now) number) }
{
    row_has(gathered, name, version, on, &Named::of(entry))
        && enables_number(&gathered.problem, name, version, entry, number)
}

/// Whether the dependency of this number is there, and called as the entry says.
fn enables_number(
    problem: &Problem<'_>,
    name: &PackageName,
    version: &Version,
    entry: &Entry,
    number: usize,
) -> bool
    ensures { result ≡ passes (λ d. enables d.name (entry_view entry.now))
        (dependency_at (problem_view problem.now) (version_of name.now (parts_of version.now)) number) }
{
    match dependency_at(problem, &OwnerRef::Version(name, version), number) {
        Some(dependency) => enables(&dependency.name, entry),
        None => false,
    }
}
