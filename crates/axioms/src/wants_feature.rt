//! Whether what `WantsFeature` names is there: a dependency that asks for the feature, by its list or by an entry.

ghost use Rattle.std.specs.Prelude.{◌≡◌};
ghost use Rattle.std.specs.List.{list_any};
ghost use Rattle.semver.specs.Identifiers.{parts_of};
ghost use Rattle.classes.specs.Classes.{class_view};
ghost use Rattle.features.specs.Views.{dependency_view};
ghost use Rattle.model.specs.Content.{passes};
ghost use Rattle.model.specs.Causes.{dependency_at, is_cause, lists_feature, of_ask, of_list, root_asks_for};
ghost use Rattle.model.specs.Causes.{same_pair};
ghost use Rattle.vertices.specs.inner.RefViews.{owner_ref_view};
ghost use Rattle.axioms.specs.inner.GatheredViews.{problem_of};

use crate::entries::Named;
use crate::gathered::Gathered;
use crate::kinds::is_target;
use crate::listed::{is_listed, version_has};
use classes::Class;
use features::{DependencyParts, FeatureName, PackageName};
use lookups::dependency_at;
use semver::Version;
use vertices::OwnerRef;

/// Whether the dependency may lead to the class, and asks for the feature by its list or an entry of the root.
pub(crate) fn is_list(
    gathered: &Gathered<'_>,
    owner: &OwnerRef<'_>,
    number: usize,
    class: Class,
    feature: &FeatureName,
) -> bool
    ensures { result ≡ is_cause (problem_of gathered.now)
        (of_list (owner_ref_view owner.now) number (class_view class) feature.now) }
{
    is_target(gathered, owner, number, class) && lists_feature(gathered, owner, number, feature)
}

/// Whether the dependency asks for the feature, by its list or an entry of the root.
fn lists_feature(
    gathered: &Gathered<'_>,
    owner: &OwnerRef<'_>,
    number: usize,
    feature: &FeatureName,
) -> bool
    ensures { result ≡ passes
        (λ d. lists_feature (problem_of gathered.now) (owner_ref_view owner.now) d feature.now)
        (dependency_at (problem_of gathered.now) (owner_ref_view owner.now) number) }
{
    is_listed(gathered, owner, number, feature) || root_asks_at(gathered, owner, number, feature)
}

/// Whether the root asks its dependency of this number for the feature by an entry.
fn root_asks_at(
    gathered: &Gathered<'_>,
    owner: &OwnerRef<'_>,
    number: usize,
    feature: &FeatureName,
) -> bool
    ensures { result ≡ passes
        (λ d. root_asks_for (problem_of gathered.now) (owner_ref_view owner.now) d feature.now)
        (dependency_at (problem_of gathered.now) (owner_ref_view owner.now) number) }
{
    match dependency_at(&gathered.problem, owner, number) {
        Some(dependency) => root_asks_for(gathered, owner, dependency, feature),
        None => false,
    }
}

/// Whether an entry of the root asks the dependency for the feature: an ask of a version is a vertex of its own.
fn root_asks_for(
    gathered: &Gathered<'_>,
    owner: &OwnerRef<'_>,
    dependency: &DependencyParts,
    feature: &FeatureName,
) -> bool
    ensures { result ≡ root_asks_for (problem_of gathered.now) (owner_ref_view owner.now)
        (dependency_view dependency.now) feature.now }
{
    match owner {
        OwnerRef::Root => root_asks(gathered, &dependency.name, feature),
        OwnerRef::Version(_, _) => false,
    }
}

fn root_asks(gathered: &Gathered<'_>, name: &PackageName, feature: &FeatureName) -> bool
    ensures { result ≡ list_any (same_pair (name.now, feature.now)) (problem_of gathered.now).root_asks }
{
    gathered.root_asks.has(name.as_str(), feature.as_str())
}

/// Whether the dependency may lead to the class, and an entry of the version asks it for the feature.
pub(crate) fn is_ask(
    gathered: &Gathered<'_>,
    name: &PackageName,
    version: &Version,
    number: usize,
    feature: &FeatureName,
    class: Class,
) -> bool
    ensures { result ≡ is_cause (problem_of gathered.now)
        (of_ask name.now (parts_of version.now) number feature.now (class_view class)) }
{
    match dependency_at(&gathered.problem, &OwnerRef::Version(name, version), number) {
        Some(dependency) => {
            gathered.has_class(class, dependency)
                && version_has(
                    gathered,
                    name,
                    version,
                    &Named::Asking(&dependency.name, feature),
                )
        }
        None => false,
    }
}
