//! Whether what `HasFeature` names is there: a candidate of the class, and a feature that is known of its name.

ghost use Rattle.std.specs.Prelude.{◌≡◌, ◌&&◌, true};
ghost use Rattle.std.specs.List.{list_any};
ghost use Rattle.classes.specs.Classes.{class_view};
ghost use Rattle.model.specs.Vertices.{class_candidates};
ghost use Rattle.model.specs.Causes.{has_feature_vertex};
ghost use Rattle.axioms.specs.inner.Gathered.{is_known_feature};
ghost use Rattle.axioms.specs.inner.GatheredViews.{problem_of};
ghost use Rattle.lookups.specs.inner.Views.{problem_view};

use crate::gathered::Gathered;
use classes::Class;
use features::{FeatureName, PackageName};
use lookups::{Problem, class_versions};
use semver::Version;

/// Whether a candidate is of the class, and some candidate has the feature or some dependency asks for it.
pub(crate) fn has_feature_vertex(
    gathered: &Gathered<'_>,
    name: &PackageName,
    class: Class,
    feature: &FeatureName,
) -> bool
    ensures { result ≡ has_feature_vertex (problem_of gathered.now) name.now (class_view class) feature.now }
{
    has_candidate(&gathered.problem, name, class) && is_known_feature(gathered, name, feature)
}

/// Whether some candidate of the name has the feature, or some dependency asks for it.
fn is_known_feature(gathered: &Gathered<'_>, name: &PackageName, feature: &FeatureName) -> bool
    ensures { result ≡ is_known_feature (problem_of gathered.now) name.now feature.now }
{
    gathered.features.has(name.as_str(), feature.as_str())
}

fn has_candidate(problem: &Problem<'_>, name: &PackageName, class: Class) -> bool
    ensures { result ≡ list_any (λ c. true) (class_candidates (problem_view problem.now) name.now (class_view class)) }
{
    has_one(class_versions(problem.catalogue, name, class))
}

fn has_one(versions: &[Version]) -> bool
    ensures { result ≡ list_any (λ v. true) versions.now }
{
    !versions.is_empty()
}
