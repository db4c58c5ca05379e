//! Whether what `WeakFeature` names is there: an entry `d?/g` of the feature, and a dependency called d.

ghost use Rattle.std.specs.Prelude.{◌≡◌};
ghost use Rattle.semver.specs.Identifiers.{parts_of};
ghost use Rattle.classes.specs.Classes.{class_view};
ghost use Rattle.features.specs.Views.{dependency_view};
ghost use Rattle.model.specs.Vertices.{feat, same_vertex};
ghost use Rattle.model.specs.Causes.{is_cause, is_weak_on, of_weak};
ghost use Rattle.axioms.specs.inner.GatheredViews.{problem_of};

use crate::entries::Named;
use crate::gathered::Gathered;
use crate::listed::row_has;
use classes::{Class, same_class};
use features::{DependencyParts, FeatureName, PackageName};
use lookups::dependency_at;
use semver::Version;
use vertices::OwnerRef;

/// Whether an entry `d?/g` of the feature names the dependency of this number, which may lead to the class.
pub(crate) fn is_weak<'a>(
    gathered: &Gathered<'a>,
    name: &PackageName,
    version: &Version,
    on: &FeatureName,
    off: &FeatureName,
    number: usize,
    class: Class,
) -> bool
    ensures { result ≡ is_cause (problem_of gathered.now)
        (of_weak name.now (parts_of version.now) on.now off.now number (class_view class)) }
{
    match dependency_at(&gathered.problem, &OwnerRef::Version(name, version), number) {
        Some(dependency) => is_weak_on(gathered, name, version, on, off, class, dependency),
        None => false,
    }
}

/// An entry `d?/g` of the feature of a version, whose two terms on features differ.
fn is_weak_on<'a>(
    gathered: &Gathered<'a>,
    name: &PackageName,
    version: &Version,
    on: &FeatureName,
    off: &FeatureName,
    class: Class,
    dependency: &'a DependencyParts,
) -> bool
    ensures { result ≡ is_weak_on (problem_of gathered.now) name.now (parts_of version.now) on.now off.now
        (class_view class) (dependency_view dependency.now) }
{
    let weak = Named::Weak(&dependency.name, off);
    gathered.has_class(class, dependency)
        && row_has(gathered, name, version, on, &weak)
        && !is_same_feature(
            name,
            Class::of(version),
            on,
            &dependency.real_name,
            class,
            off,
        )
}

/// Whether two features of classes are one.
fn is_same_feature(
    name: &PackageName,
    class: Class,
    feature: &FeatureName,
    other_name: &PackageName,
    other_class: Class,
    other: &FeatureName,
) -> bool
    ensures { result ≡ same_vertex (feat name.now (class_view class) feature.now)
        (feat other_name.now (class_view other_class) other.now) }
{
    name == other_name && same_class(&class, &other_class) && feature == other
}
