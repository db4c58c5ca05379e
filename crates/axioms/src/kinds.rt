//! Whether all that a cause names is there. A kind that takes more than a function has a file of its name.

ghost use Rattle.std.specs.Prelude.{◌≡◌};
ghost use Rattle.semver.specs.Identifiers.{parts_of};
ghost use Rattle.classes.specs.Classes.{class_view};
ghost use Rattle.model.specs.Causes.{is_cause, of_asking, of_entry, of_need, of_target};
ghost use Rattle.vertices.specs.inner.RefViews.{owner_ref_view};
ghost use Rattle.lookups.specs.inner.Views.{problem_view};
ghost use Rattle.lookups.specs.inner.CauseViews.{cause_view};
ghost use Rattle.axioms.specs.inner.GatheredViews.{problem_of};

use crate::entries::Named;
use crate::feature_on_dependency::is_enabling;
use crate::gathered::Gathered;
use crate::has_feature::has_feature_vertex;
use crate::listed::row_has;
use crate::newest_listed::is_newest;
use crate::wants_feature::{is_ask, is_list};
use crate::weak_feature::is_weak;
use classes::Class;
use features::{FeatureName, PackageName};
use lookups::{Cause, Problem, dependency_at, is_needed};
use semver::Version;
use vertices::OwnerRef;

/// Whether all that a cause names is there.
pub(crate) fn is_cause(gathered: &Gathered<'_>, cause: &Cause<'_>) -> bool
    ensures { result ≡ is_cause (problem_of gathered.now) (cause_view cause.now) }
{
    let problem = &gathered.problem;
    match cause {
        Cause::Root => true,
        Cause::Need(owner, number) => is_need(problem, owner, *number),
        Cause::Target(owner, number, class) => is_target(gathered, owner, *number, *class),
        Cause::Feature(name, class, feature) => has_feature_vertex(gathered, name, *class, feature),
        Cause::List(owner, number, class, feature) => {
            is_list(gathered, owner, *number, *class, feature)
        }
        Cause::Ask(name, version, number, feature, class) => {
            is_ask(gathered, name, version, *number, feature, *class)
        }
        Cause::Entry(name, version, on, off) => is_entry(gathered, name, version, on, off),
        Cause::Enabling(name, version, on, entry, number) => {
            is_enabling(gathered, name, version, on, entry, *number)
        }
        Cause::Asking(name, version, on, asked, number) => {
            is_asking(gathered, name, version, on, asked, *number)
        }
        Cause::Newest(owner, number, other, class, higher) => {
            is_newest(gathered, owner, *number, *other, *class, *higher)
        }
        Cause::Weak(name, version, on, off, number, class) => {
            is_weak(gathered, name, version, on, off, *number, *class)
        }
    }
}

/// `Needed`: the owner needs the dependency.
fn is_need(problem: &Problem<'_>, owner: &OwnerRef<'_>, number: usize) -> bool
    ensures { result ≡ is_cause (problem_view problem.now) (of_need (owner_ref_view owner.now) number) }
{
    match dependency_at(problem, owner, number) {
        Some(dependency) => is_needed(owner, dependency),
        None => false,
    }
}

/// `Target`: the requirement matches a version of the class.
pub(crate) fn is_target(
    gathered: &Gathered<'_>,
    owner: &OwnerRef<'_>,
    number: usize,
    class: Class,
) -> bool
    ensures { result
        ≡ is_cause (problem_of gathered.now) (of_target (owner_ref_view owner.now) number (class_view class)) }
{
    match dependency_at(&gathered.problem, owner, number) {
        Some(dependency) => gathered.has_class(class, dependency),
        None => false,
    }
}

/// `FeatureOnFeature`: the other feature is an entry of the feature.
fn is_entry(
    gathered: &Gathered<'_>,
    name: &PackageName,
    version: &Version,
    on: &FeatureName,
    off: &FeatureName,
) -> bool
    ensures { result ≡ is_cause (problem_of gathered.now) (of_entry name.now (parts_of version.now) on.now off.now) }
{
    row_has(gathered, name, version, on, &Named::Feature(off)) && on != off
}

/// `FeatureAsks`: the feature has an entry that asks the dependency.
fn is_asking(
    gathered: &Gathered<'_>,
    name: &PackageName,
    version: &Version,
    on: &FeatureName,
    asked: &FeatureName,
    number: usize,
) -> bool
    ensures { result
        ≡ is_cause (problem_of gathered.now) (of_asking name.now (parts_of version.now) on.now asked.now number) }
{
    match dependency_at(&gathered.problem, &OwnerRef::Version(name, version), number) {
        Some(dependency) => {
            let asking = Named::Asking(&dependency.name, asked);
            row_has(gathered, name, version, on, &asking)
        }
        None => false,
    }
}
