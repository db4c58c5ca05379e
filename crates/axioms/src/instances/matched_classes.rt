//! The classes in which some version of a name is matched.

ghost use Rattle.std.specs.Prelude.{IfOk};
ghost use Rattle.features.specs.Views.{dependency_view};
ghost use Rattle.lookups.specs.inner.Views.{problem_view};
ghost use Rattle.model.specs.Vertices.{dep_classes};
ghost use Rattle.axioms.specs.inner.Keeping.{AreAll};

use classes::Class;
use features::DependencyParts;
use lookups::{Problem, classes_matched};
use semver::VersionReq;
use std::alloc::{AllocError, Global};

/// The classes to which a dependency may lead.
pub(crate) fn matched_classes(
    alloc: Global,
    problem: &Problem<'_>,
    dependency: &DependencyParts,
) -> Result<Vec<Class>, AllocError>
    ensures { IfOk result
        (λ ks. AreAll (dep_classes (problem_view problem.now) (dependency_view dependency.now)) ks.items) }
{
    let requirement: &VersionReq = &dependency.requirement;
    let versions = problem.catalogue.versions(&dependency.real_name);
    classes_matched(alloc, requirement, versions)
}
