//! The number of a version among the states of a package, where the versions of a class follow absent.

ghost use Rattle.std.specs.Prelude.{◌≡◌, true};
ghost use Rattle.semver.specs.Identifiers.{parts_of};
ghost use Rattle.classes.specs.Classes.{class_view};
ghost use Rattle.model.specs.Vertices.{has_state, pkg, space};
ghost use Rattle.model.specs.Vertices as model;
ghost use Rattle.numbering.specs.inner.KnownProblem.{problem};
ghost use Rattle.guiding.specs.inner.Found.{IsNumberOf};

use catalogue::place_of;
use classes::Class;
use features::PackageName;
use lookups::below;
use numbering::KnownProblem;
use semver::Version;

/// The number of a version among the states of a name in its class.
pub(crate) fn version_number(
    known: &KnownProblem<'_>,
    name: &PackageName,
    class: Class,
    version: &Version,
) -> Option<u32>
    ensures { has_state (space (problem known.now) (pkg name.now (class_view class)))
        (model.version (parts_of version.now)) ≡ true → IsNumberOf (problem known.now)
        (pkg name.now (class_view class)) (model.version (parts_of version.now)) result }
{
    let versions = known.problem.catalogue.versions(name);
    // The versions of a class stand together, after those of lower classes.
    let rest = &versions[below(class, versions)..];
    let place = place_of(rest, version)?;
    Some(place as u32 + 1)
}
