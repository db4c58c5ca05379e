//! Equality of classes and of versions, as definitions speak of it.

ghost use Rattle.std.specs.Prelude.{◌≡◌};
ghost use Rattle.semver.specs.Identifiers.{parts_of};
ghost use Rattle.model.specs.Content.{same_version};
ghost use Rattle.model.specs.Vertices.{same_class};
ghost use Rattle.classes.specs.Classes.{class_view};

use crate::class::Class;
use semver::Version;

/// Whether two classes are one.
pub fn same_class(a: &Class, b: &Class) -> bool
    ensures { result ≡ same_class (class_view a.now) (class_view b.now) }
{
    *a == *b
}

/// Whether two versions are one, build metadata included.
pub fn same_version(a: &Version, b: &Version) -> bool
    ensures { result ≡ same_version (parts_of a.now) (parts_of b.now) }
{
    a == b
}
