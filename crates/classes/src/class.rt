//! The class of a version.

ghost use Rattle.std.specs.Prelude.{◌≡◌, Some};
ghost use Rattle.semver.specs.Identifiers.{parts_of};
ghost use Rattle.model.specs.Axioms.{is_lower};
ghost use Rattle.model.specs.Selection.{class_of};
ghost use Rattle.classes.specs.Classes.{class_view, class_text};

use semver::Version;
use std::fmt;

/// The leftmost nonzero number of a version with the numbers before it: a lock holds at most one version of a name in
/// each class (Cargo book, "Dependency Resolution", "SemVer compatibility"). Classes are ordered as their versions are.
#[derive(Clone, Copy, Debug, PartialEq, Eq, PartialOrd, Ord, Hash)]
pub enum Class {
    /// `0.0.N`
    Patch(u64),
    /// `0.N`, N above 0
    Minor(u64),
    /// `N`, above 0
    Major(u64),
}

impl Class {
    /// The class of a version: a pre-release has the class of its numbers.
    pub fn of(version: &Version) -> Class
        ensures { class_view result ≡ class_of (parts_of version.now) }
    {
        if version.major > 0 {
            Class::Major(version.major)
        } else if version.minor > 0 {
            Class::Minor(version.minor)
        } else {
            Class::Patch(version.patch)
        }
    }

    /// Whether all versions of this class are older than those of another one: the order of classes.
    pub fn is_lower(self, other: Class) -> bool
        ensures { result ≡ is_lower (class_view self) (class_view other) }
    {
        self < other
    }
}

impl fmt::Display for Class {
    ghost use Rattle.std.specs.Prelude.{Some};
    ghost use Rattle.classes.specs.Classes.{class_view, class_text};

    ghost output = { λ class. Some (class_text (class_view class)) };

    fn fmt<W: fmt::Write>(&self, f: &mut fmt::Formatter<W>) -> fmt::Result {
        match self {
            Class::Major(n) => write!(f, "{n}"),
            Class::Minor(n) => write!(f, "0.{n}"),
            Class::Patch(n) => write!(f, "0.0.{n}"),
        }
    }
}
