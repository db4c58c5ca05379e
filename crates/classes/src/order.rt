//! The order of the versions of one name in a lock.

ghost use Rattle.std.specs.Prelude.{◌≡◌};
ghost use Rattle.semver.specs.Identifiers.{parts_of};
ghost use Rattle.model.specs.Order.{version_cmp};

use semver::Version;
use std::cmp::Ordering;

/// Versions by precedence (SemVer 2.0.0, section 11), and those of equal precedence by the bytes of their texts.
pub fn version_order(a: &Version, b: &Version) -> Ordering
    ensures { result ≡ version_cmp (parts_of a.now) (parts_of b.now) }
{
    a.cmp_precedence(b)
        .then(a.build.as_str().cmp(b.build.as_str()))
}
