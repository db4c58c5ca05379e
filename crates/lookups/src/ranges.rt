//! The versions of a name in one class, found by search.

ghost use Rattle.std.specs.Prelude.{◌≡◌, ◌≤◌, true, false, not, length, map, filter};
ghost use Rattle.std.specs.List.Sorted.{IsPartitionPoint};
ghost use Rattle.semver.specs.Identifiers.{parts_of};
ghost use Rattle.classes.specs.Classes.{class_view};
ghost use Rattle.catalogue.specs.Stores.{candidates_at, said, said_by};
ghost use Rattle.lookups.specs.inner.Ranges.{AreRising, is_above, is_below, is_of};

use catalogue::{Candidate, Catalogue};
use classes::Class;
use features::PackageName;
use semver::Version;

/// The versions of a name's candidates that are of a class, oldest first.
pub fn class_versions<'a>(
    catalogue: &'a Catalogue,
    name: &PackageName,
    class: Class,
) -> &'a [Version]
    ensures versions { map parts_of result.now
        ≡ filter (is_of (class_view class)) (map (λ r. r.version) (candidates_at catalogue.entry.now name.now)) }
    ensures rising { AreRising result.now }
{
    of_class(class, catalogue.versions(name))
}

/// What the index says of a name's candidates that are of a class, each at the place of its version among
/// `class_versions`.
pub fn class_candidates<'a>(
    catalogue: &'a Catalogue,
    name: &PackageName,
    class: Class,
) -> &'a [Candidate]
    ensures { map said_by result.now
        ≡ map said (filter (λ r. is_of (class_view class) r.version) (candidates_at catalogue.entry.now name.now)) }
{
    let versions = catalogue.versions(name);
    let first = below(class, versions);
    let count = up_to(class, &versions[first..]);
    let rest = &catalogue.candidates(name)[first..];
    &rest[..count]
}

/// Those of a class: after those of lower classes, and before those of higher ones.
pub fn of_class<'a>(class: Class, versions: &'a [Version]) -> &'a [Version]
    requires { AreRising versions.now }
    ensures { result.now ≡ filter (λ v. is_of (class_view class) (parts_of v)) versions.entry.now }
{
    let rest = &versions[below(class, versions)..];
    &rest[..up_to(class, rest)]
}

/// Those of higher classes.
pub fn above<'a>(class: Class, versions: &'a [Version]) -> &'a [Version]
    requires { AreRising versions.now }
    ensures { result.now ≡ filter (λ v. is_above (class_view class) (parts_of v)) versions.entry.now }
{
    &versions[up_to(class, versions)..]
}

/// How many are of lower classes than this one.
pub fn below(class: Class, versions: &[Version]) -> usize
    requires { AreRising versions.now }
    ensures few { result ≤ length versions.now }
    ensures place { IsPartitionPoint (λ v. is_below (class_view class) (parts_of v) ≡ true)
        (λ v. is_below (class_view class) (parts_of v) ≡ false) versions.now result }
{
    versions.partition_point(|version| is_below(class, version))
}

/// How many aren't of higher ones.
fn up_to(class: Class, versions: &[Version]) -> usize
    requires { AreRising versions.now }
    ensures few { result ≤ length versions.now }
    ensures place { IsPartitionPoint (λ v. not (is_above (class_view class) (parts_of v)) ≡ true)
        (λ v. not (is_above (class_view class) (parts_of v)) ≡ false) versions.now result }
{
    versions.partition_point(|version| !is_above(class, version))
}

/// Whether a version is of a lower class.
fn is_below(class: Class, version: &Version) -> bool
    ensures { result ≡ is_below (class_view class) (parts_of version.now) }
{
    Class::of(version).is_lower(class)
}

/// Whether a version is of a higher class.
fn is_above(class: Class, version: &Version) -> bool
    ensures { result ≡ is_above (class_view class) (parts_of version.now) }
{
    class.is_lower(Class::of(version))
}
