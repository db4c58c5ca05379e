//! The versions among which those are that a requirement matches, or those that it doesn't, found without a look at the
//! others.

ghost use Rattle.std.specs.List.Sorted.{IsPartitionPoint};
ghost use Rattle.std.specs.List.{list_all};
ghost use Rattle.std.specs.Prelude.{◌≡◌, ◌≤◌, ◌<◌, ◌++◌, ℕ, suc, true, false, not, get_or, length, map, filter, IfSome};
ghost use Rattle.semver.specs.EvalViews.{matches_views};
ghost use Rattle.semver.specs.Identifiers.{comparator_view, parts_of};
ghost use Rattle.features.specs.Views.{requirement_view};
ghost use Rattle.catalogue.specs.inner.Bounds.{is_beyond, is_short};
ghost use Rattle.lookups.specs.inner.Matching.{is_left, is_release, is_whole, tests_of_range};
ghost use Rattle.lookups.specs.inner.Ranges.{AreRising};

use catalogue::{is_beyond, is_short};
use classes::is_matched;
use semver::{Comparator, Version, VersionReq};

/// Of versions that are oldest first those between which the requirement can match some: one such as `^1.2` costs what
/// its class has, and `=1.2.3` nearly nothing, though there are thousands.
pub fn within<'a>(requirement: &VersionReq, versions: &'a [Version]) -> &'a [Version]
    requires { AreRising versions.now }
    ensures rising { AreRising result.now }
    ensures few { length result.now ≤ length versions.entry.now }
    ensures matched { filter (matches_views (requirement_view requirement.now)) (map parts_of result.now)
        ≡ filter (matches_views (requirement_view requirement.now)) (map parts_of versions.entry.now) }
{
    let rest = &versions[too_old(requirement, versions)..];
    &rest[..old_enough(requirement, rest)]
}

/// How many are older than all that is matched.
fn too_old(requirement: &VersionReq, versions: &[Version]) -> usize
    requires { AreRising versions.now }
    ensures few { result ≤ length versions.now }
    ensures place { IsPartitionPoint (λ v. is_short (requirement_view requirement.now) (parts_of v) ≡ true)
        (λ v. is_short (requirement_view requirement.now) (parts_of v) ≡ false) versions.now result }
{
    versions.partition_point(|version| is_short(requirement, version))
}

/// How many aren't newer than all that is matched.
fn old_enough(requirement: &VersionReq, versions: &[Version]) -> usize
    requires { AreRising versions.now }
    ensures few { result ≤ length versions.now }
    ensures place { IsPartitionPoint (λ v. not (is_beyond (requirement_view requirement.now) (parts_of v)) ≡ true)
        (λ v. not (is_beyond (requirement_view requirement.now) (parts_of v)) ≡ false) versions.now result }
{
    versions.partition_point(|version| !is_beyond(requirement, version))
}

/// Of versions that are oldest first those before the first that is matched, and those after the last: where all are
/// releases, what lies between is matched too, as each comparator allows what lies between two that it allows. Where
/// some may not be, all are given.
pub fn unmatched_ends<'a>(
    requirement: &VersionReq,
    versions: &'a [Version],
    are_releases: bool,
) -> (&'a [Version], &'a [Version])
    requires rising { AreRising versions.now }
    requires releases { are_releases ≡ true → list_all (λ v. is_release (parts_of v)) versions.now ≡ true }
    ensures { filter (is_left (requirement_view requirement.now)) (map parts_of result.0.now)
        ++ filter (is_left (requirement_view requirement.now)) (map parts_of result.1.now)
        ≡ filter (is_left (requirement_view requirement.now)) (map parts_of versions.entry.now) }
{
    let first = if are_releases && is_whole(requirement) {
        before_first(requirement, versions)
    } else {
        versions.len()
    };
    let rest = &versions[first..];
    (&versions[..first], &rest[up_to_last(requirement, rest)..])
}

/// Whether none is a pre-release.
pub fn are_releases(versions: &[Version]) -> bool
    ensures { result ≡ list_all (λ v. is_release (parts_of v)) versions.now }
{
    versions.iter().all(|version| is_release(version))
}

fn is_release(version: &Version) -> bool
    ensures { result ≡ is_release (parts_of version.now) }
{
    version.pre.is_empty()
}

/// Of versions that are oldest first, and all of them releases, those that are matched: from which place on, and up to
/// which. None is told where a comparator leaves out a number before one that is there.
pub fn matched_range(requirement: &VersionReq, versions: &[Version]) -> Option<(usize, usize)>
    requires rising { AreRising versions.now }
    requires releases { list_all (λ v. is_release (parts_of v)) versions.now ≡ true }
    ensures { IfSome result (λ r. (r.0 ≤ r.1) × ((r.1 ≤ length versions.now)
        × (map (λ v. matches_views (requirement_view requirement.now) (parts_of v)) versions.now
        ≡ tests_of_range r.0 r.1 (length versions.now)))) }
{
    if !is_whole(requirement) {
        return None;
    }
    let first = before_first(requirement, versions);
    let count = up_to_last(requirement, &versions[first..]);
    Some((first, first + count))
}

/// How many stand before the first that is matched: looked for among those alone that aren't too old.
fn before_first(requirement: &VersionReq, versions: &[Version]) -> usize
    requires { AreRising versions.now }
    ensures few { result ≤ length versions.now }
    ensures before { (n : ℕ) (v : Version) → n < result
        → matches_views (requirement_view requirement.now) (parts_of (get_or versions.now n v)) ≡ false }
    ensures first { result < length versions.now → (v : Version)
        → matches_views (requirement_view requirement.now) (parts_of (get_or versions.now result v)) ≡ true }
{
    let mut count = too_old(requirement, versions);
    'versions: while count < versions.len() {
        if is_matched(requirement, &versions[count]) {
            return count;
        }
        count += 1;
    }
    count
}

/// How many stand up to the last that is matched: looked for among those alone that aren't too new.
fn up_to_last(requirement: &VersionReq, versions: &[Version]) -> usize
    requires { AreRising versions.now }
    ensures few { result ≤ length versions.now }
    ensures after { (n : ℕ) (v : Version) → result ≤ n → n < length versions.now
        → matches_views (requirement_view requirement.now) (parts_of (get_or versions.now n v)) ≡ false }
    ensures last { (n : ℕ) (v : Version) → suc n ≡ result
        → matches_views (requirement_view requirement.now) (parts_of (get_or versions.now n v)) ≡ true }
{
    let mut count = old_enough(requirement, versions);
    'versions: while count > 0 {
        if is_matched(requirement, &versions[count - 1]) {
            return count;
        }
        count -= 1;
    }
    0
}

/// Whether no comparator leaves out a number before one that is there.
fn is_whole(requirement: &VersionReq) -> bool
    ensures { result ≡ list_all is_whole (requirement_view requirement.now) }
{
    are_whole(&requirement.comparators)
}

fn are_whole(comparators: &[Comparator]) -> bool
    ensures { result ≡ list_all (λ c. is_whole (comparator_view c)) comparators.now }
{
    comparators
        .iter()
        .all(|comparator| is_whole_comparator(comparator))
}

fn is_whole_comparator(comparator: &Comparator) -> bool
    ensures { result ≡ is_whole (comparator_view comparator.now) }
{
    match comparator.minor {
        Some(_) => true,
        None => comparator.patch.is_none(),
    }
}
