//! Between which versions those lie that a requirement matches, so that in a list in order they are found by search.

ghost use Rattle.std.specs.Prelude.{◌≡◌};
ghost use Rattle.std.specs.List.{list_any};
ghost use Rattle.features.specs.Views.{requirement_view};
ghost use Rattle.semver.specs.Identifiers.{comparator_view, parts_of};
ghost use Rattle.catalogue.specs.inner.Bounds.{has_lower, has_upper, is_above, is_below, is_beyond, is_past_zero};
ghost use Rattle.catalogue.specs.inner.Bounds.{is_short};
ghost use Rattle.catalogue.specs.inner.Bounds.{number_cmp, numbers_cmp, upper_minor, upper_patch};

use semver::{Comparator, Op, Version, VersionReq};
use std::cmp::Ordering;

/// Whether a version is older than all that a requirement matches, by the numbers of one of its comparators. So is each
/// older version then.
pub fn is_short(requirement: &VersionReq, version: &Version) -> bool
    ensures { result ≡ is_short (requirement_view requirement.now) (parts_of version.now) }
{
    some_below(requirement.comparators.as_slice(), version)
}

fn some_below(comparators: &[Comparator], version: &Version) -> bool
    ensures { result ≡ list_any (λ c. is_below (comparator_view c) (parts_of version.now)) comparators.now }
{
    comparators
        .iter()
        .any(|comparator| is_below(comparator, version))
}

/// Whether a version is newer than all that a requirement matches, by the numbers of one of its comparators. So is each
/// newer version then.
pub fn is_beyond(requirement: &VersionReq, version: &Version) -> bool
    ensures { result ≡ is_beyond (requirement_view requirement.now) (parts_of version.now) }
{
    some_above(requirement.comparators.as_slice(), version)
}

fn some_above(comparators: &[Comparator], version: &Version) -> bool
    ensures { result ≡ list_any (λ c. is_above (comparator_view c) (parts_of version.now)) comparators.now }
{
    comparators
        .iter()
        .any(|comparator| is_above(comparator, version))
}

/// Whether a version is older than all that a comparator matches, by the numbers of both.
fn is_below(comparator: &Comparator, version: &Version) -> bool
    ensures { result ≡ is_below (comparator_view comparator.now) (parts_of version.now) }
{
    has_lower(comparator.op)
        && numbers_order(
            version,
            comparator.major,
            comparator.minor,
            comparator.patch,
        ) == Ordering::Less
}

/// Whether a version is newer than all that a comparator matches, by the numbers of both.
fn is_above(comparator: &Comparator, version: &Version) -> bool
    ensures { result ≡ is_above (comparator_view comparator.now) (parts_of version.now) }
{
    has_upper(comparator.op)
        && numbers_order(
            version,
            comparator.major,
            upper_minor(comparator),
            upper_patch(comparator),
        ) == Ordering::Greater
}

/// Whether no version with lower numbers than the comparator's is matched.
fn has_lower(op: Op) -> bool
    ensures { result ≡ has_lower op }
{
    match op {
        Op::Less | Op::LessEq => false,
        Op::Exact | Op::Wildcard | Op::Greater | Op::GreaterEq | Op::Tilde | Op::Caret => true,
    }
}

/// Whether no version with higher numbers than some of the comparator's is.
fn has_upper(op: Op) -> bool
    ensures { result ≡ has_upper op }
{
    match op {
        Op::Greater | Op::GreaterEq => false,
        Op::Exact | Op::Wildcard | Op::Less | Op::LessEq | Op::Tilde | Op::Caret => true,
    }
}

/// The minor number above which nothing is matched: `^` allows all others behind a major one that isn't zero.
fn upper_minor(comparator: &Comparator) -> Option<u64>
    ensures { result ≡ upper_minor (comparator_view comparator.now) }
{
    match comparator.op {
        Op::Caret => if comparator.major > 0 {
            None
        } else {
            comparator.minor
        },
        Op::Exact | Op::Wildcard | Op::Greater | Op::GreaterEq => comparator.minor,
        Op::Less | Op::LessEq | Op::Tilde => comparator.minor,
    }
}

/// The patch number above which nothing is: `~` allows all others, and `^` behind a minor one that isn't zero.
fn upper_patch(comparator: &Comparator) -> Option<u64>
    ensures { result ≡ upper_patch (comparator_view comparator.now) }
{
    match comparator.op {
        Op::Caret => if is_past_zero(comparator.minor) {
            None
        } else {
            comparator.patch
        },
        Op::Tilde => None,
        Op::Exact | Op::Wildcard | Op::Greater | Op::GreaterEq => comparator.patch,
        Op::Less | Op::LessEq => comparator.patch,
    }
}

fn is_past_zero(number: Option<u64>) -> bool
    ensures { result ≡ is_past_zero number }
{
    match number {
        Some(number) => number > 0,
        None => false,
    }
}

/// How the numbers of a version stand beside these, of which the last ones may be left out.
fn numbers_order(version: &Version, major: u64, minor: Option<u64>, patch: Option<u64>) -> Ordering
    ensures { result ≡ numbers_cmp (parts_of version.now) major minor patch }
{
    let rest = number_order(version.patch, patch, Ordering::Equal);
    let rest = number_order(version.minor, minor, rest);
    version.major.cmp(&major).then(rest)
}

fn number_order(number: u64, other: Option<u64>, rest: Ordering) -> Ordering
    ensures { result ≡ number_cmp number other rest }
{
    match other {
        Some(other) => number.cmp(&other).then(rest),
        None => Ordering::Equal,
    }
}
