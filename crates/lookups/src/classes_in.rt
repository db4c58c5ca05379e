//! The classes in which versions are matched.

ghost use Rattle.std.specs.List.Sorted.{IsPartitionPoint};
ghost use Rattle.std.specs.List.{AllPairs, list_all};
ghost use Rattle.std.specs.Prelude.{◌≡◌, ◌≤◌, ◌<◌, ◌-◌, ◌∷◌, ◌++◌, true, false, not, IfOk, IfSome, length, map, filter};
ghost use Rattle.std.specs.Prelude.{take, drop};
ghost use Rattle.semver.specs.Identifiers.{parts_of};
ghost use Rattle.classes.specs.Classes.{class_view};
ghost use Rattle.classes.specs.Groups.{classes_matched, each_once};
ghost use Rattle.features.specs.Views.{requirement_view};
ghost use Rattle.model.specs.Axioms.{is_lower};
ghost use Rattle.model.specs.Selection.{class_of};
ghost use Rattle.lookups.specs.inner.Matching.{is_release};
ghost use Rattle.lookups.specs.inner.Ranges.{AreRising};

use crate::narrowing::{matched_range, within};
use crate::ranges::above;
use classes::{Class, is_matched};
use semver::{Version, VersionReq};
use std::alloc::{AllocError, Global};

/// The classes of the versions that are matched, lowest first and each once, of versions that are oldest first. Of a
/// class that has one of them no more are looked at: it may have thousands.
pub fn classes_matched(
    alloc: Global,
    requirement: &VersionReq,
    versions: &[Version],
) -> Result<Vec<Class>, AllocError>
    requires { AreRising versions.now }
    ensures { IfOk result (λ ks. map class_view ks.items
        ≡ classes_matched (requirement_view requirement.now) (map parts_of versions.now)) }
{
    let mut classes = Vec::new(alloc);
    let mut rest = within(requirement, versions);
    'versions: while !rest.is_empty() {
        rest = add_matched(&mut classes, requirement, rest)?;
    }
    Ok(classes)
}

/// Adds the class of the first version, if it is matched; and gives the others that are left to be looked at.
fn add_matched<'a>(
    classes: &mut Vec<Class>,
    requirement: &VersionReq,
    versions: &'a [Version],
) -> Result<&'a [Version], AllocError>
    requires rising { AreRising versions.now }
    requires some { 0 < length versions.now }
    ensures rising { IfOk result (λ vs. AreRising vs.now) }
    ensures fewer { IfOk result (λ vs. length vs.now < length versions.entry.now) }
    ensures classes { IfOk result (λ vs. map class_view classes.new.items
        ++ classes_matched (requirement_view requirement.now) (map parts_of vs.now)
        ≡ map class_view classes.old.items
        ++ classes_matched (requirement_view requirement.now) (map parts_of versions.entry.now)) }
{
    let version = &versions[0];
    let later = &versions[1..];
    if !is_matched(requirement, version) {
        return Ok(later);
    }
    let class = Class::of(version);
    classes.push(class)?;
    Ok(above(class, later))
}

/// The classes of versions that are oldest first, lowest first and each once.
pub fn all_classes(alloc: Global, versions: &[Version]) -> Result<Vec<Class>, AllocError>
    requires { AreRising versions.now }
    ensures { IfOk result (λ ks. map class_view ks.items ≡ each_once (map class_of (map parts_of versions.now))) }
{
    let mut classes = Vec::new(alloc);
    let mut rest = versions;
    'versions: while !rest.is_empty() {
        rest = add_first(&mut classes, rest)?;
    }
    Ok(classes)
}

/// Adds the class of the first version, and gives the versions of higher ones.
fn add_first<'a>(
    classes: &mut Vec<Class>,
    versions: &'a [Version],
) -> Result<&'a [Version], AllocError>
    requires rising { AreRising versions.now }
    requires some { 0 < length versions.now }
    ensures rising { IfOk result (λ vs. AreRising vs.now) }
    ensures fewer { IfOk result (λ vs. length vs.now < length versions.entry.now) }
    ensures classes { IfOk result (λ vs. map class_view classes.new.items
        ++ each_once (map class_of (map parts_of vs.now))
        ≡ map class_view classes.old.items ++ each_once (map class_of (map parts_of versions.entry.now))) }
{
    let class = Class::of(&versions[0]);
    classes.push(class)?;
    Ok(above(class, &versions[1..]))
}

/// Of the classes of versions that are oldest first, and all of them releases, those in which the requirement matches
/// some: from which place on, and up to which. None is told where none is told of the versions (`matched_range`).
pub fn class_range(
    requirement: &VersionReq,
    versions: &[Version],
    classes: &[Class],
) -> Option<(usize, usize)>
    requires rising { AreRising versions.now }
    requires releases { list_all (λ v. is_release (parts_of v)) versions.now ≡ true }
    requires classes { map class_view classes.now ≡ each_once (map class_of (map parts_of versions.now)) }
    ensures { IfSome result (λ r. (r.0 ≤ r.1) × ((r.1 ≤ length classes.now)
        × (map class_view (take (r.1 - r.0) (drop r.0 classes.now))
        ≡ classes_matched (requirement_view requirement.now) (map parts_of versions.now)))) }
{
    let (first, end) = matched_range(requirement, versions)?;
    if first == end {
        return Some((0, 0));
    }
    let lowest = Class::of(&versions[first]);
    let highest = Class::of(&versions[end - 1]);
    Some(places_between(lowest, highest, classes))
}

/// Where the classes lie that are neither lower than the one nor higher than the other.
fn places_between(lowest: Class, highest: Class, classes: &[Class]) -> (usize, usize)
    requires { AllPairs (λ j k. is_lower (class_view k) (class_view j) ≡ false) classes.now }
    ensures begins { result.0 ≤ result.1 }
    ensures ends { result.1 ≤ length classes.now }
    ensures classes { map class_view (take (result.1 - result.0) (drop result.0 classes.now))
        ≡ filter (λ k. not (is_lower (class_view highest) k))
        (filter (λ k. not (is_lower k (class_view lowest))) (map class_view classes.now)) }
{
    let from = lower_classes(lowest, classes);
    (from, from + up_to_class(highest, &classes[from..]))
}

/// How many are lower.
fn lower_classes(class: Class, classes: &[Class]) -> usize
    requires { AllPairs (λ j k. is_lower (class_view k) (class_view j) ≡ false) classes.now }
    ensures few { result ≤ length classes.now }
    ensures place { IsPartitionPoint (λ k. is_lower (class_view k) (class_view class) ≡ true)
        (λ k. is_lower (class_view k) (class_view class) ≡ false) classes.now result }
{
    classes.partition_point(|other| other.is_lower(class))
}

/// How many aren't higher.
fn up_to_class(class: Class, classes: &[Class]) -> usize
    requires { AllPairs (λ j k. is_lower (class_view k) (class_view j) ≡ false) classes.now }
    ensures few { result ≤ length classes.now }
    ensures place { IsPartitionPoint (λ k. not (is_lower (class_view class) (class_view k)) ≡ true)
        (λ k. not (is_lower (class_view class) (class_view k)) ≡ false) classes.now result }
{
    classes.partition_point(|other| !class.is_lower(*other))
}
