//! The versions that a requirement matches, class by class.

ghost use Rattle.std.specs.Prelude.{◌≡◌, ◌≤◌, IfOk, OnOk, [], length, map};
ghost use Rattle.std.specs.List.{list_any};
ghost use Rattle.features.specs.Views.{requirement_view};
ghost use Rattle.semver.specs.EvalViews.{matches_views};
ghost use Rattle.semver.specs.Identifiers.{parts_of};
ghost use Rattle.classes.specs.Classes.{class_view};
ghost use Rattle.classes.specs.Groups.{IsOldestFirst, group_views, ends_in, groups_of, with_last, with_position};
ghost use Rattle.classes.specs.Groups.{with_versions};

use crate::class::Class;
use crate::same::same_class;
use semver::{Version, VersionReq};
use std::alloc::{AllocError, Global};

/// The positions of the versions that a requirement matches, by class: rising in each class, and the classes in the
/// order of their oldest versions.
///
/// The versions are sorted by precedence, the oldest first, and are at most 65,535.
pub fn matching(
    alloc: Global,
    requirement: &VersionReq,
    versions: &[Version],
) -> Result<Vec<(Class, Vec<u32>)>, AllocError>
    requires few { length versions.now ≤ 65535 }
    requires oldest_first { IsOldestFirst (map parts_of versions.now) }
    ensures { IfOk result (λ groups. group_views groups.items
        ≡ groups_of (requirement_view requirement.now) (map parts_of versions.now)) }
{
    grouped(alloc, requirement, versions)
}

/// The groups that a pass over the versions makes.
fn grouped(
    alloc: Global,
    requirement: &VersionReq,
    versions: &[Version],
) -> Result<Vec<(Class, Vec<u32>)>, AllocError>
    requires few { length versions.now ≤ 65535 }
    ensures { IfOk result (λ groups. group_views groups.items
        ≡ with_versions (requirement_view requirement.now) 0 (map parts_of versions.now) []) }
{
    let mut groups = Vec::new(alloc);
    'versions: for (position, version) in versions.iter().enumerate() {
        if is_matched(requirement, version) {
            put(alloc, &mut groups, Class::of(version), position as u32)?;
        }
    }
    Ok(groups)
}

/// Whether the requirement matches the version.
pub fn is_matched(requirement: &VersionReq, version: &Version) -> bool
    ensures { result ≡ matches_views (requirement_view requirement.now) (parts_of version.now) }
{
    requirement.matches(version)
}

/// Whether the requirement matches some version.
pub fn some_matched(requirement: &VersionReq, versions: &[Version]) -> bool
    ensures { result ≡ list_any (λ v. matches_views (requirement_view requirement.now) (parts_of v)) versions.now }
{
    versions
        .iter()
        .any(|version| is_matched(requirement, version))
}

/// Puts a position to the last group if that is of its class, else to a new one.
fn put(
    alloc: Global,
    groups: &mut Vec<(Class, Vec<u32>)>,
    class: Class,
    position: u32,
) -> Result<(), AllocError>
    ensures { OnOk result
        (group_views groups.new.items ≡ with_position (class_view class) position (group_views groups.old.items)) }
{
    if ends_in(groups.as_slice(), class) {
        return put_last(groups, position);
    }
    let mut positions = Vec::new(alloc);
    positions.push(position)?;
    groups.push((class, positions))?;
    Ok(())
}

fn ends_in(groups: &[(Class, Vec<u32>)], class: Class) -> bool
    ensures { result ≡ ends_in (class_view class) (group_views groups.now) }
{
    match groups.last() {
        Some(last) => same_class(&class, &last.0),
        None => false,
    }
}

fn put_last(groups: &mut Vec<(Class, Vec<u32>)>, position: u32) -> Result<(), AllocError>
    ensures { OnOk result (group_views groups.new.items ≡ with_last position (group_views groups.old.items)) }
{
    if let Some(last) = groups.last_mut() {
        last.1.push(position)?;
    }
    Ok(())
}
