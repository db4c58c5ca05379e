//! Where dependencies lead.

ghost use Rattle.std.specs.Prelude.{◌≡◌, ◌<◌, ◌≤◌, length, false, IfOk, slice_get};
ghost use Rattle.std.specs.List.{All, AllPairs, AllWithin};
ghost use Rattle.model.specs.Content.{last_serving, serves, serves_if};
ghost use Rattle.model.specs.Order.{IsContent};
ghost use Rattle.features.specs.Views.{dependency_view, dependency_views};
ghost use Rattle.lockfile.specs.inner.Views.{package_view, package_views};
ghost use Rattle.selection.specs.inner.Graphs.{targets_in};
ghost use Rattle.selection.specs.inner.Names.{is_newer, is_past, name_cmp};

use catalogue::is_beyond;
use classes::is_matched;
use features::{Dependency, DependencyParts};
use lockfile::Package;
use std::alloc::{AllocError, Global};
use std::cmp::Ordering;

/// By number, the targets of these dependencies of a package with this list: dependencies · log of the list.
pub(crate) fn targets(
    alloc: Global,
    content: &[Package],
    list: &[usize],
    dependencies: &[Dependency],
) -> Result<Vec<Option<usize>>, AllocError>
    requires content { IsContent (package_views content.now) }
    requires within { All (λ t. t < length content.now) list.now }
    requires rising { AllPairs (λ i j. i < j) list.now }
    ensures { IfOk result
        (λ v. v.items ≡ targets_in (package_views content.now) list.now (dependency_views dependencies.now)) }
{
    let mut found = Vec::new(alloc);
    'dependencies: for dependency in dependencies {
        found.push(target(content, list, dependency))?;
    }
    Ok(found)
}

/// The target of a dependency: the place of the last package of the list that serves it, if one does.
///
/// Those of its real name stand side by side, oldest first: log of the list, and as many as are of that name and no
/// newer than what the requirement can match, down to the last that it does.
pub fn target(content: &[Package], list: &[usize], dependency: &DependencyParts) -> Option<usize>
    requires content { IsContent (package_views content.now) }
    requires within { All (λ t. t < length content.now) list.now }
    requires rising { AllPairs (λ i j. i < j) list.now }
    ensures { result ≡ last_serving (package_views content.now) (dependency_view dependency.now) list.now }
{
    let first = list.partition_point(|at| name_order(content, *at, dependency) == Ordering::Less);
    let after = list.partition_point(|at| !is_past(content, *at, dependency));
    search(content, list, first, after, dependency)
}

/// Where the name of the package at a place stands beside the real name of a dependency.
fn name_order(content: &[Package], at: usize, dependency: &DependencyParts) -> Ordering
    ensures { result ≡ name_cmp (dependency_view dependency.now) (slice_get (package_views content.now) at) }
{
    match content.get(at) {
        Some(locked) => locked.name.cmp(&dependency.real_name),
        None => Ordering::Greater,
    }
}

/// Whether the package at a place has a higher name than is meant, or a newer version than the requirement can match.
fn is_past(content: &[Package], at: usize, dependency: &DependencyParts) -> bool
    ensures { result ≡ is_past (dependency_view dependency.now) (slice_get (package_views content.now) at) }
{
    match content.get(at) {
        Some(locked) => is_newer(locked, dependency),
        None => true,
    }
}

fn is_newer(locked: &Package, dependency: &DependencyParts) -> bool
    ensures { result ≡ is_newer (dependency_view dependency.now) (package_view locked.now) }
{
    match locked.name.cmp(&dependency.real_name) {
        Ordering::Less => false,
        Ordering::Equal => is_beyond(&dependency.requirement, &locked.version),
        Ordering::Greater => true,
    }
}

/// The last place of the list whose package serves the dependency, where none before `first` does, and none from
/// `after` on.
fn search(
    content: &[Package],
    list: &[usize],
    first: usize,
    after: usize,
    dependency: &DependencyParts,
) -> Option<usize>
    requires before { AllWithin (λ i. serves_if (dependency_view dependency.now)
        (slice_get (package_views content.now) i) ≡ false) list.now 0 first }
    requires behind { AllWithin (λ i. serves_if (dependency_view dependency.now)
        (slice_get (package_views content.now) i) ≡ false) list.now after (length list.now) }
    requires first { first ≤ length list.now }
    requires after { after ≤ length list.now }
    ensures { result ≡ last_serving (package_views content.now) (dependency_view dependency.now) list.now }
{
    let mut left = after;
    'places: while left > first {
        left -= 1;
        let at = list[left];
        if serves_at(content, at, dependency) {
            return Some(at);
        }
    }
    None
}

fn serves_at(content: &[Package], at: usize, dependency: &DependencyParts) -> bool
    ensures { result ≡ serves_if (dependency_view dependency.now) (slice_get (package_views content.now) at) }
{
    match content.get(at) {
        Some(locked) => serves(locked, dependency),
        None => false,
    }
}

/// Whether a package has a source, the dependency's real name and a version that its requirement matches.
fn serves(locked: &Package, dependency: &DependencyParts) -> bool
    ensures { result ≡ serves (dependency_view dependency.now) (package_view locked.now) }
{
    locked.source.is_some()
        && dependency.real_name == locked.name
        && is_matched(&dependency.requirement, &locked.version)
}
