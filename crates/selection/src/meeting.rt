//! Meeting the versions that picks lead to, from the root on.

ghost use Rattle.std.specs.Prelude.{◌≡◌, ◌||◌, IfOk, OnOk, map, nat_eq};
ghost use Rattle.features.specs.Views.{dependency_view, dependency_views};
ghost use Rattle.facts.specs.inner.Graphs.{node_views};
ghost use Rattle.facts.specs.inner.Nodes.{AreMet};
ghost use Rattle.catalogue.specs.Problems.{preferred_in, problem_in};
ghost use Rattle.selection.specs.inner.Contents.{AreMetVersions, Grows, owners_of};
ghost use Rattle.selection.specs.inner.Followed.{PicksFollowed, is_followed};
ghost use Rattle.selection.specs.inner.Met.{AreOrders, ArePicks, IsPick, IsPickIf};

use crate::bringing::brings_at;
use crate::met::{MetVersion, store_holds};
use crate::picking::pick;
use crate::putting::put_met;
use catalogue::Catalogue;
use facts::{Node, dependencies_of, flag, flags};
use features::{Dependency, DependencyParts, PackageName};
use indexmap::IndexSet;
use manifest::Manifest;
use std::alloc::{AllocError, Global};
use std::collections::HashMap;

/// Follows the picks of dependencies, and takes each version once: of all of them, or of those that a package needs and
/// those that were asked for. The versions that were met before keep their places. The order of preference of a name is
/// made once, for the first dependency on it.
pub(crate) fn meet<'a>(
    alloc: Global,
    manifest: &'a Manifest,
    catalogue: &'a Catalogue,
    orders: &mut HashMap<PackageName, Vec<Vec<u32>>>,
    versions: &mut IndexSet<MetVersion>,
    all: bool,
    asked: &[Vec<bool>],
) -> Result<Vec<Node<'a>>, AllocError>
    requires orders { AreOrders catalogue.now orders.old }
    requires versions { AreMetVersions catalogue.now versions.old.keys }
    ensures orders { OnOk result (AreOrders catalogue.entry.now orders.new) }
    ensures versions { OnOk result (AreMetVersions catalogue.entry.now versions.new.keys) }
    ensures met { IfOk result (λ v. AreMet (problem_in manifest.entry.now catalogue.entry.now)
        (PicksFollowed all (map (λ v. v.items) asked.now) (owners_of catalogue.entry.now versions.new.keys)
        (problem_in manifest.entry.now catalogue.entry.now) (preferred_in catalogue.entry.now))
        (owners_of catalogue.entry.now versions.new.keys) (node_views v.items)) }
{
    store_holds(catalogue);
    let mut nodes = Vec::new(alloc);
    'versions: while nodes.len() <= versions.len() {
        let place = nodes.len();
        let brings = brings_at(manifest, catalogue, versions.as_slice(), place);
        let dependencies = dependencies_of(brings);
        let targets = targets_of(
            alloc,
            catalogue,
            orders,
            versions,
            dependencies,
            follows_all(all, place),
            flags(asked, place),
        )?;
        nodes.push(Node {
            brings,
            targets,
            starts: place == 0,
        })?;
    }
    Ok(nodes)
}

/// Whether all dependencies of what stands at a place are followed; the root needs all of its own.
fn follows_all(all: bool, place: usize) -> bool
    ensures { result ≡ (all || nat_eq place 0) }
{
    all || place == 0
}

/// Where the picks of those dependencies stand that are followed; those that are new go last.
fn targets_of(
    alloc: Global,
    catalogue: &Catalogue,
    orders: &mut HashMap<PackageName, Vec<Vec<u32>>>,
    versions: &mut IndexSet<MetVersion>,
    dependencies: &[Dependency],
    all: bool,
    asked: &[bool],
) -> Result<Vec<Option<usize>>, AllocError>
    requires { AreOrders catalogue.now orders.old }
    ensures orders { OnOk result (AreOrders catalogue.now orders.new) }
    ensures grows { OnOk result (Grows catalogue.now versions.old.keys versions.new.keys) }
    ensures picks { IfOk result (λ v. ArePicks (preferred_in catalogue.now) (owners_of catalogue.now versions.new.keys)
        all asked.now (dependency_views dependencies.now) v.items) }
{
    let mut targets = Vec::new(alloc);
    'dependencies: for (number, dependency) in dependencies.iter().enumerate() {
        let follows = is_followed(all, flag(asked, number), dependency);
        targets.push(target_if(alloc, catalogue, orders, versions, dependency, follows)?)?;
    }
    Ok(targets)
}

/// Whether a dependency is followed: all of its package are, the package needs it, or it was asked for.
fn is_followed(all: bool, asked: bool, dependency: &DependencyParts) -> bool
    ensures { result ≡ is_followed all asked (dependency_view dependency.now) }
{
    all || !dependency.optional || asked
}

/// Where the pick of a dependency stands, if it is followed.
fn target_if(
    alloc: Global,
    catalogue: &Catalogue,
    orders: &mut HashMap<PackageName, Vec<Vec<u32>>>,
    versions: &mut IndexSet<MetVersion>,
    dependency: &DependencyParts,
    follows: bool,
) -> Result<Option<usize>, AllocError>
    requires { AreOrders catalogue.now orders.old }
    ensures orders { OnOk result (AreOrders catalogue.now orders.new) }
    ensures grows { OnOk result (Grows catalogue.now versions.old.keys versions.new.keys) }
    ensures pick { IfOk result (λ o. IsPickIf (preferred_in catalogue.now)
        (owners_of catalogue.now versions.new.keys) follows (dependency_view dependency.now) o) }
{
    if follows {
        target_of(alloc, catalogue, orders, versions, dependency)
    } else {
        Ok(None)
    }
}

/// Where the pick of a dependency stands; if it is new it goes last.
fn target_of(
    alloc: Global,
    catalogue: &Catalogue,
    orders: &mut HashMap<PackageName, Vec<Vec<u32>>>,
    versions: &mut IndexSet<MetVersion>,
    dependency: &DependencyParts,
) -> Result<Option<usize>, AllocError>
    requires { AreOrders catalogue.now orders.old }
    ensures orders { OnOk result (AreOrders catalogue.now orders.new) }
    ensures grows { OnOk result (Grows catalogue.now versions.old.keys versions.new.keys) }
    ensures pick { IfOk result (λ o. IsPick (preferred_in catalogue.now) (owners_of catalogue.now versions.new.keys)
        (dependency_view dependency.now) o) }
{
    let Some(place) = pick(alloc, catalogue, orders, dependency)? else {
        return Ok(None);
    };
    Ok(Some(put_met(catalogue, versions, &dependency.real_name, place)?))
}
