//! The versions that the walk reaches, met in rounds.

ghost use Rattle.std.specs.Prelude.{◌≡◌, IfOk, OnOk, map};
ghost use Rattle.facts.specs.inner.Graphs.{node_views};
ghost use Rattle.facts.specs.inner.Nodes.{AreFlags, AreMet};
ghost use Rattle.catalogue.specs.Problems.{preferred_in, problem_in};
ghost use Rattle.selection.specs.inner.Contents.{AreMetVersions, owners_of};
ghost use Rattle.selection.specs.inner.Followed.{PicksFollowed};
ghost use Rattle.selection.specs.inner.Met.{AreOrders, all_met, are_met};
ghost use Rattle.selection.specs.inner.Rounds.{Reaches};

use crate::meeting::meet;
use crate::met::MetVersion;
use crate::taking::takes_twice;
use catalogue::Catalogue;
use facts::{Facts, Node, facts_of};
use features::PackageName;
use indexmap::IndexSet;
use manifest::Manifest;
use std::alloc::{AllocError, Global};
use std::collections::HashMap;

/// After so many rounds the next one follows all dependencies, which ends it: each round costs as much as all that was
/// met so far. Few features lead to features of packages that only they bring, so few walks need more.
const ROUNDS: usize = 8;

/// The versions that were met, and what was found of them.
#[derive(Drop)]
pub(crate) struct Reached<'a> {
    /// In the order in which they were met; the root is none of them.
    pub(crate) versions: IndexSet<MetVersion>,
    /// The root, then what stands at each of them.
    pub(crate) nodes: Vec<Node<'a>>,
    pub(crate) facts: Facts,
}

/// What stands at the versions that were met so far, and what was found of it.
#[derive(Drop)]
struct Round<'a> {
    nodes: Vec<Node<'a>>,
    facts: Facts,
}

/// The versions that the preferred walk reaches, and some more; none where an enabled dependency has no pick, or where
/// it is seen early that two versions are of one class.
///
/// Each round follows what the one before found to be enabled, until each enabled dependency has its target. Where
/// nothing more was enabled, the rounds would go on as they are.
pub(crate) fn reach<'a>(
    alloc: Global,
    manifest: &'a Manifest,
    catalogue: &'a Catalogue,
) -> Result<Option<Reached<'a>>, AllocError>
    ensures { IfOk result (Reaches (problem_in manifest.entry.now catalogue.entry.now) catalogue.entry.now) }
{
    let mut orders = HashMap::new(alloc);
    let mut versions = IndexSet::new(alloc);
    let mut asked = Vec::new(alloc);
    'rounds: for _ in 0..ROUNDS {
        let found = follow(
            alloc,
            manifest,
            catalogue,
            &mut orders,
            &mut versions,
            false,
            asked.as_slice(),
        )?;
        let Round { nodes, facts } = found;
        // Later rounds only add to these.
        if takes_twice(alloc, catalogue, versions.as_slice(), facts.here.as_slice())? {
            return Ok(None);
        }
        if is_complete(nodes.as_slice(), facts.enabled.as_slice()) {
            return Ok(Some(Reached {
                versions,
                nodes,
                facts,
            }));
        }
        if facts.enabled == asked {
            return reach_all(alloc, manifest, catalogue, orders, versions);
        }
        asked = facts.enabled;
    }
    reach_all(alloc, manifest, catalogue, orders, versions)
}

/// The same by one round that follows all dependencies.
fn reach_all<'a>(
    alloc: Global,
    manifest: &'a Manifest,
    catalogue: &'a Catalogue,
    mut orders: HashMap<PackageName, Vec<Vec<u32>>>,
    mut versions: IndexSet<MetVersion>,
) -> Result<Option<Reached<'a>>, AllocError>
    requires orders { AreOrders catalogue.now orders }
    requires versions { AreMetVersions catalogue.now versions.keys }
    ensures { IfOk result (Reaches (problem_in manifest.entry.now catalogue.entry.now) catalogue.entry.now) }
{
    let found = follow(
        alloc,
        manifest,
        catalogue,
        &mut orders,
        &mut versions,
        true,
        &[],
    )?;
    let Round { nodes, facts } = found;
    if !is_complete(nodes.as_slice(), facts.enabled.as_slice()) {
        return Ok(None);
    }
    Ok(Some(Reached {
        versions,
        nodes,
        facts,
    }))
}

/// One round: follows dependencies from the root on, and finds the facts over the versions that they lead to.
fn follow<'a>(
    alloc: Global,
    manifest: &'a Manifest,
    catalogue: &'a Catalogue,
    orders: &mut HashMap<PackageName, Vec<Vec<u32>>>,
    versions: &mut IndexSet<MetVersion>,
    all: bool,
    asked: &[Vec<bool>],
) -> Result<Round<'a>, AllocError>
    requires orders { AreOrders catalogue.now orders.old }
    requires versions { AreMetVersions catalogue.now versions.old.keys }
    ensures orders { OnOk result (AreOrders catalogue.entry.now orders.new) }
    ensures versions { OnOk result (AreMetVersions catalogue.entry.now versions.new.keys) }
    ensures met { IfOk result (λ r. AreMet (problem_in manifest.entry.now catalogue.entry.now)
        (PicksFollowed all (map (λ v. v.items) asked.now) (owners_of catalogue.entry.now versions.new.keys)
        (problem_in manifest.entry.now catalogue.entry.now) (preferred_in catalogue.entry.now))
        (owners_of catalogue.entry.now versions.new.keys) (node_views r.nodes.items)) }
    ensures flags { IfOk result (λ r. AreFlags (node_views r.nodes.items) r.facts.here.items
        (map (λ v. v.items) r.facts.enabled.items)) }
{
    let nodes = meet(alloc, manifest, catalogue, orders, versions, all, asked)?;
    let facts = facts_of(alloc, nodes.as_slice(), 0)?;
    Ok(Round { nodes, facts })
}

/// Whether each enabled dependency has a target.
fn is_complete(nodes: &[Node<'_>], enabled: &[Vec<bool>]) -> bool
    ensures { result ≡ all_met nodes.now enabled.now }
{
    nodes.iter().zip(enabled).all(|(node, enabled)| are_met(
        enabled.as_slice(),
        node.targets.as_slice(),
    ))
}

fn are_met(enabled: &[bool], targets: &[Option<usize>]) -> bool
    ensures { result ≡ are_met enabled.now targets.now }
{
    targets
        .iter()
        .zip(enabled)
        .all(|(target, enabled)| target.is_some() || !*enabled)
}
