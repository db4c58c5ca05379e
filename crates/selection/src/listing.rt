//! The lists of the packages that are here.

ghost use Rattle.std.specs.Prelude.{◌≡◌, ◌≢◌, ◌↔◌, ◌<◌, ℕ, Some, Contains, IfOk, OnOk, length, map};
ghost use Rattle.std.specs.List.{All, AllPairs};
ghost use Rattle.facts.specs.inner.Graphs.{node_views};
ghost use Rattle.lockfile.specs.inner.Views.{package_views};
ghost use Rattle.selection.specs.inner.Contents.{AreListed, AreRanks, HaveLists, IsListed, IsRising, flags_at};
ghost use Rattle.selection.specs.inner.Contents.{placed_views};
ghost use Rattle.selection.specs.inner.Contents.{places_in, rank_if, ranks_from, targets_at, with_rank};

use crate::placed::PlacedPackage;
use facts::{Facts, Node, flag, flags};
use lockfile::Package;
use std::alloc::{AllocError, Global};

/// The packages, each with the ranks of the targets of its enabled dependencies.
pub(crate) fn listed(
    alloc: Global,
    kept: Vec<PlacedPackage>,
    nodes: &[Node<'_>],
    facts: &Facts,
) -> Result<Vec<Package>, AllocError>
    requires apart { AllPairs (λ m n. m ≢ n) (places_in (placed_views kept.items)) }
    requires within { All (λ n. n < length nodes.now) (places_in (placed_views kept.items)) }
    ensures { IfOk result (λ v. AreListed (node_views nodes.now) (map (λ v. v.items) facts.now.enabled.items)
        (placed_views kept.items) (package_views v.items)) }
{
    let ranks = ranks_of(alloc, nodes.len(), kept.as_slice())?;
    with_lists(
        alloc,
        kept,
        nodes,
        facts.enabled.as_slice(),
        ranks.as_slice(),
    )
}

/// The packages with the lists that the ranks give.
fn with_lists(
    alloc: Global,
    kept: Vec<PlacedPackage>,
    nodes: &[Node<'_>],
    enabled: &[Vec<bool>],
    ranks: &[Option<usize>],
) -> Result<Vec<Package>, AllocError>
    ensures { IfOk result (λ v. HaveLists (node_views nodes.now) (map (λ v. v.items) enabled.now) ranks.now
        (placed_views kept.items) (package_views v.items)) }
{
    let mut packages = Vec::new(alloc);
    'kept: for kept in kept {
        let PlacedPackage { mut locked, place } = kept;
        locked.list = list_at(alloc, nodes, enabled, ranks, place)?;
        packages.push(locked)?;
    }
    Ok(packages)
}

/// By place, the rank of the package that has this place.
fn ranks_of(
    alloc: Global,
    count: usize,
    kept: &[PlacedPackage],
) -> Result<Vec<Option<usize>>, AllocError>
    requires apart { AllPairs (λ m n. m ≢ n) (places_in (placed_views kept.now)) }
    requires within { All (λ n. n < count) (places_in (placed_views kept.now)) }
    ensures { IfOk result (λ v. AreRanks (places_in (placed_views kept.now)) v.items) }
{
    let mut ranks = vec![in alloc; None; count]?;
    'kept: for (rank, kept) in kept.iter().enumerate() {
        ranks[kept.place] = Some(rank);
    }
    Ok(ranks)
}

/// The ranks of the targets of the enabled dependencies of what stands at a place, lowest first.
fn list_at(
    alloc: Global,
    nodes: &[Node<'_>],
    enabled: &[Vec<bool>],
    ranks: &[Option<usize>],
    place: usize,
) -> Result<Vec<usize>, AllocError>
    ensures rising { IfOk result (λ v. IsRising v.items) }
    ensures members { IfOk result (λ v. (r : ℕ) → Contains v.items r ↔ IsListed (targets_at (node_views nodes.now)
        place) (flags_at (map (λ v. v.items) enabled.now) place) ranks.now r) }
{
    list_of(
        alloc,
        targets_at(nodes, place),
        flags(enabled, place),
        ranks,
    )
}

fn targets_at<'a>(nodes: &'a [Node<'_>], place: usize) -> &'a [Option<usize>]
    ensures { result.now ≡ targets_at (node_views nodes.now) place }
{
    match nodes.get(place) {
        Some(node) => node.targets.as_slice(),
        None => &[],
    }
}

/// The ranks of those targets that are enabled, lowest first.
fn list_of(
    alloc: Global,
    targets: &[Option<usize>],
    enabled: &[bool],
    ranks: &[Option<usize>],
) -> Result<Vec<usize>, AllocError>
    ensures rising { IfOk result (λ v. IsRising v.items) }
    ensures members { IfOk result (λ v. (r : ℕ) → Contains v.items r ↔ IsListed targets.now enabled.now ranks.now r) }
{
    let mut list = ranks_enabled(alloc, targets, enabled, ranks)?;
    list.sort_unstable();
    list.dedup();
    Ok(list)
}

/// The ranks of those targets that are enabled, as they come.
fn ranks_enabled(
    alloc: Global,
    targets: &[Option<usize>],
    enabled: &[bool],
    ranks: &[Option<usize>],
) -> Result<Vec<usize>, AllocError>
    ensures { IfOk result (λ v. v.items ≡ ranks_from 0 targets.now enabled.now ranks.now) }
{
    let mut list = Vec::new(alloc);
    'targets: for (number, target) in targets.iter().enumerate() {
        add(&mut list, rank_if(*target, flag(enabled, number), ranks))?;
    }
    Ok(list)
}

/// Puts a rank last, if there is one.
fn add(list: &mut Vec<usize>, rank: Option<usize>) -> Result<(), AllocError>
    ensures { OnOk result (list.new.items ≡ with_rank list.old.items rank) }
{
    if let Some(rank) = rank {
        list.push(rank)?;
    }
    Ok(())
}

/// The rank of a target that is enabled.
fn rank_if(target: Option<usize>, enabled: bool, ranks: &[Option<usize>]) -> Option<usize>
    ensures { result ≡ rank_if target enabled ranks.now }
{
    if !enabled {
        return None;
    }
    *ranks.get(target?)?
}
