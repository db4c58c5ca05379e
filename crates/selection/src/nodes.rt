//! The packages of a lock as packages whose facts are asked for.

ghost use Rattle.std.specs.Prelude.{◌≡◌, ◌<◌, length, map, IfOk, is_some};
ghost use Rattle.std.specs.List.{All, AllPairs};
ghost use Rattle.model.specs.Order.{IsContent};
ghost use Rattle.lockfile.specs.inner.Views.{package_view, package_views};
ghost use Rattle.catalogue.specs.Problems.{problem_in};
ghost use Rattle.facts.specs.inner.Graphs.{node_view, node_views};
ghost use Rattle.selection.specs.inner.Graphs.{node_of, graph_of, is_known, are_known};

use crate::summaries::summary_of;
use crate::targets::targets;
use catalogue::Catalogue;
use facts::Node;
use lockfile::Package;
use manifest::Manifest;
use std::alloc::{AllocError, Global};

/// What the packages bring and where that leads, place by place. All packages of a lock count, whether or not something
/// needs them.
pub(crate) fn nodes<'a>(
    alloc: Global,
    manifest: &'a Manifest,
    catalogue: &'a Catalogue,
    content: &[Package],
) -> Result<Vec<Node<'a>>, AllocError>
    requires { IsContent (package_views content.now) }
    ensures graph { IfOk result (λ v. node_views v.items
        ≡ graph_of (problem_in manifest.entry.now catalogue.entry.now) (package_views content.now)) }
    ensures known { IfOk result (λ v. are_known v.items
        ≡ map (is_known (problem_in manifest.entry.now catalogue.entry.now)) (package_views content.now)) }
{
    let mut found = Vec::new(alloc);
    'packages: for locked in content {
        found.push(node(alloc, manifest, catalogue, content, locked)?)?;
    }
    Ok(found)
}

/// A package of a lock.
fn node<'a>(
    alloc: Global,
    manifest: &'a Manifest,
    catalogue: &'a Catalogue,
    content: &[Package],
    locked: &Package,
) -> Result<Node<'a>, AllocError>
    requires content { IsContent (package_views content.now) }
    requires within { All (λ t. t < length content.now) locked.now.list.items }
    requires rising { AllPairs (λ i j. i < j) locked.now.list.items }
    ensures node { IfOk result (λ n. node_view n ≡ node_of (problem_in manifest.entry.now catalogue.entry.now)
        (package_views content.now) (package_view locked.now)) }
    ensures known { IfOk result (λ n. is_some n.brings
        ≡ is_known (problem_in manifest.entry.now catalogue.entry.now) (package_view locked.now)) }
{
    let brings = summary_of(manifest, catalogue, locked);
    let list = locked.list.as_slice();
    let targets = match brings {
        Some(summary) => targets(alloc, content, list, summary.dependencies.as_slice())?,
        None => Vec::new(alloc),
    };
    Ok(Node {
        brings,
        targets,
        starts: true,
    })
}
