//! What is found of a lock before its packages are looked at one by one.

ghost use Rattle.std.specs.Prelude.{IfOk};
ghost use Rattle.catalogue.specs.Problems.{problem_in};
ghost use Rattle.selection.specs.inner.Places.{AreFound};

use crate::nodes::nodes;
use crate::reached::reached;
use crate::roots::root_of;
use catalogue::Catalogue;
use facts::{Facts, Node, facts_of};
use lockfile::{LockContent, Package};
use manifest::Manifest;
use std::alloc::{AllocError, Global};

/// The packages of a lock with what they bring, the facts of features, and what lists lead to.
#[derive(Drop)]
pub struct Findings<'a> {
    pub content: &'a [Package],
    /// The place of the root.
    pub root: usize,
    pub nodes: Vec<Node<'a>>,
    pub facts: Facts,
    /// By place, whether lists lead there from the root.
    pub reached: Vec<bool>,
}

/// What is found of a content, if it has a root package. The only error is want of memory.
pub fn findings_of<'a>(
    alloc: Global,
    manifest: &'a Manifest,
    catalogue: &'a Catalogue,
    content: &'a LockContent,
) -> Result<Option<Findings<'a>>, AllocError>
    ensures { IfOk result (AreFound (problem_in manifest.entry.now catalogue.entry.now) content.entry.now) }
{
    let content = content.packages();
    let Some(root) = root_of(manifest, content) else {
        return Ok(None);
    };
    let nodes = nodes(alloc, manifest, catalogue, content)?;
    let facts = facts_of(alloc, &nodes, root)?;
    let reached = reached(alloc, content, root)?;
    Ok(Some(Findings {
        content,
        root,
        nodes,
        facts,
        reached,
    }))
}
