//! All that is wrong with a lock, package by package.

ghost use Rattle.std.specs.Prelude.{◌≡◌, ◌↔◌, ◌<◌, ◌++◌, ◌∷◌, [], length, IfOk, OnOk, MatchOption, if◌then◌else◌};
ghost use Rattle.model.specs.Content.{Problem};
ghost use Rattle.model.specs.Selection.{IsValidSelection};
ghost use Rattle.model.specs.Verdict.{IsFreeOf, two_in_class};
ghost use Rattle.model.specs.Order.{IsContent};
ghost use Rattle.lockfile.specs.inner.Views.{package_views};
ghost use Rattle.manifest.specs.Manifests.{ManifestView};
ghost use Rattle.catalogue.specs.Problems.{problem_in};
ghost use Rattle.selection.specs.inner.Graphs.{HasNoRoot, IsOnlyRoot};
ghost use Rattle.selection.specs.inner.Places.{AreFindings, content_in};
ghost use Rattle.flaws.specs.inner.Flaws.{AreFlaws, AreTold, IsTwin, is_flawless};

use crate::flawed::{Flawed, is_flawless};
use crate::lists::{surplus_of, unmet_of};
use crate::no_candidate::why_not;
use catalogue::Catalogue;
use facts::{flag, flags};
use lockfile::{LockContent, Package};
use manifest::Manifest;
use selection::{Findings, findings_of, is_like, place_before};
use std::alloc::{AllocError, Global};

/// What is found of a lock that has a root package, and its packages at fault.
#[derive(Drop)]
pub struct Judged<'a> {
    pub findings: Findings<'a>,
    /// In the order of the lock.
    pub flawed: Vec<Flawed>,
}

/// The packages of a lock with which something is wrong, each with what that is; nothing where it has no root package.
/// The only error is want of memory.
pub fn flaws_of<'a>(
    alloc: Global,
    manifest: &'a Manifest,
    catalogue: &'a Catalogue,
    content: &'a LockContent,
) -> Result<Option<Judged<'a>>, AllocError>
    ensures told { IfOk result (λ o. MatchOption o (HasNoRoot (problem_in manifest.entry.now catalogue.entry.now)
        content.entry.now) (λ j. AreTold manifest.entry.now catalogue.entry.now content.entry.now j.flawed.items)) }
    ensures valid { IfOk result
        (λ o. MatchOption o (IsValidSelection (problem_in manifest.entry.now catalogue.entry.now) content.entry.now → ⊥)
        (λ j. (j.flawed.items ≡ [])
        ↔ IsValidSelection (problem_in manifest.entry.now catalogue.entry.now) content.entry.now)) }
{
    let found = findings_of(alloc, manifest, catalogue, content)?;
    match found {
        Some(findings) => {
            let flawed = flawed_in(alloc, catalogue, &findings)?;
            Ok(Some(Judged { findings, flawed }))
        }
        None => Ok(None),
    }
}

/// The packages with which something is wrong, by what is found of them.
fn flawed_in(
    alloc: Global,
    catalogue: &Catalogue,
    findings: &Findings<'_>,
) -> Result<Vec<Flawed>, AllocError>
    requires content { IsContent (content_in findings.now) }
    requires beside { length findings.now.nodes.items ≡ length findings.now.content.now }
    ensures { IfOk result (λ v. (m : ManifestView) → AreFindings (problem_in m catalogue.now) findings.now
        → AreTold m catalogue.now (content_in findings.now) v.items) }
{
    let mut found = Vec::new(alloc);
    'places: for at in 0..findings.content.len() {
        let flawed = flawed_at(alloc, catalogue, findings, at)?;
        push_if_flawed(&mut found, flawed)?;
    }
    Ok(found)
}

/// Adds what is wrong with a package, if something is.
fn push_if_flawed(found: &mut Vec<Flawed>, flawed: Flawed) -> Result<(), AllocError>
    ensures { OnOk result (found.new.items ≡ found.old.items ++ (if is_flawless flawed then [] else flawed ∷ [])) }
{
    if !is_flawless(&flawed) {
        found.push(flawed)?;
    }
    Ok(())
}

/// What is wrong with the package at a place.
fn flawed_at(
    alloc: Global,
    catalogue: &Catalogue,
    findings: &Findings<'_>,
    at: usize,
) -> Result<Flawed, AllocError>
    requires content { IsContent (content_in findings.now) }
    requires beside { length findings.now.nodes.items ≡ length findings.now.content.now }
    requires at { at < length findings.now.content.now }
    ensures place { IfOk result (λ f. f.place ≡ at) }
    ensures flaws { IfOk result (λ f. (m : ManifestView) → AreFindings (problem_in m catalogue.now) findings.now
        → AreFlaws m catalogue.now (content_in findings.now) f) }
{
    let nodes = findings.nodes.as_slice();
    let node = &nodes[at];
    let targets = node.targets.as_slice();
    let lists = findings.facts.enabled.as_slice();
    let enabled = flags(lists, at);
    let locked = &findings.content[at];
    let list = locked.list.as_slice();
    let lacks = findings.facts.lacks.as_slice();
    let reached = findings.reached.as_slice();
    Ok(Flawed {
        place: at,
        no_candidate: why_not(catalogue, locked, at == findings.root),
        twin: twin_of(findings.content, findings.root, at),
        unmet: unmet_of(alloc, enabled, targets)?,
        lacks_feature: flag(lacks, at),
        surplus: surplus_of(alloc, enabled, targets, list)?,
        unreached: !flag(reached, at),
    })
}

/// The place of an earlier package of the name and class of the one at a place, where neither of them is the root.
fn twin_of(content: &[Package], root: usize, at: usize) -> Option<usize>
    requires content { IsContent (package_views content.now) }
    requires at { at < length content.now }
    ensures { (q : Problem) → IsOnlyRoot q (package_views content.now) root → MatchOption result
        (IsFreeOf q (package_views content.now) two_in_class at) (λ t. IsTwin q (package_views content.now) at t) }
{
    if at == root {
        return None;
    }
    let before = place_before(root, at)?;
    if is_like(&content[before], &content[at]) {
        Some(before)
    } else {
        None
    }
}
