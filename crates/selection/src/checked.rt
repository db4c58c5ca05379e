//! What is found of one package.

ghost use Rattle.std.specs.Prelude.{◌≡◌, ◌<◌, length, option_map, IfOk};
ghost use Rattle.model.specs.Content.{Problem};
ghost use Rattle.model.specs.Order.{IsContent};
ghost use Rattle.selection.specs.inner.Places.{AreFindings, IsChecked, content_in, fault_of, lowest};

use crate::classes_once::is_second;
use crate::enabled::{are_led_to, are_met};
use crate::findings::Findings;
use crate::verdict::VerdictFault;
use facts::{flag, flags};
use std::alloc::{AllocError, Global};

/// Of each fault that a package may have, whether it is free of it.
#[derive(Clone, Copy)]
pub(crate) struct Checked {
    /// It is the root or a candidate.
    pub candidate: bool,
    /// It is the root, or no earlier package other than the root has its name and class.
    pub alone: bool,
    /// Each enabled dependency has a target.
    pub met: bool,
    /// Each feature that is on here exists here.
    pub featured: bool,
    /// Each package of its list is a target.
    pub listed: bool,
    /// Lists lead from the root to it.
    pub reached: bool,
}

/// What is found of the package at a place.
pub(crate) fn checked_at(
    alloc: Global,
    findings: &Findings<'_>,
    at: usize,
) -> Result<Checked, AllocError>
    requires content { IsContent (content_in findings.now) }
    requires beside { length findings.now.nodes.items ≡ length findings.now.content.now }
    requires at { at < length findings.now.content.now }
    ensures { IfOk result
        (λ k. (q : Problem) → AreFindings q findings.now → IsChecked q (content_in findings.now) at k) }
{
    let nodes = findings.nodes.as_slice();
    let node = &nodes[at];
    let targets = node.targets.as_slice();
    let lists = findings.facts.enabled.as_slice();
    let enabled = flags(lists, at);
    let list = findings.content[at].list.as_slice();
    let lacks = findings.facts.lacks.as_slice();
    let reached = findings.reached.as_slice();
    Ok(Checked {
        candidate: node.brings.is_some(),
        alone: !is_second(findings.content, findings.root, at),
        met: are_met(enabled, targets),
        featured: !flag(lacks, at),
        listed: are_led_to(alloc, enabled, targets, list)?,
        reached: flag(reached, at),
    })
}

/// The lowest fault.
pub(crate) fn lowest(checked: Checked) -> Option<VerdictFault>
    ensures { result ≡ option_map fault_of (lowest checked) }
{
    if !checked.candidate {
        Some(VerdictFault::NotCandidate)
    } else if !checked.alone {
        Some(VerdictFault::TwoInClass)
    } else if !checked.met {
        Some(VerdictFault::Unmet)
    } else if !checked.featured {
        Some(VerdictFault::NoFeature)
    } else if !checked.listed {
        Some(VerdictFault::List)
    } else if !checked.reached {
        Some(VerdictFault::Unreached)
    } else {
        None
    }
}
