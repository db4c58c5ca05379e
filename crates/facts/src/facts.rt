//! The facts of packages.

ghost use Rattle.std.specs.Prelude.{◌≡◌, ◌↔◌, ℕ, true, length, map, IfOk};
ghost use Rattle.model.specs.Selection.{here, enabled};
ghost use Rattle.facts.specs.inner.Chains.{has, AreBelow};
ghost use Rattle.facts.specs.inner.Answers.{AreGivenBy};
ghost use Rattle.facts.specs.inner.Graphs.{node_views, flag_at, flag_in, IsFactOf, LacksFeature, IsGraph};
ghost use Rattle.facts.specs.inner.FactNumbers.{link_views, numbers_views};
ghost use Rattle.facts.specs.inner.RuleLists.{here_flags, lacks_flags, enabled_flags, link_flags};

use crate::closing::close;
use crate::fact_numbers::{FactNumbers, Link};
use crate::node::Node;
use crate::numbering::numbers_of_all;
use crate::rule::Rule;
use crate::rules::rules_of;
use std::alloc::{AllocError, Global};

/// What finite chains of reasons give of packages, by their places.
#[derive(Drop)]
pub struct Facts {
    /// Whether the package is here.
    pub here: Vec<bool>,
    /// By number, whether each dependency is enabled.
    pub enabled: Vec<Vec<bool>>,
    /// Whether a feature is on that doesn't exist there.
    pub lacks: Vec<bool>,
}

/// The facts of packages, of which the one at the place `root` is the root: entries, and dependencies by name, · log.
///
/// The only error is want of memory.
pub fn facts_of(alloc: Global, nodes: &[Node<'_>], root: usize) -> Result<Facts, AllocError>
    requires graph { IsGraph (node_views nodes.now) }
    ensures here { IfOk result
        (λ f. (n : ℕ) → (flag_at f.here.items n ≡ true) ↔ IsFactOf (node_views nodes.now) root (here n)) }
    ensures enabled { IfOk result (λ f. (n i : ℕ) → (flag_in (map (λ v. v.items) f.enabled.items) n i ≡ true)
        ↔ IsFactOf (node_views nodes.now) root (enabled n i)) }
    ensures lacks { IfOk result
        (λ f. (n : ℕ) → (flag_at f.lacks.items n ≡ true) ↔ LacksFeature (node_views nodes.now) root n) }
{
    let mut marked = Vec::new(alloc);
    let packages = numbers_of_all(alloc, nodes, &mut marked)?;
    let rules = rules_of(alloc, packages.as_slice(), root)?;
    facts_by(
        alloc,
        marked.as_mut_slice(),
        packages.as_slice(),
        rules.as_slice(),
    )
}

/// The facts that the rules give from what is marked.
fn facts_by(
    alloc: Global,
    marked: &mut [bool],
    packages: &[FactNumbers<'_>],
    rules: &[Rule],
) -> Result<Facts, AllocError>
    requires below { AreBelow (length marked.old) rules.now }
    ensures { IfOk result (AreGivenBy rules.now marked.old (numbers_views packages.now)) }
{
    close(alloc, marked, rules)?;
    Ok(Facts {
        here: here_flags(alloc, marked, packages)?,
        enabled: enabled_flags(alloc, marked, packages)?,
        lacks: lacks_flags(alloc, marked, packages)?,
    })
}

fn here_flags(
    alloc: Global,
    marked: &[bool],
    packages: &[FactNumbers<'_>],
) -> Result<Vec<bool>, AllocError>
    ensures { IfOk result (λ v. v.items ≡ here_flags marked.now (numbers_views packages.now)) }
{
    let mut flags = Vec::with_capacity(alloc, packages.len())?;
    'packages: for node in packages {
        flags.push(is_marked(marked, node.here))?;
    }
    Ok(flags)
}

fn lacks_flags(
    alloc: Global,
    marked: &[bool],
    packages: &[FactNumbers<'_>],
) -> Result<Vec<bool>, AllocError>
    ensures { IfOk result (λ v. v.items ≡ lacks_flags marked.now (numbers_views packages.now)) }
{
    let mut flags = Vec::with_capacity(alloc, packages.len())?;
    'packages: for node in packages {
        flags.push(is_marked(marked, node.lacks))?;
    }
    Ok(flags)
}

fn enabled_flags(
    alloc: Global,
    marked: &[bool],
    packages: &[FactNumbers<'_>],
) -> Result<Vec<Vec<bool>>, AllocError>
    ensures { IfOk result (λ v. map (λ v. v.items) v.items ≡ enabled_flags marked.now (numbers_views packages.now)) }
{
    let mut flags = Vec::with_capacity(alloc, packages.len())?;
    'packages: for node in packages {
        flags.push(link_flags(alloc, marked, node.links.as_slice())?)?;
    }
    Ok(flags)
}

fn link_flags(alloc: Global, marked: &[bool], links: &[Link<'_>]) -> Result<Vec<bool>, AllocError>
    ensures { IfOk result (λ v. v.items ≡ link_flags marked.now (link_views links.now)) }
{
    let mut flags = Vec::with_capacity(alloc, links.len())?;
    'links: for link in links {
        flags.push(is_marked(marked, link.enabled))?;
    }
    Ok(flags)
}

fn is_marked(marked: &[bool], number: usize) -> bool
    ensures { result ≡ has marked.now number }
{
    match marked.get(number) {
        Some(flag) => *flag,
        None => false,
    }
}
