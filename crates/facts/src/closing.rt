//! What finite chains of rules give.
//!
//! Features turn one another on, and a ring of them turns nothing on by itself: a fact holds where a finite chain of
//! rules leads to it. Here a fact is a number, and by a rule at most two facts give a third. `close`
//! marks all that is given from what is marked: each fact waits once on a worklist, and is followed by the rules that
//! need it. So no chain is followed twice, and the stack stays as it is.
//!
//! What is hard is that the definition speaks of chains (`IsGiven`) and the program of marks. The proof goes by what
//! still waits: a rule whose two facts are marked has its third marked, or one of the two waits.
//!
//! A layer above may rely on this: what is marked in the end is exactly what is given. Where memory is wanting, some of
//! it is marked and nothing that isn't given.

ghost use Rattle.std.specs.Prelude.{◌≡◌, ◌↔◌, ℕ, true, cond, length, slice_set, OnOk, IfOk};
ghost use Rattle.facts.specs.inner.Chains.{has, IsGiven, AreBelow};
ghost use Rattle.facts.specs.inner.Worklists.{Follows, Grows, IsBelow, IsSound, Marks, Waits, is_ready};

use crate::lists::{rules_at, rules_by_fact};
use crate::rule::Rule;
use std::alloc::{AllocError, Global};

/// Marks all that the rules give from what is marked, each fact once: rules · log.
///
/// `alloc` is where the facts wait meanwhile. The only error is want of memory; then some of what is given is marked,
/// and nothing else.
pub fn close(alloc: Global, marked: &mut [bool], rules: &[Rule]) -> Result<(), AllocError>
    requires below { AreBelow (length marked.old) rules.now }
    ensures length { length marked.new ≡ length marked.old }
    ensures grows { (i : ℕ) → has marked.old i ≡ true → has marked.new i ≡ true }
    ensures sound { (i : ℕ) → has marked.new i ≡ true → IsGiven rules.now marked.old i }
    ensures given { OnOk result ((i : ℕ) → (has marked.new i ≡ true) ↔ IsGiven rules.now marked.old i) }
{
    let lists = rules_by_fact(alloc, marked.len(), rules)?;
    let mut waiting = all_marked(alloc, marked)?;
    'facts: while let Some(fact) = waiting.pop() {
        follow(marked, &mut waiting, rules_at(lists.as_slice(), fact))?;
    }
    Ok(())
}

/// The facts that are marked.
fn all_marked(alloc: Global, marked: &[bool]) -> Result<Vec<usize>, AllocError>
    ensures { IfOk result (λ v. Waits marked.now v.items) }
{
    let mut waiting = Vec::new(alloc);
    'facts: for fact in 0..marked.len() {
        if marked[fact] {
            waiting.push(fact)?;
        }
    }
    Ok(waiting)
}

/// Marks what these rules give from what is marked. What wasn't marked before waits.
fn follow(marked: &mut [bool], waiting: &mut Vec<usize>, rules: &[Rule]) -> Result<(), AllocError>
    requires below { AreBelow (length marked.old) rules.now }
    ensures length { length marked.new ≡ length marked.old }
    ensures grows { Grows marked.old marked.new }
    ensures sound { IsSound rules.now marked.old marked.new }
    ensures follows { OnOk result (Follows rules.now marked.old waiting.old.items marked.new waiting.new.items) }
{
    'rules: for rule in rules {
        mark(marked, waiting, rule)?;
    }
    Ok(())
}

fn mark(marked: &mut [bool], waiting: &mut Vec<usize>, rule: &Rule) -> Result<(), AllocError>
    requires below { IsBelow (length marked.old) rule.now }
    ensures length { length marked.new ≡ length marked.old }
    ensures marked { marked.new
        ≡ cond (is_ready marked.old rule.now) (slice_set marked.old rule.now.gives true) marked.old }
    ensures marks { OnOk result (Marks rule.now marked.old waiting.old.items marked.new waiting.new.items) }
{
    if is_ready(marked, rule) {
        marked[rule.gives] = true;
        waiting.push(rule.gives)?;
    }
    Ok(())
}

/// Whether a rule gives something new.
fn is_ready(marked: &[bool], rule: &Rule) -> bool
    requires below { IsBelow (length marked.now) rule.now }
    ensures { result ≡ is_ready marked.now rule.now }
{
    marked[rule.first] && marked[rule.second] && !marked[rule.gives]
}
