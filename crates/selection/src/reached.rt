//! Which packages lists lead to from the root.

ghost use Rattle.std.specs.Prelude.{◌≡◌, ◌↔◌, ◌<◌, ◌++◌, ℕ, length, true, IfOk, OnOk};
ghost use Rattle.model.specs.Content.{Problem};
ghost use Rattle.model.specs.Selection.{IsReached};
ghost use Rattle.model.specs.Order.{IsContent};
ghost use Rattle.lockfile.specs.inner.Views.{package_views};
ghost use Rattle.facts.specs.inner.Graphs.{flag_at};
ghost use Rattle.selection.specs.inner.Graphs.{IsOnlyRoot};
ghost use Rattle.selection.specs.inner.Places.{rules_at, rules_from};

use facts::{Rule, close};
use lockfile::Package;
use std::alloc::{AllocError, Global};

/// By place, whether lists lead from the root to the package there.
pub(crate) fn reached(
    alloc: Global,
    content: &[Package],
    root: usize,
) -> Result<Vec<bool>, AllocError>
    requires content { IsContent (package_views content.now) }
    requires root { root < length content.now }
    ensures { IfOk result (λ v. (q : Problem) → IsOnlyRoot q (package_views content.now) root → (n : ℕ)
        → (flag_at v.items n ≡ true) ↔ IsReached q (package_views content.now) n) }
{
    let rules = rules(alloc, content)?;
    let mut marked = marked_at(alloc, content.len(), root)?;
    close(alloc, &mut marked, &rules)?;
    Ok(marked)
}

/// Marks at so many places, of which one alone is set.
fn marked_at(alloc: Global, places: usize, at: usize) -> Result<Vec<bool>, AllocError>
    requires { at < places }
    ensures length { IfOk result (λ v. length v.items ≡ places) }
    ensures marks { IfOk result (λ v. (n : ℕ) → (flag_at v.items n ≡ true) ↔ (n ≡ at)) }
{
    let mut marked = vec![in alloc; false; places]?;
    marked[at] = true;
    Ok(marked)
}

/// Where a package is reached, so is each of its list.
fn rules(alloc: Global, content: &[Package]) -> Result<Vec<Rule>, AllocError>
    ensures { IfOk result (λ v. v.items ≡ rules_from 0 (package_views content.now)) }
{
    let mut rules = Vec::new(alloc);
    'places: for at in 0..content.len() {
        add_rules(&mut rules, at, content[at].list.as_slice())?;
    }
    Ok(rules)
}

/// The same of one package and its list.
fn add_rules(rules: &mut Vec<Rule>, at: usize, list: &[usize]) -> Result<(), AllocError>
    ensures { OnOk result (rules.new.items ≡ rules.old.items ++ rules_at at list.now) }
{
    'listed: for place in list {
        rules.push(Rule {
            first: at,
            second: at,
            gives: *place,
        })?;
    }
    Ok(())
}
