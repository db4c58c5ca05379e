//! The rules by the facts that they need.

ghost use Rattle.std.specs.Prelude.{◌≡◌, ◌<◌, length, OnOk, IfOk};
ghost use Rattle.facts.specs.inner.Chains.{AreBelow};
ghost use Rattle.facts.specs.inner.Worklists.{IsBelow};
ghost use Rattle.facts.specs.inner.Lists.{rule_lists, rules_at, no_lists, put_at, put_both, index_of};

use crate::rule::Rule;
use std::alloc::{AllocError, Global};

/// For each fact the rules that need it.
pub(crate) fn rules_by_fact(
    alloc: Global,
    facts: usize,
    rules: &[Rule],
) -> Result<Vec<Vec<Rule>>, AllocError>
    requires below { AreBelow facts rules.now }
    ensures length { IfOk result (λ v. length v.items ≡ facts) }
    ensures lists { IfOk result (λ v. rule_lists v.items ≡ index_of facts rules.now) }
{
    let mut lists = no_lists(alloc, facts)?;
    'rules: for rule in rules {
        put_both(&mut lists, rule)?;
    }
    Ok(lists)
}

/// The rules that need a fact.
pub(crate) fn rules_at(lists: &[Vec<Rule>], fact: usize) -> &[Rule]
    requires below { fact < length lists.now }
    ensures { result.now ≡ rules_at (rule_lists lists.now) fact }
{
    lists[fact].as_slice()
}

fn no_lists(alloc: Global, facts: usize) -> Result<Vec<Vec<Rule>>, AllocError>
    ensures length { IfOk result (λ v. length v.items ≡ facts) }
    ensures lists { IfOk result (λ v. rule_lists v.items ≡ no_lists facts) }
{
    let mut lists = Vec::new(alloc);
    'facts: for _ in 0..facts {
        lists.push(Vec::new(alloc))?;
    }
    Ok(lists)
}

/// With the rule in the lists of both of its facts: once where it needs one alone, as most do.
fn put_both(lists: &mut Vec<Vec<Rule>>, rule: &Rule) -> Result<(), AllocError>
    requires below { IsBelow (length lists.old.items) rule.now }
    ensures length { length lists.new.items ≡ length lists.old.items }
    ensures put { OnOk result (rule_lists lists.new.items ≡ put_both (rule_lists lists.old.items) rule.now) }
{
    put_rule(lists, rule.first, rule)?;
    if rule.first == rule.second {
        return Ok(());
    }
    put_rule(lists, rule.second, rule)
}

/// Puts a rule behind those of a fact.
fn put_rule(lists: &mut Vec<Vec<Rule>>, fact: usize, rule: &Rule) -> Result<(), AllocError>
    requires below { fact < length lists.old.items }
    ensures length { length lists.new.items ≡ length lists.old.items }
    ensures put { OnOk result (rule_lists lists.new.items ≡ put_at (rule_lists lists.old.items) fact rule.now) }
{
    let list = &mut lists[fact];
    if list.is_empty() {
        // Most facts are needed by one rule alone.
        list.reserve_exact(1)?;
    }
    list.push(*rule)?;
    Ok(())
}
