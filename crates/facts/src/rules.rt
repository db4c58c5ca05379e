//! The rules of features, over the numbers of facts.

ghost use Rattle.std.specs.Prelude.{◌≡◌, ◌++◌, ◌||◌, ◌∷◌, ◌≤◌, [], true, false, OnOk, IfOk, length, option_map};
ghost use Rattle.std.specs.List.Sorted.{IsPartitionPoint};
ghost use Rattle.std.specs.Ordering.{is_lt, is_le};
ghost use Rattle.model.specs.Order.{text_cmp};
ghost use Rattle.features.specs.inner.Places.{place_of};
ghost use Rattle.features.specs.EntryViews.{entry_view, entry_views};
ghost use Rattle.facts.specs.inner.ByName.{AreByName, name_of};
ghost use Rattle.facts.specs.inner.FactNumbers.{link_view, link_views, numbers_view, numbers_views};
ghost use Rattle.facts.specs.inner.RuleLists.{one, number_on, package_at, ask, ask_features, arrive, need};
ghost use Rattle.facts.specs.inner.RuleLists.{is_needed};
ghost use Rattle.facts.specs.inner.RuleLists.{link_rules, enable_all, ask_all, ask_enabled, entry_rules, root_rules};
ghost use Rattle.facts.specs.inner.RuleLists.{root_entries, root_table, entries_rules, features_rules, table_rules};
ghost use Rattle.facts.specs.inner.RuleLists.{package_rules, all_rules};

use crate::fact_numbers::{FactNumbers, Link};
use crate::rule::Rule;
use features::{Entry, FeatureName, FeatureTable, PackageName};
use std::alloc::{AllocError, Global};
use std::cmp::Ordering;

/// The rules of all packages, of which the one at the place `root` is the root.
pub(crate) fn rules_of(
    alloc: Global,
    packages: &[FactNumbers<'_>],
    root: usize,
) -> Result<Vec<Rule>, AllocError>
    ensures { IfOk result (λ v. v.items ≡ all_rules root (numbers_views packages.now)) }
{
    let mut rules = Vec::new(alloc);
    'packages: for (number, node) in packages.iter().enumerate() {
        package_rules(&mut rules, packages, node, number == root)?;
    }
    Ok(rules)
}

fn package_rules(
    rules: &mut Vec<Rule>,
    packages: &[FactNumbers<'_>],
    node: &FactNumbers<'_>,
    is_root: bool,
) -> Result<(), AllocError>
    ensures { OnOk result (rules.new.items
        ≡ rules.old.items ++ package_rules (numbers_views packages.now) is_root (numbers_view node.now)) }
{
    'links: for link in &node.links {
        link_rules(rules, packages, node.here, is_root, link)?;
    }
    match node.brings {
        Some(summary) => table_rules(rules, packages, node, is_root, &summary.features),
        None => Ok(()),
    }
}

/// A dependency that is needed is enabled, and one that is enabled brings its target.
fn link_rules(
    rules: &mut Vec<Rule>,
    packages: &[FactNumbers<'_>],
    here: usize,
    is_root: bool,
    link: &Link<'_>,
) -> Result<(), AllocError>
    ensures { OnOk result (rules.new.items
        ≡ rules.old.items ++ link_rules (numbers_views packages.now) is_root here (link_view link.now)) }
{
    need(rules, here, is_root, link)?;
    match package_at(packages, link.target) {
        Some(target) => arrive(rules, link, target),
        None => Ok(()),
    }
}

fn need(
    rules: &mut Vec<Rule>,
    here: usize,
    is_root: bool,
    link: &Link<'_>,
) -> Result<(), AllocError>
    ensures { OnOk result (rules.new.items ≡ rules.old.items ++ need is_root here (link_view link.now)) }
{
    if is_needed(is_root, link) {
        rules.push(one(here, link.enabled))?;
    }
    Ok(())
}

/// The root needs each dependency, and another package each that isn't optional.
fn is_needed(is_root: bool, link: &Link<'_>) -> bool
    ensures { result ≡ is_needed is_root (link_view link.now) }
{
    is_root || !link.dependency.optional
}

/// An enabled dependency brings its target, and asks it for features.
fn arrive(
    rules: &mut Vec<Rule>,
    link: &Link<'_>,
    target: &FactNumbers<'_>,
) -> Result<(), AllocError>
    ensures { OnOk result
        (rules.new.items ≡ rules.old.items ++ arrive (link_view link.now) (Some (numbers_view target.now))) }
{
    rules.push(one(link.enabled, target.here))?;
    ask_features(
        rules,
        link.enabled,
        target,
        link.dependency.features.as_slice(),
    )?;
    if link.dependency.default_features {
        rules.push(one(link.enabled, number_on(target, "default")))?;
    }
    Ok(())
}

fn ask_features(
    rules: &mut Vec<Rule>,
    fact: usize,
    target: &FactNumbers<'_>,
    features: &[FeatureName],
) -> Result<(), AllocError>
    ensures { OnOk result
        (rules.new.items ≡ rules.old.items ++ ask_features fact (numbers_view target.now) features.now) }
{
    'features: for feature in features {
        rules.push(one(fact, number_on(target, feature.as_str())))?;
    }
    Ok(())
}

fn table_rules(
    rules: &mut Vec<Rule>,
    packages: &[FactNumbers<'_>],
    node: &FactNumbers<'_>,
    is_root: bool,
    table: &FeatureTable,
) -> Result<(), AllocError>
    requires { (numbers_view node.now).brings.features ≡ table.now }
    ensures { OnOk result (rules.new.items
        ≡ rules.old.items ++ table_rules (numbers_views packages.now) is_root (numbers_view node.now) table.now) }
{
    features_rules(rules, packages, node, table)?;
    if is_root {
        root_table(rules, packages, node, table)?;
    }
    Ok(())
}

/// What the features of a table do: the numbers of their facts follow one another.
fn features_rules(
    rules: &mut Vec<Rule>,
    packages: &[FactNumbers<'_>],
    node: &FactNumbers<'_>,
    table: &FeatureTable,
) -> Result<(), AllocError>
    requires { (numbers_view node.now).brings.features ≡ table.now }
    ensures { OnOk result (rules.new.items
        ≡ rules.old.items ++ features_rules (numbers_views packages.now) (numbers_view node.now) table.now) }
{
    let mut fact = node.features;
    'rows: for (_, entries) in table.iter() {
        entries_rules(rules, packages, node, fact, entries.as_slice())?;
        fact += 1;
    }
    Ok(())
}

/// What the entries of a feature do, whose fact has this number.
fn entries_rules(
    rules: &mut Vec<Rule>,
    packages: &[FactNumbers<'_>],
    node: &FactNumbers<'_>,
    fact: usize,
    entries: &[Entry],
) -> Result<(), AllocError>
    ensures { OnOk result (rules.new.items ≡ rules.old.items
        ++ entries_rules (numbers_views packages.now) (numbers_view node.now) fact (entry_views entries.now)) }
{
    'entries: for entry in entries {
        entry_rules(rules, packages, node, fact, entry)?;
    }
    Ok(())
}

/// All features of the root count, and its dependencies are enabled: an entry asks whatever else is on.
fn root_table(
    rules: &mut Vec<Rule>,
    packages: &[FactNumbers<'_>],
    node: &FactNumbers<'_>,
    table: &FeatureTable,
) -> Result<(), AllocError>
    ensures { OnOk result (rules.new.items
        ≡ rules.old.items ++ root_table (numbers_views packages.now) (numbers_view node.now) table.now) }
{
    'rows: for (_, entries) in table.iter() {
        root_entries(rules, packages, node, entries.as_slice())?;
    }
    Ok(())
}

fn root_entries(
    rules: &mut Vec<Rule>,
    packages: &[FactNumbers<'_>],
    node: &FactNumbers<'_>,
    entries: &[Entry],
) -> Result<(), AllocError>
    ensures { OnOk result (rules.new.items ≡ rules.old.items
        ++ root_entries (numbers_views packages.now) (numbers_view node.now) (entry_views entries.now)) }
{
    'entries: for entry in entries {
        root_rules(rules, packages, node, entry)?;
    }
    Ok(())
}

fn entry_rules(
    rules: &mut Vec<Rule>,
    packages: &[FactNumbers<'_>],
    node: &FactNumbers<'_>,
    fact: usize,
    entry: &Entry,
) -> Result<(), AllocError>
    ensures { OnOk result (rules.new.items ≡ rules.old.items
        ++ entry_rules (numbers_views packages.now) (numbers_view node.now) fact (entry_view entry.now)) }
{
    match entry {
        Entry::Feature(feature) => {
            rules.push(one(fact, number_on(node, feature.as_str())))?;
            Ok(())
        }
        Entry::Dependency(name) => enable_called(rules, node, fact, name),
        Entry::DependencyFeature(name, feature) => {
            enable_called(rules, node, fact, name)?;
            ask_called(rules, packages, node, fact, name, feature)
        }
        Entry::WeakFeature(name, feature) => {
            ask_weakly(rules, packages, node, fact, name, feature)
        }
    }
}

fn root_rules(
    rules: &mut Vec<Rule>,
    packages: &[FactNumbers<'_>],
    node: &FactNumbers<'_>,
    entry: &Entry,
) -> Result<(), AllocError>
    ensures { OnOk result (rules.new.items
        ≡ rules.old.items ++ root_rules (numbers_views packages.now) (numbers_view node.now) (entry_view entry.now)) }
{
    match entry {
        Entry::Feature(_) | Entry::Dependency(_) => Ok(()),
        Entry::DependencyFeature(name, feature) | Entry::WeakFeature(name, feature) => {
            ask_called(rules, packages, node, node.here, name, feature)
        }
    }
}

/// The dependencies called so: they lie side by side.
fn called_so<'a, 'b>(node: &'a FactNumbers<'b>, name: &PackageName) -> &'a [Link<'b>]
    ensures { link_views result.now ≡ (numbers_view node.now).called name.now }
{
    let called = node.called.as_slice();
    let rest = &called[before(called, name)..];
    &rest[..up_to(rest, name)]
}

/// How many are called by names before this one.
fn before(links: &[Link<'_>], name: &PackageName) -> usize
    requires { AreByName links.now }
    ensures few { result ≤ length links.now }
    ensures place { IsPartitionPoint (λ l. is_lt (text_cmp (name_of l) name.now) ≡ true)
        (λ l. is_lt (text_cmp (name_of l) name.now) ≡ false) links.now result }
{
    links.partition_point(|link| order_beside(link, name).is_lt())
}

/// How many aren't called by names behind this one.
fn up_to(links: &[Link<'_>], name: &PackageName) -> usize
    requires { AreByName links.now }
    ensures few { result ≤ length links.now }
    ensures place { IsPartitionPoint (λ l. is_le (text_cmp (name_of l) name.now) ≡ true)
        (λ l. is_le (text_cmp (name_of l) name.now) ≡ false) links.now result }
{
    links.partition_point(|link| order_beside(link, name).is_le())
}

/// Where the name that a dependency is called by stands beside another.
fn order_beside(link: &Link<'_>, name: &PackageName) -> Ordering
    ensures { result ≡ text_cmp (name_of link.now) name.now }
{
    link.dependency.name.cmp(name)
}

/// The fact enables each dependency called so.
fn enable_called(
    rules: &mut Vec<Rule>,
    node: &FactNumbers<'_>,
    fact: usize,
    name: &PackageName,
) -> Result<(), AllocError>
    ensures { OnOk result
        (rules.new.items ≡ rules.old.items ++ enable_all fact ((numbers_view node.now).called name.now)) }
{
    enable_all(rules, fact, called_so(node, name))
}

/// The fact asks the target of each dependency called so for a feature.
fn ask_called(
    rules: &mut Vec<Rule>,
    packages: &[FactNumbers<'_>],
    node: &FactNumbers<'_>,
    fact: usize,
    name: &PackageName,
    feature: &FeatureName,
) -> Result<(), AllocError>
    ensures { OnOk result (rules.new.items ≡ rules.old.items
        ++ ask_all (numbers_views packages.now) fact ((numbers_view node.now).called name.now) feature.now) }
{
    ask_all(
        rules,
        packages,
        fact,
        called_so(node, name),
        feature.as_str(),
    )
}

/// The same of those that are enabled.
fn ask_weakly(
    rules: &mut Vec<Rule>,
    packages: &[FactNumbers<'_>],
    node: &FactNumbers<'_>,
    fact: usize,
    name: &PackageName,
    feature: &FeatureName,
) -> Result<(), AllocError>
    ensures { OnOk result (rules.new.items ≡ rules.old.items
        ++ ask_enabled (numbers_views packages.now) fact ((numbers_view node.now).called name.now) feature.now) }
{
    ask_enabled(
        rules,
        packages,
        fact,
        called_so(node, name),
        feature.as_str(),
    )
}

/// The fact enables each of these dependencies.
fn enable_all(rules: &mut Vec<Rule>, fact: usize, links: &[Link<'_>]) -> Result<(), AllocError>
    ensures { OnOk result (rules.new.items ≡ rules.old.items ++ enable_all fact (link_views links.now)) }
{
    'links: for link in links {
        rules.push(one(fact, link.enabled))?;
    }
    Ok(())
}

/// The fact asks the target of each of these dependencies for a feature.
fn ask_all(
    rules: &mut Vec<Rule>,
    packages: &[FactNumbers<'_>],
    fact: usize,
    links: &[Link<'_>],
    feature: &str,
) -> Result<(), AllocError>
    ensures { OnOk result (rules.new.items
        ≡ rules.old.items ++ ask_all (numbers_views packages.now) fact (link_views links.now) feature.now) }
{
    'links: for link in links {
        ask(
            rules,
            fact,
            fact,
            package_at(packages, link.target),
            feature,
        )?;
    }
    Ok(())
}

/// The fact asks the target of each of these dependencies for a feature, where the dependency is enabled.
fn ask_enabled(
    rules: &mut Vec<Rule>,
    packages: &[FactNumbers<'_>],
    fact: usize,
    links: &[Link<'_>],
    feature: &str,
) -> Result<(), AllocError>
    ensures { OnOk result (rules.new.items
        ≡ rules.old.items ++ ask_enabled (numbers_views packages.now) fact (link_views links.now) feature.now) }
{
    'links: for link in links {
        ask(
            rules,
            fact,
            link.enabled,
            package_at(packages, link.target),
            feature,
        )?;
    }
    Ok(())
}

fn ask(
    rules: &mut Vec<Rule>,
    first: usize,
    second: usize,
    target: Option<&FactNumbers<'_>>,
    feature: &str,
) -> Result<(), AllocError>
    ensures { OnOk result (rules.new.items
        ≡ rules.old.items ++ ask first second (option_map (λ p. numbers_view p.now) target.entry) feature.now) }
{
    let Some(target) = target else {
        return Ok(());
    };
    let gives = number_on(target, feature);
    rules.push(Rule {
        first,
        second,
        gives,
    })?;
    Ok(())
}

fn one(fact: usize, gives: usize) -> Rule
    ensures { result ≡ one fact gives }
{
    Rule {
        first: fact,
        second: fact,
        gives,
    }
}

/// The number of the fact that a feature is on at a package.
fn number_on(node: &FactNumbers<'_>, feature: &str) -> usize
    ensures { result ≡ number_on (numbers_view node.now) feature.now }
{
    match place_on(node, feature) {
        Some(place) => node.features + place,
        None => node.lacks,
    }
}

/// The place of a feature in the table of a package.
fn place_on(node: &FactNumbers<'_>, feature: &str) -> Option<usize>
    ensures { result ≡ place_of feature.now (numbers_view node.now).brings.features }
{
    match node.brings {
        Some(summary) => summary.features.place_of(feature),
        None => None,
    }
}

fn package_at<'a, 'b>(
    packages: &'a [FactNumbers<'b>],
    target: Option<usize>,
) -> Option<&'a FactNumbers<'b>>
    ensures { option_map (λ p. numbers_view p.now) result ≡ package_at (numbers_views packages.now) target }
{
    match target {
        Some(target) => packages.get(target),
        None => None,
    }
}
