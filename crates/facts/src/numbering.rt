//! Facts get their numbers: each package's one after another.

ghost use Rattle.std.specs.Prelude.{◌≡◌, ◌++◌, ℕ, List, Some, length, OnOk, IfOk};
ghost use Rattle.model.specs.Order.{text_cmp};
ghost use Rattle.features.specs.Views.{dependency_views, brings_view};
ghost use Rattle.facts.specs.inner.Graphs.{node_view, node_views, target_if};
ghost use Rattle.facts.specs.inner.ByName.{AreByName, name_of};
ghost use Rattle.facts.specs.inner.FactNumbers.{link_views, links_from};
ghost use Rattle.facts.specs.inner.FactNumbers.{links_called, unmarked_for, flags_of, flags_of_all, numbers_view};
ghost use Rattle.facts.specs.inner.FactNumbers.{numbers_views, IsNumberedFrom, AreNumberedFrom};

use crate::fact_numbers::{FactNumbers, Link};
use crate::node::Node;
use features::{Dependency, FeatureTable, Summary};
use std::alloc::{AllocError, Global};
use std::cmp::Ordering;

/// The packages with the numbers of their facts. What is marked from the start is put to `marked`, a flag for each
/// fact.
pub(crate) fn numbers_of_all<'a>(
    alloc: Global,
    nodes: &[Node<'a>],
    marked: &mut Vec<bool>,
) -> Result<Vec<FactNumbers<'a>>, AllocError>
    ensures marked { OnOk result (marked.new.items ≡ marked.old.items ++ flags_of_all (node_views nodes.now)) }
    ensures packages { IfOk result
        (λ v. AreNumberedFrom (length marked.old.items) (node_views nodes.now) (numbers_views v.items)) }
{
    let mut packages = Vec::with_capacity(alloc, nodes.len())?;
    'nodes: for node in nodes {
        packages.push(numbers_of(alloc, node, marked)?)?;
    }
    Ok(packages)
}

fn numbers_of<'a>(
    alloc: Global,
    node: &Node<'a>,
    marked: &mut Vec<bool>,
) -> Result<FactNumbers<'a>, AllocError>
    ensures marked { OnOk result (marked.new.items ≡ marked.old.items ++ flags_of (node_view node.now)) }
    ensures numbers { IfOk result
        (λ p. IsNumberedFrom (length marked.old.items) (node_view node.now) (numbers_view p)) }
{
    let here = marked.len();
    marked.push(node.starts)?;
    let lacks = marked.len();
    marked.push(false)?;
    let features = marked.len();
    mark_features(node.brings, marked)?;
    let links = links_of(alloc, node, marked)?;
    let called = by_name(alloc, links.as_slice())?;
    Ok(FactNumbers {
        brings: node.brings,
        here,
        lacks,
        features,
        links,
        called,
    })
}

/// A flag for each feature that a package has.
fn mark_features(brings: Option<&Summary>, marked: &mut Vec<bool>) -> Result<(), AllocError>
    ensures { OnOk result
        (marked.new.items ≡ marked.old.items ++ unmarked_for (brings_view brings.entry).features) }
{
    match brings {
        Some(summary) => mark_rows(&summary.features, marked),
        None => Ok(()),
    }
}

fn mark_rows(table: &FeatureTable, marked: &mut Vec<bool>) -> Result<(), AllocError>
    ensures { OnOk result (marked.new.items ≡ marked.old.items ++ unmarked_for table.now) }
{
    'rows: for _ in table.iter() {
        marked.push(false)?;
    }
    Ok(())
}

/// The dependencies of a package by number.
fn links_of<'a>(
    alloc: Global,
    node: &Node<'a>,
    marked: &mut Vec<bool>,
) -> Result<Vec<Link<'a>>, AllocError>
    ensures marked { OnOk result
        (marked.new.items ≡ marked.old.items ++ unmarked_for (node_view node.now).brings.dependencies) }
    ensures links { IfOk result (λ v. link_views v.items
        ≡ links_from (length marked.old.items) node.now.targets.items 0 (node_view node.now).brings.dependencies) }
{
    let dependencies = dependencies_of(node.brings);
    let mut links = Vec::with_capacity(alloc, dependencies.len())?;
    'dependencies: for (number, dependency) in dependencies.iter().enumerate() {
        links.push(Link {
            dependency,
            enabled: marked.len(),
            target: target_of(node, number),
        })?;
        marked.push(false)?;
    }
    Ok(links)
}

/// The dependencies of what is brought; none where nothing is.
pub fn dependencies_of<'a>(brings: Option<&'a Summary>) -> &'a [Dependency]
    ensures { dependency_views result.now ≡ (brings_view brings.entry).dependencies }
{
    match brings {
        Some(summary) => summary.dependencies.as_slice(),
        None => &[],
    }
}

/// The place to which a dependency leads.
fn target_of(node: &Node<'_>, number: usize) -> Option<usize>
    ensures { result ≡ target_if number (Some (node_view node.now)) }
{
    match node.targets.get(number) {
        Some(target) => *target,
        None => None,
    }
}

/// The dependencies in the order of the names that they are called by, and those of a name by number.
fn by_name<'a>(alloc: Global, links: &[Link<'a>]) -> Result<Vec<Link<'a>>, AllocError>
    ensures order { IfOk result (λ v. AreByName v.items) }
    ensures called { IfOk result
        (λ v. (d : List ℕ) → links_called d (link_views v.items) ≡ links_called d (link_views links.now)) }
{
    let mut called = Vec::from_slice(alloc, links)?;
    called.sort_by(|a, b| name_order(a, b))?;
    Ok(called)
}

fn name_order(a: &Link<'_>, b: &Link<'_>) -> Ordering
    ensures { result ≡ text_cmp (name_of a.now) (name_of b.now) }
{
    a.dependency.name.cmp(&b.dependency.name)
}
