//! Which features are asked of a package that it lacks, and by whom; and the sentences that tell it.

use crate::naming::Named;
use facts::{flag, flags};
use features::{Dependency, Entry, FeatureName, FeatureTable, Summary};
use lockfile::Package;
use selection::Findings;
use std::alloc::{AllocError, Global};

/// A feature that a package lacks, and who asks for it.
#[derive(Clone, Copy)]
pub struct Lacking<'a> {
    /// The package that asks.
    pub owner: &'a Package,
    pub feature: &'a FeatureName,
    /// The feature of the owner whose entry asks, where that isn't the dependency itself; it need not be on.
    pub by: Option<&'a FeatureName>,
}

/// A sentence for each feature that a package lacks and that an enabled dependency on it asks for, with the package
/// that asks: by the dependency itself, or by an entry of a feature, which need not be on unless it is the manifest's.
pub(crate) fn push_lacking(
    text: &mut String,
    alloc: Global,
    findings: &Findings<'_>,
    place: usize,
) -> Result<(), AllocError> {
    let Some(target) = findings.content.get(place) else {
        return Ok(());
    };
    for lacking in lacking_features(alloc, findings, place)?.iter() {
        push_asked(text, Named(target), *lacking)?;
    }
    Ok(())
}

/// `tls 1.1.0: it has no feature fast, which client 1.2.0 asks for`.
fn push_asked(
    text: &mut String,
    target: Named<'_>,
    lacking: Lacking<'_>,
) -> Result<(), AllocError> {
    let (owner, feature) = (Named(lacking.owner), lacking.feature);
    write!(
        text,
        "{target}: it has no feature {feature}, which {owner} asks for"
    )?;
    match lacking.by {
        Some(by) if lacking.owner.source().is_some() => {
            writeln!(text, " where its feature {by} is on")
        }
        _ => text.push_str("\n"),
    }
}

/// The features that the package at a place lacks and that an enabled dependency on it asks for, by package that asks.
pub fn lacking_features<'a>(
    alloc: Global,
    findings: &'a Findings<'a>,
    place: usize,
) -> Result<Vec<Lacking<'a>>, AllocError> {
    let mut found = Vec::new(alloc);
    let Some(table) = table_at(findings, place) else {
        return Ok(found);
    };
    for owner in 0..findings.nodes.len() {
        push_asked_by(&mut found, findings, owner, place, table)?;
    }
    Ok(found)
}

/// Those that the package at the place `from` asks for.
fn push_asked_by<'a>(
    found: &mut Vec<Lacking<'a>>,
    findings: &'a Findings<'a>,
    from: usize,
    place: usize,
    table: &FeatureTable,
) -> Result<(), AllocError> {
    let (Some(owner), Some(node)) = (findings.content.get(from), findings.nodes.get(from)) else {
        return Ok(());
    };
    let Some(brings) = node.brings else {
        return Ok(());
    };
    let enabled = flags(findings.facts.enabled.as_slice(), from);
    for (number, dependency) in brings.dependencies.iter().enumerate() {
        if flag(enabled, number) && node.targets.get(number) == Some(&Some(place)) {
            push_own(found, owner, table, dependency)?;
            push_by_entries(found, owner, table, brings, dependency)?;
        }
    }
    Ok(())
}

fn table_at<'a>(findings: &'a Findings<'_>, place: usize) -> Option<&'a FeatureTable> {
    match findings.nodes.get(place)?.brings {
        Some(brings) => Some(&brings.features),
        None => None,
    }
}

/// Those that a dependency itself asks for.
fn push_own<'a>(
    found: &mut Vec<Lacking<'a>>,
    owner: &'a Package,
    table: &FeatureTable,
    dependency: &'a Dependency,
) -> Result<(), AllocError> {
    for feature in dependency.features.iter() {
        if !table.has(feature) {
            found.push(Lacking {
                owner,
                feature,
                by: None,
            })?;
        }
    }
    Ok(())
}

/// Those that entries `d/g` and `d?/g` of the dependency called d ask for.
fn push_by_entries<'a>(
    found: &mut Vec<Lacking<'a>>,
    owner: &'a Package,
    table: &FeatureTable,
    brings: &'a Summary,
    dependency: &Dependency,
) -> Result<(), AllocError> {
    for (by, entries) in brings.features.iter() {
        for entry in entries.iter() {
            if let Some(feature) = asked_by(entry, dependency) {
                if !table.has(feature) {
                    found.push(Lacking {
                        owner,
                        feature,
                        by: Some(by),
                    })?;
                }
            }
        }
    }
    Ok(())
}

/// The feature that an entry asks a dependency's target for.
fn asked_by<'a>(entry: &'a Entry, dependency: &Dependency) -> Option<&'a FeatureName> {
    match entry {
        Entry::DependencyFeature(name, feature) | Entry::WeakFeature(name, feature) => {
            if *name == dependency.name {
                Some(feature)
            } else {
                None
            }
        }
        Entry::Feature(_) | Entry::Dependency(_) => None,
    }
}
