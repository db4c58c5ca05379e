//! The sentences that tell what a list lacks, and what it has though nothing leads there.

use crate::flawed::Flawed;
use crate::naming::{Named, Needed, has_weak_entry, last_serving, may_serve};
use facts::{Node, flag, flags};
use features::Dependency;
use lockfile::Package;
use selection::Findings;
use std::alloc::AllocError;

/// The dependencies that no package of its list serves.
pub(crate) fn push_unmet(
    text: &mut String,
    findings: &Findings<'_>,
    package: &Package,
    flawed: &Flawed,
) -> Result<(), AllocError> {
    for number in flawed.unmet.iter() {
        if let Some(dependency) = dependency_at(findings, flawed.place, *number) {
            push_lack(text, findings.content, package, dependency)?;
        }
    }
    Ok(())
}

/// The dependency of a number of the package at a place.
pub fn dependency_at<'a>(
    findings: &'a Findings<'_>,
    place: usize,
    number: usize,
) -> Option<&'a Dependency> {
    findings.nodes.get(place)?.brings?.dependencies.get(number)
}

/// `client 1.2.0: its list lacks tls (needs tls ^1.1; tls 1.1.0 is in the lock)`.
fn push_lack(
    text: &mut String,
    content: &[Package],
    package: &Package,
    dependency: &Dependency,
) -> Result<(), AllocError> {
    let name = &dependency.real_name;
    let (package, needed) = (Named(package), Needed(dependency));
    write!(text, "{package}: its list lacks {name} (needs {needed}; ")?;
    match last_serving(dependency, content) {
        Some(serving) => {
            let serving = Named(serving);
            writeln!(text, "{serving} is in the lock)")
        }
        None => {
            if content.iter().any(|other| other.name == *name) {
                writeln!(text, "no {name} in the lock fits)")
            } else {
                writeln!(text, "no {name} is in the lock)")
            }
        }
    }
}

/// `off 1.0.0: its list shouldn't have log 0.4.20 (log ^0.4 is off)`.
pub(crate) fn push_surplus(
    text: &mut String,
    findings: &Findings<'_>,
    package: &Package,
    flawed: &Flawed,
) -> Result<(), AllocError> {
    let Some(node) = findings.nodes.get(flawed.place) else {
        return Ok(());
    };
    let enabled = flags(findings.facts.enabled.as_slice(), flawed.place);
    for place in flawed.surplus.iter() {
        if let Some(listed) = findings.content.get(*place) {
            let (package, other) = (Named(package), Named(listed));
            write!(text, "{package}: its list shouldn't have {other} (")?;
            push_reason(text, findings.content, node, enabled, listed)?;
            text.push_str(")\n")?;
        }
    }
    Ok(())
}

/// Why nothing leads to a package that is listed: by the first dependency that it may serve, or else that is on its
/// name.
fn push_reason(
    text: &mut String,
    content: &[Package],
    node: &Node<'_>,
    enabled: &[bool],
    listed: &Package,
) -> Result<(), AllocError> {
    if listed.source().is_none() {
        return text.push_str("it has no source");
    }
    match first_served(node, listed) {
        Some((number, dependency)) => {
            let needed = Needed(dependency);
            if flag(enabled, number) {
                write!(text, "{needed} is served by ")?;
                push_target(text, content, node, number)
            } else {
                write!(text, "{needed} is off")?;
                push_weak(text, node, dependency)
            }
        }
        None => push_on_name(text, node, listed),
    }
}

/// The first dependency that a package may serve, with its number.
fn first_served<'a>(node: &Node<'a>, listed: &Package) -> Option<(usize, &'a Dependency)> {
    for (number, dependency) in node.brings?.dependencies.iter().enumerate() {
        if may_serve(dependency, listed) {
            return Some((number, dependency));
        }
    }
    None
}

/// The package that serves a dependency.
fn push_target(
    text: &mut String,
    content: &[Package],
    node: &Node<'_>,
    number: usize,
) -> Result<(), AllocError> {
    let Some(Some(place)) = node.targets.get(number) else {
        return text.push_str("another one");
    };
    match content.get(*place) {
        Some(target) => {
            let target = Named(target);
            write!(text, "{target}")
        }
        None => text.push_str("another one"),
    }
}

/// Where an entry `d?/g` speaks of a dependency, Cargo lists its package though it is off.
fn push_weak(
    text: &mut String,
    node: &Node<'_>,
    dependency: &Dependency,
) -> Result<(), AllocError> {
    let Some(brings) = node.brings else {
        return Ok(());
    };
    let called = &dependency.name;
    if has_weak_entry(&brings.features, called) {
        write!(
            text,
            "; Cargo lists it for an entry `{called}?/..`: a known difference"
        )
    } else {
        Ok(())
    }
}

/// The first dependency on the name of a package that none matches, if there is one.
fn push_on_name(text: &mut String, node: &Node<'_>, listed: &Package) -> Result<(), AllocError> {
    let Some(brings) = node.brings else {
        return Ok(());
    };
    for dependency in brings.dependencies.iter() {
        if dependency.real_name == listed.name {
            let needed = Needed(dependency);
            return write!(text, "{needed} doesn't match it");
        }
    }
    text.push_str("nothing needs it there")
}
