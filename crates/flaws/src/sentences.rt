//! The sentences that tell what is wrong with a lock: which packages, and what of each.

use crate::feature_sentences::push_lacking;
use crate::flawed::Flawed;
use crate::judging::flaws_of;
use crate::list_sentences::{push_surplus, push_unmet};
use crate::missing_version::listed_in;
use crate::naming::Named;
use crate::package_file::out_of_memory;
use crate::versions::{Registry, Told, push_no_candidate};
use catalogue::Catalogue;
use index_reader::{Folder, FolderFault};
use lockfile::{LockContent, Package};
use manifest::Manifest;
use selection::Findings;
use std::alloc::{AllocError, Global};
use std::str::from_utf8;

/// A line for each thing that is wrong with a lock, in the order of its packages; nothing where it is a valid
/// selection. `has_metadata` says whether checksums stand where locks of format 1 have them.
///
/// # Errors
/// Want of memory, or the folder failed; it is asked for the files of versions that aren't there.
pub fn tell_flaws<'a, F: Folder>(
    alloc: Global,
    manifest: &'a Manifest,
    catalogue: &'a Catalogue,
    content: &'a LockContent,
    folder: &mut F,
    has_metadata: bool,
) -> Result<String, FolderFault> {
    let mut text = String::new(alloc);
    match flaws_of(alloc, manifest, catalogue, content).map_err(out_of_memory)? {
        Some(judged) => {
            let registry = Registry {
                alloc,
                catalogue,
                has_metadata,
            };
            let flawed = judged.flawed.as_slice();
            push_all(&mut text, registry, &judged.findings, flawed, folder)?;
        }
        None => push_rootless(&mut text, manifest, content.packages()).map_err(out_of_memory)?,
    }
    Ok(text)
}

/// Whether a lock has its checksums in a table of their own, as those of format 1 do.
pub fn has_metadata(lock: &[u8]) -> bool {
    match from_utf8(lock) {
        Ok(text) => text.lines().any(|line| line.trim_end() == "[metadata]"),
        Err(_) => false,
    }
}

/// `demo 0.2.0, the package of the manifest, isn't in the lock; demo 0.1.0 is`.
fn push_rootless(
    text: &mut String,
    manifest: &Manifest,
    packages: &[Package],
) -> Result<(), AllocError> {
    let (name, version) = (manifest.name(), manifest.version());
    write!(
        text,
        "{name} {version}, the package of the manifest, isn't in the lock"
    )?;
    for package in packages.iter() {
        if package.source().is_none() && package.name == *name {
            let other = Named(package);
            write!(text, "; {other} is")?;
        }
    }
    text.push_str("\n")
}

/// All that is wrong with packages, and how many can't be judged.
fn push_all<F: Folder>(
    text: &mut String,
    registry: Registry<'_>,
    findings: &Findings<'_>,
    packages: &[Flawed],
    folder: &mut F,
) -> Result<(), FolderFault> {
    let listed = listed_in(registry.alloc, findings.content, packages).map_err(out_of_memory)?;
    let mut unjudged: u64 = 0;
    for flawed in packages.iter() {
        if let Some(package) = findings.content.get(flawed.place) {
            let is_listed = listed.get(flawed.place) == Some(&true);
            if let Some(why) = flawed.no_candidate {
                match push_no_candidate(text, registry, package, is_listed, why, folder)? {
                    Told::Reason => {}
                    Told::Nothing => unjudged = unjudged.saturating_add(1),
                }
            }
            push_others(text, registry.alloc, findings, package, flawed).map_err(out_of_memory)?;
            push_yanked(text, registry.catalogue, package).map_err(out_of_memory)?;
        }
    }
    push_unjudged(text, unjudged).map_err(out_of_memory)
}

/// How many packages stand only on lists of packages that are no candidates.
fn push_unjudged(text: &mut String, count: u64) -> Result<(), AllocError> {
    match count {
        0 => Ok(()),
        1 => text.push_str("1 package can't be judged: what lists it isn't known to need it\n"),
        _ => writeln!(
            text,
            "{count} packages can't be judged: what lists them isn't known to need them"
        ),
    }
}

/// What is wrong with a package beside that it is no candidate. Of one that is none nobody knows what it needs, so that
/// its features and its list aren't told.
fn push_others(
    text: &mut String,
    alloc: Global,
    findings: &Findings<'_>,
    package: &Package,
    flawed: &Flawed,
) -> Result<(), AllocError> {
    push_twin(text, findings, package, flawed.twin)?;
    if flawed.no_candidate.is_none() {
        push_unmet(text, findings, package, flawed)?;
        if flawed.lacks_feature {
            push_lacking(text, alloc, findings, flawed.place)?;
        }
        push_surplus(text, findings, package, flawed)?;
    }
    if flawed.unreached {
        push_unreached(text, findings, package)?;
    }
    Ok(())
}

/// `a 1.1.0: a 1.0.0 is in the lock too, and compatible versions can't stand side by side`.
fn push_twin(
    text: &mut String,
    findings: &Findings<'_>,
    package: &Package,
    twin: Option<usize>,
) -> Result<(), AllocError> {
    let Some(place) = twin else {
        return Ok(());
    };
    let Some(twin) = findings.content.get(place) else {
        return Ok(());
    };
    let (package, twin) = (Named(package), Named(twin));
    writeln!(
        text,
        "{package}: {twin} is in the lock too, and compatible versions can't stand side by side"
    )
}

/// `b 1.0.0: no list leads to it from demo 0.1.0`.
fn push_unreached(
    text: &mut String,
    findings: &Findings<'_>,
    package: &Package,
) -> Result<(), AllocError> {
    let Some(root) = findings.content.get(findings.root) else {
        return Ok(());
    };
    let (package, root) = (Named(package), Named(root));
    writeln!(text, "{package}: no list leads to it from {root}")
}

/// That a package at fault is yanked is told too, though it is no fault.
fn push_yanked(
    text: &mut String,
    catalogue: &Catalogue,
    package: &Package,
) -> Result<(), AllocError> {
    let is_yanked = match catalogue.candidate(&package.name, &package.version) {
        Some(candidate) => candidate.yanked,
        None => false,
    };
    let package = Named(package);
    if is_yanked {
        writeln!(
            text,
            "{package}: it is yanked in this index, which alone is no fault"
        )
    } else {
        Ok(())
    }
}
