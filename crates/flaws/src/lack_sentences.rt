//! The sentences that tell why nothing fits.

use crate::lack::Lack;
use crate::missing::look_for;
use crate::package_file::out_of_memory;
use crate::reason::{NothingFits, nothing_fits};
use catalogue::Catalogue;
use features::{DependencyParts, Entry, FeatureName, FeatureTable, PackageName};
use index_reader::{Folder, FolderFault, Skip};
use manifest::Manifest;
use semver::Version;
use std::alloc::{AllocError, Global};

/// Why nothing fits a dependency of a manifest.
#[derive(Drop)]
pub struct LackTold<'a> {
    /// The number of the dependency in the manifest.
    pub number: usize,
    pub dependency: &'a DependencyParts,
    /// The sentence, with a line end.
    pub text: String,
}

/// A sentence, a line, for each dependency of the manifest for which nothing fits.
///
/// # Errors
/// Want of memory, or the folder failed; it is asked for the files of those dependencies once more.
pub fn tell_lacks<'a, F: Folder>(
    alloc: Global,
    manifest: &'a Manifest,
    catalogue: &Catalogue,
    folder: &mut F,
) -> Result<Vec<LackTold<'a>>, FolderFault> {
    let mut lacks = Vec::new(alloc);
    for (number, dependency) in manifest.dependencies().iter().enumerate() {
        if let Some(found) = look_for(alloc, catalogue, folder, dependency)? {
            let reason = nothing_fits(alloc, catalogue, dependency, &found).map_err(out_of_memory)?;
            let text = lack_text(alloc, manifest.name(), dependency, reason);
            let told = LackTold {
                number,
                dependency,
                text: text.map_err(out_of_memory)?,
            };
            push_told(&mut lacks, told).map_err(out_of_memory)?;
        }
    }
    Ok(lacks)
}

fn push_told<'a>(lacks: &mut Vec<LackTold<'a>>, told: LackTold<'a>) -> Result<(), AllocError> {
    lacks.push(told)?;
    Ok(())
}

/// `demo needs a ^2, but no version of a fits; the newest in this index is 1.4.0`.
fn lack_text(
    alloc: Global,
    root: &PackageName,
    dependency: &DependencyParts,
    reason: NothingFits<'_>,
) -> Result<String, AllocError> {
    let name = &dependency.real_name;
    let requirement = &dependency.requirement;
    let mut text = format!(in alloc; "{root} needs {name} {requirement}")?;
    match reason.lack {
        Lack::NoFeature => push_feature(&mut text, name, reason)?,
        Lack::PreReleases => push_early(&mut text, name, reason)?,
        _ => {
            text.push_str(", but ")?;
            push_why(&mut text, name, reason)?;
        }
    }
    text.push('\n')?;
    Ok(text)
}

/// Adds a note that tells why nothing fits a dependency, `note: nothing fits a ^2: this index has no such package`;
/// none where all lines can be used and only none fits, or where some fits.
///
/// # Errors
/// As of `tell_lacks`.
pub fn note_lack<F: Folder>(
    text: &mut String,
    alloc: Global,
    catalogue: &Catalogue,
    folder: &mut F,
    dependency: &DependencyParts,
) -> Result<(), FolderFault> {
    let Some(found) = look_for(alloc, catalogue, folder, dependency)? else {
        return Ok(());
    };
    let reason = nothing_fits(alloc, catalogue, dependency, &found).map_err(out_of_memory)?;
    let is_known = reason.lack == Lack::NoVersion && reason.skips.is_empty();
    if is_known || reason.lack == Lack::NoFeature {
        return Ok(());
    }
    push_note(text, dependency, reason).map_err(out_of_memory)
}

/// `note: nothing fits a ^1: ` and why.
fn push_note(
    text: &mut String,
    dependency: &DependencyParts,
    reason: NothingFits<'_>,
) -> Result<(), AllocError> {
    let name = &dependency.real_name;
    let requirement = &dependency.requirement;
    write!(text, "note: nothing fits {name} {requirement}: ")?;
    push_why(text, name, reason)?;
    text.push('\n')
}

/// Why no version fits.
fn push_why(
    text: &mut String,
    name: &PackageName,
    reason: NothingFits<'_>,
) -> Result<(), AllocError> {
    match reason.lack {
        Lack::NoPackage => {
            text.push_str("this index has no such package")?;
            push_other(text, reason.other)
        }
        Lack::NoLine => {
            write!(text, "no line of {name} in this index can be used")?;
            push_other(text, reason.other)
        }
        Lack::Yanked => {
            push_yanked(text, name, reason)?;
            push_newest(text, "the newest that isn't", reason.usable)
        }
        Lack::PreReleases => {
            text.push_str("only pre-releases would fit")?;
            push_newest(text, "the newest of them", reason.newest)
        }
        Lack::NoVersion | Lack::NoFeature => {
            write!(text, "no version of {name} fits")?;
            push_newest(text, "the newest in this index", reason.newest)?;
            push_skips(text, name, reason.skips)
        }
    }
}

/// `a 1.1.0 is yanked`, or that several are.
fn push_yanked(
    text: &mut String,
    name: &PackageName,
    reason: NothingFits<'_>,
) -> Result<(), AllocError> {
    match (reason.newest, reason.yanked) {
        (Some(version), 1) => write!(text, "{name} {version} is yanked"),
        (Some(version), _) => write!(
            text,
            "all versions that fit are yanked, {version} the newest of them"
        ),
        (None, _) => text.push_str("all versions that fit are yanked"),
    }
}

/// That there are only pre-releases, and the line of a manifest that asks for the newest of them.
fn push_early(
    text: &mut String,
    name: &PackageName,
    reason: NothingFits<'_>,
) -> Result<(), AllocError> {
    text.push_str(", of which there are only pre-releases")?;
    push_newest(text, "the newest release", reason.release)?;
    match reason.newest {
        Some(version) => write!(text, "; for {version} write `{name} = \"{version}\"`"),
        None => Ok(()),
    }
}

/// The line that can't be used, or how many can't.
fn push_skips(text: &mut String, name: &PackageName, skips: &[Skip]) -> Result<(), AllocError> {
    let Some(first) = skips.first() else {
        return Ok(());
    };
    let Skip { line, reason, .. } = first;
    match skips.len() {
        1 => write!(text, "; line {line} of {name} in it is skipped ({reason})"),
        count => write!(
            text,
            "; {count} lines of {name} in it are skipped, line {line} first ({reason})"
        ),
    }
}

fn push_newest(text: &mut String, which: &str, newest: Option<&Version>) -> Result<(), AllocError> {
    match newest {
        Some(version) => write!(text, "; {which} is {version}"),
        None => Ok(()),
    }
}

fn push_other(text: &mut String, other: Option<&PackageName>) -> Result<(), AllocError> {
    match other {
        Some(other) => write!(text, "; perhaps {other} is meant"),
        None => Ok(()),
    }
}

/// The feature that no version has which fits, and the newest one that has it, or a feature of nearly the same name.
fn push_feature(
    text: &mut String,
    name: &PackageName,
    reason: NothingFits<'_>,
) -> Result<(), AllocError> {
    let Some(feature) = reason.feature else {
        return Ok(());
    };
    match reason.newest {
        Some(version) => write!(
            text,
            " with feature {feature}, which no version that fits has; {name} {version} has it"
        ),
        None => {
            write!(
                text,
                " with feature {feature}, which no version of {name} has"
            )?;
            match (reason.similar, reason.offered) {
                (Some(similar), _) => write!(text, "; perhaps {similar} is meant"),
                (None, Some(table)) => push_offered(text, table),
                (None, None) => Ok(()),
            }
        }
    }
}

/// How many features are named at most.
const FEATURES: usize = 12;

/// `; there are fast, small and 3 more`; `default` is there without entries too, and not told then.
fn push_offered(text: &mut String, table: &FeatureTable) -> Result<(), AllocError> {
    let count = table.iter().filter(|row| is_offered(row.0, row.1)).count();
    let mut told = 0usize;
    for (name, entries) in table.iter() {
        if told < FEATURES && is_offered(name, entries) {
            let lead = match told {
                0 if count == 1 => "; there is ",
                0 => "; there are ",
                _ => ", ",
            };
            write!(text, "{lead}{name}")?;
            told += 1;
        }
    }
    match count.saturating_sub(FEATURES) {
        0 => Ok(()),
        more => write!(text, " and {more} more"),
    }
}

/// Whether a feature is told among those that there are.
fn is_offered(name: &FeatureName, entries: &[Entry]) -> bool {
    name.as_str() != "default" || !entries.is_empty()
}
