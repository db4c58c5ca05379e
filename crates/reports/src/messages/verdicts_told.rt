//! Whether a lock is valid, and what is wrong with it.

use crate::messages::message::{PackageId, push_message};
use crate::messages::shown::Shown;
use crate::messages::ways_told::id_of;
use crate::reporting::{Inputs, unless_failed};
use crate::verifying::loaded_beside;
use catalogue::{Catalogue, LoadFault};
use changes::is_yanked;
use features::{Dependency, FeatureName, Requirement};
use flaws::{
    Flawed, Judged, MissingVersion, NoCandidate, dependency_at, flaws_of, lacking_features,
    last_serving, listed_in, out_of_memory, why_missing,
};
use index_reader::{Folder, FolderFault, SkipReason};
use lockfile::{LockContent, Package};
use manifest::Manifest;
use selection::{Findings, Verdict, VerdictFault};
use semver::Version;
use serde::Serialize;
use std::alloc::{AllocError, Global};

/// What is told of a lock that is looked at; `reason` says which of these it is.
#[derive(Drop, Serialize)]
#[serde(tag = "reason", rename_all = "kebab-case")]
enum LockMessage<'a> {
    /// Whether it is valid; else the first package at fault.
    Verdict {
        valid: bool,
        code: Option<Shown<'a, VerdictFault>>,
        package: Option<PackageId<'a>>,
    },
    /// What is wrong with a package.
    Flaw(Flaw<'a>),
}

/// What is wrong with a package.
#[derive(Drop, Serialize)]
struct Flaw<'a> {
    package: PackageId<'a>,
    flaw: FlawKind,
    /// The dependency that is meant.
    dependency: Option<&'a str>,
    requirement: Option<Shown<'a, Requirement>>,
    /// The feature that is lacking, and the one whose entry asks for it.
    feature: Option<&'a str>,
    by: Option<&'a str>,
    /// The other package that is meant.
    other: Option<PackageId<'a>>,
    /// What the lock has, and what it should have.
    found: Option<&'a str>,
    expected: Option<&'a str>,
    /// Why the index has no candidate of its version.
    missing: Option<Missing<'a>>,
}

/// Why an index has no candidate of a version.
#[derive(Drop, Serialize)]
struct Missing<'a> {
    why: MissingKind,
    /// The line that is skipped, from 1, and why it is.
    line: Option<u64>,
    code: Option<Shown<'a, SkipReason>>,
    /// The newest version that can be used.
    newest: Option<Shown<'a, Version>>,
}

#[derive(Clone, Copy, Serialize)]
#[serde(rename_all = "kebab-case")]
enum MissingKind {
    NoPackage,
    Skipped,
    NoLine,
}

/// What is wrong with a package.
#[derive(Clone, Copy, Serialize)]
#[serde(rename_all = "kebab-case")]
enum FlawKind {
    NoRoot,
    NoSource,
    OtherSource,
    Unneeded,
    NoVersion,
    NoChecksum,
    OtherChecksum,
    Twin,
    Unmet,
    NoFeature,
    Surplus,
    Unreached,
    Yanked,
}

/// What else is told of a flaw.
#[derive(Drop)]
struct More<'a> {
    dependency: Option<&'a Dependency>,
    feature: Option<&'a FeatureName>,
    by: Option<&'a FeatureName>,
    other: Option<&'a Package>,
    found: Option<&'a str>,
    expected: Option<&'a str>,
    missing: Option<Missing<'a>>,
}

impl<'a> More<'a> {
    fn none() -> More<'a> {
        More::about(None, None)
    }

    /// Another package.
    fn of(other: Option<&'a Package>) -> More<'a> {
        More::about(other, None)
    }

    /// No more than another package and what is missing.
    fn about(other: Option<&'a Package>, missing: Option<Missing<'a>>) -> More<'a> {
        More {
            dependency: None,
            feature: None,
            by: None,
            other,
            found: None,
            expected: None,
            missing,
        }
    }
}

/// The message of a verdict.
pub fn verdict(alloc: Global, verdict: &Verdict) -> Result<String, AllocError> {
    let mut text = String::new(alloc);
    let message = match verdict {
        Verdict::Valid => LockMessage::Verdict {
            valid: true,
            code: None,
            package: None,
        },
        Verdict::Invalid {
            fault,
            name,
            version,
        } => LockMessage::Verdict {
            valid: false,
            code: Some(Shown(fault)),
            package: Some(PackageId {
                name: name.as_str(),
                version: Shown(version),
            }),
        },
    };
    push_message(&mut text, alloc, &message)?;
    Ok(text)
}

/// All that is wrong with a lock, package by package in its order; nothing where there is no lock.
pub fn flaws_of_lock<F: Folder>(
    alloc: Global,
    folder: &mut F,
    inputs: &Inputs,
) -> Result<String, LoadFault> {
    let Some(lock) = &inputs.lock else {
        return Ok(String::new(alloc));
    };
    let catalogue = loaded_beside(alloc, folder, inputs, lock)?;
    let flaws = flaws_in(alloc, folder, &inputs.manifest, &catalogue, lock);
    unless_failed(alloc, flaws)
}

/// A message for each flaw; one alone where the lock lacks the root, since nothing else can be judged then.
fn flaws_in<'a, F: Folder>(
    alloc: Global,
    folder: &mut F,
    manifest: &'a Manifest,
    catalogue: &'a Catalogue,
    lock: &'a LockContent,
) -> Result<String, FolderFault> {
    let mut text = String::new(alloc);
    match flaws_of(alloc, manifest, catalogue, lock).map_err(out_of_memory)? {
        Some(judged) => push_all(&mut text, alloc, folder, catalogue, &judged)?,
        None => push_rootless(&mut text, alloc, manifest).map_err(out_of_memory)?,
    }
    Ok(text)
}

/// That the package of the manifest isn't in the lock.
fn push_rootless(text: &mut String, alloc: Global, manifest: &Manifest) -> Result<(), AllocError> {
    let package = PackageId {
        name: manifest.name().as_str(),
        version: Shown(manifest.version()),
    };
    push_flaw(text, alloc, package, FlawKind::NoRoot, More::none())
}

/// What is wrong with packages.
fn push_all<F: Folder>(
    text: &mut String,
    alloc: Global,
    folder: &mut F,
    catalogue: &Catalogue,
    judged: &Judged<'_>,
) -> Result<(), FolderFault> {
    let findings = &judged.findings;
    let flawed = judged.flawed.as_slice();
    let listed = listed_in(alloc, findings.content, flawed).map_err(out_of_memory)?;
    for flawed in flawed.iter() {
        let is_listed = listed.get(flawed.place) == Some(&true);
        push_flawed(text, alloc, folder, catalogue, findings, flawed, is_listed)?;
    }
    Ok(())
}

/// What is wrong with one package.
fn push_flawed<F: Folder>(
    text: &mut String,
    alloc: Global,
    folder: &mut F,
    catalogue: &Catalogue,
    findings: &Findings<'_>,
    flawed: &Flawed,
    is_listed: bool,
) -> Result<(), FolderFault> {
    let Some(package) = findings.content.get(flawed.place) else {
        return Ok(());
    };
    if let Some(why) = flawed.no_candidate {
        push_no_candidate(text, alloc, folder, catalogue, package, is_listed, why)?;
    }
    push_others(text, alloc, findings, package, flawed).map_err(out_of_memory)?;
    if is_yanked(catalogue, package) {
        let told = push_flaw(text, alloc, id_of(package), FlawKind::Yanked, More::none());
        told.map_err(out_of_memory)?;
    }
    Ok(())
}

/// What is wrong with a package beside that it is no candidate. Of one that is none nobody knows what it needs, so that
/// its features and its list aren't told.
fn push_others<'a>(
    text: &mut String,
    alloc: Global,
    findings: &'a Findings<'a>,
    package: &'a Package,
    flawed: &Flawed,
) -> Result<(), AllocError> {
    if let Some(twin) = flawed.twin {
        let more = More::of(findings.content.get(twin));
        push_flaw(text, alloc, id_of(package), FlawKind::Twin, more)?;
    }
    if flawed.no_candidate.is_none() {
        push_lists(text, alloc, findings, package, flawed)?;
    }
    if flawed.unreached {
        let package = id_of(package);
        push_flaw(text, alloc, package, FlawKind::Unreached, More::none())?;
    }
    Ok(())
}

/// Why a package is no candidate. The folder is asked for the file of a version that isn't there.
fn push_no_candidate<'a, F: Folder>(
    text: &mut String,
    alloc: Global,
    folder: &mut F,
    catalogue: &'a Catalogue,
    package: &'a Package,
    is_listed: bool,
    why: NoCandidate,
) -> Result<(), FolderFault> {
    let mut more = More::none();
    let kind = match why {
        NoCandidate::NoSource => FlawKind::NoSource,
        NoCandidate::OtherSource => {
            more.found = package.source();
            more.expected = Some(catalogue.source());
            FlawKind::OtherSource
        }
        NoCandidate::NoVersion => {
            return push_no_version(text, alloc, folder, catalogue, package, is_listed);
        }
        NoCandidate::NoChecksum => FlawKind::NoChecksum,
        NoCandidate::OtherChecksum => {
            return push_other_checksum(text, alloc, catalogue, package).map_err(out_of_memory);
        }
    };
    push_flaw(text, alloc, id_of(package), kind, more).map_err(out_of_memory)
}

/// Why the index has no candidate of a package's version; nothing where a list has it of a package that is no candidate
/// either, for then nobody knows whether it is needed.
fn push_no_version<F: Folder>(
    text: &mut String,
    alloc: Global,
    folder: &mut F,
    catalogue: &Catalogue,
    package: &Package,
    is_listed: bool,
) -> Result<(), FolderFault> {
    let missing = why_missing(alloc, catalogue, package, folder)?;
    let more = More::about(None, missing_told(&missing));
    let kind = match &missing {
        MissingVersion::Unasked if is_listed => return Ok(()),
        MissingVersion::Unasked => FlawKind::Unneeded,
        _ => FlawKind::NoVersion,
    };
    push_flaw(text, alloc, id_of(package), kind, more).map_err(out_of_memory)
}

/// Why there is none of a version whose name is asked for.
fn missing_told<'a>(missing: &'a MissingVersion) -> Option<Missing<'a>> {
    let mut told = Missing {
        why: MissingKind::NoPackage,
        line: None,
        code: None,
        newest: None,
    };
    match missing {
        MissingVersion::Unasked => return None,
        MissingVersion::NoPackage => {}
        MissingVersion::Skipped(line, reason) => {
            told.why = MissingKind::Skipped;
            told.line = Some(*line);
            told.code = Some(Shown(reason));
        }
        MissingVersion::NoLine(newest) => {
            told.why = MissingKind::NoLine;
            told.newest = match newest {
                Some(version) => Some(Shown(version)),
                None => None,
            };
        }
    }
    Some(told)
}

/// The checksum of a package, and the one that the index has for it.
fn push_other_checksum(
    text: &mut String,
    alloc: Global,
    catalogue: &Catalogue,
    package: &Package,
) -> Result<(), AllocError> {
    match catalogue.candidate(&package.name, &package.version) {
        Some(candidate) => {
            let own = candidate.checksum.to_text(alloc)?;
            push_checksums(text, alloc, package, Some(own.as_str()))
        }
        None => push_checksums(text, alloc, package, None),
    }
}

/// The checksum of a package, and the one that it should have.
fn push_checksums<'a>(
    text: &mut String,
    alloc: Global,
    package: &'a Package,
    expected: Option<&'a str>,
) -> Result<(), AllocError> {
    let mut more = More::none();
    more.found = package.checksum();
    more.expected = expected;
    push_flaw(text, alloc, id_of(package), FlawKind::OtherChecksum, more)
}

/// What the list of a package lacks, which features are asked of it that it lacks, and what is too much in its list.
fn push_lists<'a>(
    text: &mut String,
    alloc: Global,
    findings: &'a Findings<'a>,
    package: &'a Package,
    flawed: &Flawed,
) -> Result<(), AllocError> {
    for number in flawed.unmet.iter() {
        if let Some(dependency) = dependency_at(findings, flawed.place, *number) {
            let mut more = More::of(last_serving(dependency, findings.content));
            more.dependency = Some(dependency);
            push_flaw(text, alloc, id_of(package), FlawKind::Unmet, more)?;
        }
    }
    if flawed.lacks_feature {
        push_lacking(text, alloc, findings, package, flawed.place)?;
    }
    for place in flawed.surplus.iter() {
        let more = More::of(findings.content.get(*place));
        push_flaw(text, alloc, id_of(package), FlawKind::Surplus, more)?;
    }
    Ok(())
}

/// The features that are asked of a package and that it lacks.
fn push_lacking<'a>(
    text: &mut String,
    alloc: Global,
    findings: &'a Findings<'a>,
    package: &'a Package,
    place: usize,
) -> Result<(), AllocError> {
    for lacking in lacking_features(alloc, findings, place)?.iter() {
        let mut more = More::of(Some(lacking.owner));
        more.feature = Some(lacking.feature);
        more.by = lacking.by;
        push_flaw(text, alloc, id_of(package), FlawKind::NoFeature, more)?;
    }
    Ok(())
}

fn push_flaw<'a>(
    text: &mut String,
    alloc: Global,
    package: PackageId<'a>,
    flaw: FlawKind,
    more: More<'a>,
) -> Result<(), AllocError> {
    let More {
        dependency,
        feature,
        by,
        other,
        found,
        expected,
        missing,
    } = more;
    let message = LockMessage::Flaw(Flaw {
        package,
        flaw,
        dependency: match dependency {
            Some(dependency) => Some(dependency.real_name.as_str()),
            None => None,
        },
        requirement: match dependency {
            Some(dependency) => Some(Shown(&dependency.requirement)),
            None => None,
        },
        feature: text_of(feature),
        by: text_of(by),
        other: match other {
            Some(other) => Some(id_of(other)),
            None => None,
        },
        found,
        expected,
        missing,
    });
    push_message(text, alloc, &message)
}

fn text_of<'a>(feature: Option<&'a FeatureName>) -> Option<&'a str> {
    match feature {
        Some(feature) => Some(feature.as_str()),
        None => None,
    }
}
