//! Why a run has no answer, in sentences.

use crate::answers::{Form, inputs_in, lock_in, manifest_misreading_in, misreading_in};
use crate::outcome::Outcome;
use crate::reading::Project;
use crate::said::Said;
use features::PackageName;
use index_reader::Folder;
use lock_faults::checksum_line;
use manifest::Unsupported;
use reports::messages::Severity;
use reports::{Checksums, checksums_of};
use resolver::{Fault, TooLarge};
use semver::Version;
use std::alloc::{AllocError, Global};
use std::fmt;

/// What can be done about a lock that doesn't read.
const REPAIR: &str =
    "`cargo relock resolve --repair` keeps what can be read, and resolves the rest anew";

/// How a checksum can have changed, and what can be done about that.
pub(crate) const CAUSES: &str =
    "this isn't the index that the lock was made from, or it was changed by hand: then take out its line `checksum`";

/// What can be done about a source that isn't supported.
const BY_CARGO: &str = "Cargo can: `cargo update --workspace`";

/// What a fault says, without its code.
#[derive(Clone, Copy)]
pub(crate) struct Sentence<'a>(pub(crate) &'a Fault);

impl fmt::Display for Sentence<'_> {
    fn fmt<W: fmt::Write>(&self, f: &mut fmt::Formatter<W>) -> fmt::Result {
        match self.0 {
            Fault::OutOfMemory => f.write_str("there isn't enough memory"),
            Fault::ManifestNotToml => f.write_str("the manifest isn't valid TOML"),
            Fault::ManifestShape(part) => write!(
                f,
                "the part `{part}` of the manifest doesn't read"
            ),
            Fault::UnsupportedSource(source) => {
                write!(f, "`cargo relock` can't resolve {}", asked_of(*source))
            }
            Fault::BadRequirement(name) => {
                write!(f, "the manifest's requirement of {name} doesn't read")
            }
            Fault::RootFeature(_, feature) => {
                write!(f, "the manifest's feature {feature} can't be used")
            }
            Fault::LockNotToml => f.write_str("the lock isn't valid TOML"),
            Fault::LockVersion => f.write_str("the lock is of a format that isn't read"),
            Fault::LockShape => f.write_str("the lock isn't as Cargo writes locks"),
            Fault::FolderFailed(path) => write!(f, "the index can't be read at {path}"),
            Fault::TooLarge(_) => f.write_str("a limit is passed"),
            Fault::ChecksumChanged(name, version) => write!(
                f,
                "the checksum of {name} {version} in the lock isn't that of the index"
            ),
            Fault::NotReadBack => f.write_str("the new lock would not read as it should"),
        }
    }
}

fn asked_of(source: Unsupported) -> &'static str {
    match source {
        Unsupported::Git => "a dependency from Git",
        Unsupported::Path => "a dependency from a path",
        Unsupported::Registry => "a dependency from another registry",
        Unsupported::Workspace => "a workspace",
        Unsupported::Patch => "with [patch]",
        Unsupported::Replace => "with [replace]",
    }
}

/// What a command ends with; a fault is told, with what else there is to say of it.
pub fn told_fault(
    alloc: Global,
    project: Project<'_>,
    ended: Result<Outcome, Fault>,
    said: &mut Said,
) -> Result<Outcome, AllocError> {
    match ended {
        Ok(outcome) => Ok(outcome),
        Err(fault) => {
            said.fault(&fault, Severity::Error)?;
            tell_more(alloc, project, &fault, said)?;
            Ok(Outcome::failed())
        }
    }
}

/// Where and why a lock or a manifest doesn't read, or which command says more of a fault.
fn tell_more(
    alloc: Global,
    project: Project<'_>,
    fault: &Fault,
    said: &mut Said,
) -> Result<(), AllocError> {
    if is_of_lock(fault) {
        tell_misreading(alloc, project, said)?;
        said.note(REPAIR)
    } else if is_of_manifest(fault) {
        tell_manifest_misreading(alloc, project, said)?;
        tell_of_source(fault, said)
    } else if is_of_checksum(fault) {
        said.note(CAUSES)
    } else {
        Ok(())
    }
}

fn tell_of_source(fault: &Fault, said: &mut Said) -> Result<(), AllocError> {
    match fault {
        Fault::UnsupportedSource(_) => said.note(BY_CARGO),
        _ => Ok(()),
    }
}

/// That a checksum changed, with both; to programs, and where one isn't found, it is a fault as any.
pub(crate) fn tell_checksums<F: Folder>(
    alloc: Global,
    folder: &mut F,
    project: Project<'_>,
    name: PackageName,
    version: Version,
    said: &mut Said,
) -> Result<Outcome, Fault> {
    let sums = match said.form() {
        Form::People => {
            let inputs = inputs_in(alloc, project.bytes)?;
            checksums_of(alloc, folder, &inputs, &name, &version)?
        }
        Form::Programs => None,
    };
    let Some(sums) = sums else {
        return Err(Fault::ChecksumChanged(name, version));
    };
    let lines = checksum_lines(alloc, project, &name, &version, &sums)?;
    said.fault(&Fault::ChecksumChanged(name, version), Severity::Error)?;
    said.below(lines.as_str())?;
    said.note(CAUSES)?;
    Ok(Outcome::failed())
}

/// `Cargo.lock line 23: it is .., in this index it is ..`.
fn checksum_lines(
    alloc: Global,
    project: Project<'_>,
    name: &PackageName,
    version: &Version,
    sums: &Checksums,
) -> Result<String, AllocError> {
    let path = project.paths.lock.as_str();
    let lock = lock_in(project.bytes);
    let Checksums { locked, own } = sums;
    let text = format!(in alloc; "{version}")?;
    match checksum_line(lock, name.as_str(), text.as_str()) {
        Some(line) => {
            format!(in alloc; "{path} line {line}: it is {locked}; in this index it is {own}\n")
        }
        None => format!(in alloc; "{path}: it is {locked}; in this index it is {own}\n"),
    }
}

fn is_of_checksum(fault: &Fault) -> bool {
    matches!(fault, Fault::ChecksumChanged(_, _))
}

/// Whether the lock is there and doesn't read.
fn is_of_lock(fault: &Fault) -> bool {
    matches!(
        fault,
        Fault::LockNotToml | Fault::LockVersion | Fault::LockShape | Fault::TooLarge(TooLarge::Lock)
    )
}

/// Tells where and why the lock doesn't read.
pub(crate) fn tell_misreading(
    alloc: Global,
    project: Project<'_>,
    said: &mut Said,
) -> Result<(), AllocError> {
    let path = project.paths.lock.as_str();
    let text = misreading_in(alloc, path, lock_in(project.bytes), said.form())?;
    said.below(text.as_str())
}

/// Whether the manifest is there and doesn't read.
fn is_of_manifest(fault: &Fault) -> bool {
    matches!(
        fault,
        Fault::ManifestNotToml
            | Fault::ManifestShape(_)
            | Fault::UnsupportedSource(_)
            | Fault::BadRequirement(_)
            | Fault::RootFeature(_, _)
            | Fault::TooLarge(TooLarge::Manifest)
    )
}

/// Tells where and why the manifest doesn't read.
fn tell_manifest_misreading(
    alloc: Global,
    project: Project<'_>,
    said: &mut Said,
) -> Result<(), AllocError> {
    let path = project.paths.manifest;
    let text = manifest_misreading_in(alloc, path, &project.bytes.manifest, said.form())?;
    said.below(text.as_str())
}
