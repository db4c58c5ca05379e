//! What changed in a lock.

use crate::messages::message::{Change, Message, PackageChange, push_message};
use crate::messages::run_told::{Severity, diagnostic};
use crate::messages::shown::Shown;
use crate::reporting::Inputs;
use catalogue::Catalogue;
use changes::{Line, ToldLine, changes_between, is_yanked, told_lines};
use lockfile::{LockContent, Package};
use std::alloc::{AllocError, Global};

/// What is told of a lock beside its packages.
#[derive(Clone, Copy)]
pub struct NewLock<'a> {
    pub path: &'a str,
    /// Whether it is another one than the old lock.
    pub changed: bool,
}

/// How many packages of a lock are told of.
#[derive(Clone, Copy)]
struct Counts {
    /// Those that are locked anew.
    locked: usize,
    /// Those that stay and have a newer version.
    behind: usize,
}

/// What became of each package from the lock to a new one; of those that stay only with `all`, and only of such that
/// have a newer version. The lock itself comes last.
pub fn changes_to(
    alloc: Global,
    catalogue: &Catalogue,
    inputs: &Inputs,
    new: &LockContent,
    lock: NewLock<'_>,
    all: bool,
) -> Result<String, AllocError> {
    let mut text = String::new(alloc);
    let counts = push_changes(&mut text, alloc, catalogue, inputs, new, all)?;
    let message = Message::Lock {
        path: lock.path,
        changed: lock.changed,
        locked: counts.locked,
        behind: counts.behind,
    };
    push_message(&mut text, alloc, &message)?;
    Ok(text)
}

/// A message of each change; and how many packages are locked anew, and how many have a newer version.
fn push_changes<'a>(
    text: &mut String,
    alloc: Global,
    catalogue: &'a Catalogue,
    inputs: &'a Inputs,
    new: &'a LockContent,
    all: bool,
) -> Result<Counts, AllocError> {
    let changes = changes_between(alloc, inputs.lock.as_ref(), new)?;
    let lines = told_lines(alloc, catalogue, new, &changes, inputs.rust())?;
    for told in lines.iter() {
        if let Some(message) = message_of(told, all) {
            push_message(text, alloc, &message)?;
        }
    }
    push_yanked(text, alloc, catalogue, &changes.stayed)?;
    Ok(Counts {
        locked: changes.came.len(),
        behind: lines.iter().filter(|told| told.is_behind()).count(),
    })
}

/// That a package stays though it is yanked.
fn push_yanked(
    text: &mut String,
    alloc: Global,
    catalogue: &Catalogue,
    stayed: &[&Package],
) -> Result<(), AllocError> {
    for package in stayed.iter() {
        if is_yanked(catalogue, package) {
            let (name, version) = (&package.name, &package.version);
            let message = format!(in alloc;
                "{name} {version} is yanked, and stays since it is locked"
            )?;
            let line = diagnostic(alloc, Severity::Warning, "yanked", message.as_str(), None)?;
            text.push_str(line.as_str())?;
        }
    }
    Ok(())
}

/// The message of a line; one of a package that stayed only if all are told and it is behind.
fn message_of<'a>(told: &'a ToldLine<'a>, all: bool) -> Option<Message<'a>> {
    match told.line {
        Line::Removing(package) => Some(changed(Change::Removed, package, None, told)),
        Line::Adding(package) => Some(changed(Change::Added, package, None, told)),
        Line::Updating(before, package) => {
            Some(changed(Change::Updated, package, Some(before), told))
        }
        Line::Downgrading(before, package) => {
            Some(changed(Change::Downgraded, package, Some(before), told))
        }
        Line::Unchanged(package) => {
            if all && told.is_behind() {
                Some(changed(Change::Unchanged, package, None, told))
            } else {
                None
            }
        }
    }
}

/// What is newer, and which Rust is needed, isn't told of a package that went.
fn changed<'a>(
    change: Change,
    package: &'a Package,
    before: Option<&'a Package>,
    told: &'a ToldLine<'a>,
) -> Message<'a> {
    Message::PackageChange(PackageChange {
        change,
        name: package.name.as_str(),
        version: Shown(&package.version),
        old_version: match before {
            Some(before) => Some(Shown(&before.version)),
            None => None,
        },
        source: package.source(),
        available: match (change, told.newer) {
            (Change::Removed, _) | (_, None) => None,
            (_, Some(version)) => Some(Shown(version)),
        },
        requires_rust: match (change, &told.rust) {
            (Change::Removed, _) | (_, None) => None,
            (_, Some(rust)) => Some(Shown(rust)),
        },
    })
}
