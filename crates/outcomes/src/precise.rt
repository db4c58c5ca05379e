//! What `update --precise` ends with.
//!
//! The package gets the version, or there is no lock: the packages whose lists have it stay as they are locked, and so
//! do those of the same names. So the answer is that of `resolve` over a folder in which these have no other versions.

use crate::answers::{Form, NewLock, found_in, inputs_in, new_lock, refusal_in, rest_without};
use crate::outcome::Outcome;
use crate::pinning::Pins;
use crate::reading::{Bytes, Project};
use crate::resolving::{Task, Wish, locked, no_lock};
use crate::said::Said;
use crate::why::{NoWay, Question, no_way};
use derivations::Derivation;
use features::PackageName;
use index_reader::Folder;
use lockfile::{LockContent, Package};
use reports::{Meant, Wanted};
use resolver::{Answer, Fault};
use semver::Version;
use std::alloc::{AllocError, Global};
use std::collections::BTreeSet;

/// A package of a lock that is to have another version.
#[derive(Drop)]
pub struct Precise {
    pub name: PackageName,
    pub version: Version,
    /// The files without what the lock says of it.
    rest: Bytes,
    /// The packages whose lists have it, which stay.
    listers: String,
}

/// A package that is to have a version, and what has to stay; or what the command ends with where no package is meant.
pub fn precise_in(
    alloc: Global,
    project: Project<'_>,
    words: &str,
    question: &Question,
    version: Version,
    said: &mut Said,
) -> Result<Result<(Precise, Pins), Outcome>, Fault> {
    let inputs = inputs_in(alloc, project.bytes)?;
    let why = match (found_in(alloc, &inputs, question)?, &inputs.lock) {
        (Meant::One(wanted), Some(lock)) => {
            let pins = pins_of(alloc, lock, &wanted, &version)?;
            let listers = listers_of(alloc, lock, &wanted)?;
            let rest = rest_without(alloc, project.bytes, &wanted)?;
            let name = wanted.name;
            let precise = Precise {
                name,
                version,
                rest,
                listers,
            };
            return Ok(Ok((precise, pins)));
        }
        (Meant::Several, _) => NoWay::Several,
        _ => NoWay::Absent,
    };
    Ok(Err(no_way(alloc, project, words, why, said)?))
}

/// The version for the package, and for what lists it, and for all others of these names, their own.
fn pins_of(
    alloc: Global,
    lock: &LockContent,
    wanted: &Wanted,
    version: &Version,
) -> Result<Pins, AllocError> {
    let packages = lock.packages();
    let place = packages.iter().position(|package| wanted.is(package));
    let mut names = BTreeSet::new(alloc);
    names.insert(wanted.name.clone()?)?;
    for package in packages.iter() {
        if package.source().is_some() && package.list.iter().any(|listed| Some(*listed) == place) {
            names.insert(package.name.clone()?)?;
        }
    }
    let mut pins = Pins::none(alloc);
    pins.add(&wanted.name, version)?;
    for package in packages.iter() {
        if names.contains(&package.name) && !wanted.is(package) {
            pins.add(&package.name, &package.version)?;
        }
    }
    Ok(pins)
}

/// The packages whose lists have the wanted one: `a 1.0.0, b 1.0.0`.
fn listers_of(alloc: Global, lock: &LockContent, wanted: &Wanted) -> Result<String, AllocError> {
    let packages = lock.packages();
    let place = packages.iter().position(|package| wanted.is(package));
    let mut text = String::new(alloc);
    for package in packages.iter() {
        if package.source().is_some() && package.list.iter().any(|listed| Some(*listed) == place) {
            let Package { name, version, .. } = package;
            let comma = if text.is_empty() { "" } else { ", " };
            write!(text, "{comma}{name} {version}")?;
        }
    }
    Ok(text)
}

/// What changes in the lock where a package has a version, over a folder where it has no other one.
pub fn precise_told<F: Folder, P: Folder>(
    alloc: Global,
    folder: &mut F,
    pinned: &mut P,
    project: Project<'_>,
    precise: &Precise,
    wish: Wish,
    said: &mut Said,
) -> Result<Outcome, Fault> {
    match reports::lost_version(alloc, folder, &precise.name, &precise.version)? {
        Some(why) => Ok(no_version(alloc, precise, why.as_str(), said)?),
        None => pinned_told(alloc, folder, pinned, project, precise, wish, said),
    }
}

/// The same where the index has the version.
fn pinned_told<F: Folder, P: Folder>(
    alloc: Global,
    folder: &mut F,
    pinned: &mut P,
    project: Project<'_>,
    precise: &Precise,
    wish: Wish,
    said: &mut Said,
) -> Result<Outcome, Fault> {
    let task = Task::new(alloc, project, &precise.rest, wish, "")?;
    let answer = new_lock(alloc, pinned, task.from, task.prefer)?;
    match &*answer {
        Answer::Lock { bytes, kept, skips } => {
            let lock = task.new_lock_of(alloc, bytes, *kept, skips.len())?;
            taken(alloc, folder, task, precise, lock, said)
        }
        Answer::Unsolvable {
            derivation,
            text,
            ..
        } => {
            let text = text.as_str();
            refused(alloc, pinned, task, precise, derivation, text, said)
        }
    }
}

/// What changes where a lock has the version, if it has.
fn taken<F: Folder>(
    alloc: Global,
    folder: &mut F,
    task: Task<'_>,
    precise: &Precise,
    lock: NewLock<'_>,
    said: &mut Said,
) -> Result<Outcome, Fault> {
    if has_one(alloc, lock.bytes, precise)? {
        locked(alloc, folder, task, lock, said)
    } else {
        Ok(unneeded(alloc, precise, said)?)
    }
}

/// That the index doesn't have the version.
fn no_version(
    alloc: Global,
    precise: &Precise,
    why: &str,
    said: &mut Said,
) -> Result<Outcome, AllocError> {
    let (name, version) = (&precise.name, &precise.version);
    let text = format!(in alloc; "{name} can't be {version}: {why}")?;
    said.error("no-version", text.as_str())?;
    Ok(Outcome::no())
}

/// That no package of a lock leads to the version.
fn unneeded(alloc: Global, precise: &Precise, said: &mut Said) -> Result<Outcome, AllocError> {
    let (name, version) = (&precise.name, &precise.version);
    let text = format!(in alloc; "nothing in the lock would need {name} {version}")?;
    said.error("unneeded", text.as_str())?;
    Ok(Outcome::no())
}

/// Why there is no lock where the package has the version.
fn refused<P: Folder>(
    alloc: Global,
    pinned: &mut P,
    task: Task<'_>,
    precise: &Precise,
    derivation: &Derivation,
    text: &str,
    said: &mut Said,
) -> Result<Outcome, Fault> {
    let (name, version) = (&precise.name, &precise.version);
    let (project, form, all) = (task.source(), said.form(), task.wish.all);
    let why = refusal_in(alloc, pinned, project, derivation, text, form, all)?;
    if form == Form::Programs {
        let there = format!(in alloc; " where {name} is {version}")?;
        return Ok(no_lock(alloc, project.paths, there.as_str(), why.as_str(), said)?);
    }
    Ok(tell_refused(alloc, precise, why.as_str(), said)?)
}

/// Why the package can't have the version, and what stays as it is locked.
fn tell_refused(
    alloc: Global,
    precise: &Precise,
    why: &str,
    said: &mut Said,
) -> Result<Outcome, AllocError> {
    let (name, version) = (&precise.name, &precise.version);
    let text = format!(in alloc; "{name} can't be {version}")?;
    said.error("no-lock", text.as_str())?;
    for line in why.lines() {
        let line = without_newest(alloc, line)?;
        let line = match line.as_str().split_once("there is no lock for ") {
            Some((front, _)) => {
                format!(in alloc; "{front}there is no lock with {name} {version}.\n")?
            }
            None => format!(in alloc; "{line}\n")?,
        };
        said.below(line.as_str())?;
    }
    let listers = precise.listers.as_str();
    if listers.is_empty() {
        return Ok(Outcome::no());
    }
    let text = format!(in alloc; "what lists {name} stays as it is locked: {listers}")?;
    said.note(text.as_str())?;
    Ok(Outcome::no())
}

/// A line without what it says of versions that there are: where some are left out, these aren't all of the index.
fn without_newest(alloc: Global, line: &str) -> Result<String, AllocError> {
    let mut text = String::new(alloc);
    let (front, _) = line
        .split_once(", but no version of ")
        .unwrap_or((line, ""));
    for (place, part) in front.split(" (no version fits; ").enumerate() {
        let kept = match part.split_once(')') {
            Some((_, rest)) if place > 0 => rest,
            _ => part,
        };
        text.push_str(kept)?;
    }
    Ok(text)
}

/// Whether a lock has the package at its version.
fn has_one(alloc: Global, lock: &[u8], precise: &Precise) -> Result<bool, Fault> {
    let content = lockfile::read(alloc, lock)?;
    let mut packages = content.packages().iter();
    Ok(packages.any(|package| {
        package.name == precise.name && package.version == precise.version
    }))
}
