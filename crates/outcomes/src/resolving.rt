//! What `resolve` and `update` end with.

ghost use Rattle.std.specs.Prelude.{◌≡◌, IfOk};
ghost use Rattle.outcomes.specs.inner.Outcomes.{ending_of, ending_view};

use crate::answers::{
    Form, NewLock, Repaired, Unlocked, changes_in, is_of_old_format, lock_in, lost_in, new_lock,
    other_source_in, preferred_by_cargo, readable_rest, refusal_in, unlock,
};
use crate::faults::{tell_checksums, tell_misreading};
use crate::outcome::Outcome;
use crate::paths::Paths;
use crate::reading::{Bytes, Project};
use crate::said::Said;
use crate::verifying::warn_of_refused;
use crate::why::{Question, no_way};
use catalogue::Prefer;
use derivations::Derivation;
use index_reader::Folder;
use lockfile::LockFault;
use reports::messages::Severity;
use resolver::{Answer, Fault};
use std::alloc::{AllocError, Global};

/// How the note on unchanged packages begins, the last line of what changes.
const BEHIND: &str = "note: pass `--all`";

/// What `resolve` and `update` are to do beside telling.
#[derive(Clone, Copy, Debug)]
pub struct Wish {
    pub locked: bool,
    pub write: bool,
    pub repair: bool,
    pub all: bool,
    /// Prefers the newest versions where Cargo prefers those that the manifest's Rust version fits.
    pub ignore_rust_version: bool,
    /// The manifest is a member of a workspace, whose lock isn't its own.
    pub is_member: bool,
}

/// What is resolved, and how.
#[derive(Clone, Copy)]
pub(crate) struct Task<'a> {
    /// The files, from whose lock the changes are told.
    pub(crate) project: Project<'a>,
    /// What a new lock comes from: the files, or these without what is unlocked.
    pub(crate) from: &'a Bytes,
    pub(crate) prefer: Prefer,
    pub(crate) wish: Wish,
    /// The packages that `update` was called with, a blank before each.
    asked: &'a str,
}

impl<'a> Task<'a> {
    /// A new lock of some files, told from those of a project.
    pub(crate) fn new(
        alloc: Global,
        project: Project<'a>,
        from: &'a Bytes,
        wish: Wish,
        asked: &'a str,
    ) -> Result<Task<'a>, AllocError> {
        let prefer = if wish.ignore_rust_version {
            Prefer::Newest
        } else {
            preferred_by_cargo(alloc, &project.bytes.manifest)?
        };
        Ok(Task {
            project,
            from,
            prefer,
            wish,
            asked,
        })
    }

    /// The files that a new lock comes from.
    pub(crate) fn source(&self) -> Project<'a> {
        Project::of(self.project.paths, self.from)
    }

    /// A lock that `resolve` gives, beside the old one, which is kept where it says the same, however it is spelt.
    pub(crate) fn new_lock_of<'b>(
        &self,
        alloc: Global,
        bytes: &'b [u8],
        kept: bool,
        skipped: usize,
    ) -> Result<NewLock<'b>, AllocError> {
        Ok(NewLock {
            bytes,
            kept: kept || says_this(alloc, lock_in(self.project.bytes), bytes)?,
            prefer: self.prefer,
            skipped,
        })
    }
}

/// Whether an old lock says what a new one does, which is spelt as locks are written.
fn says_this(alloc: Global, old: &[u8], new: &[u8]) -> Result<bool, AllocError> {
    if old == new {
        return Ok(true);
    }
    match lockfile::read(alloc, old) {
        Ok(content) => Ok(lockfile::write(alloc, &content)?.as_slice() == new),
        Err(LockFault::OutOfMemory) => Err(AllocError),
        Err(_) => Ok(false),
    }
}

/// What changes in the lock, or why there is none. With `repair` a lock that can't be read stops nothing.
pub fn resolve_told<F: Folder>(
    alloc: Global,
    folder: &mut F,
    project: Project<'_>,
    wish: Wish,
    said: &mut Said,
) -> Result<Outcome, Fault> {
    if wish.repair {
        if let Some(repaired) = readable_rest(alloc, project.bytes)? {
            tell_repair(alloc, project, &repaired, said)?;
            let project = Project::of(project.paths, &repaired.bytes);
            return resolved(alloc, folder, project, project.bytes, wish, "", said);
        }
    }
    resolved(alloc, folder, project, project.bytes, wish, "", said)
}

/// What `update` ends with: the packages that are asked for, or all where none is, lose their lock before.
pub fn update_told<F: Folder>(
    alloc: Global,
    folder: &mut F,
    project: Project<'_>,
    asked: &[(&str, Question)],
    wish: Wish,
    said: &mut Said,
) -> Result<Outcome, Fault> {
    match unlock(alloc, project.bytes, asked)? {
        Unlocked::Rest(rest) => {
            let mut names = String::new(alloc);
            for (words, _) in asked {
                names.push_str(" ")?;
                names.push_str(words)?;
            }
            resolved(alloc, folder, project, &rest, wish, names.as_str(), said)
        }
        Unlocked::NoPackage(words, why) => no_way(alloc, project, words, why, said),
    }
}

/// What changes in the lock of some files where it is resolved from others.
fn resolved<F: Folder>(
    alloc: Global,
    folder: &mut F,
    project: Project<'_>,
    from: &Bytes,
    wish: Wish,
    asked: &str,
    said: &mut Said,
) -> Result<Outcome, Fault> {
    let task = Task::new(alloc, project, from, wish, asked)?;
    match new_lock(alloc, folder, from, task.prefer) {
        Ok(answer) => answered(alloc, folder, task, &answer, said),
        Err(Fault::ChecksumChanged(name, version)) => {
            tell_checksums(alloc, folder, task.source(), name, version, said)
        }
        Err(fault) => Err(fault),
    }
}

/// The same, once it is known whether there is a lock.
fn answered<F: Folder>(
    alloc: Global,
    folder: &mut F,
    task: Task<'_>,
    answer: &Answer,
    said: &mut Said,
) -> Result<Outcome, Fault> {
    match answer {
        Answer::Lock { bytes, kept, skips } => {
            let lock = task.new_lock_of(alloc, bytes, *kept, skips.len())?;
            locked(alloc, folder, task, lock, said)
        }
        Answer::Unsolvable {
            derivation,
            text,
            ..
        } => unsolvable(alloc, folder, task, derivation, text.as_str(), said),
    }
}

/// Why there is no lock, by a derivation, whose own text is given too.
fn unsolvable<F: Folder>(
    alloc: Global,
    folder: &mut F,
    task: Task<'_>,
    derivation: &Derivation,
    text: &str,
    said: &mut Said,
) -> Result<Outcome, Fault> {
    let (project, form, all) = (task.source(), said.form(), task.wish.all);
    let why = refusal_in(alloc, folder, project, derivation, text, form, all)?;
    Ok(no_lock(alloc, project.paths, "", why.as_str(), said)?)
}

/// What changes in the lock, and what becomes of it. A locked version that the index can't give stops that, unless a
/// repair is asked for: else an index that is behind would change it unasked.
pub(crate) fn locked<F: Folder>(
    alloc: Global,
    folder: &mut F,
    task: Task<'_>,
    lock: NewLock<'_>,
    said: &mut Said,
) -> Result<Outcome, Fault> {
    if !lock.kept && !task.wish.repair {
        let lost = lost_in(alloc, folder, task.project.bytes, task.from, lock.bytes)?;
        if !lost.is_empty() {
            return Ok(tell_lost(alloc, task.asked, &lost, said)?);
        }
    }
    if task.wish.locked && !lock.kept && said.form() == Form::People {
        would_change(alloc, folder, task, lock, said)
    } else {
        lock_told(alloc, folder, task, lock, said)
    }
}

/// What changes in the lock, what else there is to say of that, and what becomes of it.
fn lock_told<F: Folder>(
    alloc: Global,
    folder: &mut F,
    task: Task<'_>,
    lock: NewLock<'_>,
    said: &mut Said,
) -> Result<Outcome, Fault> {
    let Task {
        project,
        from,
        wish,
        ..
    } = task;
    let (path, bytes) = (project.paths.lock.as_str(), project.bytes);
    let text = changes_in(alloc, folder, bytes, path, lock, said.form(), wish.all)?;
    said.answer(text.as_str())?;
    tell_skipped(alloc, lock.skipped, said)?;
    if !lock.kept {
        tell_source(alloc, path, bytes, said)?;
    }
    if !lock.kept && is_of_old_format(alloc, bytes)? {
        said.advice("the lock becomes one of format 4, which Cargo reads from 1.78 on")?;
    }
    let is_refused = !lock.kept && warn_of_refused(alloc, folder, from, lock.bytes, said)?;
    let outcome = with_new_lock(alloc, path, bytes.lock.is_some(), lock, wish, said)?;
    if !lock.kept && !wish.locked && !wish.write {
        let text = unwritten(alloc, path, wish.is_member)?;
        if is_refused {
            said.note(text.as_str())?;
        } else {
            said.advice(text.as_str())?;
        }
    }
    Ok(outcome)
}

/// That the packages of the old lock may be the index's all the same, where all have another source.
fn tell_source(alloc: Global, path: &str, bytes: &Bytes, said: &mut Said) -> Result<(), Fault> {
    let Some(source) = other_source_in(alloc, bytes)? else {
        return Ok(());
    };
    let text = format!(in alloc;
        "the packages of {path} have another source; `--source {source}` gives it to the index"
    )?;
    Ok(said.advice(text.as_str())?)
}

/// How many lines of the index weren't used.
fn tell_skipped(alloc: Global, skipped: usize, said: &mut Said) -> Result<(), AllocError> {
    match skipped {
        0 => Ok(()),
        1 => said.advice("1 line of the index can't be used; `cargo relock skips` tells why"),
        _ => {
            let text = format!(in alloc;
                "{skipped} lines of the index can't be used; `cargo relock skips` tells why"
            )?;
            said.advice(text.as_str())
        }
    }
}

/// Of which locked versions the index has none, and what can be done about that beside what was asked for; each
/// sentence begins with the name.
fn tell_lost(
    alloc: Global,
    asked: &str,
    lost: &[String],
    said: &mut Said,
) -> Result<Outcome, AllocError> {
    let mut names = String::from_str(alloc, asked)?;
    for sentence in lost.iter() {
        said.error("not-in-index", sentence.as_str())?;
        let (name, _) = sentence.as_str().split_once(' ').unwrap_or(("", ""));
        write!(names, " {name}")?;
    }
    let text = format!(in alloc;
        "bring the index up to date, or take other versions: `cargo relock update{names}`"
    )?;
    said.note(text.as_str())?;
    Ok(Outcome::no())
}

/// That with `--locked` the lock would change, and below that how: to people.
fn would_change<F: Folder>(
    alloc: Global,
    folder: &mut F,
    task: Task<'_>,
    lock: NewLock<'_>,
    said: &mut Said,
) -> Result<Outcome, Fault> {
    let Task { project, wish, .. } = task;
    let (path, bytes) = (project.paths.lock.as_str(), project.bytes);
    let text = changes_in(alloc, folder, bytes, path, lock, Form::People, wish.all)?;
    let outcome = with_new_lock(alloc, path, bytes.lock.is_some(), lock, wish, said)?;
    if !said.is_quiet() {
        said.below("It would change so:\n")?;
        let (changes, _) = text
            .as_str()
            .split_once(BEHIND)
            .unwrap_or((text.as_str(), ""));
        said.below(changes)?;
    }
    if !wish.is_member {
        said.note("`--write` in the place of `--locked` writes it")?;
    }
    Ok(outcome)
}

/// What becomes of a lock that is another one than the old: with `--locked` that is an error, and `--write` hands it
/// on.
fn with_new_lock(
    alloc: Global,
    path: &str,
    had_lock: bool,
    lock: NewLock<'_>,
    wish: Wish,
    said: &mut Said,
) -> Result<Outcome, AllocError>
    ensures { IfOk result (λ o. ending_view o ≡ ending_of lock.entry.kept wish.locked wish.write lock.entry.bytes.now) }
{
    if lock.kept {
        return Ok(Outcome::yes());
    }
    if wish.locked {
        let text = if had_lock {
            format!(in alloc; "{path} would change, and --locked was given")?
        } else {
            format!(in alloc; "there is no {path}, and --locked was given")?
        };
        said.error("would-change", text.as_str())?;
        return Ok(Outcome::no());
    }
    if wish.write {
        return Ok(Outcome::with_lock(copied(alloc, lock.bytes)?));
    }
    Ok(Outcome::yes())
}

/// That nothing is written, and what would write it; the lock of a member isn't its own.
fn unwritten(alloc: Global, path: &str, is_member: bool) -> Result<String, AllocError> {
    if is_member {
        String::from_str(alloc, "nothing is written")
    } else {
        format!(in alloc; "nothing is written; `--write` writes this to {path}")
    }
}

fn copied(alloc: Global, bytes: &[u8]) -> Result<Vec<u8>, AllocError>
    ensures { IfOk result (λ v. v.items ≡ bytes.now) }
{
    let mut copy = Vec::new(alloc);
    copy.extend_from_slice(bytes)?;
    Ok(copy)
}

/// Tells why there is no lock, and `there`, where what is meant.
pub(crate) fn no_lock(
    alloc: Global,
    paths: &Paths<'_>,
    there: &str,
    why: &str,
    said: &mut Said,
) -> Result<Outcome, AllocError> {
    let manifest = paths.manifest;
    let over = if paths.is_fetched {
        " with what Cargo has fetched"
    } else {
        ""
    };
    let text = format!(in alloc; "no lock is possible for {manifest}{there}{over}")?;
    said.error("no-lock", text.as_str())?;
    said.below(why)?;
    Ok(Outcome::no())
}

/// Tells why and where a lock can't be read, and what is taken from it.
fn tell_repair(
    alloc: Global,
    project: Project<'_>,
    repaired: &Repaired,
    said: &mut Said,
) -> Result<(), AllocError> {
    said.fault(&repaired.fault, Severity::Warning)?;
    if said.is_quiet() {
        return Ok(());
    }
    tell_misreading(alloc, project, said)?;
    let path = project.paths.lock.as_str();
    let text = match said.form() {
        Form::People => kept_of(alloc, path, repaired.packages)?,
        Form::Programs => reports::messages::repair(alloc, path, repaired.packages)?,
    };
    said.below(text.as_str())
}

/// How many packages of a lock are taken.
fn kept_of(alloc: Global, path: &str, packages: usize) -> Result<String, AllocError> {
    match packages {
        0 => format!(in alloc; "note: no package of {path} can be read\n"),
        1 => format!(in alloc;
            "note: 1 package of {path} can be read, and is kept where it fits\n"
        ),
        _ => format!(in alloc;
            "note: {packages} packages of {path} can be read, and are kept where they fit\n"
        ),
    }
}
