//! What `verify` ends with.

use crate::answers::{Form, flaws_in, inputs_in, lock_in, verdict_in, verdict_on};
use crate::faults::CAUSES;
use crate::outcome::Outcome;
use crate::paths::Paths;
use crate::reading::{Bytes, Project};
use crate::said::Said;
use catalogue::Catalogue;
use index_reader::Folder;
use lockfile::LockContent;
use reports::messages::Severity;
use reports::{
    Beside, Refused, lacks_version, loaded, refused_by_cargo, refused_kind, refused_lines,
    refused_sentence,
};
use resolver::Fault;
use selection::Verdict;
use std::alloc::{AllocError, Global};

/// Whether the lock is valid, by `relock verify`'s own line, and all that is wrong with it.
pub fn verify_told<F: Folder>(
    alloc: Global,
    folder: &mut F,
    project: Project<'_>,
    said: &mut Said,
) -> Result<Outcome, Fault> {
    match verdict_on(alloc, folder, project.bytes) {
        Ok((verdict, index)) => judged(alloc, folder, project, &verdict, &index, said),
        Err(Fault::ChecksumChanged(name, version)) => {
            let fault = Fault::ChecksumChanged(name, version);
            changed(alloc, folder, project.bytes, &fault, said)
        }
        Err(fault) => Err(fault),
    }
}

/// The verdict, and the flaws of a lock that isn't valid.
fn judged<F: Folder>(
    alloc: Global,
    folder: &mut F,
    project: Project<'_>,
    verdict: &Verdict,
    index: &Catalogue,
    said: &mut Said,
) -> Result<Outcome, Fault> {
    let bytes = project.bytes;
    let text = verdict_in(alloc, verdict, said.form())?;
    if matches!(verdict, Verdict::Valid) {
        said.answer(text.as_str())?;
        warn_of_valid(alloc, folder, index, bytes, said)?;
        return Ok(Outcome::yes());
    }
    let flaws = flaws_in(alloc, folder, bytes, said.form())?;
    said.answer(text.as_str())?;
    said.answer(flaws.as_str())?;
    if said.is_quiet() {
        tell_invalid(alloc, project.paths, verdict, said)?;
    }
    let lock = lockfile::read(alloc, lock_in(bytes))?;
    let repair = if lacks_version(index, &lock) {
        " --repair"
    } else {
        ""
    };
    let text = format!(in alloc;
        "`cargo relock resolve{repair}` tells what a valid lock would change"
    )?;
    said.advice(text.as_str())?;
    Ok(Outcome::no())
}

/// What there is to say of a valid lock: which packages are yanked, and what Cargo refuses.
fn warn_of_valid<F: Folder>(
    alloc: Global,
    folder: &mut F,
    index: &Catalogue,
    bytes: &Bytes,
    said: &mut Said,
) -> Result<(), Fault> {
    let content = lockfile::read(alloc, lock_in(bytes))?;
    for sentence in reports::yanked_in(alloc, index, &content)?.iter() {
        said.warning("yanked", sentence.as_str())?;
    }
    warn_of_refused(alloc, folder, bytes, lock_in(bytes), said)?;
    Ok(())
}

/// What Cargo refuses of a lock that is a valid selection, and whether it does.
pub(crate) fn warn_of_refused<F: Folder>(
    alloc: Global,
    folder: &mut F,
    bytes: &Bytes,
    lock: &[u8],
    said: &mut Said,
) -> Result<bool, Fault> {
    let lock = lockfile::read(alloc, lock)?;
    let refused = refused_by_cargo(alloc, folder, &lock)?;
    if refused.is_empty() {
        return Ok(false);
    }
    match said.form() {
        Form::People => tell_refused(alloc, folder, bytes, &lock, &refused, said)?,
        Form::Programs => message_refused(alloc, &lock, &refused, said)?,
    }
    Ok(true)
}

/// What Cargo refuses, each with what leads there, also where errors alone are told.
fn tell_refused<F: Folder>(
    alloc: Global,
    folder: &mut F,
    bytes: &Bytes,
    lock: &LockContent,
    refused: &[Refused],
    said: &mut Said,
) -> Result<(), Fault> {
    let inputs = inputs_in(alloc, bytes)?;
    let catalogue = loaded(alloc, folder, &inputs)?;
    let beside = Beside {
        manifest: &inputs.manifest,
        catalogue: &catalogue,
        lock,
    };
    for one in refused.iter() {
        let kind = refused_kind(alloc, one)?;
        let lines = refused_lines(alloc, beside, one)?;
        said.refused(kind.as_str(), lines.as_str())?;
        if matches!(one, Refused::Links(_, _, _)) {
            said.note("one of the two has to go")?;
        }
    }
    said.note("the lock is valid, hence status 0, but Cargo refuses it")?;
    Ok(())
}

fn message_refused(
    alloc: Global,
    lock: &LockContent,
    refused: &[Refused],
    said: &mut Said,
) -> Result<(), AllocError> {
    for one in refused.iter() {
        let sentence = refused_sentence(alloc, lock.packages(), one)?;
        said.warning("refused-by-cargo", sentence.as_str())?;
    }
    Ok(())
}

/// Where errors alone are told, that a lock isn't valid is one.
fn tell_invalid(
    alloc: Global,
    paths: &Paths<'_>,
    verdict: &Verdict,
    said: &mut Said,
) -> Result<(), AllocError> {
    let lock = paths.lock.as_str();
    let message = format!(in alloc; "{lock} is {verdict}")?;
    said.error("invalid", message.as_str())
}

/// Of a lock with another checksum than the index's there is no verdict; what is wrong with it is told all the same.
fn changed<F: Folder>(
    alloc: Global,
    folder: &mut F,
    bytes: &Bytes,
    fault: &Fault,
    said: &mut Said,
) -> Result<Outcome, Fault> {
    let flaws = flaws_in(alloc, folder, bytes, said.form())?;
    said.fault(fault, Severity::Error)?;
    said.below(flaws.as_str())?;
    said.note(CAUSES)?;
    Ok(Outcome::failed())
}
