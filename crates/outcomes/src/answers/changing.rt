//! What changes in a lock, or why there is none.

use crate::answers::asking::inputs_in;
use crate::answers::form::Form;
use crate::reading::{Bytes, Project};
use catalogue::{Catalogue, Prefer};
use derivations::Derivation;
use index_reader::Folder;
use manifest_faults::dependency_lines;
use reports::{Inputs, LackTold, lacks_told, lost_between};
use resolver::Fault;
use std::alloc::{AllocError, Global};

/// A lock that `resolve` gives.
#[derive(Clone, Copy)]
pub(crate) struct NewLock<'a> {
    pub bytes: &'a [u8],
    /// Whether the old one says the same, and so is kept.
    pub kept: bool,
    /// Which versions were preferred.
    pub prefer: Prefer,
    /// How many lines of the index weren't used.
    pub skipped: usize,
}

/// What changes from the lock, which is at a path, to a new one.
pub(crate) fn changes_in<F: Folder>(
    alloc: Global,
    folder: &mut F,
    bytes: &Bytes,
    path: &str,
    new: NewLock<'_>,
    form: Form,
    all: bool,
) -> Result<String, Fault> {
    let mut inputs = inputs_in(alloc, bytes)?;
    inputs.prefer = new.prefer;
    let catalogue = reports::loaded(alloc, folder, &inputs)?;
    let content = lockfile::read(alloc, new.bytes)?;
    let text = match form {
        Form::People => reports::changes_to(alloc, &catalogue, &inputs, &content, all)?,
        Form::Programs => {
            let lock = reports::messages::NewLock {
                path,
                changed: !new.kept,
            };
            reports::messages::changes_to(alloc, &catalogue, &inputs, &content, lock, all)?
        }
    };
    Ok(text)
}

/// Why there is no lock: the dependencies of the manifest, which is at a path, for which nothing fits, or else what the
/// derivation says, in sentences if it can be told so, or in its own text.
pub(crate) fn refusal_in<F: Folder>(
    alloc: Global,
    folder: &mut F,
    project: Project<'_>,
    derivation: &Derivation,
    text: &str,
    form: Form,
    all: bool,
) -> Result<String, Fault> {
    let inputs = inputs_in(alloc, project.bytes)?;
    let catalogue = reports::loaded(alloc, folder, &inputs)?;
    let lacks = match form {
        Form::People => lacks_in(alloc, folder, project, &catalogue, &inputs)?,
        Form::Programs => reports::messages::lacks_of(alloc, folder, &catalogue, &inputs)?,
    };
    if !lacks.is_empty() {
        return Ok(lacks);
    }
    let why = match reports::refusal_of(alloc, folder, &catalogue, &inputs, derivation, all)? {
        Some(told) => told,
        None => String::from_str(alloc, text)?,
    };
    match form {
        Form::People => Ok(why),
        Form::Programs => Ok(reports::messages::refusal(alloc, why.as_str())?),
    }
}

/// The dependencies for which nothing fits, each behind its place: `Cargo.toml line 6: demo needs ..`.
fn lacks_in<F: Folder>(
    alloc: Global,
    folder: &mut F,
    project: Project<'_>,
    catalogue: &Catalogue,
    inputs: &Inputs,
) -> Result<String, Fault> {
    let lacks = lacks_told(alloc, folder, catalogue, inputs)?;
    Ok(placed(alloc, project, &lacks)?)
}

/// What is told of each dependency, behind its place in the manifest.
fn placed(
    alloc: Global,
    project: Project<'_>,
    lacks: &[LackTold<'_>],
) -> Result<String, AllocError> {
    let mut asked = Vec::new(alloc);
    for lack in lacks.iter() {
        asked.push((lack.number, lack.dependency.name.as_str()))?;
    }
    let lines = dependency_lines(alloc, &project.bytes.manifest, &asked)?;
    let mut text = String::new(alloc);
    for (place, lack) in lacks.iter().enumerate() {
        push_place(&mut text, project.paths.manifest, lines.get(place))?;
        text.push_str(lack.text.as_str())?;
    }
    Ok(text)
}

/// `Cargo.toml line 6: `, where the line is known.
fn push_place(
    text: &mut String,
    path: &str,
    line: Option<&Option<usize>>,
) -> Result<(), AllocError> {
    match line {
        Some(Some(line)) => write!(text, "{path} line {line}: "),
        _ => Ok(()),
    }
}

/// A sentence for each package that is still locked, by what is left of the old files, and that a new lock lacks since
/// the index can't give its version.
pub(crate) fn lost_in<F: Folder>(
    alloc: Global,
    folder: &mut F,
    old: &Bytes,
    rest: &Bytes,
    new: &[u8],
) -> Result<Vec<String>, Fault> {
    let (old, rest) = (inputs_in(alloc, old)?, inputs_in(alloc, rest)?);
    let new = lockfile::read(alloc, new)?;
    match (&old.lock, &rest.lock) {
        (Some(old), Some(rest)) => Ok(lost_between(alloc, folder, old, rest, &new)?),
        _ => Ok(Vec::new(alloc)),
    }
}

/// The source of the packages of the old lock, where all have one and it isn't that of the index.
pub(crate) fn other_source_in(alloc: Global, bytes: &Bytes) -> Result<Option<String>, Fault> {
    let inputs = inputs_in(alloc, bytes)?;
    let Some(old) = &inputs.lock else {
        return Ok(None);
    };
    let mut sources = old.packages().iter().filter_map(|package| package.source());
    let Some(source) = sources.next() else {
        return Ok(None);
    };
    if source == inputs.source.as_str() || sources.any(|other| other != source) {
        return Ok(None);
    }
    Ok(Some(String::from_str(alloc, source)?))
}
