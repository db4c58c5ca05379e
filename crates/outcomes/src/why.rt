//! What `why` ends with.

use crate::answers::{Form, inputs_in, lock_in, meant_in, way_in};
use crate::outcome::Outcome;
use crate::reading::Project;
use crate::said::Said;
use index_reader::Folder;
use reports::{
    Inputs, Meant, PartialId, Wanted, WhyThere, package_in, part_in, similar_name, why_there,
};
use resolver::Fault;
use std::alloc::{AllocError, Global};

/// What is told of the root.
const IS_ROOT: &str = "it is the package of the manifest\n";

/// A package that is asked for, by its whole version or none, or by a part of its version.
#[derive(Drop)]
pub enum Question {
    Whole(Wanted),
    Part(PartialId),
}

/// Why there is no way to tell.
#[derive(Clone, Copy)]
pub(crate) enum NoWay {
    Absent,
    Unreached,
    /// Several packages have the part of a version.
    Several,
}

/// What a text asks for, if it is `NAME`, `NAME@VERSION`, or has a part of a version there.
pub fn question_in(alloc: Global, text: &str) -> Result<Option<Question>, AllocError> {
    if let Some(wanted) = package_in(alloc, text)? {
        return Ok(Some(Question::Whole(wanted)));
    }
    match part_in(alloc, text)? {
        Some(part) => Ok(Some(Question::Part(part))),
        None => Ok(None),
    }
}

/// Why the package that is asked for in these words is in the lock; with `all` each dependency that leads there.
pub fn why_told<F: Folder>(
    alloc: Global,
    folder: &mut F,
    project: Project<'_>,
    words: &str,
    question: &Question,
    all: bool,
    said: &mut Said,
) -> Result<Outcome, Fault> {
    let inputs = inputs_in(alloc, project.bytes)?;
    let form = said.form();
    let told = match question {
        Question::Whole(wanted) => way_to(alloc, folder, &inputs, wanted, form, all)?,
        Question::Part(part) => match meant_in(alloc, &inputs, part)? {
            Meant::One(wanted) => way_to(alloc, folder, &inputs, &wanted, form, all)?,
            Meant::Absent => Err(NoWay::Absent),
            Meant::Several => Err(NoWay::Several),
        },
    };
    match told {
        Ok(text) => {
            let is_root = text.is_empty() && form == Form::People;
            said.answer(if is_root { IS_ROOT } else { text.as_str() })?;
            Ok(Outcome::yes())
        }
        Err(why) => no_way(alloc, project, words, why, said),
    }
}

/// What leads to a package of the lock.
fn way_to<F: Folder>(
    alloc: Global,
    folder: &mut F,
    inputs: &Inputs,
    wanted: &Wanted,
    form: Form,
    all: bool,
) -> Result<Result<String, NoWay>, Fault> {
    match why_there(alloc, folder, inputs, wanted)? {
        WhyThere::Way(way) => Ok(Ok(way_in(alloc, &way, form, all)?)),
        WhyThere::Absent => Ok(Err(NoWay::Absent)),
        WhyThere::Unreached => Ok(Err(NoWay::Unreached)),
    }
}

/// That there is no way to tell; of several packages none is meant, which Cargo takes for an error too.
pub(crate) fn no_way(
    alloc: Global,
    project: Project<'_>,
    words: &str,
    why: NoWay,
    said: &mut Said,
) -> Result<Outcome, Fault> {
    let lock = project.paths.lock.as_str();
    let (kind, text) = match why {
        NoWay::Absent => ("absent", absent(alloc, project, words)?),
        NoWay::Unreached => (
            "unreached",
            format!(in alloc; "no list leads to {words} in {lock}")?,
        ),
        NoWay::Several => (
            "usage",
            format!(in alloc; "several packages of {lock} are {words}; give the whole version")?,
        ),
    };
    said.error(kind, text.as_str())?;
    Ok(match why {
        NoWay::Absent | NoWay::Unreached => Outcome::no(),
        NoWay::Several => Outcome::failed(),
    })
}

/// That a package isn't in the lock, and which one is whose name is nearly the same.
fn absent(alloc: Global, project: Project<'_>, words: &str) -> Result<String, Fault> {
    let path = project.paths.lock.as_str();
    let lock = lockfile::read(alloc, lock_in(project.bytes))?;
    let (name, _) = words.split_once('@').unwrap_or((words, ""));
    let mut text = format!(in alloc; "{words} isn't in {path}")?;
    if let Some(similar) = similar_name(alloc, &lock, name)? {
        write!(text, "; perhaps {similar} is meant")?;
    }
    Ok(text)
}
