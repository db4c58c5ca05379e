//! How much of an index was read.

use crate::answers::Form;
use crate::outcome::Outcome;
use crate::said::Said;
use std::alloc::{AllocError, Global};

/// How many files of an index were read, and how many lines these have.
pub fn tell_read(
    alloc: Global,
    index: &str,
    files: u64,
    lines: u64,
    said: &mut Said,
) -> Result<(), AllocError> {
    let text = match said.form() {
        Form::Programs => reports::messages::index_read(alloc, index, files, lines)?,
        Form::People => read(alloc, files, lines)?,
    };
    said.answer(text.as_str())
}

fn read(alloc: Global, files: u64, lines: u64) -> Result<String, AllocError> {
    let (what, were) = if files == 1 {
        ("file", "was")
    } else {
        ("files", "were")
    };
    let many = if lines == 1 { "line" } else { "lines" };
    format!(in alloc; "{files} {what} with {lines} {many} {were} read\n")
}

/// That a folder has no file of an index, alone; `inner` is the path of one in it that has, if there is one.
pub fn no_index(
    alloc: Global,
    index: &str,
    inner: Option<&str>,
    said: &mut Said,
) -> Result<Outcome, AllocError> {
    said.clear();
    let message = format!(in alloc; "{index} is no index: it has no file such as se/rd/serde")?;
    said.error("no-index", message.as_str())?;
    let perhaps = match inner {
        Some(inner) => format!(in alloc; "; perhaps {inner}")?,
        None => String::new(alloc),
    };
    let note = format!(in alloc; "--index takes the folder in which such files lie{perhaps}")?;
    said.note(note.as_str())?;
    Ok(Outcome::failed())
}

/// That the index is what Cargo fetched, and how many packages were looked for that it didn't, where that is known.
pub fn tell_fetched(
    alloc: Global,
    index: &str,
    missing: Option<usize>,
    said: &mut Said,
) -> Result<(), AllocError> {
    if said.form() == Form::Programs {
        let text = reports::messages::index_fetched(alloc, index, missing)?;
        return said.answer(text.as_str());
    }
    let text = format!(in alloc; "the index is what Cargo fetched, in {index}")?;
    said.advice(text.as_str())?;
    match missing {
        None | Some(0) => Ok(()),
        Some(1) => said.advice(
            "Cargo never fetched 1 package that was looked for; it counts as having no version",
        ),
        Some(missing) => {
            let text = format!(in alloc;
                "Cargo never fetched {missing} packages that were looked for; they count as having no version"
            )?;
            said.advice(text.as_str())
        }
    }
}

/// How long a run took, how many files of an index it asked for, and how many lines it read: to people.
pub fn tell_time(
    alloc: Global,
    millis: u128,
    asked: u64,
    lines: u64,
    said: &mut Said,
) -> Result<(), AllocError> {
    if said.form() == Form::Programs {
        return Ok(());
    }
    let seconds = millis / 1000;
    let (tenths, hundredths) = (millis / 100 % 10, millis / 10 % 10);
    let time = format!(in alloc; "    Finished in {seconds}.{tenths}{hundredths}s")?;
    said.answer(time.as_str())?;
    let (line, were) = if lines == 1 {
        ("line", "was")
    } else {
        ("lines", "were")
    };
    let file = if asked == 1 { "file" } else { "files" };
    let read = format!(in alloc; "; {lines} {line} {were} read, in {asked} {file} asked for\n")?;
    said.answer(read.as_str())
}
