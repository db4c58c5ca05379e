//! What `skips` ends with.

use crate::answers::{skips_in, skips_in_all};
use crate::outcome::Outcome;
use crate::reading::Bytes;
use crate::said::Said;
use index_reader::Folder;
use resolver::Fault;
use std::alloc::Global;

/// The lines of the index that were not used, of what the manifest comes to.
pub fn skips_told<F: Folder>(
    alloc: Global,
    folder: &mut F,
    bytes: &Bytes,
    all: bool,
    said: &mut Said,
) -> Result<Outcome, Fault> {
    let text = skips_in(alloc, folder, bytes, said.form(), all)?;
    said.answer(text.as_str())?;
    Ok(Outcome::yes())
}

/// The same of the files of an index at these paths.
pub fn skips_told_of_all<F: Folder>(
    alloc: Global,
    folder: &mut F,
    paths: &[String],
    all: bool,
    said: &mut Said,
) -> Result<Outcome, Fault> {
    let text = skips_in_all(alloc, folder, paths, said.form(), all)?;
    said.answer(text.as_str())?;
    Ok(Outcome::yes())
}
