//! Which lines of the index aren't used.

use crate::answers::asking::inputs_in;
use crate::answers::form::Form;
use crate::reading::Bytes;
use changes::tell_skips;
use index_reader::{Folder, Skip};
use reports::{loaded, skips_at};
use resolver::Fault;
use std::alloc::{AllocError, Global};

/// The lines that were not used of what the manifest comes to.
pub(crate) fn skips_in<F: Folder>(
    alloc: Global,
    folder: &mut F,
    bytes: &Bytes,
    form: Form,
    all: bool,
) -> Result<String, Fault> {
    let inputs = inputs_in(alloc, bytes)?;
    let catalogue = loaded(alloc, folder, &inputs)?;
    Ok(told(alloc, catalogue.skips(), form, all)?)
}

/// The lines that were not used of the files of an index at these paths.
pub(crate) fn skips_in_all<F: Folder>(
    alloc: Global,
    folder: &mut F,
    paths: &[String],
    form: Form,
    all: bool,
) -> Result<String, Fault> {
    let skips = skips_at(alloc, folder, paths)?;
    Ok(told(alloc, &skips, form, all)?)
}

fn told(alloc: Global, skips: &[Skip], form: Form, all: bool) -> Result<String, AllocError> {
    match form {
        Form::People => tell_skips(alloc, skips, all),
        Form::Programs => reports::messages::skips(alloc, skips, all),
    }
}
