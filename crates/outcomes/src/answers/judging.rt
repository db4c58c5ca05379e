//! What is told of a lock that is looked at.

use crate::answers::asking::{inputs_in, lock_in};
use crate::answers::form::Form;
use crate::reading::Bytes;
use index_reader::Folder;
use resolver::Fault;
use selection::Verdict;
use std::alloc::{AllocError, Global};

/// A verdict, as `relock` tells it or for programs.
pub(crate) fn verdict_in(
    alloc: Global,
    verdict: &Verdict,
    form: Form,
) -> Result<String, AllocError> {
    match form {
        Form::People => format!(in alloc; "{verdict}\n"),
        Form::Programs => reports::messages::verdict(alloc, verdict),
    }
}

/// All that is wrong with the lock.
pub(crate) fn flaws_in<F: Folder>(
    alloc: Global,
    folder: &mut F,
    bytes: &Bytes,
    form: Form,
) -> Result<String, Fault> {
    let inputs = inputs_in(alloc, bytes)?;
    let text = match form {
        Form::People => reports::flaws_of_lock(alloc, folder, &inputs, lock_in(bytes))?,
        Form::Programs => reports::messages::flaws_of_lock(alloc, folder, &inputs)?,
    };
    Ok(text)
}
