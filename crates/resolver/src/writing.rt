//! Writing a new lock.

ghost use Rattle.std.specs.Prelude.{◌≡◌};
ghost use Rattle.resolver.specs.inner.Replies.{Writes};
ghost use Rattle.resolver.specs.Inputs.{not_read_back};

use crate::fault::Fault;
use crate::same::same_content;
use lockfile::{LockContent, LockFault};
use std::alloc::Global;

/// The spelling of a content, once it is read again as that content.
pub(crate) fn written(alloc: Global, content: &LockContent) -> Result<Vec<u8>, Fault>
    ensures { Writes content.now result }
{
    let bytes = lockfile::write(alloc, content)?;
    match lockfile::read(alloc, bytes.as_slice()) {
        Ok(again) => {
            if same_content(&again, content) {
                Ok(bytes)
            } else {
                Err(Fault::NotReadBack)
            }
        }
        Err(fault) => Err(not_read_back(fault)),
    }
}

/// That bytes of our own don't read.
fn not_read_back(fault: LockFault) -> Fault
    ensures { result ≡ not_read_back fault }
{
    match fault {
        LockFault::OutOfMemory => Fault::OutOfMemory,
        _ => Fault::NotReadBack,
    }
}
