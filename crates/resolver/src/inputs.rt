//! What a call has read before it answers.

ghost use Rattle.std.specs.Prelude.{◌≡◌, option_copied};
ghost use Rattle.resolver.specs.Inputs.{request_view, ReadsInputs, old_of_bytes};
ghost use Rattle.lockfile.specs.Locks as locks;
ghost use Rattle.model.specs.Outcome.{Gives};

use crate::fault::Fault;
use catalogue::{Catalogue, Prefer, Source, load};
use index_reader::Folder;
use lockfile::{LockContent, LockFault};
use manifest::Manifest;
use std::alloc::Global;

/// What a call is given, but for the folder.
#[derive(Drop)]
pub(crate) struct Request<'a> {
    pub(crate) manifest: &'a [u8],
    pub(crate) old: Option<&'a [u8]>,
    pub(crate) source: &'a Source,
    pub(crate) prefer: Prefer,
}

/// What has been read.
#[derive(Drop)]
pub(crate) struct Inputs {
    pub(crate) manifest: Manifest,
    pub(crate) old: Option<LockContent>,
    pub(crate) catalogue: Catalogue,
}

/// Reads the manifest, then the old lock, and then loads the index.
pub(crate) fn read_inputs<F: Folder>(
    alloc: Global,
    request: &Request<'_>,
    folder: &mut F,
) -> Result<Inputs, Fault>
    ensures { ReadsInputs F.calls F.failed (request_view request.now) folder.old result folder.new }
{
    let manifest = Manifest::read(alloc, request.manifest)?;
    let old = read_old(alloc, request.old)?;
    let catalogue = load(
        alloc,
        &manifest,
        folder,
        old.as_ref(),
        request.source,
        request.prefer,
    )?;
    Ok(Inputs {
        manifest,
        old,
        catalogue,
    })
}

/// The content of the old lock, if there is one.
fn read_old(alloc: Global, old: Option<&[u8]>) -> Result<Option<LockContent>, LockFault>
    ensures { Gives locks.wants_memory (λ o. o) result (old_of_bytes (option_copied old.entry)) }
{
    match old {
        Some(bytes) => Ok(Some(lockfile::read(alloc, bytes)?)),
        None => Ok(None),
    }
}
