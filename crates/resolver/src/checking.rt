//! Checking a derivation from bytes.

ghost use Rattle.std.specs.Prelude.{option_copied};
ghost use Rattle.catalogue.specs.declared.store.Prefer.TheVariants.{Newest};
ghost use Rattle.resolver.specs.CheckedProofs.{Checks, Decides};

use crate::fault::CheckFault;
use crate::inputs::{Inputs, Request, read_inputs};
use catalogue::{Prefer, Source};
use checker::{Check, check};
use index_reader::Folder;
use std::alloc::Global;

/// Whether the bytes of a derivation show that the manifest has no valid selection over what is loaded from the folder
/// with the old lock.
///
/// # Errors
/// Want of memory; the first fault of the manifest, of the old lock and of loading, in this order; then that of the
/// derivation.
pub fn check_bytes<F: Folder>(
    alloc: Global,
    manifest: &[u8],
    folder: &mut F,
    old: Option<&[u8]>,
    derivation: &[u8],
    source: &Source,
) -> Result<Check, CheckFault>
    ensures { Checks F.calls F.failed (record {
      manifest = manifest.now;
      old = option_copied old.entry;
      source =
          source.now;
      prefer = Newest;
    }) derivation.now folder.old result folder.new }
{
    let request = Request {
        manifest,
        old,
        source,
        prefer: Prefer::Newest,
    };
    let inputs = read_inputs(alloc, &request, folder)?;
    check_loaded(alloc, &inputs, derivation)
}

/// Whether the bytes of a derivation show that there is no valid selection for what was loaded.
fn check_loaded(alloc: Global, inputs: &Inputs, derivation: &[u8]) -> Result<Check, CheckFault>
    ensures { Decides inputs.now derivation.now result }
{
    let derivation = derivations::read(alloc, derivation)?;
    Ok(check(alloc, &inputs.manifest, &inputs.catalogue, &derivation)?)
}
