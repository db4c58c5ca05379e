//! Verifying a lock from bytes.

ghost use Rattle.std.specs.Prelude.{Some};
ghost use Rattle.catalogue.specs.declared.store.Prefer.TheVariants.{Newest};
ghost use Rattle.resolver.specs.Answers.{Verifies, VerifiesKeeping};

use crate::fault::Fault;
use crate::inputs::{Request, read_inputs};
use catalogue::{Catalogue, Prefer, Source};
use index_reader::Folder;
use selection::{Verdict, verify};
use std::alloc::Global;

/// The verdict on a lock, for what is loaded from the folder; the lock is also the old lock of the run.
///
/// # Errors
/// Want of memory, or the first fault of the manifest, of the lock and of loading, in this order.
pub fn verify_bytes<F: Folder>(
    alloc: Global,
    manifest: &[u8],
    folder: &mut F,
    lock: &[u8],
    source: &Source,
) -> Result<Verdict, Fault>
    ensures { Verifies F.calls F.failed (record {
      manifest = manifest.now;
      old = Some lock.now;
      source =
          source.now;
      prefer = Newest;
    }) folder.old result folder.new }
{
    let given = verify_bytes_keeping(alloc, manifest, folder, lock, source)?;
    Ok(given.0)
}

/// The same, with the loaded index beside the verdict, for a caller that ends soon and needn't give it back.
///
/// # Errors
/// Those of `verify_bytes`.
pub fn verify_bytes_keeping<F: Folder>(
    alloc: Global,
    manifest: &[u8],
    folder: &mut F,
    lock: &[u8],
    source: &Source,
) -> Result<(Verdict, Catalogue), Fault>
    ensures { VerifiesKeeping F.calls F.failed (record {
      manifest = manifest.now;
      old = Some lock.now;
      source =
          source.now;
      prefer = Newest;
    }) folder.old result folder.new }
{
    let request = Request {
        manifest,
        old: Some(lock),
        source,
        prefer: Prefer::Newest,
    };
    let inputs = read_inputs(alloc, &request, folder)?;
    match &inputs.old {
        Some(content) => {
            let verdict = verify(alloc, &inputs.manifest, &inputs.catalogue, content)?;
            Ok((verdict, inputs.catalogue))
        }
        None => unreachable!(),
    }
}
