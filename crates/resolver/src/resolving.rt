//! Resolving a manifest from bytes.

ghost use Rattle.std.specs.Prelude.{◌≡◌, ◌↔◌, true, map, IfOk, Ok, option_copied};
ghost use Rattle.index_reader.specs.Files.{skip_view};
ghost use Rattle.resolver.specs.Inputs.{old_of_bytes};
ghost use Rattle.resolver.specs.Answers.{Resolves, ResolvesKeeping};
ghost use Rattle.resolver.specs.inner.Replies.{HoldsOld, RepliesWith, with_skips};

use crate::fault::Fault;
use crate::inputs::{Inputs, Request, read_inputs};
use crate::writing::written;
use catalogue::{Catalogue, Prefer, Source};
use derivations::Derivation;
use explainer::explain;
use index_reader::{Folder, Skip};
use selection::{Verdict, verify};
use solver::{Outcome, solve};
use std::alloc::{AllocError, Global};

/// What `resolve` gives.
#[derive(Drop)]
pub enum Answer {
    /// A lock.
    Lock {
        bytes: Vec<u8>,
        /// Whether these are the old lock's own bytes.
        kept: bool,
        /// The index lines that were skipped, in the order of loading.
        skips: Vec<Skip>,
    },
    /// That no lock is a valid selection.
    Unsolvable {
        /// Why, for the checker.
        derivation: Derivation,
        /// Why, for people.
        text: String,
        /// The index lines that were skipped, in the order of loading.
        skips: Vec<Skip>,
    },
}

/// An answer but for the skipped lines.
#[derive(Drop)]
enum Reply {
    Lock(Vec<u8>, bool),
    Unsolvable(Derivation, String),
}

/// A lock for a manifest: the old lock's own bytes exactly where they read as a valid selection; else new bytes that
/// read as one, the preferred walk where that is complete and valid, else one of which the root alone brings all. Or
/// that there is no valid selection at all, with a derivation that the checker accepts.
///
/// # Errors
/// Want of memory; the first fault of the manifest, of the old lock and of loading, in this order; `NotReadBack` where
/// the new bytes don't read as what they spell.
pub fn resolve<F: Folder>(
    alloc: Global,
    manifest: &[u8],
    folder: &mut F,
    old: Option<&[u8]>,
    source: &Source,
    prefer: Prefer,
) -> Result<Answer, Fault>
    ensures { Resolves F.calls F.failed (record {
      manifest = manifest.now;
      old = option_copied old.entry;
      source =
          source.now;
      prefer = prefer;
    }) folder.old result folder.new }
{
    let given = resolve_keeping(alloc, manifest, folder, old, source, prefer)?;
    Ok(given.0)
}

/// The same, with the loaded index beside the answer, for a caller that ends soon and needn't give it back: piece by
/// piece that takes a while.
///
/// # Errors
/// Those of `resolve`.
pub fn resolve_keeping<F: Folder>(
    alloc: Global,
    manifest: &[u8],
    folder: &mut F,
    old: Option<&[u8]>,
    source: &Source,
    prefer: Prefer,
) -> Result<(Answer, Catalogue), Fault>
    ensures { ResolvesKeeping F.calls F.failed (record {
      manifest = manifest.now;
      old = option_copied old.entry;
      source =
          source.now;
      prefer = prefer;
    }) folder.old result folder.new }
{
    let request = Request {
        manifest,
        old,
        source,
        prefer,
    };
    // For the proof alone: a source is a text that a lock may have, so a lock that isn't read back has its reason.
    let _ = source.as_str();
    let inputs = read_inputs(alloc, &request, folder)?;
    let reply = reply_to(alloc, old, &inputs)?;
    // Copied, for the index is handed over whole.
    let skips = copied(alloc, inputs.catalogue.skips())?;
    Ok((with_skips(reply, skips), inputs.catalogue))
}

/// Skipped lines, copied.
fn copied(alloc: Global, skips: &[Skip]) -> Result<Vec<Skip>, AllocError>
    ensures { IfOk result (λ copies. map skip_view copies.items ≡ map skip_view skips.now) }
{
    let mut copies = Vec::new(alloc);
    'skips: for skip in skips {
        copies.push(copy_of(skip)?)?;
    }
    Ok(copies)
}

fn copy_of(skip: &Skip) -> Result<Skip, AllocError>
    ensures { IfOk result (λ copy. skip_view copy ≡ skip_view skip.now) }
{
    Ok(Skip {
        name: skip.name.clone()?,
        line: skip.line,
        reason: skip.reason,
    })
}

/// The answer with the skipped lines.
fn with_skips(reply: Reply, skips: Vec<Skip>) -> Answer
    ensures { result ≡ with_skips reply skips }
{
    match reply {
        Reply::Lock(bytes, kept) => Answer::Lock { bytes, kept, skips },
        Reply::Unsolvable(derivation, text) => Answer::Unsolvable {
            derivation,
            text,
            skips,
        },
    }
}

/// The old lock's own bytes where they say a valid selection, else what is found anew.
fn reply_to(alloc: Global, old: Option<&[u8]>, inputs: &Inputs) -> Result<Reply, Fault>
    requires { old_of_bytes (option_copied old) ≡ Ok inputs.now.old }
    ensures { RepliesWith (option_copied old.entry) inputs.now result }
{
    if !holds_old(alloc, inputs)? {
        return anew(alloc, old, inputs);
    }
    match old {
        Some(bytes) => Ok(Reply::Lock(Vec::from_slice(alloc, bytes)?, true)),
        None => unreachable!(),
    }
}

/// Whether there is an old lock that is a valid selection.
fn holds_old(alloc: Global, inputs: &Inputs) -> Result<bool, AllocError>
    ensures { IfOk result (λ holds. (holds ≡ true) ↔ HoldsOld inputs.now) }
{
    match &inputs.old {
        Some(content) => {
            let verdict = verify(alloc, &inputs.manifest, &inputs.catalogue, content)?;
            Ok(matches!(verdict, Verdict::Valid))
        }
        None => Ok(false),
    }
}

/// The spelling of a new content, or why there is none.
fn anew(alloc: Global, old: Option<&[u8]>, inputs: &Inputs) -> Result<Reply, Fault>
    requires not_held { HoldsOld inputs.now → ⊥ }
    ensures { RepliesWith (option_copied old.entry) inputs.now result }
{
    match solve(alloc, &inputs.manifest, &inputs.catalogue)?.outcome {
        Outcome::Selection(content) => Ok(Reply::Lock(written(alloc, &content)?, false)),
        Outcome::Unsolvable(derivation) => {
            let text = explain(alloc, &derivation)?;
            Ok(Reply::Unsolvable(derivation, text))
        }
    }
}
