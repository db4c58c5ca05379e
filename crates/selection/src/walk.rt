//! The preferred walk, where it is complete and valid.

ghost use Rattle.std.specs.Prelude.{IfOk, IfSome};
ghost use Rattle.catalogue.specs.Problems.{preferred_in, problem_in};
ghost use Rattle.model.specs.Selected.{HasBareRoot};
ghost use Rattle.selection.specs.Preferred.{Answers};

use crate::building::content_of;
use crate::rounds::{Reached, reach};
use crate::verdict::Verdict;
use crate::verifying::verify;
use catalogue::Catalogue;
use lockfile::LockContent;
use manifest::Manifest;
use std::alloc::{AllocError, Global};

/// The preferred walk, exactly where it is complete and a valid selection.
///
/// Dependencies that aren't enabled are looked at only where enabled ones are many rounds of features away from the
/// root; then all are, each once, which loading did too. The only error is want of memory.
pub fn preferred(
    alloc: Global,
    manifest: &Manifest,
    catalogue: &Catalogue,
) -> Result<Option<LockContent>, AllocError>
    ensures answer { IfOk result (λ o. Answers (problem_in manifest.now catalogue.now) (preferred_in catalogue.now) o) }
    ensures root { IfOk result
        (λ o. IfSome o (λ content. HasBareRoot (problem_in manifest.now catalogue.now) content)) }
{
    let Some(reached) = reach(alloc, manifest, catalogue)? else {
        return Ok(None);
    };
    let Reached {
        versions,
        nodes,
        facts,
    } = reached;
    let content = content_of(
        alloc,
        manifest,
        catalogue,
        versions.as_slice(),
        nodes.as_slice(),
        &facts,
    )?;
    match verify(alloc, manifest, catalogue, &content)? {
        Verdict::Valid => Ok(Some(content)),
        Verdict::Invalid { .. } => Ok(None),
    }
}
