//! Why there is no lock.

ghost use Rattle.std.specs.Prelude.{IfOk, IsSome};
ghost use Rattle.model.specs.Derivation.{IsAccepted};
ghost use Rattle.catalogue.specs.Problems.{problem_in};

use crate::reporting::{Inputs, unless_failed};
use catalogue::{Catalogue, LoadFault};
use checker::{Check, check};
use derivations::Derivation;
use flaws::{LackTold, note_lack, out_of_memory, tell_lacks};
use index_reader::{Folder, FolderFault};
use lookups::Problem;
use manifest::Manifest;
use std::alloc::{AllocError, Global};
use telling::{tell, unmatched_in};

/// Of how many names it is told at most why nothing fits.
const MOST_NOTES: usize = 10;

/// The dependencies of the manifest for which nothing fits, each with its sentence; none where the folder fails.
pub fn lacks_told<'a, F: Folder>(
    alloc: Global,
    folder: &mut F,
    catalogue: &Catalogue,
    inputs: &'a Inputs,
) -> Result<Vec<LackTold<'a>>, LoadFault> {
    match tell_lacks(alloc, &inputs.manifest, catalogue, folder) {
        Ok(told) => Ok(told),
        Err(FolderFault::OutOfMemory) => Err(LoadFault::OutOfMemory),
        Err(FolderFault::Failed) => Ok(Vec::new(alloc)),
    }
}

/// Why there is no lock though something fits each dependency of the manifest: what the derivation says, if the checker
/// accepts it.
pub fn refusal_of<F: Folder>(
    alloc: Global,
    folder: &mut F,
    catalogue: &Catalogue,
    inputs: &Inputs,
    derivation: &Derivation,
    all: bool,
) -> Result<Option<String>, LoadFault> {
    let Some(mut text) = told(alloc, &inputs.manifest, catalogue, derivation, all)? else {
        return Ok(None);
    };
    let notes = notes_on(alloc, folder, inputs, catalogue, derivation);
    let notes = unless_failed(alloc, notes)?;
    text.push_str(notes.as_str())?;
    Ok(Some(text))
}

/// Why nothing fits the dependencies of packages of which a derivation says so, a note each.
fn notes_on<F: Folder>(
    alloc: Global,
    folder: &mut F,
    inputs: &Inputs,
    catalogue: &Catalogue,
    derivation: &Derivation,
) -> Result<String, FolderFault> {
    let problem = Problem {
        manifest: &inputs.manifest,
        catalogue,
    };
    let mut text = String::new(alloc);
    let unmatched = unmatched_in(alloc, problem, derivation, MOST_NOTES).map_err(out_of_memory)?;
    for dependency in unmatched.iter() {
        note_lack(&mut text, alloc, catalogue, folder, *dependency)?;
    }
    Ok(text)
}

/// What a derivation says, in sentences, if the checker accepts it.
fn told(
    alloc: Global,
    manifest: &Manifest,
    catalogue: &Catalogue,
    derivation: &Derivation,
    all: bool,
) -> Result<Option<String>, AllocError>
    ensures { IfOk result (λ o. IsSome o → IsAccepted (problem_in manifest.now catalogue.now) derivation.now) }
{
    match check(alloc, manifest, catalogue, derivation)? {
        Check::Proves => {
            let problem = Problem {
                manifest,
                catalogue,
            };
            let text = tell(alloc, problem, derivation, all)?;
            Ok(Some(text))
        }
        Check::Refused { .. } => Ok(None),
    }
}
