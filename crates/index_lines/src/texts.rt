//! What texts of a line are, versions and requirements, and texts that outlive their line: what the shortcuts need, and
//! a line that is read as a whole.

ghost use Rattle.std.specs.Prelude.{◌≡◌, ◌≢◌, ◌⊎◌, IfOk, map};
ghost use Rattle.std.specs.Cmp.Lexicographic.{pointwise};
ghost use Rattle.std.specs.List.{list_all, zip};
ghost use Rattle.semver.specs.Grammar.{IsValid};
ghost use Rattle.semver.specs.Identifiers.{parts_of};
ghost use Rattle.semver.specs.Parse.{memory_error, req_of, version_parts};
ghost use Rattle.model.specs.Outcome.{Gives};
ghost use Rattle.model.specs.Summary.{same_text};
ghost use Rattle.features.specs.inner.NameTexts.{text_bytes};
ghost use Rattle.features.specs.Views.{requirement_view, text_views};
ghost use Rattle.index_lines.specs.Shapes.{wants_memory};
ghost use Rattle.index_lines.specs.Records.{semver_or, unless};

use crate::fault::{LineFault, SkipReason};
use features::NameText;
use semver::{Version, VersionReq};
use std::alloc::{AllocError, Global};

/// A line goes on only where a test passes.
pub(crate) fn check(passes: bool, why: SkipReason) -> Result<(), LineFault>
    ensures { Gives wants_memory (λ u. u) result (unless passes why) }
{
    if passes {
        Ok(())
    } else {
        Err(LineFault::Skipped(why))
    }
}

/// The version that a text is.
pub(crate) fn version(alloc: Global, text: &str) -> Result<Version, LineFault>
    ensures read { Gives wants_memory parts_of result (semver_or SkipReason.BadVersion (version_parts text.now)) }
    ensures valid { IfOk result (λ v. IsValid (parts_of v)) }
{
    match Version::parse(alloc, text) {
        Ok(version) => Ok(version),
        Err(e) => Err(fault_of(e, SkipReason::BadVersion)),
    }
}

/// The requirement that a text is.
pub(crate) fn requirement_read(alloc: Global, text: &str) -> Result<VersionReq, LineFault>
    ensures { Gives wants_memory requirement_view result (semver_or SkipReason.BadRequirement (req_of text.now)) }
{
    match VersionReq::parse(alloc, text) {
        Ok(requirement) => Ok(fitted(alloc, requirement)?),
        Err(e) => Err(fault_of(e, SkipReason::BadRequirement)),
    }
}

/// The same requirement in no more room than it needs: `semver` makes room for several comparators.
fn fitted(alloc: Global, mut requirement: VersionReq) -> Result<VersionReq, AllocError>
    ensures { IfOk result (λ r. requirement_view r ≡ requirement_view requirement) }
{
    let mut comparators = Vec::with_capacity(alloc, requirement.comparators.len())?;
    comparators.append(&mut requirement.comparators)?;
    Ok(VersionReq { comparators })
}

/// What an error of `semver` is as a reason to skip.
fn fault_of(e: semver::Error, why: SkipReason) -> LineFault
    ensures { ((result ≡ LineFault.OutOfMemory) × (e ≡ memory_error))
        ⊎ ((result ≡ LineFault.Skipped why) × (e ≢ memory_error)) }
{
    if e == semver::Error::from(AllocError) {
        LineFault::OutOfMemory
    } else {
        LineFault::Skipped(why)
    }
}

/// The same texts in memory of their own, of which short ones take none.
pub(crate) fn kept_texts(alloc: Global, texts: &[&str]) -> Result<Vec<NameText>, AllocError>
    ensures { IfOk result (λ v. map text_bytes v.items ≡ text_views texts.now) }
{
    let mut found = Vec::with_capacity(alloc, texts.len())?;
    'texts: for text in texts {
        found.push(NameText::of(alloc, text)?)?;
    }
    Ok(found)
}

/// Whether these texts are those that are kept.
pub(crate) fn are_texts(known: &[NameText], texts: &[&str]) -> bool
    ensures { result ≡ pointwise same_text (map text_bytes known.now) (text_views texts.now) }
{
    known.len() == texts.len() && all_texts(known, texts)
}

fn all_texts(known: &[NameText], texts: &[&str]) -> bool
    ensures { result ≡ list_all (λ p. same_text (text_bytes p.0) p.1.now) (zip known.now texts.now) }
{
    known
        .iter()
        .zip(texts)
        .all(|(known, text)| known.as_str() == *text)
}
