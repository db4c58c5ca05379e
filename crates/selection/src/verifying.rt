//! The verdict: the first package, in package order, with its lowest fault.

ghost use Rattle.std.specs.Prelude.{◌≡◌, ◌↔◌, length, IfOk};
ghost use Rattle.semver.specs.Identifiers.{parts_of};
ghost use Rattle.model.specs.Content.{Problem};
ghost use Rattle.model.specs.Selection.{IsValidSelection};
ghost use Rattle.model.specs.Order.{IsContent};
ghost use Rattle.catalogue.specs.Problems.{problem_in};
ghost use Rattle.selection.specs.inner.Places.{content_in, AreFindings};
ghost use Rattle.selection.specs.Verdicts.{IsFaultOf, IsVerdictOn};

use crate::checked::{checked_at, lowest};
use crate::findings::{Findings, findings_of};
use crate::verdict::{Verdict, VerdictFault};
use catalogue::Catalogue;
use features::PackageName;
use lockfile::LockContent;
use manifest::Manifest;
use semver::Version;
use std::alloc::{AllocError, Global};

/// Whether a content is a valid selection of the manifest and the candidates; if not, what is wrong first.
///
/// `alloc` is where the facts of features are kept meanwhile. The only error is want of memory.
pub fn verify(
    alloc: Global,
    manifest: &Manifest,
    catalogue: &Catalogue,
    content: &LockContent,
) -> Result<Verdict, AllocError>
    ensures says { IfOk result (λ v. IsVerdictOn (problem_in manifest.now catalogue.now) content.now v) }
    ensures selects { IfOk result
        (λ v. (v ≡ Verdict.Valid) ↔ IsValidSelection (problem_in manifest.now catalogue.now) content.now) }
{
    let found = findings_of(alloc, manifest, catalogue, content)?;
    match found {
        Some(findings) => verdict_by(alloc, &findings),
        None => invalid(VerdictFault::Root, manifest.name(), manifest.version()),
    }
}

/// The verdict, by what is found.
fn verdict_by(alloc: Global, findings: &Findings<'_>) -> Result<Verdict, AllocError>
    requires content { IsContent (content_in findings.now) }
    requires beside { length findings.now.nodes.items ≡ length findings.now.content.now }
    ensures { IfOk result
        (λ v. (q : Problem) → AreFindings q findings.now → IsVerdictOn q (content_in findings.now) v) }
{
    'places: for at in 0..findings.content.len() {
        let checked = checked_at(alloc, findings, at)?;
        if let Some(fault) = lowest(checked) {
            let package = &findings.content[at];
            return invalid(fault, &package.name, &package.version);
        }
    }
    Ok(Verdict::Valid)
}

/// A fault at a package.
fn invalid(
    fault: VerdictFault,
    name: &PackageName,
    version: &Version,
) -> Result<Verdict, AllocError>
    ensures { IfOk result (IsFaultOf fault name.now (parts_of version.now)) }
{
    Ok(Verdict::Invalid {
        fault,
        name: name.clone()?,
        version: version.clone()?,
    })
}
