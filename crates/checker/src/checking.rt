//! The check of a derivation, step by step.

ghost use Rattle.std.specs.Prelude.{◌≡◌, ◌↔◌, ℕ, IfOk, List, []};
ghost use Rattle.model.specs.Axioms as axioms;
ghost use Rattle.model.specs.Content.{Content};
ghost use Rattle.model.specs.Derivation.{IsAccepted};
ghost use Rattle.model.specs.Selection.{IsValidSelection};
ghost use Rattle.model.specs.inner.Checks.{end_refused, first_refused, is_none_left, is_step, reason_of};
ghost use Rattle.model.specs.inner.Checks.{refused_step};
ghost use Rattle.catalogue.specs.Problems.{problem_in};
ghost use Rattle.derivations.specs.inner.Derivations.{IsDerivation};
ghost use Rattle.derivations.specs.inner.Tables.{TablesView, step_at, step_by_origin, steps_at, terms_at};
ghost use Rattle.axioms.specs.inner.GatheredViews.{problem_of};
ghost use Rattle.checker.specs.inner.Answers.{check_view, reason_view};
ghost use Rattle.checker.specs.RefusedSteps.{IsRefusedAt};
ghost use Rattle.checker.specs.inner.Prepared.{IsPrepared};
ghost use Rattle.checker.specs.inner.Ready.{AreReadySteps, IsReadyStep, tables_of};
ghost use Rattle.checker.specs.inner.Steps.{AreOrderedSteps};

use crate::combination::Claim;
use crate::names::Names;
use crate::naming::names_of;
use crate::outcome::{Check, Reason};
use crate::preparing::{Prepared, is_axiom, prepare};
use axioms::Gathered;
use catalogue::{Catalogue, catalogues_are_well_formed};
use derivations::{Derivation, Origin, Step, Tables, Term};
use manifest::Manifest;
use model::refutations::unrefused_derivations_refute;
use std::alloc::{AllocError, Global};

/// Whether a derivation shows that a manifest has no valid selection over a loaded index.
///
/// # Errors
/// Want of memory.
pub fn check(
    alloc: Global,
    manifest: &Manifest,
    catalogue: &Catalogue,
    derivation: &Derivation,
) -> Result<Check, AllocError>
    ensures proves { IfOk result
        (λ c. c ≡ Check.Proves ↔ IsAccepted (problem_in manifest.now catalogue.now) derivation.now) }
    ensures refused { IfOk result (λ c. (n : ℕ) (r : Reason)
        → c ≡ Check.Refused n r ↔ IsRefusedAt (problem_in manifest.now catalogue.now) derivation.now n r) }
    ensures refutes { IfOk result (λ c. c ≡ Check.Proves → (content : Content)
        → IsValidSelection (problem_in manifest.now catalogue.now) content → ⊥) }
{
    catalogues_are_well_formed(manifest, catalogue);
    unrefused_derivations_refute();
    refused_step_of(alloc, manifest, catalogue, derivation)
}

/// What refuses the steps of a derivation, looked up in the manifest and the loaded index.
fn refused_step_of<'a>(
    alloc: Global,
    manifest: &'a Manifest,
    catalogue: &'a Catalogue,
    derivation: &'a Derivation,
) -> Result<Check, AllocError>
    ensures refused_step { IfOk result
        (λ c. check_view c ≡ refused_step (problem_in manifest.now catalogue.now) derivation.now) }
    ensures derivation { IsDerivation derivation.now }
{
    let (tables, steps) = derivation.parts();
    let mut gathered = Gathered::new(alloc, manifest, catalogue)?;
    answer(alloc, &mut gathered, tables, steps)
}

/// The first step that doesn't follow, or what is wrong with the end.
fn answer<'a>(
    alloc: Global,
    gathered: &mut Gathered<'a>,
    tables: &'a Tables,
    steps: &[Step],
) -> Result<Check, AllocError>
    requires { AreOrderedSteps tables.now steps.now }
    ensures { IfOk result (λ c. check_view c ≡ refused_step (problem_of gathered.old) (steps_at tables.now steps.now)) }
{
    let names = names_of(alloc, tables, steps)?;
    match first_refused(alloc, gathered, &names, steps)? {
        Check::Proves => Ok(end_of(steps)),
        refused => Ok(refused),
    }
}

/// The first step that doesn't follow, if there is one.
fn first_refused<'a>(
    alloc: Global,
    gathered: &mut Gathered<'a>,
    names: &Names<'a>,
    steps: &[Step],
) -> Result<Check, AllocError>
    requires { AreReadySteps names.now steps.now }
    ensures { IfOk result
        (λ c. check_view c ≡ first_refused (problem_of gathered.old) [] (steps_at (tables_of names.now) steps.now)) }
{
    'steps: for (number, step) in steps.iter().enumerate() {
        let prepared = prepare(alloc, gathered, names, step)?;
        if !is_step(gathered, names, &steps[..number], step, prepared) {
            return Ok(Check::Refused {
                step: number as u64,
                reason: reason_of(&step.origin),
            });
        }
    }
    Ok(Check::Proves)
}

/// Whether a step is accepted after the earlier ones.
fn is_step<'a>(
    gathered: &Gathered<'a>,
    names: &Names<'a>,
    earlier: &[Step],
    step: &Step,
    prepared: Prepared,
) -> bool
    requires earlier { AreReadySteps names.now earlier.now }
    requires step { IsReadyStep names.now step.now }
    requires prepared { IsPrepared (problem_of gathered.now) (tables_of names.now) step.now prepared }
    ensures { result ≡ is_step (problem_of gathered.now) (steps_at (tables_of names.now) earlier.now)
        (step_at (tables_of names.now) step.now) }
{
    match &step.origin {
        Origin::Axiom(_) => is_axiom(prepared),
        Origin::Combination(first, second, vertex) => {
            let (Some(a), Some(b)) = (earlier.get(*first as usize), earlier.get(*second as usize))
            else {
                return false;
            };
            let claim = Claim {
                gathered,
                names,
                vertex: *vertex,
                first: &a.terms,
                second: &b.terms,
                terms: &step.terms,
            };
            claim.holds()
        }
    }
}

fn reason_of(origin: &Origin<usize>) -> Reason
    ensures { (t : TablesView) (terms : List axioms.Term)
        → reason_view result ≡ reason_of (step_by_origin t origin.now terms) }
{
    match origin {
        Origin::Axiom(_) => Reason::NotAnAxiom,
        Origin::Combination(_, _, _) => Reason::BadCombination,
    }
}

/// What is wrong with the end: that there is none, or that the last step has a term.
fn end_of(steps: &[Step]) -> Check
    ensures { (t : TablesView) → check_view result ≡ end_refused 0 (steps_at t steps.now) }
{
    match steps.last() {
        None => Check::Refused {
            step: 0,
            reason: Reason::NotFinal,
        },
        Some(last) => {
            if has_no_term(&last.terms) {
                Check::Proves
            } else {
                Check::Refused {
                    step: steps.len() as u64 - 1,
                    reason: Reason::NotFinal,
                }
            }
        }
    }
}

fn has_no_term(terms: &[Term]) -> bool
    ensures { (t : TablesView) → result ≡ is_none_left (terms_at t terms.now) }
{
    terms.is_empty()
}
