//! Putting a step at spelt vertices into the tables.

ghost use Rattle.std.specs.Prelude.{◌≡◌, [], IfOk};
ghost use Rattle.derivations.specs.inner.Earlier.{AreEarlier, IsReading};
ghost use Rattle.derivations.specs.inner.Named.{named_step_from, set_in_order_view, set_in_order_views};
ghost use Rattle.derivations.specs.inner.Tables.{IsGrown, AreStatesOf, IsTermOf, AreTermsOf, IsOriginOf, IsStepOf};
ghost use Rattle.derivations.specs.inner.Tables.{states_at};
ghost use Rattle.derivations.specs.inner.Tables.{term_at, terms_at, step_by_origin, step_at};
ghost use Rattle.vertices.specs.inner.RefViews.{state_ref_views};

use crate::earlier::{Earlier, Places};
use crate::named::SetInOrder;
use crate::spelt::Spelling;
use crate::step::{Origin, Step, Term};
use crate::tables::Tables;
use std::alloc::{AllocError, Global};
use vertices::StateRef;

/// The step with the numbers of its vertices and states.
pub(crate) fn keep_named(
    alloc: Global,
    tables: &mut Tables,
    steps: &[Step],
    origin: Origin<&Spelling>,
    terms: Vec<SetInOrder<'_, '_, '_>>,
) -> Result<Step, AllocError>
    requires { IsReading tables.old steps.now }
    ensures grown { IsGrown tables.old tables.new }
    ensures within { IfOk result (λ s. IsStepOf tables.new s) }
    ensures step { IfOk result
        (λ s. step_at tables.new s ≡ named_step_from origin.entry (set_in_order_views terms.entry.items)) }
{
    let earlier = Earlier::of(steps, origin.references());
    let origin = keep_origin(alloc, tables, origin)?;
    let terms = keep_sets(alloc, tables, earlier, terms)?;
    Ok(Step { origin, terms })
}

/// Where a step comes from; the vertex of a combination gets its number.
fn keep_origin(
    alloc: Global,
    tables: &mut Tables,
    origin: Origin<&Spelling>,
) -> Result<Origin<usize>, AllocError>
    ensures grown { IsGrown tables.old tables.new }
    ensures within { IfOk result (λ c. IsOriginOf tables.new c) }
    ensures origin { IfOk result (λ c. step_by_origin tables.new c [] ≡ named_step_from origin.entry []) }
{
    match origin {
        Origin::Axiom(kind) => Ok(Origin::Axiom(kind)),
        Origin::Combination(first, second, vertex) => Ok(Origin::Combination(
            first,
            second,
            tables.add_spelling(alloc, vertex)?,
        )),
    }
}

/// The terms by their numbers: those that an earlier step has are taken from there.
fn keep_sets(
    alloc: Global,
    tables: &mut Tables,
    earlier: Earlier<'_>,
    terms: Vec<SetInOrder<'_, '_, '_>>,
) -> Result<Vec<Term>, AllocError>
    requires { AreEarlier tables.old earlier }
    ensures grown { IsGrown tables.old tables.new }
    ensures within { IfOk result (λ v. AreTermsOf tables.new v.items) }
    ensures terms { IfOk result (λ v. terms_at tables.new v.items ≡ set_in_order_views terms.entry.items) }
{
    let mut kept = Vec::with_capacity(alloc, terms.len())?;
    let mut places = Places::new();
    'terms: for term in terms {
        kept.push(found_or_new(alloc, tables, earlier, &mut places, term)?)?;
    }
    Ok(kept)
}

/// The number of a term's vertex and set: those of an earlier term, if it is found there.
fn found_or_new(
    alloc: Global,
    tables: &mut Tables,
    earlier: Earlier<'_>,
    places: &mut Places,
    term: SetInOrder<'_, '_, '_>,
) -> Result<Term, AllocError>
    requires { AreEarlier tables.old earlier }
    ensures grown { IsGrown tables.old tables.new }
    ensures within { IfOk result (λ t. IsTermOf tables.new t) }
    ensures term { IfOk result (λ t. term_at tables.new t ≡ set_in_order_view term.entry) }
{
    match earlier.find_set(tables, places, &term) {
        Some(known) => Ok(known),
        None => keep_set(alloc, tables, term),
    }
}

/// A term that no earlier step has; its vertex, its states and the set of these get their numbers.
fn keep_set(
    alloc: Global,
    tables: &mut Tables,
    term: SetInOrder<'_, '_, '_>,
) -> Result<Term, AllocError>
    ensures grown { IsGrown tables.old tables.new }
    ensures within { IfOk result (λ t. IsTermOf tables.new t) }
    ensures term { IfOk result (λ t. term_at tables.new t ≡ set_in_order_view term.entry) }
{
    let vertex = tables.add_spelling(alloc, term.vertex)?;
    let numbers = keep_states(alloc, tables, term.states.as_slice())?;
    let states = tables.add_set(numbers)?;
    Ok(Term { vertex, states })
}

/// The numbers of states. They mostly follow one another, so each is first looked for behind the one before.
fn keep_states(
    alloc: Global,
    tables: &mut Tables,
    states: &[StateRef<'_>],
) -> Result<Vec<usize>, AllocError>
    ensures grown { IsGrown tables.old tables.new }
    ensures within { IfOk result (λ v. AreStatesOf tables.new v.items) }
    ensures states { IfOk result (λ v. states_at tables.new v.items ≡ state_ref_views states.now) }
{
    let mut kept = Vec::with_capacity(alloc, states.len())?;
    let mut guess = 0usize;
    'states: for state in states {
        let number = tables.add_state_ref(alloc, *state, guess)?;
        guess = number.wrapping_add(1);
        kept.push(number)?;
    }
    Ok(kept)
}
