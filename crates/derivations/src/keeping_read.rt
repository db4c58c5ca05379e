//! Putting what a line says into the tables: its vertices and states get their numbers there.

ghost use Rattle.std.specs.Prelude.{◌≡◌, [], IfOk};
ghost use Rattle.derivations.specs.inner.Origins.{step_from};
ghost use Rattle.derivations.specs.inner.Tables.{IsGrown, AreStatesOf, IsTermOf, IsOriginOf, states_at, term_at};
ghost use Rattle.derivations.specs.inner.Tables.{step_by_origin};
ghost use Rattle.derivations.specs.inner.Views.{term_view};
ghost use Rattle.vertices.specs.Views.{state_views};

use crate::spelt::SpeltVertex;
use crate::step::{Origin, Term};
use crate::tables::Tables;
use std::alloc::{AllocError, Global};
use vertices::State;

/// A vertex and a set of its states.
#[derive(Drop)]
pub(crate) struct WholeTerm {
    pub vertex: SpeltVertex,
    pub states: Vec<State>,
}

/// Where a step that was read comes from; the vertex of a combination gets its number.
pub(crate) fn keep_origin(
    tables: &mut Tables,
    origin: Origin<SpeltVertex>,
) -> Result<Origin<usize>, AllocError>
    ensures grown { IsGrown tables.old tables.new }
    ensures within { IfOk result (λ c. IsOriginOf tables.new c) }
    ensures origin { IfOk result (λ c. step_by_origin tables.new c [] ≡ step_from (λ v. v) origin []) }
{
    match origin {
        Origin::Axiom(kind) => Ok(Origin::Axiom(kind)),
        Origin::Combination(first, second, vertex) => Ok(Origin::Combination(
            first,
            second,
            tables.add_vertex(vertex)?,
        )),
    }
}

/// A term that was read; its vertex, its states and the set of these get their numbers.
pub(crate) fn keep_term(
    alloc: Global,
    tables: &mut Tables,
    term: WholeTerm,
) -> Result<Term, AllocError>
    ensures grown { IsGrown tables.old tables.new }
    ensures within { IfOk result (λ t. IsTermOf tables.new t) }
    ensures term { IfOk result (λ t. term_at tables.new t ≡ term_view term) }
{
    let WholeTerm { vertex, states } = term;
    let vertex = tables.add_vertex(vertex)?;
    let numbers = keep_states(alloc, tables, states)?;
    let states = tables.add_set(numbers)?;
    Ok(Term { vertex, states })
}

/// The numbers of states. They mostly follow one another, so each is first looked for behind the one before.
fn keep_states(
    alloc: Global,
    tables: &mut Tables,
    states: Vec<State>,
) -> Result<Vec<usize>, AllocError>
    ensures grown { IsGrown tables.old tables.new }
    ensures within { IfOk result (λ v. AreStatesOf tables.new v.items) }
    ensures states { IfOk result (λ v. states_at tables.new v.items ≡ state_views states.items) }
{
    let mut kept = Vec::with_capacity(alloc, states.len())?;
    let mut guess = 0usize;
    'states: for state in states {
        let number = tables.add_state(alloc, state, guess)?;
        guess = number.wrapping_add(1);
        kept.push(number)?;
    }
    Ok(kept)
}
