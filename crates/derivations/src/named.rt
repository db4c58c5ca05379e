//! Terms at spelt vertices, and the written order of these and of their states.

ghost use Rattle.std.specs.Prelude.{◌≡◌, IfOk, map};
ghost use Rattle.std.specs.List.{All, IsDistinct};
ghost use Rattle.std.specs.Ordering.{eq_by_cmp};
ghost use Rattle.vertices.specs.Orders.{state_cmp};
ghost use Rattle.vertices.specs.inner.RefViews.{state_ref_views};
ghost use Rattle.derivations.specs.inner.Building.{IsNewTerm, AreNewTerms, ordered_term, ordered_terms};
ghost use Rattle.model.specs.Order.{in_order};
ghost use Rattle.derivations.specs.inner.Named.{named_view, named_views, set_in_order_view, set_in_order_views};
ghost use Rattle.derivations.specs.inner.Named.{states_in_order};

use crate::spelt::Spelling;
use std::alloc::{AllocError, Global};
use std::cmp::Ordering;
use vertices::{StateRef, state_order};

/// A spelt vertex and a set of its states, in any order.
#[derive(Clone, Copy)]
pub struct NamedTerm<'p, 's, 'v> {
    pub vertex: &'p Spelling,
    pub states: &'s [StateRef<'v>],
}

/// A spelt vertex and a set of its states, in the written order.
#[derive(Drop)]
pub(crate) struct SetInOrder<'p, 's, 'v> {
    pub vertex: &'p Spelling,
    pub states: StatesInOrder<'s, 'v>,
}

/// States in the written order. Those that were given in it stay where they lie.
#[derive(Drop)]
pub(crate) enum StatesInOrder<'s, 'v> {
    Given(&'s [StateRef<'v>]),
    Sorted(Vec<StateRef<'v>>),
}

impl<'s, 'v> StatesInOrder<'s, 'v> {
    pub(crate) fn as_slice(&self) -> &[StateRef<'v>]
        ensures { result.now ≡ states_in_order self.now }
    {
        match self {
            StatesInOrder::Given(states) => states,
            StatesInOrder::Sorted(states) => states.as_slice(),
        }
    }
}

/// The terms in the written order.
pub(crate) fn named_in_order<'p, 's, 'v>(
    alloc: Global,
    terms: &[NamedTerm<'p, 's, 'v>],
) -> Result<Vec<SetInOrder<'p, 's, 'v>>, AllocError>
    requires { AreNewTerms (named_views terms.now) }
    ensures { IfOk result (λ v. set_in_order_views v.items ≡ ordered_terms (named_views terms.now)) }
{
    let mut found = sets_in_order(alloc, terms)?;
    // Where the vertices were spelt in the order of their texts, the numbers leave nothing for the texts to move.
    found.sort_unstable_by_key(|set| set.vertex.guess());
    found.sort_unstable_by(|a, b| a.vertex.text().cmp(b.vertex.text()));
    Ok(found)
}

/// The terms in their own order.
fn sets_in_order<'p, 's, 'v>(
    alloc: Global,
    terms: &[NamedTerm<'p, 's, 'v>],
) -> Result<Vec<SetInOrder<'p, 's, 'v>>, AllocError>
    requires { All IsNewTerm (named_views terms.now) }
    ensures { IfOk result (λ v. set_in_order_views v.items ≡ map ordered_term (named_views terms.now)) }
{
    let mut found = Vec::with_capacity(alloc, terms.len())?;
    'terms: for term in terms {
        found.push(set_in_order(alloc, term)?)?;
    }
    Ok(found)
}

/// One term, with its states in the written order.
fn set_in_order<'p, 's, 'v>(
    alloc: Global,
    term: &NamedTerm<'p, 's, 'v>,
) -> Result<SetInOrder<'p, 's, 'v>, AllocError>
    requires { IsNewTerm (named_view term.now) }
    ensures { IfOk result (λ t. set_in_order_view t ≡ ordered_term (named_view term.now)) }
{
    let states = ordered_states(alloc, term.states)?;
    Ok(SetInOrder {
        vertex: term.vertex,
        states,
    })
}

/// The states in the written order, in which most are given.
fn ordered_states<'s, 'v>(
    alloc: Global,
    states: &'s [StateRef<'v>],
) -> Result<StatesInOrder<'s, 'v>, AllocError>
    requires { IsDistinct (eq_by_cmp state_cmp) (state_ref_views states.now) }
    ensures { IfOk result
        (λ o. state_ref_views (states_in_order o) ≡ in_order state_cmp (state_ref_views states.entry.now)) }
{
    if states.is_sorted_by(|a, b| state_order(*a, *b) == Ordering::Less) {
        return Ok(StatesInOrder::Given(states));
    }
    Ok(StatesInOrder::Sorted(sorted_states(alloc, states)?))
}

/// A sorted copy.
fn sorted_states<'a>(
    alloc: Global,
    states: &[StateRef<'a>],
) -> Result<Vec<StateRef<'a>>, AllocError>
    requires { IsDistinct (eq_by_cmp state_cmp) (state_ref_views states.now) }
    ensures { IfOk result (λ v. state_ref_views v.items ≡ in_order state_cmp (state_ref_views states.now)) }
{
    let mut ordered = Vec::with_capacity(alloc, states.len())?;
    ordered.extend_from_slice(states)?;
    ordered.sort_unstable_by(|a, b| state_order(*a, *b));
    Ok(ordered)
}
