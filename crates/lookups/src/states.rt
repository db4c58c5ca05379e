//! Sets of states in the written order.

ghost use Rattle.std.specs.Prelude.{◌≡◌, ◌∷◌, [], ◌++◌, ◌||◌, ◌&&◌, not, option_map, IfOk};
ghost use Rattle.std.specs.List.{list_all};
ghost use Rattle.std.specs.List.Sorted.{IsStrictlySortedBy};
ghost use Rattle.model.specs.Derivation.{both};
ghost use Rattle.model.specs.Vertices.{has_state};
ghost use Rattle.vertices.specs.Orders.{state_cmp};
ghost use Rattle.model.specs.inner.Instances.{first_of};
ghost use Rattle.model.specs.inner.Terms.{is_within, same_states};
ghost use Rattle.lookups.specs.inner.Sets.{all_in_either, all_in_both, all_shared_in};
ghost use Rattle.vertices.specs.inner.RefViews.{state_ref_view, state_ref_views};

use std::alloc::{AllocError, Global};
use std::marker::Model;
use vertices::{StateRef, same_state, state_order};

/// A set of states.
#[derive(Drop)]
pub struct StateSet<'a> {
    states: Vec<StateRef<'a>>,
}

impl<'a> Model for StateSet<'a> {
    ghost use Rattle.std.specs.Prelude.{List};
    ghost use Rattle.std.specs.List.Sorted.{IsStrictlySortedBy};
    ghost use Rattle.model.specs.Vertices.{State};
    ghost use Rattle.vertices.specs.Orders.{state_cmp};
    ghost use Rattle.vertices.specs.inner.RefViews.{state_ref_views};

    ghost Value = { List State };

    ghost view = { λ s. state_ref_views s.states.items };

    ghost invariant = { λ s. IsStrictlySortedBy state_cmp (state_ref_views s.states.items) };
}

impl<'a> StateSet<'a> {
    /// The set of states that rise.
    pub fn rising(states: Vec<StateRef<'a>>) -> StateSet<'a>
        requires { IsStrictlySortedBy state_cmp (state_ref_views states.items) }
        ensures { result ≡ state_ref_views states.entry.items }
    {
        StateSet { states }
    }

    /// The set of one state.
    pub fn one(alloc: Global, state: StateRef<'a>) -> Result<StateSet<'a>, AllocError>
        ensures { IfOk result (λ s. s ≡ state_ref_view state.entry ∷ []) }
    {
        let mut states = Vec::new(alloc);
        states.push(state)?;
        Ok(StateSet { states })
    }

    /// The same set once more.
    pub fn copy(&self, alloc: Global) -> Result<StateSet<'a>, AllocError>
        ensures { IfOk result (λ s. s ≡ self.now) }
    {
        let mut states = Vec::with_capacity(alloc, self.states.len())?;
        states.extend_from_slice(self.states.as_slice())?;
        Ok(StateSet { states })
    }

    pub fn first(&self) -> Option<StateRef<'a>>
        ensures { option_map state_ref_view result ≡ first_of self.now }
    {
        self.states.first().copied()
    }

    /// Whether the state is in the set.
    pub fn has(&self, state: &StateRef<'_>) -> bool
        ensures { result ≡ has_state self.now (state_ref_view state.now) }
    {
        is_in(self.states.as_slice(), state)
    }

    /// Whether the two are one set.
    pub fn is_same(&self, other: &StateSet<'_>) -> bool
        ensures { result ≡ same_states self.now other.now }
    {
        self.lies_in(other) && other.lies_in(self)
    }

    /// Whether it is the union of two others.
    pub fn is_union(&self, a: &StateSet<'_>, b: &StateSet<'_>) -> bool
        ensures { result ≡ same_states self.now (a.now ++ b.now) }
    {
        self.lies_in_either(a, b) && self.has_all(a, b)
    }

    /// Whether it is the intersection of two others.
    pub fn is_meet(&self, a: &StateSet<'_>, b: &StateSet<'_>) -> bool
        ensures { result ≡ same_states self.now (both a.now b.now) }
    {
        self.lies_in_both(a, b) && a.shares_in(b, self)
    }

    fn has_all(&self, a: &StateSet<'_>, b: &StateSet<'_>) -> bool
        ensures { result ≡ (is_within a.now self.now && is_within b.now self.now) }
    {
        a.lies_in(self) && b.lies_in(self)
    }

    /// Whether each of its states is in the other.
    fn lies_in(&self, other: &StateSet<'_>) -> bool
        ensures { result ≡ is_within self.now other.now }
    {
        all_in(self.states.as_slice(), other)
    }

    /// Whether each of its states is in one of the others.
    fn lies_in_either(&self, a: &StateSet<'_>, b: &StateSet<'_>) -> bool
        ensures { result ≡ all_in_either self.now a.now b.now }
    {
        all_in_either(self.states.as_slice(), a, b)
    }

    /// Whether each of its states is in both others.
    fn lies_in_both(&self, a: &StateSet<'_>, b: &StateSet<'_>) -> bool
        ensures { result ≡ all_in_both self.now a.now b.now }
    {
        all_in_both(self.states.as_slice(), a, b)
    }

    /// Whether each state that it shares with the second is in the third.
    fn shares_in(&self, second: &StateSet<'_>, third: &StateSet<'_>) -> bool
        ensures { result ≡ all_shared_in self.now second.now third.now }
    {
        all_shared_in(self.states.as_slice(), second, third)
    }
}

/// Whether the state is in one of two sets.
fn either_has(a: &StateSet<'_>, b: &StateSet<'_>, state: &StateRef<'_>) -> bool
    ensures { result ≡ (has_state a.now (state_ref_view state.now) || has_state b.now (state_ref_view state.now)) }
{
    a.has(state) || b.has(state)
}

fn both_have(a: &StateSet<'_>, b: &StateSet<'_>, state: &StateRef<'_>) -> bool
    ensures { result ≡ (has_state a.now (state_ref_view state.now) && has_state b.now (state_ref_view state.now)) }
{
    a.has(state) && b.has(state)
}

fn has_if_other_has(states: &StateSet<'_>, other: &StateSet<'_>, state: &StateRef<'_>) -> bool
    ensures { result
        ≡ (not (has_state other.now (state_ref_view state.now)) || has_state states.now (state_ref_view state.now)) }
{
    !other.has(state) || states.has(state)
}

fn all_in(states: &[StateRef<'_>], set: &StateSet<'_>) -> bool
    ensures { result ≡ list_all (λ s. has_state set.now (state_ref_view s)) states.now }
{
    states.iter().all(|state| set.has(state))
}

fn all_in_either(states: &[StateRef<'_>], a: &StateSet<'_>, b: &StateSet<'_>) -> bool
    ensures { result
        ≡ list_all (λ s. has_state a.now (state_ref_view s) || has_state b.now (state_ref_view s)) states.now }
{
    states.iter().all(|state| either_has(a, b, state))
}

fn all_in_both(states: &[StateRef<'_>], a: &StateSet<'_>, b: &StateSet<'_>) -> bool
    ensures { result
        ≡ list_all (λ s. has_state a.now (state_ref_view s) && has_state b.now (state_ref_view s)) states.now }
{
    states.iter().all(|state| both_have(a, b, state))
}

fn all_shared_in(states: &[StateRef<'_>], second: &StateSet<'_>, third: &StateSet<'_>) -> bool
    ensures { result ≡ list_all (λ s. not (has_state second.now (state_ref_view s))
        || has_state third.now (state_ref_view s)) states.now }
{
    states
        .iter()
        .all(|state| has_if_other_has(third, second, state))
}

/// Whether the state is one of these.
fn is_in(states: &[StateRef<'_>], sought: &StateRef<'_>) -> bool
    requires { IsStrictlySortedBy state_cmp (state_ref_views states.now) }
    ensures { result ≡ has_state (state_ref_views states.now) (state_ref_view sought.now) }
{
    match states.binary_search_by(|state| state_order(*state, *sought)) {
        Ok(place) => same_state(sought, &states[place]),
        Err(_) => false,
    }
}
