//! The vertices, states and sets of states of a derivation, each once: its steps name them by their numbers.

ghost use Rattle.std.specs.Prelude.{◌≡◌, ◌<◌, IfOk, IsTrue, Some, length, map, slice_get};
ghost use Rattle.derivations.specs.inner.Tables.{no_tables, vertex_at, state_at, set_at, AreSetsOf, AreStatesOf};
ghost use Rattle.derivations.specs.inner.Tables.{IsGrown};
ghost use Rattle.vertices.specs.inner.RefViews.{state_ref_view};
ghost use Rattle.vertices.specs.Texts.{state_text, vertex_text};
ghost use Rattle.vertices.specs.Views.{vertex_view, state_view};

use crate::owning::{owned_state, owned_vertex};
use crate::spelt::{Spelling, SpeltState, SpeltVertex};
use indexmap::IndexSet;
use std::alloc::{AllocError, Global};
use std::marker::Model;
use vertices::{State, StateRef, Vertex};

/// The vertices and the sets of states that steps name by numbers. A set has the numbers of its states.
///
/// Each vertex and state stands with its text, by which terms that are read are found again.
#[derive(Drop)]
pub struct Tables {
    vertices: IndexSet<SpeltVertex>,
    states: IndexSet<SpeltState>,
    sets: IndexSet<Vec<usize>>,
}

impl Model for Tables {
    ghost use Rattle.std.specs.Prelude.{map};
    ghost use Rattle.derivations.specs.inner.Tables.{AreSetsOf, TablesView};

    ghost Value = { TablesView };

    ghost view = { λ t.
        record { vertices = t.vertices.keys; states = t.states.keys; sets = map (λ v. v.items) t.sets.keys } };

    ghost invariant = { λ t. AreSetsOf t.states.keys (map (λ v. v.items) t.sets.keys) };
}

impl Tables {
    pub(crate) fn new(alloc: Global) -> Tables
        ensures { result ≡ no_tables }
    {
        Tables {
            vertices: IndexSet::new(alloc),
            states: IndexSet::new(alloc),
            sets: IndexSet::new(alloc),
        }
    }

    /// The vertex of this number.
    pub fn vertex(&self, number: usize) -> &Vertex
        requires { number < length self.now.vertices }
        ensures { vertex_view result.now ≡ vertex_at self.now number }
    {
        self.vertices.as_slice()[number].vertex()
    }

    /// Whether there is a vertex of this number whose text is less than another.
    pub(crate) fn is_before(&self, number: usize, text: &str) -> bool {
        match self.vertices.as_slice().get(number) {
            Some(vertex) => vertex.text() < text,
            None => false,
        }
    }

    /// The text of the vertex of this number.
    pub fn vertex_text(&self, number: usize) -> &str
        requires { number < length self.now.vertices }
        ensures { result.now ≡ vertex_text (vertex_at self.now number) }
    {
        self.vertices.as_slice()[number].text()
    }

    /// The state of this number.
    pub fn state(&self, number: usize) -> &State
        requires { number < length self.now.states }
        ensures { state_view result.now ≡ state_at self.now number }
    {
        self.states.as_slice()[number].state()
    }

    /// The text of the state of this number.
    pub fn state_text(&self, number: usize) -> &str
        requires { number < length self.now.states }
        ensures { result.now ≡ state_text (state_at self.now number) }
    {
        self.states.as_slice()[number].text()
    }

    /// The numbers of the states in the set of this number.
    pub fn set(&self, number: usize) -> &[usize]
        requires { number < length self.now.sets }
        ensures { result.now ≡ set_at self.now number }
    {
        self.sets.as_slice()[number].as_slice()
    }

    /// Each set.
    pub fn sets(&self) -> &[Vec<usize>]
        ensures sets { map (λ v. v.items) result.now ≡ self.now.sets }
        ensures within { AreSetsOf self.now.states self.now.sets }
    {
        self.sets.as_slice()
    }

    /// The number of a vertex, which is added unless it is there.
    pub(crate) fn add_vertex(&mut self, vertex: SpeltVertex) -> Result<usize, AllocError>
        ensures grown { IsGrown self.old self.new }
        ensures number { IfOk result (λ n. (n < length self.new.vertices) × (vertex_at self.new n ≡ vertex)) }
    {
        let (number, _) = self.vertices.insert_full(vertex)?;
        Ok(number)
    }

    /// The number of a spelt vertex, which is added unless it is there. The number that is guessed is looked at before
    /// the vertex is parsed anew and hashed.
    pub(crate) fn add_spelling(
        &mut self,
        alloc: Global,
        spelling: &Spelling,
    ) -> Result<usize, AllocError>
        ensures grown { IsGrown self.old self.new }
        ensures number { IfOk result (λ n. (n < length self.new.vertices) × (vertex_at self.new n ≡ spelling.now)) }
    {
        let guess = spelling.guess();
        if self.has_vertex_at(guess, spelling.vertex()) {
            return Ok(guess);
        }
        let text = spelling.text();
        let vertex = owned_vertex(alloc, text)?;
        self.add_vertex(SpeltVertex::new(alloc, text, vertex)?)
    }

    /// Whether a vertex has this number.
    pub(crate) fn has_vertex_at(&self, number: usize, vertex: &Vertex) -> bool
        ensures { IsTrue result → slice_get self.now.vertices number ≡ Some (vertex_view vertex.now) }
    {
        match self.vertices.as_slice().get(number) {
            Some(there) => there.vertex() == vertex,
            None => false,
        }
    }

    /// The number of a state, which is added unless it is there. Most states of a set follow one another in the table
    /// too, so the number that is guessed is looked at before the hash.
    pub(crate) fn add_state(
        &mut self,
        alloc: Global,
        state: State,
        guess: usize,
    ) -> Result<usize, AllocError>
        ensures grown { IsGrown self.old self.new }
        ensures number { IfOk result (λ n. (n < length self.new.states) × (state_at self.new n ≡ state_view state)) }
    {
        if self.has_at(guess, state.borrowed()) {
            return Ok(guess);
        }
        self.hash_state(SpeltState::new(alloc, state)?)
    }

    /// The same of a state that lies elsewhere.
    pub(crate) fn add_state_ref(
        &mut self,
        alloc: Global,
        state: StateRef<'_>,
        guess: usize,
    ) -> Result<usize, AllocError>
        ensures grown { IsGrown self.old self.new }
        ensures number { IfOk result
            (λ n. (n < length self.new.states) × (state_at self.new n ≡ state_ref_view state.entry)) }
    {
        if self.has_at(guess, state) {
            return Ok(guess);
        }
        self.hash_state(SpeltState::new(alloc, owned_state(state)?)?)
    }

    /// Whether a state has this number.
    pub(crate) fn has_at(&self, number: usize, state: StateRef<'_>) -> bool
        ensures { IsTrue result → slice_get self.now.states number ≡ Some (state_ref_view state.entry) }
    {
        match self.states.as_slice().get(number) {
            Some(there) => there.state().borrowed() == state,
            None => false,
        }
    }

    fn hash_state(&mut self, state: SpeltState) -> Result<usize, AllocError>
        ensures grown { IsGrown self.old self.new }
        ensures number { IfOk result (λ n. (n < length self.new.states) × (state_at self.new n ≡ state)) }
    {
        let (number, _) = self.states.insert_full(state)?;
        Ok(number)
    }

    /// The number of a set of states, which is added unless it is there.
    pub(crate) fn add_set(&mut self, states: Vec<usize>) -> Result<usize, AllocError>
        requires { AreStatesOf self.old states.items }
        ensures grown { IsGrown self.old self.new }
        ensures number { IfOk result (λ n. (n < length self.new.sets) × (set_at self.new n ≡ states.items)) }
    {
        let (number, _) = self.sets.insert_full(states)?;
        Ok(number)
    }
}
