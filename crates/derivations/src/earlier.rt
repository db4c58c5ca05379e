//! Terms that a step before has too: they are known by their texts or states, and neither parsed nor looked up again.

ghost use Rattle.std.specs.Prelude.{◌≡◌, ◌<◌, IfSome, IsTrue, Ok, Some, length};
ghost use Rattle.serde_json.specs.Find as json;
ghost use Rattle.trees.specs.Trees.{tree_view, trees_view};
ghost use Rattle.model.specs.Axioms.{at};
ghost use Rattle.vertices.specs.inner.RefViews.{state_ref_views};
ghost use Rattle.vertices.specs.Texts.{state_text, vertex_text};
ghost use Rattle.derivations.specs.inner.Derivations.{IsTerm};
ghost use Rattle.derivations.specs.inner.Earlier.{AreEarlier, AreTermsBefore, AreWritten, HaveTexts, IsReading};
ghost use Rattle.derivations.specs.inner.Earlier.{term_from};
ghost use Rattle.derivations.specs.inner.Named.{set_in_order_view};
ghost use Rattle.derivations.specs.inner.Tables.{AreStatesOf, IsTermOf, TablesView, state_at, states_at, term_at};
ghost use Rattle.derivations.specs.inner.Tables.{vertex_at};

use crate::named::SetInOrder;
use crate::step::{Step, Term};
use crate::tables::Tables;
use std::alloc::Global;
use trees::{Tree, as_list, as_text};
use vertices::StateRef;

/// The terms of the two steps that a step combines: most of its own are among them.
#[derive(Clone, Copy)]
pub(crate) struct Earlier<'s> {
    first: &'s [Term],
    second: &'s [Term],
}

/// Where in both a term is looked for first. Nothing follows from it.
#[derive(Drop)]
pub(crate) struct Places {
    first: usize,
    second: usize,
}

impl Places {
    /// At the first terms.
    pub(crate) fn new() -> Places {
        Places {
            first: 0,
            second: 0,
        }
    }
}

impl<'s> Earlier<'s> {
    /// Those of the steps of these numbers. An axiom has none.
    pub(crate) fn of(steps: &'s [Step], parents: Option<(u64, u64)>) -> Earlier<'s>
        ensures { (t : TablesView) → IsReading t steps.entry.now → AreEarlier t result }
    {
        match parents {
            None => Earlier {
                first: &[],
                second: &[],
            },
            Some((first, second)) => Earlier {
                first: terms_of(steps, first),
                second: terms_of(steps, second),
            },
        }
    }

    /// The term among them that a text of a vertex and a tree of states are, if it is found.
    pub(crate) fn find(
        &self,
        alloc: Global,
        tables: &Tables,
        places: &mut Places,
        text: &str,
        states: &Tree<'_, '_>,
    ) -> Option<Term>
        requires { AreEarlier tables.now self.now }
        ensures within { IfSome result (IsTermOf tables.now) }
        ensures term { IfSome result (λ t. term_from text.now (tree_view states.now) ≡ Ok (term_at tables.now t)) }
    {
        match find_among(alloc, tables, self.first, &mut places.first, text, states) {
            Some(term) => Some(term),
            None => find_among(alloc, tables, self.second, &mut places.second, text, states),
        }
    }

    /// The term among them with this vertex and these states, if it is found.
    pub(crate) fn find_set(
        &self,
        tables: &Tables,
        places: &mut Places,
        set: &SetInOrder<'_, '_, '_>,
    ) -> Option<Term>
        requires { AreEarlier tables.now self.now }
        ensures within { IfSome result (IsTermOf tables.now) }
        ensures term { IfSome result (λ t. term_at tables.now t ≡ set_in_order_view set.now) }
    {
        let vertex = set.vertex.guess();
        if !tables.has_vertex_at(vertex, set.vertex.vertex()) {
            return None;
        }
        self.find_states(tables, places, vertex, set.states.as_slice())
    }

    /// The term among them with the vertex of this number and these states, if it is found.
    fn find_states(
        &self,
        tables: &Tables,
        places: &mut Places,
        vertex: usize,
        states: &[StateRef<'_>],
    ) -> Option<Term>
        requires { AreEarlier tables.now self.now }
        ensures within { IfSome result (IsTermOf tables.now) }
        ensures term { IfSome result
            (λ t. term_at tables.now t ≡ at (vertex_at tables.now vertex) (state_ref_views states.now)) }
    {
        match find_states_among(tables, self.first, &mut places.first, vertex, states) {
            Some(term) => Some(term),
            None => find_states_among(tables, self.second, &mut places.second, vertex, states),
        }
    }
}

/// The terms of the step of this number, if there is one.
fn terms_of(steps: &[Step], number: u64) -> &[Term]
    ensures { (t : TablesView) → IsReading t steps.entry.now → AreTermsBefore t result.now }
{
    if number >= steps.len() as u64 {
        return &[];
    }
    match steps.get(number as usize) {
        Some(step) => &step.terms,
        None => &[],
    }
}

/// The place of the first term whose vertex's text isn't less, among terms that stand by the bytes of these. Most terms
/// are looked for in their order, so the place after the last one is tried first.
fn seek(tables: &Tables, terms: &[Term], from: usize, text: &str) -> usize {
    if !is_before(tables, terms, from, text) {
        return from;
    }
    let next = from.wrapping_add(1);
    if !is_before(tables, terms, next, text) {
        return next;
    }
    terms.partition_point(|term| tables.is_before(term.vertex, text))
}

fn is_before(tables: &Tables, terms: &[Term], place: usize, text: &str) -> bool {
    match terms.get(place) {
        Some(term) => tables.is_before(term.vertex, text),
        None => false,
    }
}

/// The same among the terms of one step.
fn find_among(
    alloc: Global,
    tables: &Tables,
    terms: &[Term],
    from: &mut usize,
    text: &str,
    states: &Tree<'_, '_>,
) -> Option<Term>
    requires { AreTermsBefore tables.now terms.now }
    ensures within { IfSome result (IsTermOf tables.now) }
    ensures term { IfSome result (λ t. term_from text.now (tree_view states.now) ≡ Ok (term_at tables.now t)) }
{
    let place = seek(tables, terms, *from, text);
    let Some(term) = terms.get(place) else {
        return None;
    };
    let found = known(alloc, tables, term, text, states);
    if found.is_some() {
        *from = place.wrapping_add(1);
    }
    found
}

/// The term, if it is the one of these texts.
fn known(
    alloc: Global,
    tables: &Tables,
    term: &Term,
    text: &str,
    states: &Tree<'_, '_>,
) -> Option<Term>
    requires within { IsTermOf tables.now term.now }
    requires reads { IsTerm (term_at tables.now term.now) }
    ensures within { IfSome result (IsTermOf tables.now) }
    ensures term { IfSome result (λ t. term_from text.now (tree_view states.now) ≡ Ok (term_at tables.now t)) }
{
    if tables.vertex_text(term.vertex) != text {
        return None;
    }
    if are_written(alloc, tables, tables.set(term.states), states) {
        Some(*term)
    } else {
        None
    }
}

/// Whether the states of these numbers are written so; not where memory is wanting for a list of what is written.
fn are_written(alloc: Global, tables: &Tables, numbers: &[usize], states: &Tree<'_, '_>) -> bool
    requires { AreStatesOf tables.now numbers.now }
    ensures { IsTrue result → AreWritten (tree_view states.now) (states_at tables.now numbers.now) }
{
    let Ok(Some(values)) = as_list(alloc, states) else {
        return false;
    };
    if values.len() != numbers.len() {
        return false;
    }
    have_texts(tables, numbers, &values)
}

/// Whether the states of these numbers have these texts.
fn have_texts(tables: &Tables, numbers: &[usize], values: &Vec<Tree<'_, '_>>) -> bool
    requires states { AreStatesOf tables.now numbers.now }
    requires len { length values.now.items ≡ length numbers.now }
    ensures { IsTrue result → HaveTexts (trees_view values.now.items) (states_at tables.now numbers.now) }
{
    'values: for (index, value) in values.iter().enumerate() {
        if !has_text(tables, numbers[index], value) {
            return false;
        }
    }
    true
}

/// Whether the state of this number has this text.
fn has_text(tables: &Tables, number: usize, value: &Tree<'_, '_>) -> bool
    requires { number < length tables.now.states }
    ensures { IsTrue result → json.as_str (tree_view value.now) ≡ Some (state_text (state_at tables.now number)) }
{
    match as_text(value) {
        Some(text) => text == tables.state_text(number),
        None => false,
    }
}

/// The place of the first term whose vertex's number isn't less, among terms whose numbers rise: nothing follows from
/// that. Most terms are looked for in their order here too.
fn seek_number(terms: &[Term], from: usize, vertex: usize) -> usize {
    if !is_below(terms, from, vertex) {
        return from;
    }
    let next = from.wrapping_add(1);
    if !is_below(terms, next, vertex) {
        return next;
    }
    terms.partition_point(|term| term.vertex < vertex)
}

fn is_below(terms: &[Term], place: usize, vertex: usize) -> bool {
    match terms.get(place) {
        Some(term) => term.vertex < vertex,
        None => false,
    }
}

/// The term with the vertex of this number and these states among the terms of one step.
fn find_states_among(
    tables: &Tables,
    terms: &[Term],
    from: &mut usize,
    vertex: usize,
    states: &[StateRef<'_>],
) -> Option<Term>
    requires { AreTermsBefore tables.now terms.now }
    ensures within { IfSome result (IsTermOf tables.now) }
    ensures term { IfSome result
        (λ t. term_at tables.now t ≡ at (vertex_at tables.now vertex) (state_ref_views states.now)) }
{
    let place = seek_number(terms, *from, vertex);
    *from = place;
    let Some(term) = terms.get(place) else {
        return None;
    };
    known_states(tables, term, vertex, states)
}

/// The term, if it has the vertex of this number and these states.
fn known_states(
    tables: &Tables,
    term: &Term,
    vertex: usize,
    states: &[StateRef<'_>],
) -> Option<Term>
    requires { IsTermOf tables.now term.now }
    ensures within { IfSome result (IsTermOf tables.now) }
    ensures term { IfSome result
        (λ t. term_at tables.now t ≡ at (vertex_at tables.now vertex) (state_ref_views states.now)) }
{
    if term.vertex != vertex {
        return None;
    }
    if are_states(tables, tables.set(term.states), states) {
        Some(*term)
    } else {
        None
    }
}

/// Whether these are the states of these numbers.
fn are_states(tables: &Tables, numbers: &[usize], states: &[StateRef<'_>]) -> bool
    ensures { IsTrue result → states_at tables.now numbers.now ≡ state_ref_views states.now }
{
    if states.len() != numbers.len() {
        return false;
    }
    'numbers: for (index, number) in numbers.iter().enumerate() {
        if !tables.has_at(*number, states[index]) {
            return false;
        }
    }
    true
}
