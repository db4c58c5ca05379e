//! Of the entries at a vertex, those that the sets of level 0 don't rule out.
//!
//! These sets never grow again, so what they rule out stays so. Where a package's n versions fall away one after the
//! other (each lacks a name, or needs the one before), each step would go over the entries of all that fell before. So
//! of each vertex the places of those that may hold are kept (`Front`), and a step goes over these alone, and over the
//! entries that came since.
//!
//! What is kept is renewed at the end of a propagation at that level, and only once as many entries came as are kept,
//! so that an entry costs a constant; few entries aren't worth a list. A want of memory leaves what was kept, which
//! stays true.

ghost use Rattle.incompatibilities.specs.Incompatibilities.{states_at};
ghost use Rattle.incompatibilities.specs.Stores.{entries_view, ids_at};
ghost use Rattle.propagation.specs.Promises.{IsFront, IsTrail};
ghost use Rattle.propagation.specs.inner.Parts.{IsRenewed};
ghost use Rattle.propagation.specs.Satisfaction.{RuledOut};
ghost use Rattle.propagation.specs.Trails.{front_of, trail_view};
ghost use Rattle.propagation.specs.inner.Units.{LiesOn, entries_left, place_left};
ghost use Rattle.std.specs.Bool.{OnTrue};
ghost use Rattle.std.specs.Prelude.{◌≡◌, ◌<◌, ◌≤◌, IfOk, length};
ghost use Rattle.terms.specs.Terms.{terms_view};

use crate::trail::{Front, Trail};
use incompatibilities::Store;
use std::alloc::AllocError;
use terms::{Relation, Term};
use version_sets::States;

/// How many terms of an entry are asked whether one rules it out: to ask all of a long one may cost more than it saves.
const FEW: usize = 8;

/// So many entries at least have to come before what is kept of a vertex is renewed.
const MANY: usize = 64;

impl<S: States + Drop> Trail<S> {
    /// At level 0 renews what is kept of the vertices of the places from one on. What is ruled out above that level may
    /// hold again.
    pub(crate) fn renew_fronts(&mut self, store: &Store<S>, places: usize)
        requires { IsTrail (entries_view S.tests store.now) (trail_view S.tests self.old) }
        ensures trail { IsTrail (entries_view S.tests store.now) (trail_view S.tests self.new) }
        ensures renewed { IsRenewed (trail_view S.tests self.old) (trail_view S.tests self.new) }
    {
        if self.level > 0 {
            return;
        }
        'places: for place in places..self.steps.len() {
            let vertex = self.steps[place].vertex;
            self.renew_front(store, vertex);
        }
    }

    /// Renews at level 0 what is kept of a vertex, where so many entries came; where memory is wanting, it stays.
    fn renew_front(&mut self, store: &Store<S>, vertex: usize)
        requires trail { IsTrail (entries_view S.tests store.now) (trail_view S.tests self.old) }
        requires low { (trail_view S.tests self.old).level ≡ 0 }
        requires vertex { vertex < length (trail_view S.tests self.old).sets }
        ensures trail { IsTrail (entries_view S.tests store.now) (trail_view S.tests self.new) }
        ensures renewed { IsRenewed (trail_view S.tests self.old) (trail_view S.tests self.new) }
    {
        let seen = store.at(vertex).len();
        let front = &self.fronts[vertex];
        let came = seen - front.seen;
        if came < MANY || came < front.alive.len() {
            return;
        }
        if let Ok(alive) = self.still_alive(store, vertex) {
            self.fronts[vertex] = Front { seen, alive };
        }
    }

    /// The places of the entries at a vertex that the sets that are left don't rule out; of none that they ruled out
    /// before the terms are read again.
    fn still_alive(&self, store: &Store<S>, vertex: usize) -> Result<Vec<usize>, AllocError>
        requires trail { IsTrail (entries_view S.tests store.now) (trail_view S.tests self.now) }
        requires vertex { vertex < length (trail_view S.tests self.now).sets }
        ensures { IfOk result (λ alive. IsFront (entries_view S.tests store.now) (trail_view S.tests self.now).sets
            vertex (record { seen = length (ids_at vertex (entries_view S.tests store.now)); alive = alive.items })) }
    {
        let on = store.at(vertex);
        let mut alive = Vec::new(self.alloc);
        'entries: for turn in 0..self.entries_left(vertex, on.len()) {
            let place = self.place_left(vertex, turn, on.len());
            if self.is_ruled_out(store.get(on[place]).terms()) {
                continue;
            }
            alive.push(place)?;
        }
        Ok(alive)
    }

    /// Whether one of the last terms of an incompatibility has no state that is left.
    fn is_ruled_out(&self, terms: &[Term<S>]) -> bool
        requires { LiesOn (trail_view S.tests self.now) (terms_view S.tests terms.now) }
        ensures { OnTrue result (RuledOut (trail_view S.tests self.now).sets
            (states_at (terms_view S.tests terms.now))) }
    {
        // The vertices that came late are soon ruled out, and stand last.
        let first = terms.len().saturating_sub(FEW);
        'terms: for place in (first..terms.len()).rev() {
            if let Relation::Contradicted = self.relation_at(terms, place) {
                return true;
            }
        }
        false
    }

    /// How many entries at a vertex may hold, of so many that it has: those that are kept, and those that came since.
    pub(crate) fn entries_left(&self, vertex: usize, entries: usize) -> usize
        requires vertex { vertex < length (trail_view S.tests self.now).fronts }
        requires few { (front_of (trail_view S.tests self.now).fronts vertex).seen ≤ entries }
        requires short { length (front_of (trail_view S.tests self.now).fronts vertex).alive
            ≤ (front_of (trail_view S.tests self.now).fronts vertex).seen }
        ensures { result ≡ entries_left (front_of (trail_view S.tests self.now).fronts vertex) entries }
    {
        let front = &self.fronts[vertex];
        front.alive.len() + (entries - front.seen)
    }

    /// The place of one of them.
    pub(crate) fn place_left(&self, vertex: usize, turn: usize, entries: usize) -> usize
        requires vertex { vertex < length (trail_view S.tests self.now).fronts }
        requires few { (front_of (trail_view S.tests self.now).fronts vertex).seen ≤ entries }
        requires turn { turn < entries_left (front_of (trail_view S.tests self.now).fronts vertex) entries }
        ensures { result ≡ place_left (front_of (trail_view S.tests self.now).fronts vertex) turn }
    {
        let front = &self.fronts[vertex];
        let few = front.alive.len();
        if turn < few {
            front.alive[turn]
        } else {
            front.seen + (turn - few)
        }
    }
}
