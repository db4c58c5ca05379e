//! What is asked for before a version is decided for, so that a version that it rules out opens no level: the vertices
//! with one state beside absent that the version needs, and, once the search is a hard one, each pair.
//!
//! A version is ruled out by what is left of something that it needs only where its needs are in the store. So a large
//! graph is refuted in two fifths of the steps with all instances there (docs/DECISIONS.md). Most searches end long
//! before they would pay for these.

ghost use Rattle.std.specs.Prelude.{IfSome, map};
ghost use Rattle.guiding.specs.inner.Guides.{IsUnasked};

use incompatibilities::{Id, Store};
use std::alloc::{AllocError, Global};
use terms::Term;
use version_sets::States;

/// Pairs that may be asked for ahead. They only help to rule out a version soon: nothing rests on which they are.
#[derive(Drop)]
pub(crate) struct Leads {
    /// The vertices that a version needs.
    vertices: Vec<usize>,
    /// The last one of all pairs that was asked for so: those before it were asked for.
    last: (usize, u32),
}

impl Leads {
    /// None.
    pub(crate) fn new(alloc: Global) -> Leads {
        Leads {
            vertices: Vec::new(alloc),
            last: (0, 0),
        }
    }

    /// Takes the vertices that the entries of a store speak of, from this one on, unless it was a lead that was asked
    /// for: it leads no further, else much would be asked for that no decision comes to.
    pub(crate) fn note<S: States + Drop>(
        &mut self,
        lead: Option<(usize, u32)>,
        store: &Store<S>,
        from: usize,
    ) -> Result<(), AllocError> {
        if lead.is_some() {
            return Ok(());
        }
        'entries: for number in from..store.len() {
            self.note_terms(store.get(Id::new(number)).terms())?;
        }
        Ok(())
    }

    fn note_terms<S: States>(&mut self, terms: &[Term<S>]) -> Result<(), AllocError> {
        'terms: for term in terms {
            self.vertices.push(term.vertex)?;
        }
        Ok(())
    }

    /// One of the vertices with the one state that it has beside absent, if that wasn't asked for; after these, in a
    /// hard search, the next of all pairs.
    pub(crate) fn next<S: States>(&mut self, asked: &[S], is_hard: bool) -> Option<(usize, u32)>
        ensures { IfSome result (λ d. IsUnasked (map S.tests asked.now) d.0 d.1) }
    {
        'vertices: while let Some(vertex) = self.vertices.pop() {
            if let Some(state) = lead_at(asked, vertex) {
                return Some((vertex, state));
            }
        }
        if is_hard {
            self.next_of_all(asked)
        } else {
            None
        }
    }

    /// The first pair that wasn't asked for, from where the last one was found.
    fn next_of_all<S: States>(&mut self, asked: &[S]) -> Option<(usize, u32)>
        ensures { IfSome result (λ d. IsUnasked (map S.tests asked.now) d.0 d.1) }
    {
        let (from, mut state) = self.last;
        'vertices: for vertex in from..asked.len() {
            if let Some(state) = unasked_at(asked, vertex, state) {
                self.last = (vertex, state);
                return Some(self.last);
            }
            state = 0;
        }
        self.last = (asked.len(), 0);
        None
    }
}

/// The one state of a vertex beside absent, if it wasn't asked for.
fn lead_at<S: States>(asked: &[S], vertex: usize) -> Option<u32>
    ensures { IfSome result (λ state. IsUnasked (map S.tests asked.now) vertex state) }
{
    let states = asked.get(vertex)?;
    if states.universe() == 2 {
        unasked_at(asked, vertex, 1)
    } else {
        None
    }
}

/// The first state of a vertex, from this one on, that isn't absent and wasn't asked for.
fn unasked_at<S: States>(asked: &[S], vertex: usize, first: u32) -> Option<u32>
    ensures { IfSome result (λ state. IsUnasked (map S.tests asked.now) vertex state) }
{
    let states = asked.get(vertex)?;
    'states: for state in first..states.universe() {
        if state > 0 && !states.member(state) {
            return Some(state);
        }
    }
    None
}
