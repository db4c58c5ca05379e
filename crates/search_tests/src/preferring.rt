//! A search whose axioms all stand in the store from the start, with a preferred state for each vertex; it keeps what
//! the search tells of its conflicts.

ghost use Rattle.search_tests.specs.inner.Universes.{AllDecided, AllLie, IsOpen, IsWithinAll, Prefers, Refutes};
ghost use Rattle.search_tests.specs.inner.Universes.{Selects};
ghost use Rattle.search_tests.specs.inner.Meeting.{AreSmall};
ghost use Rattle.incompatibilities.specs.Stores.{entries_view};
ghost use Rattle.propagation.specs.Trails.{trail_view};
ghost use Rattle.incompatibilities.specs.Incompatibilities.{Assignment};
ghost use Rattle.propagation.specs.Satisfaction.{BreaksNone};
ghost use Rattle.guiding.specs.inner.Counting.{HasCounted};
ghost use Rattle.incompatibilities.specs.inner.Counts.{combinations};
ghost use Rattle.guiding.specs.inner.Following.{IsSelection};
ghost use Rattle.std.specs.Prelude.{◌≡◌, ◌+◌, ◌<◌, ◌≤◌, IfOk, MatchOption, length, slice_index_or, true};
ghost use Rattle.version_sets.specs.Sets.{has, size};

use guiding::{Found, Guide, least, search};
use incompatibilities::{Id, Store};
use propagation::Trail;
use std::alloc::{AllocError, Global};
use version_sets::States;

/// A conflict, what was learned from it, and the level that the trail went back to.
#[derive(Clone, Copy, PartialEq, Eq, Debug)]
pub struct Lesson {
    /// The incompatibility that was satisfied.
    pub conflict: Id,
    /// The one that was learned.
    pub learned: Id,
    /// The level.
    pub back_to: usize,
}

/// How many states each vertex has, which of them is tried first, and what the search told of its conflicts.
#[derive(Drop)]
pub struct Preferring {
    /// The universes.
    pub spaces: Vec<u32>,
    /// The preferred states.
    pub states: Vec<u32>,
    /// What was learned, in order.
    pub lessons: Vec<Lesson>,
}

/// The first vertex that has more than one state left; there are `vertices` of them.
fn first_open<S: States + Drop>(trail: &Trail<S>, vertices: usize) -> Option<usize>
    requires { length (trail_view S.tests trail.now).sets ≡ vertices }
    ensures { MatchOption result (AllDecided (trail_view S.tests trail.now))
        (λ v. IsOpen (trail_view S.tests trail.now) v) }
{
    'vertices: for vertex in 0..vertices {
        if trail.states(vertex).count() > 1 {
            return Some(vertex);
        }
    }
    None
}

impl Preferring {
    /// The preferred state of a vertex where it is left, else the least.
    fn state_of<S: States>(&self, vertex: usize, left: &S) -> u32
        requires { 0 < size (S.tests left.now) }
        ensures left { has (S.tests left.now) result ≡ true }
        ensures preferred { vertex < length self.now.states.items
            → has (S.tests left.now) (slice_index_or self.now.states.items vertex 0) ≡ true
            → result ≡ slice_index_or self.now.states.items vertex 0 }
    {
        match self.states.get(vertex) {
            Some(state) if left.member(*state) => *state,
            _ => least(left),
        }
    }
}

impl<S: States + Drop> Guide<S> for Preferring {
    ghost use Rattle.search_tests.specs.inner.Universes.{AllDecided, Prefers};
    ghost use Rattle.std.specs.Prelude.{◌≡◌, refl, true};

    ghost spaces = { λ g. g.spaces.items };

    ghost asked = { λ g v i. true };

    ghost late = { λ g. 0 };

    ghost left = { λ g. 0 };

    ghost seen = { λ g. 0 };

    ghost done = { λ g t. AllDecided t };

    ghost given = { λ g e. Unit {0} };

    ghost stored = { λ g es. Unit {0} };

    ghost stored_on = { λ g es more was. was };

    ghost follows = { λ g x. Prefers g.spaces.items g.states.items x };

    ghost keeps = { λ old new. (new.spaces ≡ old.spaces) × (new.states ≡ old.states) };

    ghost keeps_same = { λ g. (refl, refl) };

    ghost keeps_on = { λ a b c first second. (rw second.0 first.0, rw second.1 first.1) };

    fn axioms(&mut self, _trail: &mut Trail<S>, _store: &mut Store<S>) -> Result<bool, AllocError> {
        Ok(false)
    }

    fn choose(&self, trail: &Trail<S>) -> Result<Option<(usize, u32)>, AllocError> {
        match first_open(trail, self.spaces.len()) {
            Some(vertex) => Ok(Some((vertex, self.state_of(vertex, trail.states(vertex))))),
            None => Ok(None),
        }
    }

    fn noted(
        &mut self,
        trail: &Trail<S>,
        _store: &Store<S>,
        conflict: Id,
        learned: Id,
    ) -> Result<(), AllocError> {
        self.lessons.push(Lesson {
            conflict,
            learned,
            back_to: trail.level(),
        })?;
        Ok(())
    }
}

/// Searches from the trail on which every vertex has all its states.
pub fn search_from_full<S: States + Drop>(
    alloc: Global,
    guide: &mut Preferring,
    store: &mut Store<S>,
) -> Result<(Found, Trail<S>), AllocError>
    requires small { AreSmall guide.old.spaces.items }
    requires lies { AllLie guide.old.spaces.items (entries_view S.tests store.old) }
    ensures refuted { IfOk result (λ r. Refutes (entries_view S.tests store.new) r.0.answer) }
    ensures selected { IfOk result (λ r. Selects (entries_view S.tests store.new) (trail_view S.tests r.1) r.0.answer) }
    ensures counted { IfOk result (λ r. HasCounted (combinations (entries_view S.tests store.new))
        (combinations (entries_view S.tests store.old)) r.0.steps) }
    ensures preferred { IfOk result (λ r. (x : Assignment) → Prefers guide.old.spaces.items guide.old.states.items x
        → IsWithinAll guide.old.spaces.items x → BreaksNone x (entries_view S.tests store.old)
        → IsSelection r.0.answer) }
{
    let mut trail = Trail::new(alloc, &guide.spaces)?;
    let found = search(alloc, guide, &mut trail, store)?;
    Ok((found, trail))
}
