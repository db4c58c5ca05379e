//! Which vertex is decided next: of the undecided ones that whose conflicts weigh most, the first by number.
//!
//! At first far jumps alone count, all alike. A far jump is as far as `conflicts` makes one. It undoes many levels that
//! its conflict wasn't about, and they are decided again. Where what it was about is decided before them, the next such
//! conflict comes soon, and is near.
//!
//! After many conflicts on long trails the search is a hard one: each conflict counts, and a later one more (the
//! activity of SAT solvers), since most of so many vertices have no part in what is wrong. On short trails that may take
//! far more steps (docs/DECISIONS.md). A conflict after which the trail goes back to level 0 makes no search hard: what
//! it teaches holds for good, and a name of many versions that fail one by one has as many of these.

ghost use Rattle.std.specs.Prelude.{◌≡◌, length};
ghost use Rattle.propagation.specs.Promises.{IsSound};
ghost use Rattle.propagation.specs.Trails.{trail_view};

use crate::choosing::is_undecided;
use conflicts::FARTHEST;
use incompatibilities::{Id, Origin, Store};
use propagation::Trail;
use std::alloc::{AllocError, Global};
use std::collections::BinaryHeap;
use version_sets::States;

/// A trail of so many places is long.
const LONG: usize = 4_000;

/// After so many conflicts on long trails that went back to levels above 0 a search is hard.
const PATIENCE: usize = 3_000;

/// What a conflict counts at first.
const FIRST: u64 = 16;

/// By one part in so many a conflict counts more than the one before.
const RISE: u64 = 16;

/// Before a conflict counts so many times as much, it counts as little as at first again, and all that counted before
/// is so many times less.
const LESS: u64 = 1_000_000_000;

/// A vertex that was taken from the candidates, and how many places the trail had then.
#[derive(Clone, Copy)]
struct Taken {
    vertex: usize,
    places: usize,
}

/// The vertices that may have to be decided, in order, so that not all vertices are gone over for each decision. It
/// only helps to find one soon: nothing rests on what it says.
#[derive(Drop)]
pub(crate) struct Order {
    /// Of each the weight, and how far its number is from the greatest one, so that the greatest comes first. One that
    /// weighs otherwise since is passed over: it is there with that weight too.
    candidates: BinaryHeap<(u64, usize)>,
    /// Whether each vertex is a candidate; false past the end.
    waiting: Vec<bool>,
    /// What the conflicts count together that each vertex had a part in; 0 past the end.
    weights: Vec<u64>,
    /// What the next conflict counts.
    counts: u64,
    /// How many conflicts on long trails went back to a level above 0.
    long: usize,
    /// The level that the next decision opens.
    level: usize,
    /// The latest last.
    taken: Vec<Taken>,
    /// Of so many places of the trail the vertex was looked at.
    followed: usize,
}

/// Makes values for the vertices up to one.
fn reach<T: Copy>(values: &mut Vec<T>, vertex: usize, first: T) -> Result<(), AllocError> {
    'vertices: while values.len() <= vertex {
        values.push(first)?;
    }
    Ok(())
}

/// Where an entry came from, if the store has it.
fn origin_of<S: States + Drop>(store: &Store<S>, id: Id) -> Option<&Origin> {
    if id.index() < store.len() {
        Some(store.origin(id))
    } else {
        None
    }
}

impl Order {
    /// The order of a trail without places: no candidates.
    pub(crate) fn new(alloc: Global) -> Order {
        Order {
            candidates: BinaryHeap::new(alloc),
            waiting: Vec::new(alloc),
            weights: Vec::new(alloc),
            counts: FIRST,
            long: 0,
            level: 0,
            taken: Vec::new(alloc),
            followed: 0,
        }
    }

    /// Takes the vertices of places that came since as candidates, where they are undecided.
    pub(crate) fn follow<S: States + Drop>(
        &mut self,
        trail: &Trail<S>,
        vertices: usize,
    ) -> Result<(), AllocError>
        requires sound { IsSound (trail_view S.tests trail.now) }
        requires vertices { vertices ≡ length (trail_view S.tests trail.now).sets }
    {
        'places: while self.followed < trail.places() {
            let vertex = trail.vertex_at(self.followed);
            if vertex < vertices && is_undecided(trail.states(vertex)) {
                self.put(vertex)?;
            }
            self.followed += 1;
        }
        Ok(())
    }

    /// The first candidate that is undecided, if there is one; those before it are taken.
    pub(crate) fn next<S: States + Drop>(
        &mut self,
        trail: &Trail<S>,
        vertices: usize,
    ) -> Result<Option<usize>, AllocError>
        requires { vertices ≡ length (trail_view S.tests trail.now).sets }
    {
        self.level = trail.level().saturating_add(1);
        'candidates: while let Some((weight, from_end)) = self.candidates.pop() {
            let vertex = usize::MAX - from_end;
            if weight == self.weight_of(vertex) {
                if let Some(waiting) = self.waiting.get_mut(vertex) {
                    *waiting = false;
                }
                if vertex < vertices && is_undecided(trail.states(vertex)) {
                    // It stays one until it is decided.
                    self.put(vertex)?;
                    return Ok(Some(vertex));
                }
                let places = trail.places();
                self.taken.push(Taken { vertex, places })?;
            }
        }
        Ok(None)
    }

    /// Whether there were many such conflicts on long trails.
    pub(crate) fn is_hard(&self) -> bool {
        self.long > PATIENCE
    }

    /// Looks at a jump back to a level, after a conflict that taught an entry: if it counts, then for all that the
    /// conflict was about.
    pub(crate) fn jumped<S: States + Drop>(
        &mut self,
        level: usize,
        store: &Store<S>,
        conflict: Id,
        learned: Id,
    ) -> Result<(), AllocError> {
        let jump = self.level.saturating_sub(level);
        self.level = level;
        if level > 0 && self.followed >= LONG {
            self.long = self.long.saturating_add(1);
        }
        let is_hard = self.is_hard();
        if jump < FARTHEST && !is_hard {
            return Ok(());
        }
        self.raise_at(store, learned)?;
        self.raise_at(store, conflict)?;
        if let Some(Origin::Learned(chain)) = origin_of(store, learned) {
            'links: for link in chain.links() {
                self.raise_at(store, link.with)?;
            }
        }
        if is_hard {
            self.count_more()?;
        }
        self.shed()
    }

    /// Lets the next conflict count more.
    fn count_more(&mut self) -> Result<(), AllocError> {
        self.counts = self.counts.saturating_add(self.counts / RISE);
        if self.counts / LESS < FIRST {
            return Ok(());
        }
        self.counts = FIRST;
        'weights: for weight in self.weights.iter_mut() {
            *weight /= LESS;
        }
        self.put_anew()
    }

    /// Gives back what was taken when the trail had more places than are left of it: it may be undecided again.
    pub(crate) fn cut(&mut self, places: usize) -> Result<(), AllocError> {
        if places < self.followed {
            self.followed = places;
        }
        'taken: while let Some(taken) = self.taken.pop() {
            if taken.places < places {
                self.taken.push(taken)?;
                return Ok(());
            }
            self.put(taken.vertex)?;
        }
        Ok(())
    }

    /// Counts a conflict for each vertex that an entry speaks of.
    fn raise_at<S: States + Drop>(&mut self, store: &Store<S>, id: Id) -> Result<(), AllocError> {
        if id.index() >= store.len() {
            return Ok(());
        }
        'terms: for term in store.get(id).terms() {
            self.raise(term.vertex)?;
        }
        Ok(())
    }

    /// Counts a conflict for a vertex.
    fn raise(&mut self, vertex: usize) -> Result<(), AllocError> {
        reach(&mut self.weights, vertex, 0)?;
        if let Some(weight) = self.weights.get_mut(vertex) {
            *weight = weight.saturating_add(self.counts);
        }
        if self.is_waiting(vertex) {
            self.push(vertex)?;
        }
        Ok(())
    }

    /// Leaves out what is passed over, once that is the most.
    fn shed(&mut self) -> Result<(), AllocError> {
        if self.candidates.len() / 2 <= self.waiting.len() {
            return Ok(());
        }
        self.put_anew()
    }

    /// Leaves each candidate there with its weight alone.
    fn put_anew(&mut self) -> Result<(), AllocError> {
        self.candidates.clear();
        'vertices: for vertex in 0..self.waiting.len() {
            if self.is_waiting(vertex) {
                self.push(vertex)?;
            }
        }
        Ok(())
    }

    fn is_waiting(&self, vertex: usize) -> bool {
        matches!(self.waiting.get(vertex), Some(true))
    }

    fn weight_of(&self, vertex: usize) -> u64 {
        match self.weights.get(vertex) {
            Some(weight) => *weight,
            None => 0,
        }
    }

    fn push(&mut self, vertex: usize) -> Result<(), AllocError>
        ensures followed { self.new.followed ≡ self.old.followed }
        ensures taken { self.new.taken ≡ self.old.taken }
    {
        let weight = self.weight_of(vertex);
        self.candidates.push((weight, usize::MAX - vertex))?;
        Ok(())
    }

    /// One candidate more, unless it is one.
    fn put(&mut self, vertex: usize) -> Result<(), AllocError>
        ensures followed { self.new.followed ≡ self.old.followed }
        ensures taken { self.new.taken ≡ self.old.taken }
    {
        reach(&mut self.waiting, vertex, false)?;
        if let Some(waiting) = self.waiting.get_mut(vertex) {
            if *waiting {
                return Ok(());
            }
            *waiting = true;
        }
        self.push(vertex)
    }
}
