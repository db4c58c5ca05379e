//! A store with the trail that meets it, whose calls may be made at any time.
//!
//! The calls of the search's crates ask things of their caller that a test would have to prove at each call: that a
//! vertex is there, that a level is one that the trail has. A `Trial` tests these before each call, leaves undone what
//! can't be, and says so.

ghost use Rattle.incompatibilities.specs.Stores.{entries_view};
ghost use Rattle.propagation.specs.Promises.{IsTrail, IsProgress};
ghost use Rattle.propagation.specs.Trails.{trail_view};
ghost use Rattle.propagation.specs.declared.propagating.Progress.TheVariants.{Conflict};
ghost use Rattle.std.specs.Prelude.{◌≡◌, ◌≤◌, length};

use crate::made_terms::terms_of;
use conflicts::{Outcome, resolve_conflict};
use incompatibilities::{Id, Incompatibility, Origin, Store};
use propagation::{Progress, Satisfier, Trail};
use std::alloc::{AllocError, Global};
use std::marker::Model;
use version_sets::States;

/// A store and a trail that meets it. A call that asks for what can't be is left undone, and says so.
#[derive(Drop)]
pub struct Trial<S: States> {
    alloc: Global,
    store: Store<S>,
    trail: Trail<S>,
    spaces: Vec<u32>,
}

impl<S: States> Model for Trial<S> {
    ghost use Rattle.incompatibilities.specs.Stores.{entries_view};
    ghost use Rattle.propagation.specs.Trails.{TrailView, trail_view};
    ghost use Rattle.search_tests.specs.inner.Meeting.{IsMeeting};

    ghost Value = { TrailView };

    ghost view = { λ t. trail_view S.tests t.trail };

    ghost invariant = { λ t. IsMeeting t.spaces.items (entries_view S.tests t.store) (trail_view S.tests t.trail) };
}

/// The entry that a propagation ended at and what satisfied it, if it has a term.
fn satisfier_of<S: States + Drop>(
    trail: &Trail<S>,
    store: &Store<S>,
    id: Id,
) -> Option<(Id, Satisfier)>
    requires trail { IsTrail (entries_view S.tests store.now) (trail_view S.tests trail.now) }
    requires stops { IsProgress (entries_view S.tests store.now) (trail_view S.tests trail.now).sets (Conflict id) }
{
    let conflict = store.get(id);
    if conflict.terms().is_empty() {
        return None;
    }
    Some((id, trail.satisfier(conflict)))
}

impl<S: States + Drop> Trial<S> {
    /// The empty store, and the trail without vertices.
    pub fn new(alloc: Global) -> Result<Trial<S>, AllocError> {
        let spaces = Vec::new(alloc);
        Ok(Trial {
            alloc,
            store: Store::new(alloc),
            trail: Trail::new(alloc, &spaces)?,
            spaces,
        })
    }

    /// One vertex more, with so many states.
    pub fn grow(&mut self, universe: u32) -> Result<(), AllocError>
        requires { universe ≤ 65536 }
    {
        // Room first, so that `spaces` grows where the trail does.
        self.spaces.reserve(1)?;
        self.store.is_proper();
        self.trail.grow(universe)?;
        self.spaces.push_reserved(universe);
        Ok(())
    }

    /// Puts an entry into the store: not each of these vertices has one of the states whose bits are set. Whether it
    /// did: the vertices have to rise and to be there.
    pub fn forbid(&mut self, said: &[(usize, u64)]) -> Result<bool, AllocError> {
        match terms_of(self.alloc, &self.spaces, said)? {
            Some(terms) => {
                self.store
                    .add(Incompatibility::new(terms), Origin::Axiom(0))?;
                Ok(true)
            }
            None => Ok(false),
        }
    }

    /// Decides, if the vertex has that state among several; whether it did.
    pub fn decide(&mut self, vertex: usize, state: u32) -> Result<bool, AllocError> {
        if vertex >= self.vertices() {
            return Ok(false);
        }
        if self.trail.states(vertex).count() <= 1 {
            return Ok(false);
        }
        if !self.trail.states(vertex).member(state) {
            return Ok(false);
        }
        self.trail.decide(vertex, state)?;
        Ok(true)
    }

    /// Propagates.
    pub fn propagate(&mut self) -> Result<Progress, AllocError> {
        self.trail.propagate(&self.store)
    }

    /// Propagates; the entry that this ended at and what satisfied it, if it ended at one with a term.
    pub fn conflict(&mut self) -> Result<Option<(Id, Satisfier)>, AllocError> {
        match self.trail.propagate(&self.store)? {
            Progress::Conflict(id) => Ok(satisfier_of(&self.trail, &self.store, id)),
            Progress::Fixpoint => Ok(None),
        }
    }

    /// Propagates, and resolves the conflict that this ended at; how many terms the refusal has, if it has come to
    /// that.
    pub fn refusal(self) -> Result<Option<usize>, AllocError> {
        let Trial {
            alloc,
            mut store,
            mut trail,
            ..
        } = self;
        match trail.propagate(&store)? {
            Progress::Conflict(id) => match resolve_conflict(alloc, &mut trail, &mut store, id)? {
                Outcome::Learned { .. } => Ok(None),
                Outcome::Unsolvable(id) => Ok(Some(store.get(id).terms().len())),
            },
            Progress::Fixpoint => Ok(None),
        }
    }

    /// Cuts, if the trail has that level.
    pub fn cut(&mut self, level: usize) {
        if level <= self.trail.level() {
            self.trail.cut(level);
        }
    }

    /// How many vertices there are.
    pub fn vertices(&self) -> usize
        ensures { result ≡ length self.now.sets }
    {
        self.spaces.len()
    }

    /// The level.
    pub fn level(&self) -> usize {
        self.trail.level()
    }

    /// How many assignments there were.
    pub fn assigned(&self) -> u64 {
        self.trail.assigned()
    }

    /// Whether a vertex has a state left.
    pub fn has(&self, vertex: usize, state: u32) -> bool {
        if vertex >= self.vertices() {
            return false;
        }
        self.trail.states(vertex).member(state)
    }
}
