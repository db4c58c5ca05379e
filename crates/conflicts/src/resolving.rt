//! Learning from a satisfied incompatibility, and going back (Dart pub's `solver.md`, "Conflict Outcome").

ghost use Rattle.conflicts.specs.Resolving.{IsGained, Resolved, Teaches, level_for, outcome_of};
ghost use Rattle.incompatibilities.specs.Stores.{EntryView, Follows, entries_view, terms_of};
ghost use Rattle.propagation.specs.Promises.{IsTrail, SameSpaces};
ghost use Rattle.propagation.specs.Satisfaction.{Sat};
ghost use Rattle.propagation.specs.Trails.{trail_view};
ghost use Rattle.std.specs.Prelude.{◌≡◌, ◌+◌, ◌<◌, ◌≤◌, IfOk, List, OnErr, length};

use crate::keeping::keep;
use crate::lessons::lesson_of;
use crate::strengthening::take_all_up;
use incompatibilities::{Id, Store};
use propagation::{Satisfier, Trail};
use std::alloc::{AllocError, Global};
use version_sets::States;

/// How the resolution of a conflict ends.
#[derive(Clone, Copy, PartialEq, Eq, Debug)]
pub enum Outcome {
    /// An incompatibility was learned, and the trail was cut to a level where all its terms but one are satisfied, and
    /// that one is open, so the next propagation forces an assignment: the lowest such level, unless it is far.
    Learned {
        /// Its place in the store.
        id: Id,
        /// The level.
        back_to: usize,
    },
    /// This incompatibility has no term: every assignment breaks it, and so breaks an axiom.
    Unsolvable(Id),
}

/// A law, the call does nothing: an assignment that breaks an entry breaks an axiom.
fn follow<S: States + Drop>(store: &Store<S>, id: Id)
    requires { id < length (entries_view S.tests store.now) }
    ensures { Follows (entries_view S.tests store.now) (terms_of (entries_view S.tests store.now) id) }
{
    let _ = store.get(id);
}

/// A jump back is of at most so many levels. What lies between is seldom wrong, and would be decided again.
pub const FARTHEST: usize = 20;

/// The level that a jump goes back to, from a satisfier.
fn level_for(satisfier: &Satisfier) -> usize
    ensures { result ≡ level_for satisfier.now }
{
    let last = satisfier.level.saturating_sub(FARTHEST);
    if satisfier.before < last {
        last
    } else {
        satisfier.before
    }
}

/// The outcome where it ended at a satisfier.
fn ended_at(learned: Id, found: Option<Satisfier>) -> Outcome
    ensures { result ≡ outcome_of learned found }
{
    match found {
        Some(satisfier) => Outcome::Learned {
            id: learned,
            back_to: level_for(&satisfier),
        },
        None => Outcome::Unsolvable(learned),
    }
}

/// Learns from a satisfied entry, and puts what it learned into the store, and what it needed for that.
fn resolve<S: States + Drop>(
    alloc: Global,
    trail: &Trail<S>,
    store: &mut Store<S>,
    id: Id,
) -> Result<Outcome, AllocError>
    requires trail { IsTrail (entries_view S.tests store.old) (trail_view S.tests trail.now) }
    requires within { id < length (entries_view S.tests store.old) }
    requires satisfied { Sat (trail_view S.tests trail.now).sets (terms_of (entries_view S.tests store.old) id) }
    ensures teaches { IfOk result (λ o. Teaches (entries_view S.tests store.new) (trail_view S.tests trail.now) o) }
    ensures gained { (gained : List EntryView) × IsGained (entries_view S.tests store.old)
        (trail_view S.tests trail.now) (entries_view S.tests store.new) gained }
    ensures few { length (entries_view S.tests store.new) ≤ length (entries_view S.tests store.old)
        + length (trail_view S.tests trail.now).steps }
    ensures trail { IsTrail (entries_view S.tests store.new) (trail_view S.tests trail.now) }
{
    let first = store.len();
    take_all_up(alloc, trail, store, first)?;
    let lesson = lesson_of(alloc, trail, store, first, id)?;
    let found = lesson.found;
    let learned = keep(store, lesson.incompatibility, lesson.chain)?;
    follow(store, learned);
    Ok(ended_at(learned, found))
}

/// Learns from a satisfied entry: resolves the conflict, and cuts the trail to a level at which all terms of what was
/// learned but one were satisfied. The store gains what was learned, if it had no such entry, and what on the way was
/// short or served to leave out what holds at level 0.
///
/// Where memory is wanting, the trail is as it was before, and the store may have gained some of these.
pub fn resolve_conflict<S: States + Drop>(
    alloc: Global,
    trail: &mut Trail<S>,
    store: &mut Store<S>,
    id: Id,
) -> Result<Outcome, AllocError>
    requires trail { IsTrail (entries_view S.tests store.old) (trail_view S.tests trail.old) }
    requires within { id < length (entries_view S.tests store.old) }
    requires satisfied { Sat (trail_view S.tests trail.old).sets (terms_of (entries_view S.tests store.old) id) }
    ensures resolved { IfOk result (λ o.
        Resolved (trail_view S.tests trail.old) (entries_view S.tests store.new) (trail_view S.tests trail.new) o) }
    ensures gained { (gained : List EntryView) × IsGained (entries_view S.tests store.old)
        (trail_view S.tests trail.old) (entries_view S.tests store.new) gained }
    // At most one for each assignment of the trail.
    ensures few { length (entries_view S.tests store.new) ≤ length (entries_view S.tests store.old)
        + length (trail_view S.tests trail.old).steps }
    ensures trail { IsTrail (entries_view S.tests store.new) (trail_view S.tests trail.new) }
    ensures spaces { SameSpaces (trail_view S.tests trail.old) (trail_view S.tests trail.new) }
    ensures kept { OnErr result (trail_view S.tests trail.new ≡ trail_view S.tests trail.old) }
{
    let outcome = resolve(alloc, trail, store, id)?;
    match outcome {
        Outcome::Learned { back_to, .. } => {
            trail.cut(back_to);
            Ok(outcome)
        }
        Outcome::Unsolvable(_) => Ok(outcome),
    }
}
