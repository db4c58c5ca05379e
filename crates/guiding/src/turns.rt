//! The loop of a search over any set of states, which ends without a budget.
//!
//! `search` takes turns: after a conflict it learns (`resolve_conflict`), else it takes new axioms, or else it decides,
//! each with `propagate` after it. What it is about comes from a `Guide`: which vertices there are, which axioms belong
//! to a pair of a vertex and a state that stands alone, what to decide. Vertices and axioms may come at any turn.
//!
//! What is hard is that it ends all the same. The number that each turn brings down (`space`) is made of how many
//! states are left at the end of each level, one digit a level, a level that isn't there counting as more than all
//! states. A decision adds a digit, what is learned makes a digit less, and what comes after it doesn't count. Vertices
//! that are still to come count with all their states from the start, so that their coming leaves the number as it was.
//! Where axioms are added the number may stay, but then one pair less is left.
//!
//! A layer above may rely on this: the search ends with nothing left to decide, no entry satisfied and each pair that
//! stands alone asked for; or with an entry without terms, which follows from the axioms. What the guide knows of the
//! axioms in the store (`given`, `stored`) holds at the end, since the store only grows. Where the guide decides as an
//! assignment that breaks no axiom does (`follows`), the search doesn't end with a refutation.

ghost use Rattle.incompatibilities.specs.Incompatibilities.{Assignment};
ghost use Rattle.incompatibilities.specs.Stores.{entries_view};
ghost use Rattle.propagation.specs.Promises.{IsTrail, most};
ghost use Rattle.propagation.specs.Trails.{trail_view};
ghost use Rattle.propagation.specs.declared.propagating.Progress.TheVariants.{Conflict, Fixpoint};
ghost use Rattle.guiding.specs.inner.Counting.{CountsOn, IsCount};
ghost use Rattle.incompatibilities.specs.inner.Counts.{combinations, links_in};
ghost use Rattle.guiding.specs.inner.Searching.{EachFalls, HasSpaces, IsCaught, IsSearching, IsSeen, space};
ghost use Rattle.guiding.specs.inner.Turning.{HasEnded, HasTurned};
ghost use Rattle.guiding.specs.inner.Following.{AreGiven, IsLeft, IsSelection, KeepsFollowed, TurnsOn};
ghost use Rattle.std.specs.Prelude.{◌≡◌, ℕ, ◌+◌, ◌≤◌, ◌⊎◌, [], IfOk, length, take};

use crate::guidance::Guide;
use conflicts::{Outcome, resolve_conflict};
use incompatibilities::{Id, Origin, Store};
use propagation::{Progress, Trail};
use std::alloc::{AllocError, Global};
use version_sets::States;

/// How a search ends.
#[derive(Clone, Copy, PartialEq, Eq, Debug)]
pub enum Answer {
    /// Nothing is left to decide, and no incompatibility of the store is satisfied.
    Selection,
    /// This incompatibility of the store has no term.
    Unsolvable(Id),
}

/// What a search found, and how long it took.
#[derive(Clone, Copy, PartialEq, Eq, Debug)]
pub struct Found {
    /// How it ended.
    pub answer: Answer,
    /// The assignments that the trail ever had, the conflicts that were resolved, and the combinations of the chains of
    /// what was learned; 2^64 - 1 if there are more.
    pub steps: u64,
}

/// What a turn gives.
#[derive(Clone, Copy)]
enum Turn {
    /// The search goes on from here.
    Goes(Progress),
    /// It ends.
    Ends(Answer),
}

/// How many combinations a chain has.
fn links_in(origin: &Origin) -> usize
    ensures { result ≡ links_in origin.now }
{
    match origin {
        Origin::Axiom(_) => 0,
        Origin::Learned(chain) => chain.links().len(),
    }
}

/// The steps with some more, as far as 64 bits go.
fn with_more(steps: u64, more: usize) -> u64
    ensures counted { (steps + more ≤ result) ⊎ (most ≤ result) }
    ensures more { steps ≤ result }
{
    steps.saturating_add(more as u64)
}

/// The steps with one conflict more, and with the combinations of the chains of the entries from a place on.
fn with_conflict<S: States + Drop>(store: &Store<S>, steps: u64, from: usize) -> u64
    requires { from ≤ length (entries_view S.tests store.now) }
    ensures counted { (combinations (entries_view S.tests store.now) + steps
        ≤ result + combinations (take from (entries_view S.tests store.now))) ⊎ (most ≤ result) }
    ensures more { steps ≤ result }
{
    let mut count = with_more(steps, 1);
    'gained: for place in from..store.len() {
        count = with_more(count, links_in(store.origin(Id::new(place))));
    }
    count
}

/// The steps with the assignments; those that stand are among them.
fn with_assignments(steps: u64, assigned: u64, standing: usize) -> u64
    ensures steps { steps ≤ result }
    ensures assigned { assigned ≤ result }
    ensures standing { standing ≤ result }
{
    steps.saturating_add(assigned).max(standing as u64)
}

/// After a conflict: learns from it, goes back, tells the guide and propagates.
fn turn_back<S: States + Drop, G: Guide<S>>(
    alloc: Global,
    guide: &mut G,
    trail: &mut Trail<S>,
    store: &mut Store<S>,
    steps: &mut u64,
    id: Id,
) -> Result<Turn, AllocError>
    requires spaces { HasSpaces (G.spaces guide.old) (trail_view S.tests trail.old) }
    requires searching { IsSearching (G.late guide.old) (entries_view S.tests store.old)
        (trail_view S.tests trail.old) (Conflict id) }
    requires caught { IsCaught (G.asked guide.old) (trail_view S.tests trail.old) }
    requires seen { IsSeen (G.seen guide.old) (G.asked guide.old) (trail_view S.tests trail.old) }
    ensures turned { IfOk result (λ r. HasTurned (G.done guide.new (trail_view S.tests trail.new)) (space
        (G.late guide.old) (trail_view S.tests trail.old) + G.left guide.old) (G.asked guide.new) (G.left guide.new)
        (G.late guide.new) (G.seen guide.new) (entries_view S.tests store.new) (trail_view S.tests trail.new) r) }
    ensures counted { IfOk result
        (λ r. CountsOn (entries_view S.tests store.old) steps.old (entries_view S.tests store.new) steps.new) }
    ensures trail { IfOk result (λ r. IsTrail (entries_view S.tests store.new) (trail_view S.tests trail.new)) }
    ensures spaces { IfOk result (λ r. HasSpaces (G.spaces guide.new) (trail_view S.tests trail.new)) }
    ensures keeps { IfOk result (λ r. G.keeps guide.old guide.new) }
    ensures given { IfOk result (λ r. AreGiven (G.given guide.old) (entries_view S.tests store.old)
        → AreGiven (G.given guide.new) (entries_view S.tests store.new)) }
    ensures stored { IfOk result (λ r. G.stored guide.old (entries_view S.tests store.old)
        → G.stored guide.new (entries_view S.tests store.new)) }
    ensures follows { IfOk result
        (λ r. KeepsFollowed (G.follows guide.old) (entries_view S.tests store.old) (trail_view S.tests trail.old)
        (G.follows guide.new) (entries_view S.tests store.new) (trail_view S.tests trail.new)) }
    ensures turns { IfOk result
        (λ r. TurnsOn (G.follows guide.new) (entries_view S.tests store.old) (trail_view S.tests trail.old) r) }
{
    let before = store.len();
    let outcome = resolve_conflict(alloc, trail, store, id)?;
    *steps = with_conflict(store, *steps, before);
    match outcome {
        Outcome::Learned { id: learned, .. } => {
            // Before propagation, so that the guide finds the trail as the cut has left it.
            guide.noted(trail, store, id, learned)?;
            Ok(Turn::Goes(trail.propagate(store)?))
        }
        Outcome::Unsolvable(none) => Ok(Turn::Ends(Answer::Unsolvable(none))),
    }
}

/// Where nothing is open: adds axioms, or decides, and propagates.
fn turn_on<S: States + Drop, G: Guide<S>>(
    guide: &mut G,
    trail: &mut Trail<S>,
    store: &mut Store<S>,
) -> Result<Turn, AllocError>
    requires spaces { HasSpaces (G.spaces guide.old) (trail_view S.tests trail.old) }
    requires searching { IsSearching (G.late guide.old) (entries_view S.tests store.old)
        (trail_view S.tests trail.old) Fixpoint }
    requires caught { IsCaught (G.asked guide.old) (trail_view S.tests trail.old) }
    requires seen { IsSeen (G.seen guide.old) (G.asked guide.old) (trail_view S.tests trail.old) }
    ensures turned { IfOk result (λ r. HasTurned (G.done guide.new (trail_view S.tests trail.new)) (space
        (G.late guide.old) (trail_view S.tests trail.old) + G.left guide.old) (G.asked guide.new) (G.left guide.new)
        (G.late guide.new) (G.seen guide.new) (entries_view S.tests store.new) (trail_view S.tests trail.new) r) }
    // The combinations stay.
    ensures counted { IfOk result
        (λ r. (steps : ℕ) → CountsOn (entries_view S.tests store.old) steps (entries_view S.tests store.new) steps) }
    ensures trail { IfOk result (λ r. IsTrail (entries_view S.tests store.new) (trail_view S.tests trail.new)) }
    ensures spaces { IfOk result (λ r. HasSpaces (G.spaces guide.new) (trail_view S.tests trail.new)) }
    ensures keeps { IfOk result (λ r. G.keeps guide.old guide.new) }
    ensures given { IfOk result (λ r. AreGiven (G.given guide.old) (entries_view S.tests store.old)
        → AreGiven (G.given guide.new) (entries_view S.tests store.new)) }
    ensures stored { IfOk result (λ r. G.stored guide.old (entries_view S.tests store.old)
        → G.stored guide.new (entries_view S.tests store.new)) }
    ensures follows { IfOk result
        (λ r. KeepsFollowed (G.follows guide.old) (entries_view S.tests store.old) (trail_view S.tests trail.old)
        (G.follows guide.new) (entries_view S.tests store.new) (trail_view S.tests trail.new)) }
    ensures turns { IfOk result
        (λ r. TurnsOn (G.follows guide.new) (entries_view S.tests store.old) (trail_view S.tests trail.old) r) }
{
    // Axioms first: where none is left to ask for and nothing to decide, that is a selection.
    if guide.axioms(trail, store)? {
        return Ok(Turn::Goes(trail.propagate(store)?));
    }
    match guide.choose(trail)? {
        Some((vertex, state)) => {
            trail.decide(vertex, state)?;
            Ok(Turn::Goes(trail.propagate(store)?))
        }
        None => Ok(Turn::Ends(Answer::Selection)),
    }
}

/// One turn.
fn one_turn<S: States + Drop, G: Guide<S>>(
    alloc: Global,
    guide: &mut G,
    trail: &mut Trail<S>,
    store: &mut Store<S>,
    steps: &mut u64,
    progress: Progress,
) -> Result<Turn, AllocError>
    requires spaces { HasSpaces (G.spaces guide.old) (trail_view S.tests trail.old) }
    requires searching { IsSearching (G.late guide.old) (entries_view S.tests store.old)
        (trail_view S.tests trail.old) progress }
    requires caught { IsCaught (G.asked guide.old) (trail_view S.tests trail.old) }
    requires seen { IsSeen (G.seen guide.old) (G.asked guide.old) (trail_view S.tests trail.old) }
    ensures turned { IfOk result (λ r. HasTurned (G.done guide.new (trail_view S.tests trail.new)) (space
        (G.late guide.old) (trail_view S.tests trail.old) + G.left guide.old) (G.asked guide.new) (G.left guide.new)
        (G.late guide.new) (G.seen guide.new) (entries_view S.tests store.new) (trail_view S.tests trail.new) r) }
    ensures counted { IfOk result
        (λ r. CountsOn (entries_view S.tests store.old) steps.old (entries_view S.tests store.new) steps.new) }
    ensures trail { IfOk result (λ r. IsTrail (entries_view S.tests store.new) (trail_view S.tests trail.new)) }
    ensures spaces { IfOk result (λ r. HasSpaces (G.spaces guide.new) (trail_view S.tests trail.new)) }
    ensures keeps { IfOk result (λ r. G.keeps guide.old guide.new) }
    ensures given { IfOk result (λ r. AreGiven (G.given guide.old) (entries_view S.tests store.old)
        → AreGiven (G.given guide.new) (entries_view S.tests store.new)) }
    ensures stored { IfOk result (λ r. G.stored guide.old (entries_view S.tests store.old)
        → G.stored guide.new (entries_view S.tests store.new)) }
    ensures follows { IfOk result
        (λ r. KeepsFollowed (G.follows guide.old) (entries_view S.tests store.old) (trail_view S.tests trail.old)
        (G.follows guide.new) (entries_view S.tests store.new) (trail_view S.tests trail.new)) }
    ensures turns { IfOk result
        (λ r. TurnsOn (G.follows guide.new) (entries_view S.tests store.old) (trail_view S.tests trail.old) r) }
{
    match progress {
        Progress::Conflict(id) => turn_back(alloc, guide, trail, store, steps, id),
        Progress::Fixpoint => turn_on(guide, trail, store),
    }
}

/// Searches until there is an answer, from a trail without assignments; vertices and axioms may come as it goes.
///
/// It ends without a budget, since every turn brings a number down. Where memory is wanting, nothing is promised of the
/// guide, the trail and the store but that they are sound.
pub fn search<S: States + Drop, G: Guide<S>>(
    alloc: Global,
    guide: &mut G,
    trail: &mut Trail<S>,
    store: &mut Store<S>,
) -> Result<Found, AllocError>
    requires spaces { HasSpaces (G.spaces guide.old) (trail_view S.tests trail.old) }
    requires trail { IsTrail (entries_view S.tests store.old) (trail_view S.tests trail.old) }
    requires steps { (trail_view S.tests trail.old).steps ≡ [] }
    requires seen { IsSeen (G.seen guide.old) (G.asked guide.old) (trail_view S.tests trail.old) }
    ensures ended { IfOk result (λ f. HasEnded (G.done guide.new (trail_view S.tests trail.new)) (G.asked guide.new)
        (entries_view S.tests store.new) (trail_view S.tests trail.new) f.answer) }
    ensures counted { IfOk result (λ f. IsCount (entries_view S.tests store.old) (entries_view S.tests store.new)
        (trail_view S.tests trail.new) f.steps) }
    ensures trail { IfOk result (λ r. IsTrail (entries_view S.tests store.new) (trail_view S.tests trail.new)) }
    // No fewer than the assignments that stand.
    ensures standing { IfOk result (λ f. length (trail_view S.tests trail.new).steps ≤ f.steps) }
    // Each assignment and each decision that stands brought the number down.
    ensures each { IfOk result (λ r. EachFalls (G.late guide.new) (trail_view S.tests trail.new)) }
    ensures spaces { IfOk result (λ r. HasSpaces (G.spaces guide.new) (trail_view S.tests trail.new)) }
    ensures keeps { IfOk result (λ r. G.keeps guide.old guide.new) }
    ensures given { IfOk result (λ r. AreGiven (G.given guide.old) (entries_view S.tests store.old)
        → AreGiven (G.given guide.new) (entries_view S.tests store.new)) }
    ensures stored { IfOk result (λ r. G.stored guide.old (entries_view S.tests store.old)
        → G.stored guide.new (entries_view S.tests store.new)) }
    ensures follows { IfOk result
        (λ r. KeepsFollowed (G.follows guide.old) (entries_view S.tests store.old) (trail_view S.tests trail.old)
        (G.follows guide.new) (entries_view S.tests store.new) (trail_view S.tests trail.new)) }
    ensures selects { IfOk result (λ f. (x : Assignment) → G.follows guide.new x
        → IsLeft x (entries_view S.tests store.old) (trail_view S.tests trail.old) → IsSelection f.answer) }
{
    let mut steps = 0;
    // An entry that is there from the start may force something, or be satisfied.
    let mut progress = trail.propagate(store)?;
    'turns: loop {
        match one_turn(alloc, guide, trail, store, &mut steps, progress)? {
            Turn::Goes(next) => progress = next,
            Turn::Ends(answer) => {
                return Ok(Found {
                    answer,
                    steps: with_assignments(steps, trail.assigned(), trail.places()),
                });
            }
        }
    }
}
