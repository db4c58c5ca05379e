//! What a conflict teaches: an incompatibility that is combined until it can be learned.

ghost use Rattle.conflicts.specs.Resolving.{Ends, HasRoom, IsBack, IsFound, IsGained, IsLesson, IsLone, IsNext};
ghost use Rattle.conflicts.specs.Resolving.{IsPlaced, Quiet, place_of, places_left};
ghost use Rattle.incompatibilities.specs.Incompatibilities.{LiesIn, states_at};
ghost use Rattle.incompatibilities.specs.Stores.{EntryView, entries_view, entry, terms_of};
ghost use Rattle.propagation.specs.Promises.{IsSound, IsTrail};
ghost use Rattle.propagation.specs.Satisfaction.{Sat};
ghost use Rattle.propagation.specs.Trails.{space_of, trail_view};
ghost use Rattle.std.specs.Prelude.{◌≡◌, ◌<◌, IfOk, List, Some, length};
ghost use Rattle.terms.specs.Terms.{terms_view};

use crate::keeping::{has_room, keep};
use crate::strengthening::stand_in_for;
use incompatibilities::{Chain, Id, Incompatibility, Link, Store, combine};
use propagation::{Satisfier, Trail};
use std::alloc::{AllocError, Global};
use version_sets::States;

/// What has more terms is never short.
const SHORT: usize = 4;

/// What follows from the axioms and is satisfied now, the chain that it came out of, and the assignment that satisfied
/// it, if it has a term.
#[derive(Drop)]
pub(crate) struct Lesson<S: States> {
    pub incompatibility: Incompatibility<S>,
    pub chain: Chain,
    pub found: Option<Satisfier>,
}

/// Whether a resolution can go on with an incompatibility.
pub(crate) enum Back {
    No,
    /// Yes, and this assignment satisfied it.
    Yes(Option<Satisfier>),
}

/// The assignment that satisfied an incompatibility; `None` if it has no term.
fn satisfier_of<S: States + Drop>(
    trail: &Trail<S>,
    incompatibility: &Incompatibility<S>,
) -> Option<Satisfier>
    requires sound { IsSound (trail_view S.tests trail.now) }
    requires lies { LiesIn (space_of (trail_view S.tests trail.now))
        (states_at (terms_view S.tests incompatibility.now)) }
    requires satisfied { Sat (trail_view S.tests trail.now).sets (states_at (terms_view S.tests incompatibility.now)) }
    ensures { (es : List EntryView) → IsTrail es (trail_view S.tests trail.now)
        → IsFound es (trail_view S.tests trail.now) (terms_view S.tests incompatibility.now) result }
{
    if incompatibility.terms().is_empty() {
        return None;
    }
    Some(trail.satisfier(incompatibility))
}

/// The combination with what forced a satisfier at its vertex, if the other terms were satisfied no earlier than at the
/// satisfier's own level; else `None`, as for each decision, which is the first assignment of its level.
fn next_link(found: &Option<Satisfier>) -> Option<Link>
    requires { IsPlaced found.now }
    ensures { IsNext found.now result }
{
    let satisfier = found.as_ref()?;
    // At the level where the other terms came to be satisfied, the satisfier's own term is open again, so what it
    // satisfied would have forced the opposite there. That is learned.
    if satisfier.before < satisfier.level {
        return None;
    }
    let with = satisfier.cause?;
    Some(Link {
        with,
        vertex: satisfier.vertex,
    })
}

/// The place of a satisfier.
fn place_of(found: &Option<Satisfier>) -> usize
    ensures { result ≡ place_of found.now }
{
    match found {
        Some(satisfier) => satisfier.place,
        None => 0,
    }
}

/// Whether an incompatibility is satisfied by the first so many places of the trail, and at no lower level than the
/// trail's. So it is with most that stand in for another, but nothing is proved of what these say.
pub(crate) fn back_of<S: States + Drop>(
    trail: &Trail<S>,
    incompatibility: &Incompatibility<S>,
    places: usize,
) -> Back
    requires sound { IsSound (trail_view S.tests trail.now) }
    requires lies { LiesIn (space_of (trail_view S.tests trail.now))
        (states_at (terms_view S.tests incompatibility.now)) }
    ensures { IsBack (trail_view S.tests trail.now) (terms_view S.tests incompatibility.now) places result }
{
    if !trail.is_satisfied(incompatibility) {
        return Back::No;
    }
    let level = trail.level();
    if incompatibility.terms().is_empty() {
        if level == 0 {
            return Back::Yes(None);
        }
        return Back::No;
    }
    let found = trail.satisfier(incompatibility);
    if found.level != level {
        return Back::No;
    }
    if found.place < places {
        return Back::Yes(Some(found));
    }
    Back::No
}

/// The lesson that is an entry of the store.
fn lesson_from<S: States + Drop>(
    alloc: Global,
    trail: &Trail<S>,
    store: &Store<S>,
    id: Id,
    found: Option<Satisfier>,
) -> Result<Lesson<S>, AllocError>
    requires trail { IsTrail (entries_view S.tests store.now) (trail_view S.tests trail.now) }
    requires within { id < length (entries_view S.tests store.now) }
    requires lone { Quiet (entries_view S.tests store.now) (trail_view S.tests trail.now)
        (trail_view S.tests trail.now).level
        → IsLone (trail_view S.tests trail.now) (entry (entries_view S.tests store.now) id).terms }
    requires here { (es : List EntryView) → IsTrail es (trail_view S.tests trail.now)
        → IsFound es (trail_view S.tests trail.now) (entry (entries_view S.tests store.now) id).terms found }
    ensures lesson { IfOk result (λ l. IsLesson (entries_view S.tests store.now) (trail_view S.tests trail.now)
        (terms_view S.tests l.incompatibility) l.chain l.found) }
    ensures same { IfOk result (λ l. l.found ≡ found) }
{
    let incompatibility = store.get(id).copy(alloc)?;
    Ok(Lesson {
        incompatibility,
        chain: Chain::new(alloc, id),
        found,
    })
}

/// What a resolution of an entry begins with: what stands in for the entry, if it can, else the entry.
fn start_of<S: States + Drop>(
    alloc: Global,
    trail: &Trail<S>,
    store: &Store<S>,
    id: Id,
    stand_in: Id,
) -> Result<Lesson<S>, AllocError>
    requires trail { IsTrail (entries_view S.tests store.now) (trail_view S.tests trail.now) }
    requires within { id < length (entries_view S.tests store.now) }
    requires stand_in { stand_in < length (entries_view S.tests store.now) }
    requires satisfied { Sat (trail_view S.tests trail.now).sets (terms_of (entries_view S.tests store.now) id) }
    ensures { IfOk result (λ l. IsLesson (entries_view S.tests store.now) (trail_view S.tests trail.now)
        (terms_view S.tests l.incompatibility) l.chain l.found) }
{
    match back_of(trail, store.get(stand_in), trail.places()) {
        Back::Yes(found) => lesson_from(alloc, trail, store, stand_in, found),
        Back::No => {
            let found = satisfier_of(trail, store.get(id));
            lesson_from(alloc, trail, store, id, found)
        }
    }
}

/// A lesson combined with what forced its satisfier.
fn with_cause<S: States + Drop>(
    alloc: Global,
    trail: &Trail<S>,
    store: &Store<S>,
    lesson: Lesson<S>,
    link: Link,
) -> Result<Lesson<S>, AllocError>
    requires trail { IsTrail (entries_view S.tests store.now) (trail_view S.tests trail.now) }
    requires lesson { IsLesson (entries_view S.tests store.now) (trail_view S.tests trail.now)
        (terms_view S.tests lesson.incompatibility) lesson.chain lesson.found }
    requires next { IsNext lesson.found (Some link) }
    ensures lesson { IfOk result (λ l. IsLesson (entries_view S.tests store.now) (trail_view S.tests trail.now)
        (terms_view S.tests l.incompatibility) l.chain l.found) }
    ensures nearer { IfOk result (λ l. places_left l.found < places_left lesson.found) }
{
    // Going back would undo the satisfier and other terms alike, and leave nothing to force. But whatever breaks the
    // combination breaks one of the two, and it was satisfied before the satisfier was put. The vertex has a term in
    // the lesson, which stands first: by that a derivation can name it.
    let made = combine(
        alloc,
        &lesson.incompatibility,
        store.get(link.with),
        link.vertex,
    )?;
    let found = satisfier_of(trail, &made);
    let mut chain = lesson.chain;
    chain.push(link)?;
    Ok(Lesson {
        incompatibility: made,
        chain,
        found,
    })
}

/// A lesson combined with what stands in for what forced its satisfier, if it can go on with that, else with what
/// forced it.
fn with_stand_in<S: States + Drop>(
    alloc: Global,
    trail: &Trail<S>,
    store: &Store<S>,
    lesson: Lesson<S>,
    link: Link,
    stand_in: Id,
) -> Result<Lesson<S>, AllocError>
    requires trail { IsTrail (entries_view S.tests store.now) (trail_view S.tests trail.now) }
    requires lesson { IsLesson (entries_view S.tests store.now) (trail_view S.tests trail.now)
        (terms_view S.tests lesson.incompatibility) lesson.chain lesson.found }
    requires next { IsNext lesson.found (Some link) }
    requires stand_in { stand_in < length (entries_view S.tests store.now) }
    ensures lesson { IfOk result (λ l. IsLesson (entries_view S.tests store.now) (trail_view S.tests trail.now)
        (terms_view S.tests l.incompatibility) l.chain l.found) }
    ensures nearer { IfOk result (λ l. places_left l.found < places_left lesson.found) }
{
    let vertex = link.vertex;
    let made = combine(alloc, &lesson.incompatibility, store.get(stand_in), vertex)?;
    match back_of(trail, &made, place_of(&lesson.found)) {
        Back::Yes(found) => {
            let mut chain = lesson.chain;
            chain.push(Link {
                with: stand_in,
                vertex,
            })?;
            Ok(Lesson {
                incompatibility: made,
                chain,
                found,
            })
        }
        Back::No => with_cause(alloc, trail, store, lesson, link),
    }
}

/// A lesson of which the store has an entry, if it is short for what it took: what is short is often what forces the
/// next assignment, and refusals that use it are shorter.
fn kept_if_short<S: States + Drop>(
    alloc: Global,
    trail: &Trail<S>,
    store: &mut Store<S>,
    first: usize,
    lesson: Lesson<S>,
) -> Result<Lesson<S>, AllocError>
    requires trail { IsTrail (entries_view S.tests store.old) (trail_view S.tests trail.now) }
    requires lesson { IsLesson (entries_view S.tests store.old) (trail_view S.tests trail.now)
        (terms_view S.tests lesson.incompatibility) lesson.chain lesson.found }
    requires room { HasRoom first (trail_view S.tests trail.now) (entries_view S.tests store.old) }
    ensures lesson { IfOk result (λ l. IsLesson (entries_view S.tests store.new) (trail_view S.tests trail.now)
        (terms_view S.tests l.incompatibility) l.chain l.found) }
    ensures same { IfOk result (λ l. l.found ≡ lesson.found) }
    ensures gained { (gained : List EntryView) × IsGained (entries_view S.tests store.old)
        (trail_view S.tests trail.now) (entries_view S.tests store.new) gained }
    ensures trail { IsTrail (entries_view S.tests store.new) (trail_view S.tests trail.now) }
    ensures room { HasRoom first (trail_view S.tests trail.now) (entries_view S.tests store.new) }
{
    let taken = lesson.chain.links().len();
    if lesson.incompatibility.terms().len() > SHORT.min(taken.saturating_add(2)) {
        return Ok(lesson);
    }
    if !has_room(trail, store, first) {
        return Ok(lesson);
    }
    let found = lesson.found;
    let id = keep(store, lesson.incompatibility, lesson.chain)?;
    lesson_from(alloc, trail, store, id, found)
}

/// A lesson with one combination more.
fn next_lesson<S: States + Drop>(
    alloc: Global,
    trail: &Trail<S>,
    store: &mut Store<S>,
    first: usize,
    lesson: Lesson<S>,
    link: Link,
) -> Result<Lesson<S>, AllocError>
    requires trail { IsTrail (entries_view S.tests store.old) (trail_view S.tests trail.now) }
    requires lesson { IsLesson (entries_view S.tests store.old) (trail_view S.tests trail.now)
        (terms_view S.tests lesson.incompatibility) lesson.chain lesson.found }
    requires next { IsNext lesson.found (Some link) }
    requires room { HasRoom first (trail_view S.tests trail.now) (entries_view S.tests store.old) }
    ensures lesson { IfOk result (λ l. IsLesson (entries_view S.tests store.new) (trail_view S.tests trail.now)
        (terms_view S.tests l.incompatibility) l.chain l.found) }
    ensures nearer { IfOk result (λ l. places_left l.found < places_left lesson.found) }
    ensures gained { (gained : List EntryView) × IsGained (entries_view S.tests store.old)
        (trail_view S.tests trail.now) (entries_view S.tests store.new) gained }
    ensures trail { IsTrail (entries_view S.tests store.new) (trail_view S.tests trail.now) }
    ensures room { HasRoom first (trail_view S.tests trail.now) (entries_view S.tests store.new) }
{
    let here = kept_if_short(alloc, trail, store, first, lesson)?;
    let stand_in = stand_in_for(alloc, trail, store, first, link.with, None)?;
    with_stand_in(alloc, trail, store, here, link, stand_in)
}

/// Combines a satisfied entry with what forced its satisfier, until all its terms but one were satisfied at an earlier
/// level, or it has none.
pub(crate) fn lesson_of<S: States + Drop>(
    alloc: Global,
    trail: &Trail<S>,
    store: &mut Store<S>,
    first: usize,
    id: Id,
) -> Result<Lesson<S>, AllocError>
    requires trail { IsTrail (entries_view S.tests store.old) (trail_view S.tests trail.now) }
    requires within { id < length (entries_view S.tests store.old) }
    requires satisfied { Sat (trail_view S.tests trail.now).sets (terms_of (entries_view S.tests store.old) id) }
    requires room { HasRoom first (trail_view S.tests trail.now) (entries_view S.tests store.old) }
    ensures lesson { IfOk result (λ l. IsLesson (entries_view S.tests store.new) (trail_view S.tests trail.now)
        (terms_view S.tests l.incompatibility) l.chain l.found) }
    ensures ends { IfOk result (λ l. Ends l.found) }
    ensures gained { (gained : List EntryView) × IsGained (entries_view S.tests store.old)
        (trail_view S.tests trail.now) (entries_view S.tests store.new) gained }
    ensures trail { IsTrail (entries_view S.tests store.new) (trail_view S.tests trail.now) }
    ensures room { HasRoom first (trail_view S.tests trail.now) (entries_view S.tests store.new) }
{
    let stand_in = stand_in_for(alloc, trail, store, first, id, None)?;
    let mut lesson = start_of(alloc, trail, store, id, stand_in)?;
    'steps: while let Some(link) = next_link(&lesson.found) {
        let next = next_lesson(alloc, trail, store, first, lesson, link)?;
        lesson = next;
    }
    Ok(lesson)
}
