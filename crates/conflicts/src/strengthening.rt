//! Taking what holds at level 0 out of entries before they are combined.
//!
//! A unit of a vertex is an entry with one term, there: it says that the term's states are gone. A vertex has a stack
//! of units, as in a binary counter: a new one takes up those on top while they have no more states than it, so each
//! has more states than the one above it; and what is strengthened takes up all of them, from the top. If each new unit
//! took up all that is gone, n versions that fall away one after the other would make units of 1, 2, .. n states, n * n
//! in a refusal. It has n log n by the stack: for 2,000 versions that each need what nobody has, 1 MB and not 22.
//! A vertex with few states has one unit even so, and its states are taken up by one combination.

ghost use Rattle.conflicts.specs.Resolving.{HasRoom, IsGained, IsHeld, IsLone, IsUnitFor, LieSomewhere};
ghost use Rattle.incompatibilities.specs.Incompatibilities.{LiesIn, states_at};
ghost use Rattle.incompatibilities.specs.Stores.{EntryView, entries_view, entry, terms_of};
ghost use Rattle.propagation.specs.Promises.{IsSound, IsTrail};
ghost use Rattle.propagation.specs.Trails.{space_of, trail_view};
ghost use Rattle.std.specs.Bool.{OnTrue};
ghost use Rattle.std.specs.Prelude.{◌≡◌, ◌+◌, ◌-◌, ◌<◌, ◌≤◌, IfOk, IfSome, List, Some, length, option_map};
ghost use Rattle.terms.specs.Terms.{terms_view};

use crate::keeping::{has_room, keep};
use crate::lessons::{Back, back_of};
use incompatibilities::{Chain, Id, Incompatibility, Link, Store, combine};
use propagation::Trail;
use std::alloc::{AllocError, Global};
use version_sets::States;

/// A unit of so few states is taken up by any that is new.
const SMALL: u32 = 64;

/// An incompatibility, and the chain that it came out of.
#[derive(Drop)]
struct Held<S: States> {
    incompatibility: Incompatibility<S>,
    chain: Chain,
}

/// The states of an incompatibility's term at a vertex, if there is one; a binary search.
fn states_on<S: States + Drop>(incompatibility: &Incompatibility<S>, vertex: usize) -> Option<&S>
    ensures { option_map (λ s. S.tests s.now) result ≡ states_at (terms_view S.tests incompatibility.now) vertex }
{
    let terms = incompatibility.terms();
    match terms.binary_search_by_key(&vertex, |term| term.vertex) {
        Ok(place) => Some(&terms[place].states),
        Err(_) => None,
    }
}

/// The states of a vertex that an entry says are gone, if it is there and has a term at the vertex.
fn gone_by<S: States + Drop>(store: &Store<S>, unit: Id, vertex: usize) -> Option<&S>
    ensures { IfSome result (λ s. (unit < length (entries_view S.tests store.now))
        × (terms_of (entries_view S.tests store.now) unit vertex ≡ Some (S.tests s.now))) }
{
    if unit.index() >= store.len() {
        return None;
    }
    states_on(store.get(unit), vertex)
}

/// Whether an entry says of a vertex that states are gone which an incompatibility's term there lacks.
fn is_unit_for<S: States + Drop>(
    store: &Store<S>,
    incompatibility: &Incompatibility<S>,
    vertex: usize,
    unit: Id,
) -> bool
    requires { LieSomewhere (entries_view S.tests store.now) (terms_view S.tests incompatibility.now) }
    ensures { OnTrue result
        (IsUnitFor (entries_view S.tests store.now) (terms_view S.tests incompatibility.now) vertex unit) }
{
    let gone = match gone_by(store, unit, vertex) {
        Some(gone) => gone,
        None => return false,
    };
    match states_on(incompatibility, vertex) {
        Some(states) => !gone.subset(states),
        None => false,
    }
}

/// What is held with the states of its term at a vertex that a unit says are gone: no term there, if all others are.
fn with_unit<S: States + Drop>(
    alloc: Global,
    trail: &Trail<S>,
    store: &Store<S>,
    held: Held<S>,
    link: Link,
) -> Result<Held<S>, AllocError>
    requires trail { IsTrail (entries_view S.tests store.now) (trail_view S.tests trail.now) }
    requires held { IsHeld (entries_view S.tests store.now) (trail_view S.tests trail.now)
        (terms_view S.tests held.incompatibility) held.chain }
    ensures { IfOk result (λ h. IsHeld (entries_view S.tests store.now) (trail_view S.tests trail.now)
        (terms_view S.tests h.incompatibility) h.chain) }
{
    let Link { with: unit, vertex } = link;
    let says_more = is_unit_for(store, &held.incompatibility, vertex, unit);
    if !says_more {
        return Ok(held);
    }
    let made = combine(alloc, &held.incompatibility, store.get(unit), vertex)?;
    let mut chain = held.chain;
    chain.push(link)?;
    Ok(Held {
        incompatibility: made,
        chain,
    })
}

/// How many states of a vertex an entry says are gone.
fn count_of<S: States + Drop>(store: &Store<S>, unit: Id, vertex: usize) -> u32 {
    match gone_by(store, unit, vertex) {
        Some(gone) => gone.count(),
        None => 0,
    }
}

/// The units of a vertex that a new one of so many states takes up: those on top, down to one that isn't small and has
/// more states than the new one then has.
fn units_for_new<S: States + Drop>(store: &Store<S>, vertex: usize, states: u32) -> &[Id] {
    let units = store.notes().units_at(vertex);
    let mut size = states;
    let mut taken = 0_usize;
    'units: for unit in units.iter().rev() {
        let gone = count_of(store, *unit, vertex);
        if gone > SMALL.max(size) {
            break;
        }
        size = size.saturating_add(gone);
        taken = taken.saturating_add(1);
    }
    &units[units.len().saturating_sub(taken)..]
}

/// The links by which an incompatibility takes up units of a vertex, the newest first.
fn push_links<S: States + Drop>(
    links: &mut Vec<Link>,
    store: &Store<S>,
    incompatibility: &Incompatibility<S>,
    vertex: usize,
    units: &[Id],
) -> Result<(), AllocError>
    requires { LieSomewhere (entries_view S.tests store.now) (terms_view S.tests incompatibility.now) }
{
    'units: for unit in units.iter().rev() {
        if is_unit_for(store, incompatibility, vertex, *unit) {
            links.push(Link {
                with: *unit,
                vertex,
            })?;
        }
    }
    Ok(())
}

/// The links by which an incompatibility takes up what is gone at its terms' vertices. If it is to be a unit itself, it
/// takes up those of its own vertex alone that a new one does.
fn links_of<S: States + Drop>(
    alloc: Global,
    store: &Store<S>,
    incompatibility: &Incompatibility<S>,
    own: Option<usize>,
) -> Result<Vec<Link>, AllocError>
    requires { LieSomewhere (entries_view S.tests store.now) (terms_view S.tests incompatibility.now) }
{
    let mut links = Vec::new(alloc);
    'terms: for term in incompatibility.terms() {
        let vertex = term.vertex;
        let units = if own == Some(vertex) {
            units_for_new(store, vertex, term.states.count())
        } else {
            store.notes().units_at(vertex)
        };
        push_links(&mut links, store, incompatibility, vertex, units)?;
    }
    Ok(links)
}

/// An entry with what is gone at level 0, by some links.
fn with_units<S: States + Drop>(
    alloc: Global,
    trail: &Trail<S>,
    store: &Store<S>,
    id: Id,
    links: Vec<Link>,
) -> Result<Held<S>, AllocError>
    requires trail { IsTrail (entries_view S.tests store.now) (trail_view S.tests trail.now) }
    requires within { id < length (entries_view S.tests store.now) }
    ensures { IfOk result (λ h. IsHeld (entries_view S.tests store.now) (trail_view S.tests trail.now)
        (terms_view S.tests h.incompatibility) h.chain) }
{
    let incompatibility = store.get(id).copy(alloc)?;
    let mut held = Held {
        incompatibility,
        chain: Chain::new(alloc, id),
    };
    'links: for link in &links {
        held = with_unit(alloc, trail, store, held, *link)?;
    }
    Ok(held)
}

/// Whether no level's end below the trail's satisfies an incompatibility.
fn is_lone<S: States + Drop>(trail: &Trail<S>, incompatibility: &Incompatibility<S>) -> bool
    requires sound { IsSound (trail_view S.tests trail.now) }
    requires lies { LiesIn (space_of (trail_view S.tests trail.now))
        (states_at (terms_view S.tests incompatibility.now)) }
    ensures { OnTrue result (IsLone (trail_view S.tests trail.now) (terms_view S.tests incompatibility.now)) }
{
    if !trail.is_satisfied(incompatibility) {
        return true;
    }
    match back_of(trail, incompatibility, trail.places()) {
        Back::Yes(_) => true,
        Back::No => false,
    }
}

/// The entry that stands in for one so far, or the one itself.
fn stand_in_of<S: States + Drop>(store: &Store<S>, id: Id) -> Id
    requires { id < length (entries_view S.tests store.now) }
    ensures { result < length (entries_view S.tests store.now) }
{
    match store.notes().stand_in(id) {
        Some(other) if other.index() < store.len() => other,
        _ => id,
    }
}

/// Notes what stands in for two entries, and hands it on.
fn note_stand_ins<S: States + Drop>(
    store: &mut Store<S>,
    id: Id,
    current: Id,
    stand_in: Id,
) -> Result<Id, AllocError>
    ensures handed { IfOk result (λ i. i ≡ stand_in) }
    ensures same { entries_view S.tests store.new ≡ entries_view S.tests store.old }
{
    store.note_stand_in(id, stand_in)?;
    store.note_stand_in(current, stand_in)?;
    Ok(stand_in)
}

/// What stands in for an entry: one that has taken up all that is gone at level 0, which the store gains where it has
/// none; or the one so far where there is no room. If it is to be a unit, `own` is its vertex.
pub(crate) fn stand_in_for<S: States + Drop>(
    alloc: Global,
    trail: &Trail<S>,
    store: &mut Store<S>,
    first: usize,
    id: Id,
    own: Option<usize>,
) -> Result<Id, AllocError>
    requires trail { IsTrail (entries_view S.tests store.old) (trail_view S.tests trail.now) }
    requires within { id < length (entries_view S.tests store.old) }
    requires room { HasRoom first (trail_view S.tests trail.now) (entries_view S.tests store.old) }
    ensures within { IfOk result (λ i. i < length (entries_view S.tests store.new)) }
    ensures gained { (gained : List EntryView) × IsGained (entries_view S.tests store.old)
        (trail_view S.tests trail.now) (entries_view S.tests store.new) gained }
    ensures trail { IsTrail (entries_view S.tests store.new) (trail_view S.tests trail.now) }
    ensures room { HasRoom first (trail_view S.tests trail.now) (entries_view S.tests store.new) }
{
    let current = stand_in_of(store, id);
    let links = links_of(alloc, store, store.get(current), own)?;
    if links.is_empty() {
        return Ok(current);
    }
    if !has_room(trail, store, first) {
        return Ok(current);
    }
    let held = with_units(alloc, trail, store, current, links)?;
    if !is_lone(trail, &held.incompatibility) {
        return Ok(current);
    }
    let made = keep(store, held.incompatibility, held.chain)?;
    note_stand_ins(store, id, current, made)
}

/// Whether an incompatibility says of one vertex alone what is gone there.
fn is_unit<S: States + Drop>(incompatibility: &Incompatibility<S>, vertex: usize) -> bool {
    match incompatibility.terms() {
        [term] => term.vertex == vertex,
        _ => false,
    }
}

/// The units of a vertex with a new one, which takes the place of those that say no more than it.
fn units_with<S: States + Drop>(
    alloc: Global,
    store: &Store<S>,
    vertex: usize,
    unit: Id,
) -> Result<Vec<Id>, AllocError>
    requires within { unit < length (entries_view S.tests store.now) }
    requires lies { LieSomewhere (entries_view S.tests store.now) (entry (entries_view S.tests store.now) unit).terms }
{
    let new = store.get(unit);
    let mut units = Vec::new(alloc);
    'others: for other in store.notes().units_at(vertex) {
        if is_unit_for(store, new, vertex, *other) {
            units.push(*other)?;
        }
    }
    units.push(unit)?;
    Ok(units)
}

/// Notes that a place was taken up, and the entry as a unit of the place's vertex, if it is one.
fn note_place<S: States + Drop>(
    alloc: Global,
    store: &mut Store<S>,
    place: usize,
    vertex: usize,
    unit: Id,
) -> Result<(), AllocError>
    requires within { unit < length (entries_view S.tests store.old) }
    requires lies { LieSomewhere (entries_view S.tests store.old) (entry (entries_view S.tests store.old) unit).terms }
    ensures { entries_view S.tests store.new ≡ entries_view S.tests store.old }
{
    let says = is_unit(store.get(unit), vertex);
    store.note_taken(place.saturating_add(1));
    if !says {
        return Ok(());
    }
    let units = units_with(alloc, store, vertex, unit)?;
    store.note_units(vertex, units)
}

/// Takes up a place of level 0, which an entry forced: what stands in for the entry is a unit of the vertex.
fn take_up<S: States + Drop>(
    alloc: Global,
    trail: &Trail<S>,
    store: &mut Store<S>,
    first: usize,
    place: usize,
    forced_by: Id,
) -> Result<(), AllocError>
    requires trail { IsTrail (entries_view S.tests store.old) (trail_view S.tests trail.now) }
    requires room { HasRoom first (trail_view S.tests trail.now) (entries_view S.tests store.old) }
    requires place { place < length (trail_view S.tests trail.now).steps }
    ensures gained { (gained : List EntryView) × IsGained (entries_view S.tests store.old)
        (trail_view S.tests trail.now) (entries_view S.tests store.new) gained }
    ensures trail { IsTrail (entries_view S.tests store.new) (trail_view S.tests trail.now) }
    ensures room { HasRoom first (trail_view S.tests trail.now) (entries_view S.tests store.new) }
{
    if forced_by.index() >= store.len() {
        return Ok(());
    }
    let vertex = trail.vertex_at(place);
    let unit = stand_in_for(alloc, trail, store, first, forced_by, Some(vertex))?;
    note_place(alloc, store, place, vertex, unit)
}

/// Takes up the places of level 0 that came since it was done last: those up to the first decision.
pub(crate) fn take_all_up<S: States + Drop>(
    alloc: Global,
    trail: &Trail<S>,
    store: &mut Store<S>,
    first: usize,
) -> Result<(), AllocError>
    requires trail { IsTrail (entries_view S.tests store.old) (trail_view S.tests trail.now) }
    requires room { HasRoom first (trail_view S.tests trail.now) (entries_view S.tests store.old) }
    ensures gained { (gained : List EntryView) × IsGained (entries_view S.tests store.old)
        (trail_view S.tests trail.now) (entries_view S.tests store.new) gained }
    ensures trail { IsTrail (entries_view S.tests store.new) (trail_view S.tests trail.now) }
    ensures room { HasRoom first (trail_view S.tests trail.now) (entries_view S.tests store.new) }
{
    let from = store.notes().taken();
    'places: for place in from..trail.places() {
        let forced_by = match trail.forced_by_at(place) {
            Some(forced_by) => forced_by,
            None => return Ok(()),
        };
        take_up(alloc, trail, store, first, place, forced_by)?;
    }
    Ok(())
}
