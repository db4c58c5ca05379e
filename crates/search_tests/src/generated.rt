//! Searches of generated stores, against all assignments.

ghost use Rattle.incompatibilities.specs.Stores.{entries_view};
ghost use Rattle.search_tests.specs.inner.Universes.{AllLie};
ghost use Rattle.search_tests.specs.inner.Meeting.{AreSmall};
ghost use Rattle.std.specs.Prelude.{◌≤◌, IfOk, length};

use crate::drawing::next;
use crate::made_stores::{add_axiom, guide_of, written};
use crate::preferring::search_from_full;
use guiding::Answer;
use incompatibilities::{Id, Incompatibility, Store};
use std::alloc::{AllocError, Global};
use std::test::Fail;
use version_sets::{ListStates, States, WordStates};

/// Puts one or two of three states of a vertex against those of a later one; a number draws them.
fn put_drawn<S: States + Drop>(
    store: &mut Store<S>,
    alloc: Global,
    spaces: &[u32],
    random: u32,
) -> Result<(), AllocError>
    requires small { AreSmall spaces.now }
    requires store { AllLie spaces.now (entries_view S.tests store.old) }
    ensures { AllLie spaces.now (entries_view S.tests store.new) }
{
    let first = (random >> 8) as usize % 3;
    let second = first + 1 + (random >> 12) as usize % (3 - first);
    let one = (first, u64::from(1 + (random >> 16) % 6));
    let other = (second, u64::from(1 + (random >> 20) % 6));
    add_axiom(store, alloc, spaces, &[one, other])
}

/// Twelve to twenty such entries.
fn drawn<S: States + Drop>(alloc: Global, spaces: &[u32], seed: u32) -> Result<Store<S>, AllocError>
    requires { AreSmall spaces.now }
    ensures { IfOk result (λ s. AllLie spaces.now (entries_view S.tests s)) }
{
    let mut store = Store::new(alloc);
    let mut random = seed;
    'pairs: for _ in 0..12 + seed % 9 {
        random = next(random);
        put_drawn(&mut store, alloc, spaces, random)?;
    }
    Ok(store)
}

/// The digits of a number in base 3, lowest first: an assignment of four vertices.
fn digits(alloc: Global, number: u32) -> Result<Vec<u32>, AllocError> {
    let mut digits = Vec::with_capacity(alloc, 4)?;
    let mut left = number;
    'digits: for _ in 0..4 {
        digits.push(left % 3)?;
        left /= 3;
    }
    Ok(digits)
}

/// Whether a term's vertex has one of its states.
fn holds<S: States>(states: &S, vertex: usize, assignment: &[u32]) -> bool {
    match assignment.get(vertex) {
        Some(state) => states.member(*state),
        None => false,
    }
}

/// Whether an assignment breaks an incompatibility.
fn breaks<S: States + Drop>(incompatibility: &Incompatibility<S>, assignment: &[u32]) -> bool {
    'terms: for term in incompatibility.terms() {
        if !holds(&term.states, term.vertex, assignment) {
            return false;
        }
    }
    true
}

/// Whether an assignment breaks one of the entries between two places.
fn breaks_one<S: States + Drop>(
    store: &Store<S>,
    from: usize,
    to: usize,
    assignment: &[u32],
) -> bool
    requires { to ≤ length (entries_view S.tests store.now) }
{
    'entries: for place in from..to {
        if breaks(store.get(Id::new(place)), assignment) {
            return true;
        }
    }
    false
}

/// Whether each assignment that breaks a later entry breaks one of the first ones, and whether some breaks none.
fn tried<S: States + Drop>(
    alloc: Global,
    store: &Store<S>,
    given: usize,
) -> Result<(bool, bool), AllocError>
    requires { given ≤ length (entries_view S.tests store.now) }
{
    let mut follows = true;
    let mut is_left = false;
    'assignments: for number in 0..81 {
        let assignment = digits(alloc, number)?;
        let broken = breaks_one(store, 0, given, &assignment);
        let later = breaks_one(store, given, store.len(), &assignment);
        follows &= broken | !later;
        is_left |= !broken;
    }
    Ok((follows, is_left))
}

/// What a search of a generated store came to.
#[derive(Drop, PartialEq)]
struct Played {
    /// What was learned.
    learned: Vec<usize>,
    /// Its steps.
    steps: u64,
    /// Whether there is a selection.
    is_selection: bool,
    /// Whether what was learned follows, some assignment is left where there is a selection and else none, and there
    /// were at least as many steps as entries were learned.
    is_right: bool,
}

/// Searches a generated store.
fn plays<S: States + Drop>(alloc: Global, seed: u32) -> Result<Played, AllocError> {
    let mut guide = guide_of(alloc, 4, 3)?;
    let mut store: Store<S> = drawn(alloc, &guide.spaces, seed)?;
    let given = store.len();
    let (found, _) = search_from_full(alloc, &mut guide, &mut store)?;
    let is_selection = found.answer == Answer::Selection;
    let (follows, is_left) = tried(alloc, &store, given.min(store.len()))?;
    let gained = store.len().saturating_sub(given) as u64;
    Ok(Played {
        learned: written(alloc, &store, given)?,
        steps: found.steps,
        is_selection,
        is_right: (given <= store.len())
            & follows
            & (is_left == is_selection)
            & (found.steps >= gained),
    })
}

/// Searches generated stores at both bodies; gives how many had a selection, none where something wasn't right.
fn play_all(alloc: Global) -> Result<Option<u32>, AllocError> {
    let mut selections: u32 = 0;
    'seeds: for seed in 0..2000 {
        let lists = plays::<ListStates>(alloc, seed)?;
        if !lists.is_right | (plays::<WordStates>(alloc, seed)? != lists) {
            return Ok(None);
        }
        selections = selections.saturating_add(u32::from(lists.is_selection));
    }
    Ok(Some(selections))
}

#[test]
fn learns_what_follows(rt: HostRuntime) -> Result<(), Fail> {
    let selections = play_all(rt.alloc())?;
    // Both answers come.
    assert!(rt; selections > Some(100));
    assert!(rt; selections < Some(1900));
    Ok(())
}
