//! Combinations and stores: what they hold is written down as numbers.

ghost use Rattle.incompatibilities.specs.Incompatibilities.{LiesIn, states_at};
ghost use Rattle.search_tests.specs.inner.Spaces.{space};
ghost use Rattle.std.specs.Prelude.{IfOk};
ghost use Rattle.terms.specs.Terms.{terms_view};

use crate::sets::{set_of, write_set};
use incompatibilities::{Id, Incompatibility, Origin, Store, combine};
use std::alloc::{AllocError, Global};
use std::process::Abort;
use terms::Term;
use version_sets::States;

/// The incompatibility of a term on vertex 0, with the universe 2, and one on vertex 1, with 3; handed over the other
/// way round.
fn two_terms<S: States + Drop>(
    alloc: Global,
    zero: &[u32],
    one: &[u32],
) -> Result<Incompatibility<S>, AllocError>
    ensures { IfOk result (λ i. LiesIn space (states_at (terms_view S.tests i))) }
{
    let zero = Term {
        vertex: 0,
        states: set_of(alloc, 2, zero)?,
    };
    let one = Term {
        vertex: 1,
        states: set_of(alloc, 3, one)?,
    };
    let mut terms = Vec::with_capacity(alloc, 2)?;
    terms.push(one)?;
    terms.push(zero)?;
    Ok(Incompatibility::new(terms))
}

/// Two axioms, and their combination at vertex 1 as a third.
fn three_entries<S: States + Drop>(alloc: Global) -> Result<Store<S>, AllocError> {
    let a = two_terms(alloc, &[1], &[0, 2])?;
    let b = two_terms(alloc, &[1], &[0, 1])?;
    let made = combine(alloc, &a, &b, 1)?;
    let mut store = Store::new(alloc);
    store.add(a, Origin::Axiom(1))?;
    store.add(b, Origin::Axiom(2))?;
    store.add(made, Origin::Axiom(3))?;
    Ok(store)
}

/// The first axiom with itself at a vertex without a term.
fn again<S: States + Drop>(alloc: Global) -> Result<Incompatibility<S>, AllocError> {
    let a = two_terms(alloc, &[1], &[0, 2])?;
    combine(alloc, &a, &a, 2)
}

/// Writes down terms: how many there are, and each vertex and set.
fn write_terms<S: States + Drop>(
    out: &mut Vec<usize>,
    incompatibility: &Incompatibility<S>,
) -> Result<(), AllocError> {
    out.push(incompatibility.terms().len())?;
    'terms: for term in incompatibility.terms() {
        out.push(term.vertex)?;
        write_set(out, &term.states)?;
    }
    Ok(())
}

/// Whether an entry is there and is an instance of this axiom.
fn has_origin<S: States + Drop>(store: &Store<S>, place: usize, kind: u8) -> bool {
    if place >= store.len() {
        return false;
    }
    match store.origin(Id::new(place)) {
        Origin::Axiom(number) => *number == kind,
        Origin::Learned(_) => false,
    }
}

/// Whether the three entries came from where they were said to come from.
fn have_origins<S: States + Drop>(alloc: Global) -> Result<bool, AllocError> {
    let store: Store<S> = three_entries(alloc)?;
    Ok(has_origin(&store, 0, 1) & has_origin(&store, 1, 2) & has_origin(&store, 2, 3))
}

/// Writes down which entries have a term at a vertex, and the states of each.
fn write_at<S: States + Drop>(
    out: &mut Vec<usize>,
    ids: &[Id],
    states: &[S],
) -> Result<(), AllocError> {
    out.push(ids.len().max(states.len()))?;
    'ids: for (id, set) in ids.iter().zip(states) {
        out.push(id.index())?;
        write_set(out, set)?;
    }
    Ok(())
}

/// Writes down a store.
fn write_store<S: States + Drop>(out: &mut Vec<usize>, store: &Store<S>) -> Result<(), AllocError> {
    out.push(usize::from(store.is_empty()))?;
    'entries: for place in 0..store.len() {
        write_terms(out, store.get(Id::new(place)))?;
    }
    'vertices: for vertex in [0, 1, 7] {
        write_at(out, store.at(vertex), store.states_at(vertex))?;
    }
    Ok(())
}

/// {1} of two at vertex 0, and {0, 2} of three at vertex 1.
static FIRST: [usize; 13] = [2, 0, 2, 1, 1, 2, 1, 3, 2, 0, 1, 2, 3];

/// The empty store, which has nothing at the three vertices, and that of three entries.
static STORES: [usize; 65] = [
    1, 0, 0, 0, 0,
    // as above
    2, 0, 2, 1, 1, 2, 1, 3, 2, 0, 1, 2, 3,
    // with {0, 1} of three at vertex 1
    2, 0, 2, 1, 1, 2, 1, 3, 2, 0, 2,
    // the two combined at vertex 1: {1} of two at vertex 0
    1, 0, 2, 1, 1, 2,
    // all three have a term at vertex 0, two at 1, none at 7
    3, 0, 2, 1, 1, 2, 1, 2, 1, 1, 2, 2, 2, 1, 1, 2, 2, 0, 3, 2, 0, 1, 2, 3, 1, 3, 2, 0, 2, 0,
];

/// What two stores hold.
fn write_stores<S: States + Drop>(alloc: Global) -> Result<Vec<usize>, AllocError> {
    let mut out = Vec::new(alloc);
    write_store::<S>(&mut out, &Store::new(alloc))?;
    write_store::<S>(&mut out, &three_entries(alloc)?)?;
    Ok(out)
}

/// What the first axiom holds with itself.
fn write_again<S: States + Drop>(alloc: Global) -> Result<Vec<usize>, AllocError> {
    let mut out = Vec::new(alloc);
    write_terms::<S>(&mut out, &again(alloc)?)?;
    Ok(out)
}

pub(crate) fn stores<S: States + Drop>(rt: &impl Abort, alloc: Global) -> Result<(), AllocError> {
    assert!(rt; write_stores::<S>(alloc)?.as_slice() == STORES.as_slice());
    assert!(rt; have_origins::<S>(alloc)?);
    assert!(rt; write_again::<S>(alloc)?.as_slice() == FIRST.as_slice());
    Ok(())
}
