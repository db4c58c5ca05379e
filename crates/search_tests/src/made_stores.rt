//! Stores and guides for the tests; a set of states is written as a number, state 0 its lowest bit.

ghost use Rattle.incompatibilities.specs.Stores.{entries_view};
ghost use Rattle.search_tests.specs.inner.Universes.{AllLie};
ghost use Rattle.search_tests.specs.inner.Meeting.{AreSmall};
ghost use Rattle.std.specs.Prelude.{◌≤◌, IfOk};

use crate::made_terms::terms_of;
use crate::preferring::Preferring;
use incompatibilities::{Id, Incompatibility, Origin, Store};
use std::alloc::{AllocError, Global};
use version_sets::States;

/// So many vertices of one universe.
pub(crate) fn alike(alloc: Global, vertices: usize, universe: u32) -> Result<Vec<u32>, AllocError>
    requires { universe ≤ 65536 }
    ensures { IfOk result (λ v. AreSmall v.items) }
{
    Ok(vec![in alloc; universe; vertices]?)
}

/// A guide of so many vertices of one universe, which prefers state 0.
pub(crate) fn guide_of(
    alloc: Global,
    vertices: usize,
    universe: u32,
) -> Result<Preferring, AllocError>
    requires { universe ≤ 65536 }
    ensures { IfOk result (λ g. AreSmall g.spaces.items) }
{
    let spaces = alike(alloc, vertices, universe)?;
    let states = vec![in alloc; 0; vertices]?;
    Ok(Preferring {
        spaces,
        states,
        lessons: Vec::new(alloc),
    })
}

/// Puts an axiom into a store, if its vertices rise and are there.
pub(crate) fn add_axiom<S: States + Drop>(
    store: &mut Store<S>,
    alloc: Global,
    spaces: &[u32],
    said: &[(usize, u64)],
) -> Result<(), AllocError>
    requires small { AreSmall spaces.now }
    requires store { AllLie spaces.now (entries_view S.tests store.old) }
    ensures { AllLie spaces.now (entries_view S.tests store.new) }
{
    if let Some(terms) = terms_of(alloc, spaces, said)? {
        store.add(Incompatibility::new(terms), Origin::Axiom(0))?;
    }
    Ok(())
}

/// A set as a number.
fn mask_of<S: States>(set: &S) -> usize {
    let mut mask: usize = 0;
    'states: for state in 0..set.universe() {
        mask |= usize::from(set.member(state)) << (state % 32);
    }
    mask
}

/// Writes down where an entry came from, its chain's first entry and the links, how many terms it has, and for each its
/// vertex and states.
fn write_entry<S: States + Drop>(
    out: &mut Vec<usize>,
    incompatibility: &Incompatibility<S>,
    origin: &Origin,
) -> Result<(), AllocError> {
    if let Origin::Learned(chain) = origin {
        out.push(chain.first().index())?;
        out.push(chain.links().len())?;
        'links: for link in chain.links() {
            out.push(link.with.index())?;
            out.push(link.vertex)?;
        }
    }
    out.push(incompatibility.terms().len())?;
    'terms: for term in incompatibility.terms() {
        out.push(term.vertex)?;
        out.push(mask_of(&term.states))?;
    }
    Ok(())
}

/// The entries of a store from a place on.
pub(crate) fn written<S: States + Drop>(
    alloc: Global,
    store: &Store<S>,
    from: usize,
) -> Result<Vec<usize>, AllocError> {
    let mut out = Vec::new(alloc);
    'entries: for place in from..store.len() {
        let id = Id::new(place);
        write_entry(&mut out, store.get(id), store.origin(id))?;
    }
    Ok(out)
}
