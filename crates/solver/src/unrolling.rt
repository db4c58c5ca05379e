//! The chains of a store's entries, one combination after the other.
//!
//! A store keeps of what was learned the chain that it came out of, and nothing of what came out on the way; a
//! derivation has a step for each combination. `unroll` gives, for one entry, the axioms that it comes from and each
//! combination of the chains on the way to it, each of two earlier ones of the row, and once; it combines again what no
//! store keeps. Only what the entry comes from is put: that is marked first, from the last to the first.
//!
//! A layer above may rely on this: each of the row is an axiom of the store or a combination of two earlier ones, the
//! last one has the entry's terms, and the row has no more axioms and combinations than the store.

ghost use Rattle.incompatibilities.specs.Incompatibilities.{Fit, states_at};
ghost use Rattle.incompatibilities.specs.Stores.{OriginFits, entries_view, entry, terms_of};
ghost use Rattle.incompatibilities.specs.declared.origin.Origin.TheVariants.{Learned};
ghost use Rattle.std.specs.Prelude.{◌≡◌, ◌++◌, ◌∷◌, [], ◌<◌, ◌≤◌, IfOk, length};
ghost use Rattle.terms.specs.Terms.{terms_view};
ghost use Rattle.solver.specs.inner.Flats.{AreAt, AreFlat, ChainAt, IsLinkPut, IsPut, IsUnrolled, LieSomewhere, PutIf};
ghost use Rattle.solver.specs.inner.Flats.{flat, flats_view};
ghost use Rattle.solver.specs.inner.Marks.{IsMarking};
ghost use Rattle.version_sets.specs.Sets.{has};

use crate::flat::{Flat, Source};
use crate::marking::marked;
use incompatibilities::{Chain, Id, Incompatibility, Link, Origin, Store, combine};
use std::alloc::{AllocError, Global};
use version_sets::States;

/// Puts one at the end of a row, and gives its place.
fn push<S: States + Drop>(
    flats: &mut Vec<Flat<S>>,
    incompatibility: Incompatibility<S>,
    source: Source,
) -> Result<usize, AllocError>
    ensures { IfOk result (λ p. (p ≡ length (flats_view S.tests flats.old.items))
        × (flats_view S.tests flats.new.items ≡ flats_view S.tests flats.old.items
        ++ record { terms = terms_view S.tests incompatibility; source = source } ∷ [])) }
{
    let place = flats.len();
    flats.push(Flat {
        incompatibility,
        source,
    })?;
    Ok(place)
}

/// Puts the combination of the one at a place with a link's entry at the end of a row, and gives its place.
fn put_link<S: States + Drop>(
    alloc: Global,
    store: &Store<S>,
    places: &[usize],
    flats: &mut Vec<Flat<S>>,
    place: usize,
    link: Link,
) -> Result<usize, AllocError>
    requires place { place < length (flats_view S.tests flats.old.items) }
    requires placed { link.with < length places.now }
    requires there { link.with < length (entries_view S.tests store.now) }
    requires fit { Fit (states_at (flat (flats_view S.tests flats.old.items) place).terms)
        (terms_of (entries_view S.tests store.now) link.with) }
    ensures { IfOk result (λ p. IsLinkPut (entries_view S.tests store.now) (flats_view S.tests flats.old.items)
        (flats_view S.tests flats.new.items) places.now place link p) }
{
    let made = combine(
        alloc,
        &flats[place].incompatibility,
        store.get(link.with),
        link.vertex,
    )?;
    let second = places[link.with.index()];
    push(
        flats,
        made,
        Source::Combined {
            first: place,
            second,
            vertex: link.vertex,
        },
    )
}

/// Puts the combinations of a chain at the end of a row, and gives the place of the last one.
fn unroll_chain<S: States + Drop>(
    alloc: Global,
    store: &Store<S>,
    places: &[usize],
    flats: &mut Vec<Flat<S>>,
    id: usize,
    chain: &Chain,
) -> Result<usize, AllocError>
    requires lies { LieSomewhere (entries_view S.tests store.now) }
    requires within { id ≤ length (entries_view S.tests store.now) }
    requires fits { OriginFits (entries_view S.tests store.now) id (entry (entries_view S.tests store.now) id).terms
        (Learned chain.now) }
    requires founded { AreFlat (entries_view S.tests store.now) (flats_view S.tests flats.old.items) }
    requires placed { ChainAt (entries_view S.tests store.now) (flats_view S.tests flats.old.items)
        places.now chain.now }
    ensures { IfOk result (λ p. IsPut (entries_view S.tests store.now) (flats_view S.tests flats.old.items)
        (flats_view S.tests flats.new.items) id p (length chain.now.links) 0) }
{
    let mut place = places[chain.first().index()];
    let links = chain.links();
    'links: for link in links {
        place = put_link(alloc, store, places, flats, place, *link)?;
    }
    Ok(place)
}

/// Puts an entry at the end of a row, if it is marked, with what comes out on the way to it; gives its place.
fn put_entry<S: States + Drop>(
    alloc: Global,
    store: &Store<S>,
    marks: &[bool],
    places: &[usize],
    flats: &mut Vec<Flat<S>>,
    id: usize,
    last: usize,
) -> Result<usize, AllocError>
    requires lies { LieSomewhere (entries_view S.tests store.now) }
    requires within { id < length (entries_view S.tests store.now) }
    requires marks { IsMarking (entries_view S.tests store.now) last 0 marks.now }
    requires marked { id < length marks.now }
    requires long { length places.now ≡ id }
    requires founded { AreFlat (entries_view S.tests store.now) (flats_view S.tests flats.old.items) }
    requires placed { AreAt (entries_view S.tests store.now) (flats_view S.tests flats.old.items)
        marks.now id places.now }
    ensures { IfOk result (λ p. PutIf (entries_view S.tests store.now) (flats_view S.tests flats.old.items)
        (flats_view S.tests flats.new.items) id p (has marks.now id)) }
{
    if !marks[id] {
        return Ok(0);
    }
    match store.origin(Id::new(id)) {
        Origin::Axiom(kind) => {
            let copy = store.get(Id::new(id)).copy(alloc)?;
            push(flats, copy, Source::Axiom(*kind))
        }
        Origin::Learned(chain) => unroll_chain(alloc, store, places, flats, id, chain),
    }
}

/// An entry of a store as a row that ends with it: the axioms that it comes from, and each combination on the way, of
/// two earlier ones. It takes time and memory in proportion to the entry's place and to the row.
pub fn unroll<S: States + Drop>(
    alloc: Global,
    store: &Store<S>,
    last: Id,
) -> Result<Vec<Flat<S>>, AllocError>
    requires lies { LieSomewhere (entries_view S.tests store.now) }
    requires within { last < length (entries_view S.tests store.now) }
    ensures { IfOk result
        (λ v. IsUnrolled (entries_view S.tests store.now) last (flats_view S.tests v.items)) }
{
    let marks = marked(alloc, store, last.index())?;
    let mut places = Vec::new(alloc);
    let mut flats = Vec::new(alloc);
    'entries: for id in 0..marks.len() {
        let place = put_entry(alloc, store, &marks, &places, &mut flats, id, last.index())?;
        places.push(place)?;
    }
    Ok(flats)
}
