//! Sets and terms: what the calls make of them is written down as numbers.

ghost use Rattle.std.specs.Prelude.{◌≡◌, ◌≤◌, IfOk, length};

use crate::made_terms::with_number;
use std::alloc::{AllocError, Global};
use std::process::Abort;
use terms::{Relation, Term, relation};
use version_sets::{ListStates, States, WordStates};

/// The set of the numbers of a list that lie below the universe.
pub(crate) fn set_of<S: States + Drop>(
    alloc: Global,
    universe: u32,
    members: &[u32],
) -> Result<S, AllocError>
    requires { universe ≤ 65536 }
    ensures { IfOk result (λ s. length (S.tests s) ≡ universe) }
{
    let mut set = S::empty(alloc, universe)?;
    'members: for member in members {
        set = with_number(alloc, set, universe, *member)?;
    }
    Ok(set)
}

/// Writes down a set: its universe, how many numbers it has, and where its numbers begin and end. It is asked for the
/// number past its universe too.
pub(crate) fn write_set<S: States>(out: &mut Vec<usize>, set: &S) -> Result<(), AllocError> {
    out.push(set.universe() as usize)?;
    out.push(set.count() as usize)?;
    let mut inside = false;
    'numbers: for i in 0..set.universe().saturating_add(1) {
        if set.member(i) != inside {
            inside = !inside;
            out.push(i as usize)?;
        }
    }
    Ok(())
}

/// Writes down a set that a call made.
fn write_made<S: States + Drop>(
    out: &mut Vec<usize>,
    made: Result<S, AllocError>,
) -> Result<(), AllocError> {
    write_set(out, &made?)
}

/// Writes down what the calls on two sets make.
fn write_calls<S: States + Drop>(
    out: &mut Vec<usize>,
    alloc: Global,
    a: &S,
    b: &S,
) -> Result<(), AllocError>
    requires { length (S.tests a.now) ≡ length (S.tests b.now) }
{
    write_set(out, a)?;
    write_made(out, a.copy(alloc))?;
    write_made(out, a.union(alloc, b))?;
    write_made(out, a.intersect(alloc, b))?;
    write_made(out, a.complement(alloc))
}

/// Writes down how two sets compare.
fn write_compared<S: States>(out: &mut Vec<usize>, a: &S, b: &S) -> Result<(), AllocError>
    requires { length (S.tests a.now) ≡ length (S.tests b.now) }
{
    out.push(usize::from(a.subset(b)))?;
    out.push(usize::from(a.disjoint(b)))?;
    out.push(usize::from(a.same(b)))?;
    Ok(())
}

/// Writes down how a set compares with one that a call made.
fn write_compared_made<S: States + Drop>(
    out: &mut Vec<usize>,
    a: &S,
    made: Result<S, AllocError>,
) -> Result<(), AllocError>
    requires { IfOk made (λ s. length (S.tests a.now) ≡ length (S.tests s)) }
{
    write_compared(out, a, &made?)
}

/// What each call makes of two sets of the same numbers, whatever the body.
fn transcript<S: States + Drop>(
    alloc: Global,
    universe: u32,
    some: &[u32],
    more: &[u32],
) -> Result<Vec<usize>, AllocError>
    requires { universe ≤ 65536 }
{
    let a: S = set_of(alloc, universe, some)?;
    let b: S = set_of(alloc, universe, more)?;
    let mut out = Vec::new(alloc);
    write_calls(&mut out, alloc, &a, &b)?;
    write_compared(&mut out, &a, &b)?;
    write_compared_made(&mut out, &a, a.copy(alloc))?;
    write_compared_made(&mut out, &a, a.complement(alloc))?;
    Ok(out)
}

/// The transcript of {0, 2} and {1, 2} in a universe of four.
static OF_TWO: [usize; 35] = [
    // {0, 2}, and its copy
    4, 2, 0, 1, 2, 3, 4, 2, 0, 1, 2, 3,
    // {0, 1, 2}, {2} and {1, 3}
    4, 3, 0, 3, 4, 1, 2, 3, 4, 2, 1, 2, 3, 4,
    // neither a subset of {1, 2} nor disjoint nor the same; all of its copy but disjoint; disjoint alone
    0, 0, 0, 1, 0, 1, 0, 1, 0,
];

/// That of {2} and {1, 2}, of which it is a subset.
static OF_ONE: [usize; 31] = [
    // {2}, and its copy
    4, 1, 2, 3, 4, 1, 2, 3,
    // {1, 2}, {2} and {0, 1, 3}
    4, 2, 1, 3, 4, 1, 2, 3, 4, 3, 0, 2, 3, 4, 1, 0, 0, 1, 0, 1, 0, 1, 0,
];

/// Whether the full set has all numbers, and its complement none.
fn is_full<S: States + Drop>(alloc: Global, universe: u32) -> Result<bool, AllocError>
    requires { universe ≤ 65536 }
{
    let full = S::full(alloc, universe)?;
    let none = full.complement(alloc)?;
    let empty = S::empty(alloc, universe)?;
    Ok((full.count() == universe) & (full.universe() == universe) & none.same(&empty))
}

/// Whether all numbers but the last of 65 are 64, and the last isn't among them.
fn has_others<S: States + Drop>(alloc: Global) -> Result<bool, AllocError> {
    let others = S::single(alloc, 65, 64)?.complement(alloc)?;
    Ok((others.count() == 64) & !others.member(64))
}

/// A term that has {0, 2} in a universe of four.
fn term<S: States + Drop>(alloc: Global) -> Result<Term<S>, AllocError>
    ensures { IfOk result (λ t. length (S.tests t.states) ≡ 4) }
{
    Ok(Term {
        vertex: 0,
        states: set_of(alloc, 4, &[0, 2])?,
    })
}

/// How that term relates to a set.
fn relation_to<S: States + Drop>(alloc: Global, members: &[u32]) -> Result<Relation, AllocError> {
    let set: S = set_of(alloc, 4, members)?;
    Ok(relation(&set, &term(alloc)?))
}

/// What that term's negation has.
fn negated<S: States + Drop>(alloc: Global) -> Result<Vec<usize>, AllocError> {
    let negated = term::<S>(alloc)?.negate(alloc)?;
    let mut out = Vec::new(alloc);
    write_set(&mut out, &negated.states)?;
    Ok(out)
}

/// The universes at which words begin, end or leave a rest.
static UNIVERSES: [u32; 9] = [0, 1, 63, 64, 65, 511, 512, 513, 65536];

/// How that term relates to four sets.
fn relations<S: States + Drop>(alloc: Global) -> Result<[Relation; 4], AllocError> {
    Ok([
        relation_to::<S>(alloc, &[2])?,
        relation_to::<S>(alloc, &[1])?,
        relation_to::<S>(alloc, &[1, 2])?,
        relation_to::<S>(alloc, &[])?,
    ])
}

static RELATIONS: [Relation; 4] = [
    Relation::Satisfied,
    Relation::Contradicted,
    Relation::Open,
    Relation::Contradicted,
];

/// Whether the full sets of all universes are.
fn are_full<S: States + Drop>(alloc: Global) -> Result<bool, AllocError> {
    let mut all = has_others::<S>(alloc)?;
    'universes: for universe in UNIVERSES {
        if universe <= 65536 {
            all &= is_full::<S>(alloc, universe)?;
        }
    }
    Ok(all)
}

pub(crate) fn sets<S: States + Drop>(rt: &impl Abort, alloc: Global) -> Result<(), AllocError> {
    assert!(rt; transcript::<S>(alloc, 4, &[0, 2], &[1, 2])?.as_slice() == OF_TWO.as_slice());
    assert!(rt; transcript::<S>(alloc, 4, &[2], &[1, 2])?.as_slice() == OF_ONE.as_slice());
    assert!(rt; are_full::<S>(alloc)?);
    assert!(rt; relations::<S>(alloc)?.as_slice() == RELATIONS.as_slice());
    // {1, 3}
    assert!(rt; negated::<S>(alloc)?.as_slice() == [4, 2, 1, 2, 3, 4].as_slice());
    Ok(())
}

/// Numbers at which words begin and end.
static SOME: [u32; 10] = [0, 5, 62, 63, 64, 100, 511, 512, 40000, 65535];

static MORE: [u32; 8] = [1, 5, 64, 65, 510, 511, 65534, 65535];

/// Whether both bodies give the same transcripts.
pub(crate) fn bodies_agree(alloc: Global) -> Result<bool, AllocError> {
    let mut agree = true;
    'universes: for universe in UNIVERSES {
        if universe <= 65536 {
            let words = transcript::<WordStates>(alloc, universe, &SOME, &MORE)?;
            let lists = transcript::<ListStates>(alloc, universe, &SOME, &MORE)?;
            agree &= words == lists;
        }
    }
    Ok(agree)
}
