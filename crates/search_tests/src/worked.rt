//! Conflicts worked by hand: what is learned, step by step, and where the search goes back to.

ghost use Rattle.incompatibilities.specs.Stores.{entries_view};
ghost use Rattle.search_tests.specs.inner.Universes.{AllLie};
ghost use Rattle.search_tests.specs.inner.Meeting.{AreSmall};
ghost use Rattle.std.specs.Prelude.{IfOk};

use crate::made_stores::{add_axiom, guide_of, written};
use crate::preferring::{Lesson, search_from_full};
use guiding::Answer;
use incompatibilities::Store;
use std::alloc::{AllocError, Global};
use std::process::Abort;
use version_sets::States;

/// The store of some axioms.
fn store_of<S: States + Drop>(
    alloc: Global,
    spaces: &[u32],
    entries: &[&[(usize, u64)]],
) -> Result<Store<S>, AllocError>
    requires { AreSmall spaces.now }
    ensures { IfOk result (λ s. AllLie spaces.now (entries_view S.tests s)) }
{
    let mut store = Store::new(alloc);
    'entries: for entry in entries {
        add_axiom(&mut store, alloc, spaces, entry)?;
    }
    Ok(store)
}

/// Writes down the lessons: of each the conflict, what was learned, and the level that the search went back to.
fn write_lessons(out: &mut Vec<usize>, lessons: &[Lesson]) -> Result<(), AllocError> {
    'lessons: for lesson in lessons {
        out.push(lesson.conflict.index())?;
        out.push(lesson.learned.index())?;
        out.push(lesson.back_to)?;
    }
    Ok(())
}

/// An answer as a number: the place of the entry without terms, or none that is a place.
fn number_of(answer: Answer) -> usize {
    match answer {
        Answer::Selection => usize::MAX,
        Answer::Unsolvable(id) => id.index(),
    }
}

/// Searches among vertices of two states: the answer, the lessons, and the entries that were learned; and the steps.
fn worked<S: States + Drop>(
    alloc: Global,
    vertices: usize,
    entries: &[&[(usize, u64)]],
) -> Result<(Vec<usize>, u64), AllocError> {
    let mut guide = guide_of(alloc, vertices, 2)?;
    let mut store: Store<S> = store_of(alloc, &guide.spaces, entries)?;
    let (found, _) = search_from_full(alloc, &mut guide, &mut store)?;
    let mut out = written(alloc, &store, entries.len())?;
    write_lessons(&mut out, guide.lessons.as_slice())?;
    out.push(number_of(found.answer))?;
    Ok((out, found.steps))
}

/// State 0 of vertex 0 forces state 1 of vertices 1 and 2, which don't go together.
///
/// Vertex 2 came last, so the conflict is combined with what forced that, which is short and kept, then with what
/// forced vertex 1. Nothing but the decision is left.
static ONE_LEVEL: [usize; 20] = [
    // Entry 3: of entry 2, with 1 at vertex 2. Entry 4: of entry 3, with 0 at vertex 1.
    2,
    1,
    1,
    2,
    2,
    0,
    1,
    1,
    2,
    3,
    1,
    0,
    1,
    1,
    0,
    1,
    // entry 2 was the conflict, 4 was learned, back to level 0; a selection
    2,
    4,
    0,
    usize::MAX,
];

/// States 0 of vertices 0 and 2 leave vertex 3 none. The decision for vertex 1 between them has no part in it, so the
/// search goes back over it.
static OVER_ONE_LEVEL: [usize; 13] = [
    // Entry 2: of entry 1, with 0 at vertex 3.
    1,
    1,
    0,
    3,
    2,
    0,
    1,
    2,
    1,
    // entry 1 was the conflict, 2 was learned, back to level 1; a selection
    1,
    2,
    1,
    usize::MAX,
];

/// No two states of two vertices go together.
static NONE_LEFT: [usize; 25] = [
    // Entry 4: of entry 1, with 0 at vertex 1.
    1, 1, 0, 1, 1, 0, 1, // Entry 5, what entry 2 leaves of vertex 1 at level 0: of entry 2, with 4 at vertex 0.
    2, 1, 4, 0, 1, 1, 1, // Entry 6: of entry 3, with 5 at vertex 1 and 4 at vertex 0, with no term.
    3, 2, 5, 1, 4, 0, 0, // entry 1 was the conflict, 4 was learned, back to level 0; entry 6 refuses
    1, 4, 0, 6,
];

pub(crate) fn all_worked<S: States + Drop>(
    rt: &impl Abort,
    alloc: Global,
) -> Result<(), AllocError> {
    let (out, steps) = worked::<S>(
        alloc,
        3,
        &[&[(0, 1), (1, 1)], &[(0, 1), (2, 1)], &[(1, 2), (2, 2)]],
    )?;
    assert!(rt; out.as_slice() == ONE_LEVEL.as_slice());
    // Three assignments, the conflict, two combinations; then state 1 of vertex 0 is forced, and two are decided.
    assert!(rt; steps == 9);
    let (out, steps) = worked::<S>(
        alloc,
        4,
        &[&[(0, 1), (2, 1), (3, 1)], &[(0, 1), (2, 1), (3, 2)]],
    )?;
    assert!(rt; out.as_slice() == OVER_ONE_LEVEL.as_slice());
    // Four assignments, the conflict, one combination; then state 1 of vertex 2 is forced, and two are decided.
    assert!(rt; steps == 9);
    let (out, steps) = worked::<S>(
        alloc,
        2,
        &[
            &[(0, 1), (1, 1)],
            &[(0, 1), (1, 2)],
            &[(0, 2), (1, 1)],
            &[(0, 2), (1, 2)],
        ],
    )?;
    assert!(rt; out.as_slice() == NONE_LEFT.as_slice());
    // Four assignments, two conflicts, four combinations.
    assert!(rt; steps == 10);
    Ok(())
}
