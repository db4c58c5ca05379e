//! Pigeons and holes.

ghost use Rattle.incompatibilities.specs.Stores.{entries_view};
ghost use Rattle.search_tests.specs.inner.Universes.{AllLie};
ghost use Rattle.search_tests.specs.inner.Meeting.{AreSmall};
ghost use Rattle.std.specs.Prelude.{◌≤◌, IfOk};

use crate::made_stores::{add_axiom, guide_of};
use crate::preferring::search_from_full;
use guiding::Answer;
use incompatibilities::{Id, Store};
use std::alloc::{AllocError, Global};
use std::process::Abort;
use version_sets::States;

/// Two pigeons aren't in one hole.
fn part<S: States + Drop>(
    store: &mut Store<S>,
    alloc: Global,
    spaces: &[u32],
    first: usize,
    second: usize,
    holes: u32,
) -> Result<(), AllocError>
    requires small { AreSmall spaces.now }
    requires store { AllLie spaces.now (entries_view S.tests store.old) }
    ensures { AllLie spaces.now (entries_view S.tests store.new) }
{
    'holes: for hole in 0..holes {
        let bit = 1 << (hole % 64);
        add_axiom(store, alloc, spaces, &[(first, bit), (second, bit)])?;
    }
    Ok(())
}

/// No two pigeons are in one hole.
pub(crate) fn pigeons<S: States + Drop>(
    alloc: Global,
    spaces: &[u32],
    holes: u32,
) -> Result<Store<S>, AllocError>
    requires { AreSmall spaces.now }
    ensures { IfOk result (λ s. AllLie spaces.now (entries_view S.tests s)) }
{
    let mut store = Store::new(alloc);
    'seconds: for second in 0..spaces.len() {
        'firsts: for first in 0..second {
            part(&mut store, alloc, spaces, first, second, holes)?;
        }
    }
    Ok(store)
}

/// What a search ends with, how many entries it gained, and its steps.
fn found<S: States + Drop>(
    rt: &impl Abort,
    alloc: Global,
    pigeons_there: usize,
    holes: u32,
) -> Result<(bool, usize, u64), AllocError>
    requires { holes ≤ 65536 }
{
    let mut guide = guide_of(alloc, pigeons_there, holes)?;
    let mut store: Store<S> = pigeons(alloc, &guide.spaces, holes)?;
    let given = store.len();
    let (found, _) = search_from_full(alloc, &mut guide, &mut store)?;
    let gained = store.len().saturating_sub(given);
    // The last entry is the one without terms.
    let refused = Answer::Unsolvable(Id::new(store.len().saturating_sub(1)));
    let is_selection = found.answer == Answer::Selection;
    assert!(rt; is_selection | (found.answer == refused));
    Ok((is_selection, gained, found.steps))
}

pub(crate) fn four_to_seven<S: States + Drop>(
    rt: &impl Abort,
    alloc: Global,
) -> Result<(), AllocError> {
    'pigeons: for holes in 3..7u32 {
        let (fits, gained, steps) = found::<S>(rt, alloc, holes as usize + 1, holes)?;
        assert!(rt; !fits);
        // Each combination is a step, and its conflict another.
        assert!(rt; steps > gained as u64);
        assert!(rt; steps < 1_000_000);
        let (fits, _, steps) = found::<S>(rt, alloc, holes as usize, holes)?;
        assert!(rt; fits);
        // The least hole that is left is right, so each pigeon is put once, by a decision or by propagation in parts.
        assert!(rt; steps <= u64::from(holes) * u64::from(holes));
    }
    Ok(())
}
