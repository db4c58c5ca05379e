//! Vertices that come onto the trail once an instance speaks of them.

ghost use Rattle.std.specs.Prelude.{◌≡◌, ◌+◌, ◌<◌, ◌≤◌, OnErr, OnOk, length, map};
ghost use Rattle.incompatibilities.specs.Stores.{entries_view};
ghost use Rattle.propagation.specs.Promises.{IsTrail};
ghost use Rattle.propagation.specs.Trails.{trail_view};
ghost use Rattle.guiding.specs.inner.Guides.{IsCome, IsEncoding, IsMore};

use incompatibilities::Store;
use numbering::{KnownProblem, Table, space_at};
use propagation::Trail;
use std::alloc::{AllocError, Global};
use version_sets::States;

/// Gives the trail the next vertex.
fn come_next<S: States + Drop>(
    alloc: Global,
    known: &KnownProblem<'_>,
    table: &Table<'_>,
    asked: &mut Vec<S>,
    trail: &mut Trail<S>,
    store: &Store<S>,
) -> Result<(), AllocError>
    requires encoding { IsEncoding known.now table.now (map S.tests asked.old.items) }
    requires less { length asked.old.items < length table.now }
    requires trail { IsTrail (entries_view S.tests store.now) (trail_view S.tests trail.old) }
    ensures encoding { IsEncoding known.now table.now (map S.tests asked.new.items) }
    ensures came { OnOk result (IsCome (map S.tests asked.old.items) (map S.tests asked.new.items)
        (trail_view S.tests trail.old) (trail_view S.tests trail.new)) }
    ensures longer { OnOk result (length asked.new.items ≡ length asked.old.items + 1) }
    ensures same { OnErr result (map S.tests asked.new.items ≡ map S.tests asked.old.items) }
    ensures trail { IsTrail (entries_view S.tests store.now) (trail_view S.tests trail.new) }
{
    let space = space_at(alloc, known, table, asked.len())?;
    let none = S::empty(alloc, space)?;
    // Room first, so that `asked` grows where the trail does.
    asked.reserve(1)?;
    store.is_proper();
    trail.grow(space)?;
    asked.push_reserved(none);
    Ok(())
}

/// Gives the trail the vertices that have numbers.
pub(crate) fn come<S: States + Drop>(
    alloc: Global,
    known: &KnownProblem<'_>,
    table: &Table<'_>,
    asked: &mut Vec<S>,
    trail: &mut Trail<S>,
    store: &Store<S>,
) -> Result<(), AllocError>
    requires encoding { IsEncoding known.now table.now (map S.tests asked.old.items) }
    requires trail { IsTrail (entries_view S.tests store.now) (trail_view S.tests trail.old) }
    ensures encoding { IsEncoding known.now table.now (map S.tests asked.new.items) }
    ensures came { OnOk result (IsCome (map S.tests asked.old.items) (map S.tests asked.new.items)
        (trail_view S.tests trail.old) (trail_view S.tests trail.new)) }
    ensures more { IsMore (map S.tests asked.old.items) (map S.tests asked.new.items) }
    ensures whole { OnOk result (length table.now ≤ length asked.new.items) }
    ensures trail { IsTrail (entries_view S.tests store.now) (trail_view S.tests trail.new) }
{
    'vertices: while asked.len() < table.len() {
        come_next(alloc, known, table, asked, trail, store)?;
    }
    Ok(())
}
