//! Putting what came out of a chain into the store.

ghost use Rattle.conflicts.specs.Resolving.{IsKept};
ghost use Rattle.incompatibilities.specs.Stores.{ComesOut, entries_view, entry};
ghost use Rattle.propagation.specs.Trails.{trail_view};
ghost use Rattle.std.specs.Bool.{OnTrue};
ghost use Rattle.std.specs.Prelude.{◌≡◌, ◌+◌, ◌-◌, ◌<◌, ◌≤◌, IfOk, OnErr, length};
ghost use Rattle.terms.specs.Terms.{terms_view};

use incompatibilities::{Chain, Id, Incompatibility, Origin, Store};
use propagation::Trail;
use std::alloc::AllocError;
use version_sets::States;

/// Puts what came out of a chain into the store, if the chain has a combination; else it is there already.
pub(crate) fn keep<S: States + Drop>(
    store: &mut Store<S>,
    incompatibility: Incompatibility<S>,
    chain: Chain,
) -> Result<Id, AllocError>
    requires first { chain.first < length (entries_view S.tests store.old) }
    requires comes_out { ComesOut (entries_view S.tests store.old) (length (entries_view S.tests store.old))
        (entry (entries_view S.tests store.old) chain.first).terms chain.links (terms_view S.tests incompatibility) }
    ensures kept { IfOk result (λ id. IsKept (entries_view S.tests store.old) (terms_view S.tests incompatibility)
        chain (entries_view S.tests store.new) id) }
    ensures err { OnErr result (entries_view S.tests store.new ≡ entries_view S.tests store.old) }
{
    if chain.links().is_empty() {
        return Ok(chain.first());
    }
    let mut chain = chain;
    chain.shrink();
    store.add(incompatibility, Origin::Learned(chain))
}

/// Whether the store may gain one more, beside what the conflict teaches: one for each assignment of the trail in all,
/// where it had `first` before.
pub(crate) fn has_room<S: States + Drop>(trail: &Trail<S>, store: &Store<S>, first: usize) -> bool
    ensures { OnTrue result (length (entries_view S.tests store.now) + 1
        ≤ first + (length (trail_view S.tests trail.now).steps - 1)) }
{
    let gained = store.len().saturating_sub(first);
    gained.saturating_add(1) < trail.places()
}
