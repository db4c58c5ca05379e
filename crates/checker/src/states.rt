//! The states of a term, as the tables of a derivation have them.

ghost use Rattle.std.specs.Prelude.{◌≡◌, IfOk};
ghost use Rattle.std.specs.List.Sorted.{IsStrictlySortedBy};
ghost use Rattle.vertices.specs.Orders.{state_cmp};
ghost use Rattle.derivations.specs.inner.Tables.{AreStatesOf, states_at};

use derivations::{Tables, states_in};
use lookups::StateSet;
use std::alloc::{AllocError, Global};

/// The states of these numbers.
pub(crate) fn read_states<'a>(
    alloc: Global,
    tables: &'a Tables,
    numbers: &[usize],
) -> Result<StateSet<'a>, AllocError>
    requires within { AreStatesOf tables.now numbers.now }
    requires ordered { IsStrictlySortedBy state_cmp (states_at tables.now numbers.now) }
    ensures { IfOk result (λ s. s ≡ states_at tables.entry.now numbers.now) }
{
    let states = states_in(alloc, tables, numbers)?;
    Ok(StateSet::rising(states))
}
