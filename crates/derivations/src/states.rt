//! The states of a set, borrowed from the tables.

ghost use Rattle.std.specs.Prelude.{◌≡◌, IfOk};
ghost use Rattle.derivations.specs.inner.Tables.{AreStatesOf, states_at};
ghost use Rattle.vertices.specs.inner.RefViews.{state_ref_views};

use crate::tables::Tables;
use std::alloc::{AllocError, Global};
use vertices::StateRef;

/// The states of these numbers.
///
/// # Errors
/// Memory is wanting.
pub fn states_in<'a>(
    alloc: Global,
    tables: &'a Tables,
    numbers: &[usize],
) -> Result<Vec<StateRef<'a>>, AllocError>
    requires { AreStatesOf tables.now numbers.now }
    ensures { IfOk result (λ v. state_ref_views v.items ≡ states_at tables.entry.now numbers.now) }
{
    let mut states = Vec::with_capacity(alloc, numbers.len())?;
    'numbers: for number in numbers {
        states.push(tables.state(*number).borrowed())?;
    }
    Ok(states)
}
