//! The written order of states.

ghost use Rattle.std.specs.Prelude.{◌≡◌};
ghost use Rattle.classes.specs.Classes.{class_view};
ghost use Rattle.vertices.specs.Orders.{class_cmp, state_cmp, state_rank};
ghost use Rattle.vertices.specs.inner.RefViews.{state_ref_view};

use crate::state::StateRef;
use classes::{Class, version_order};
use std::cmp::Ordering;

/// The written order: `absent` first, then oldest or lowest first.
pub fn state_order(a: StateRef<'_>, b: StateRef<'_>) -> Ordering
    ensures { result ≡ state_cmp (state_ref_view a.entry) (state_ref_view b.entry) }
{
    match (a, b) {
        (StateRef::Class(a), StateRef::Class(b)) => class_order(a, b),
        (StateRef::Version(a), StateRef::Version(b)) => version_order(a, b),
        _ => rank(a).cmp(&rank(b)),
    }
}

fn class_order(a: Class, b: Class) -> Ordering
    ensures { result ≡ class_cmp (class_view a) (class_view b) }
{
    a.cmp(&b)
}

fn rank(state: StateRef<'_>) -> u8
    ensures { result ≡ state_rank (state_ref_view state.entry) }
{
    match state {
        StateRef::Absent => 0,
        StateRef::Present => 1,
        StateRef::Class(_) => 2,
        StateRef::Version(_) => 3,
    }
}
