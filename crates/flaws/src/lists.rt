//! What is wrong with the list of a package.

ghost use Rattle.std.specs.Prelude.{◌≡◌, ◌↔◌, ℕ, Bool, true, not, ◌&&◌, IfOk, length, slice_get};
ghost use Rattle.std.specs.BTreeSet.{contains};
ghost use Rattle.std.specs.List.{filter, range_with_len};
ghost use Rattle.std.specs.Ordering.{nat_cmp};
ghost use Rattle.facts.specs.inner.Graphs.{flag_at};
ghost use Rattle.selection.specs.inner.Places.{IsLedTo, is_missing};

use selection::{lacks_target, places_led_to};
use std::alloc::{AllocError, Global};
use std::collections::BTreeSet;

/// The numbers of the enabled dependencies that have no target.
pub(crate) fn unmet_of(
    alloc: Global,
    enabled: &[bool],
    targets: &[Option<usize>],
) -> Result<Vec<usize>, AllocError>
    ensures { IfOk result (λ v. v.items ≡ filter (λ i. is_missing (slice_get targets.now i) && flag_at enabled.now i)
        (range_with_len 0 (length targets.now))) }
{
    (0..targets.len())
        .filter(|number| lacks_target(enabled, targets, *number))
        .collect(alloc)
}

/// Those of a list to which no enabled dependency leads.
pub(crate) fn surplus_of(
    alloc: Global,
    enabled: &[bool],
    targets: &[Option<usize>],
    list: &[usize],
) -> Result<Vec<usize>, AllocError>
    ensures { IfOk result (λ v. (led : ℕ → Bool) × ((t : ℕ) → (led t ≡ true) ↔ IsLedTo enabled.now targets.now t)
        × (v.items ≡ filter (λ t. not (led t)) list.now)) }
{
    let places = places_led_to(alloc, enabled, targets)?;
    not_among(alloc, list, &places)
}

/// Those of a list that aren't among these.
fn not_among(
    alloc: Global,
    list: &[usize],
    places: &BTreeSet<usize>,
) -> Result<Vec<usize>, AllocError>
    ensures { IfOk result (λ v. v.items ≡ filter (λ t. not (contains nat_cmp places.now t)) list.now) }
{
    list.iter()
        .copied()
        .filter(|place| !places.contains(place))
        .collect(alloc)
}
