//! What the enabled dependencies of one package say.

ghost use Rattle.std.specs.Prelude.{◌≡◌, ◌↔◌, ◌<◌, ℕ, true, slice_get, IfOk, OnOk, Contains, ◌&&◌};
ghost use Rattle.std.specs.BTreeSet.{contains};
ghost use Rattle.std.specs.Ordering.{nat_cmp};
ghost use Rattle.facts.specs.inner.Graphs.{flag_at};
ghost use Rattle.selection.specs.inner.Places.{AreMet, IsLedTo, is_missing, enabled_target, with_target};

use facts::flag;
use std::alloc::{AllocError, Global};
use std::collections::BTreeSet;

/// Whether each enabled dependency has a target.
pub(crate) fn are_met(enabled: &[bool], targets: &[Option<usize>]) -> bool
    ensures { (result ≡ true) ↔ AreMet enabled.now targets.now }
{
    'numbers: for number in 0..targets.len() {
        if lacks_target(enabled, targets, number) {
            return false;
        }
    }
    true
}

/// Whether a dependency is there, is enabled and has no target.
pub fn lacks_target(enabled: &[bool], targets: &[Option<usize>], number: usize) -> bool
    ensures { result ≡ (is_missing (slice_get targets.now number) && flag_at enabled.now number) }
{
    match targets.get(number) {
        Some(target) => target.is_none() && flag(enabled, number),
        None => false,
    }
}

/// Whether an enabled dependency leads to each place of the list.
pub(crate) fn are_led_to(
    alloc: Global,
    enabled: &[bool],
    targets: &[Option<usize>],
    list: &[usize],
) -> Result<bool, AllocError>
    ensures { IfOk result (λ b. (b ≡ true) ↔ ((t : ℕ) → Contains list.now t → IsLedTo enabled.now targets.now t)) }
{
    let places = places_led_to(alloc, enabled, targets)?;
    Ok(are_among(list, &places))
}

/// Where enabled dependencies lead.
pub fn places_led_to(
    alloc: Global,
    enabled: &[bool],
    targets: &[Option<usize>],
) -> Result<BTreeSet<usize>, AllocError>
    ensures { IfOk result (λ s. (t : ℕ) → (contains nat_cmp s t ≡ true) ↔ IsLedTo enabled.now targets.now t) }
{
    let mut places = BTreeSet::new(alloc);
    'numbers: for number in 0..targets.len() {
        add_target(&mut places, target_enabled(enabled, targets, number))?;
    }
    Ok(places)
}

/// Adds where a dependency leads, if it leads anywhere.
fn add_target(places: &mut BTreeSet<usize>, target: Option<usize>) -> Result<(), AllocError>
    ensures { OnOk result
        ((t : ℕ) → contains nat_cmp places.new t ≡ with_target target t (contains nat_cmp places.old t)) }
{
    let Some(target) = target else {
        return Ok(());
    };
    places.insert(target)?;
    Ok(())
}

/// Where a dependency leads that is enabled.
fn target_enabled(enabled: &[bool], targets: &[Option<usize>], number: usize) -> Option<usize>
    ensures { result ≡ enabled_target enabled.now targets.now number }
{
    if !flag(enabled, number) {
        return None;
    }
    *targets.get(number)?
}

/// Whether each of a list is among these.
fn are_among(list: &[usize], places: &BTreeSet<usize>) -> bool
    ensures { (result ≡ true) ↔ ((t : ℕ) → Contains list.now t → contains nat_cmp places.now t ≡ true) }
{
    'listed: for place in list {
        if !places.contains(place) {
            return false;
        }
    }
    true
}
