//! The values whose places a set has.

ghost use Rattle.std.specs.Prelude.{◌≡◌, ◌≤◌, ◌++◌, ◌∷◌, [], IfOk, OnOk, if◌then◌else◌, length};
ghost use Rattle.solver.specs.inner.Decoding.{IsChosenTo, states_in};

use std::alloc::{AllocError, Global};
use version_sets::States;

/// Of at most so many places each is asked for.
const FEW: u32 = 64;

/// A value more, if it is chosen.
fn push_if<T: Copy>(made: &mut Vec<T>, value: T, is_chosen: bool) -> Result<(), AllocError>
    ensures { OnOk result (made.new.items ≡ made.old.items ++ (if is_chosen then value ∷ [] else [])) }
{
    if is_chosen {
        made.push(value)?;
    }
    Ok(())
}

/// Puts those of the values from one place on and below another at the end whose places a set has. Of many places it
/// asks for all at once, and for each half if the set has one: a set of a few numbers out of n is gone over by their
/// count times log n.
fn push_chosen<T: Copy, S: States + Drop>(
    alloc: Global,
    values: &[T],
    set: &S,
    from: u32,
    to: u32,
    made: &mut Vec<T>,
) -> Result<(), AllocError>
    requires long { length values.now ≡ length (S.tests set.now) }
    requires rising { from ≤ to }
    requires within { to ≤ length values.now }
    requires before { IsChosenTo values.now (S.tests set.now) from made.old.items }
    ensures { OnOk result (IsChosenTo values.now (S.tests set.now) to made.new.items) }
{
    if to - from <= FEW {
        'numbers: for number in from..to {
            push_if(made, values[number as usize], set.member(number))?;
        }
        return Ok(());
    }
    if set.disjoint(&S::of_range(alloc, set.universe(), from, to)?) {
        return Ok(());
    }
    let middle = from + (to - from) / 2;
    push_chosen(alloc, values, set, from, middle, made)?;
    push_chosen(alloc, values, set, middle, to, made)
}

/// Those of some values whose places a set has, in their order.
pub fn chosen<T: Copy, S: States + Drop>(
    alloc: Global,
    values: &[T],
    set: &S,
) -> Result<Vec<T>, AllocError>
    requires { length values.now ≡ length (S.tests set.now) }
    ensures { IfOk result (λ v. v.items ≡ states_in values.now (S.tests set.now)) }
{
    let mut made = Vec::with_capacity(alloc, set.count() as usize)?;
    push_chosen(alloc, values, set, 0, set.universe(), &mut made)?;
    Ok(made)
}
