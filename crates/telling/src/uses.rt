//! How many of the needed steps of a derivation combine each step.

ghost use Rattle.std.specs.Prelude.{◌≡◌, IfOk, if◌then◌else◌};
ghost use Rattle.telling.specs.inner.Outlines.{is_needed, uses_of, with_end, with_one_more, with_two_more};
ghost use Rattle.telling.specs.inner.Outlines as outlines;

use derivations::Derivation;
use std::alloc::{AllocError, Global};

/// How many needed steps combine a step. The last step is needed, and each that a needed one combines.
#[derive(Clone, Copy, Debug)]
pub enum Uses {
    Never,
    Once,
    Often,
    /// It is the last step, which none combines.
    End,
}

/// For each step how many needed ones combine it.
#[tactic(auto, unfolding(crate::specs::inner::Outlines::uses_down))]
pub(crate) fn uses_of(alloc: Global, derivation: &Derivation) -> Result<Vec<Uses>, AllocError>
    ensures { IfOk result (λ v. v.items ≡ uses_of derivation.now) }
{
    let mut uses = vec![in alloc; Uses::Never; derivation.len()]?;
    mark_end(&mut uses);
    let mut left = derivation.len();
    'steps: while left > 0 {
        left -= 1;
        look_at(&mut uses, left, derivation.references(left));
    }
    Ok(uses)
}

fn mark_end(uses: &mut Vec<Uses>)
    ensures { uses.new.items ≡ with_end uses.old.items }
{
    let count = uses.len();
    if count > 0 {
        uses[count - 1] = Uses::End;
    }
}

/// Takes a step into account, after all later ones, that combines these two.
fn look_at(uses: &mut Vec<Uses>, number: usize, references: Option<(u64, u64)>)
    ensures { uses.new.items ≡ (if is_needed (outlines.uses_at uses.old.items number) then
        with_two_more references uses.old.items else uses.old.items) }
{
    if is_needed(uses_at(uses, number)) {
        add_two(uses, references);
    }
}

fn uses_at(uses: &[Uses], number: usize) -> Uses
    ensures { result ≡ outlines.uses_at uses.now number }
{
    match uses.get(number) {
        Some(uses) => *uses,
        None => Uses::Never,
    }
}

pub(crate) fn is_needed(uses: Uses) -> bool
    ensures { result ≡ outlines.is_needed uses }
{
    !matches!(uses, Uses::Never)
}

/// One use more of each of the two steps, if there are two.
fn add_two(uses: &mut Vec<Uses>, references: Option<(u64, u64)>)
    ensures { uses.new.items ≡ with_two_more references uses.old.items }
{
    match references {
        None => {}
        Some((first, second)) => {
            add_one(uses, first);
            add_one(uses, second);
        }
    }
}

fn add_one(uses: &mut Vec<Uses>, number: u64)
    ensures { uses.new.items ≡ with_one_more uses.old.items number }
{
    if number < uses.len() as u64 {
        uses[number as usize] = one_more(uses[number as usize]);
    }
}

fn one_more(uses: Uses) -> Uses
    ensures { result ≡ outlines.one_more uses }
{
    match uses {
        Uses::Never => Uses::Once,
        Uses::Once | Uses::Often => Uses::Often,
        Uses::End => Uses::End,
    }
}
