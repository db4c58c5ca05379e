//! Which steps of a derivation are needed.

ghost use Rattle.std.specs.Prelude.{◌≡◌, ◌<◌, ◌++◌, ◌∷◌, [], if◌then◌else◌, true, IfOk, OnOk, length, slice_set};
ghost use Rattle.explainer.specs.Explanations.{needed};
ghost use Rattle.explainer.specs.inner.Marks.{is_needed, with_two};

use derivations::Derivation;
use std::alloc::{AllocError, Global};

/// The numbers of the needed steps, lowest first: of the last one, and of each that a needed one combines.
pub(crate) fn needed(alloc: Global, derivation: &Derivation) -> Result<Vec<usize>, AllocError>
    ensures { IfOk result (λ v. v.items ≡ needed derivation.now) }
{
    let mut marks = vec![in alloc; false; derivation.len()]?;
    let mut found = Vec::new(alloc);
    let mut left = derivation.len();
    'steps: while left > 0 {
        left -= 1;
        look_at(&mut marks, &mut found, left, derivation.references(left))?;
    }
    found.reverse();
    Ok(found)
}

/// Takes a step into account, after all later ones, that combines these two.
fn look_at(
    marks: &mut Vec<bool>,
    found: &mut Vec<usize>,
    number: usize,
    references: Option<(u64, u64)>,
) -> Result<(), AllocError>
    requires { number < length marks.old.items }
    ensures marks { OnOk result (marks.new.items
        ≡ (if is_needed marks.old.items number then with_two references marks.old.items else marks.old.items)) }
    ensures found { OnOk result (found.new.items
        ≡ (if is_needed marks.old.items number then found.old.items ++ number ∷ [] else found.old.items)) }
{
    if is_needed(marks, number) {
        mark(marks, references);
        found.push(number)?;
    }
    Ok(())
}

fn is_needed(marks: &[bool], number: usize) -> bool
    requires { number < length marks.now }
    ensures { result ≡ is_needed marks.now number }
{
    number + 1 == marks.len() || marks[number]
}

/// Marks the two steps, if there are two.
fn mark(marks: &mut Vec<bool>, references: Option<(u64, u64)>)
    ensures { marks.new.items ≡ with_two references marks.old.items }
{
    match references {
        None => {}
        Some((first, second)) => {
            mark_one(marks, first);
            mark_one(marks, second);
        }
    }
}

fn mark_one(marks: &mut Vec<bool>, number: u64)
    ensures { marks.new.items ≡ slice_set marks.old.items number true }
{
    if number < marks.len() as u64 {
        marks[number as usize] = true;
    }
}
