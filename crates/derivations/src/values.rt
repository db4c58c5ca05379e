//! Parts of JSON values, whose texts are borrowed.

ghost use Rattle.std.specs.Prelude.{◌≡◌};
ghost use Rattle.serde_json.specs.Find as json;
ghost use Rattle.trees.specs.Trees.{text_view, tree_view, trees_view};
ghost use Rattle.model.specs.Outcome.{Gives};
ghost use Rattle.derivations.specs.Steps.{data_of_bytes, text_of, whole_of, item_at, none_at, two_of};
ghost use Rattle.derivations.specs.Lines.{line_wants_memory, needed};
ghost use Rattle.derivations.specs.inner.StepViews.{two_view};

use crate::fault::LineFault;
use std::alloc::Global;
use trees::{Scratch, TextRead, Tree, TreeFault, as_list, as_text, as_whole, read_text};

/// The JSON value that the bytes are. The room is kept from line to line.
pub(crate) fn read_json<'a>(
    alloc: Global,
    bytes: &'a [u8],
    scratch: &'a mut Scratch,
) -> Result<TextRead<'a>, LineFault>
    ensures { Gives line_wants_memory text_view result (data_of_bytes bytes.entry.now) }
{
    match read_text(alloc, bytes, scratch) {
        Ok(text) => Ok(text),
        Err(TreeFault::OutOfMemory) => Err(LineFault::OutOfMemory),
        Err(TreeFault::NotJson) => Err(LineFault::NotALine),
    }
}

pub(crate) fn text<'a>(value: &Tree<'_, 'a>) -> Result<&'a str, LineFault>
    ensures { Gives line_wants_memory (λ s. s.now) result (text_of (tree_view value.now)) }
{
    match as_text(value) {
        Some(text) => Ok(text),
        None => Err(LineFault::NotALine),
    }
}

/// A whole number of 64 bits without sign.
pub(crate) fn whole(value: &Tree<'_, '_>) -> Result<u64, LineFault>
    ensures { Gives line_wants_memory (λ n. n) result (whole_of (tree_view value.now)) }
{
    match as_whole(value) {
        Some(number) => Ok(number),
        None => Err(LineFault::NotALine),
    }
}

/// The items of a list, which the value has to be.
pub(crate) fn array<'t, 'a>(
    alloc: Global,
    value: &Tree<'t, 'a>,
) -> Result<Vec<Tree<'t, 'a>>, LineFault>
    ensures { Gives line_wants_memory
        (λ v. trees_view v.items) result (needed (json.as_array (tree_view value.now))) }
{
    match as_list(alloc, value)? {
        Some(values) => Ok(values),
        None => Err(LineFault::NotALine),
    }
}

/// An item of an array.
pub(crate) fn item<'t, 'a>(value: &Tree<'t, 'a>, index: usize) -> Result<Tree<'t, 'a>, LineFault>
    ensures { Gives line_wants_memory tree_view result (item_at index (tree_view value.now)) }
{
    match trees::item(value, index) {
        Some(found) => Ok(found),
        None => Err(LineFault::NotALine),
    }
}

/// Passes where there is no such item.
pub(crate) fn no_item(value: &Tree<'_, '_>, index: usize) -> Result<(), LineFault>
    ensures { Gives line_wants_memory (λ u. u) result (none_at index (tree_view value.now)) }
{
    match trees::item(value, index) {
        Some(_) => Err(LineFault::NotALine),
        None => Ok(()),
    }
}

/// The items of an array of two.
#[tactic(auto, unfolding(crate::specs::Steps::two_of))]
pub(crate) fn two<'t, 'a>(value: &Tree<'t, 'a>) -> Result<(Tree<'t, 'a>, Tree<'t, 'a>), LineFault>
    ensures { Gives line_wants_memory two_view result (two_of (tree_view value.now)) }
{
    let first = item(value, 0)?;
    let second = item(value, 1)?;
    no_item(value, 2)?;
    Ok((first, second))
}
