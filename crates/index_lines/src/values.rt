//! What values of JSON have to be.

ghost use Rattle.std.specs.Prelude.{◌≤◌, None, option_and_then, option_map};
ghost use Rattle.std.specs.Option.{ok_or};
ghost use Rattle.serde_json.specs.Find.{as_bool, as_str};
ghost use Rattle.model.specs.Outcome.{Gives};
ghost use Rattle.index_lines.specs.Shapes.{wants_memory, as_whole, data_of_bytes, needed, text_of};
ghost use Rattle.index_lines.specs.Shapes.{optional, texts_in, texts_of, texts_or_none};
ghost use Rattle.features.specs.Views.{text_views};
ghost use Rattle.index_lines.specs.inner.ByParts.{item_depth};
ghost use Rattle.trees.specs.inner.Parts.{data_within, part_depth};
ghost use Rattle.trees.specs.Trees.{left_items, text_view, tree_view};

use crate::fault::{LineFault, SkipReason};
use std::alloc::Global;
use trees::{
    Elements, Scratch, TextRead, Tree, TreeFault, as_flag, as_text, as_whole, elements,
    next_element, read_short, read_text,
};

/// How deep arrays and objects nest at most in what a line has at a key: one level less than in the line.
const PART_DEPTH: usize = 126;

/// How deep they nest at most in an item of a list there, or in a feature of an object: one level less again.
const ITEM_DEPTH: usize = 125;

/// The JSON value that the bytes are.
pub(crate) fn read_json<'a>(
    alloc: Global,
    bytes: &'a [u8],
    scratch: &'a mut Scratch,
) -> Result<TextRead<'a>, LineFault>
    ensures { Gives wants_memory text_view result (data_of_bytes bytes.entry.now) }
{
    match read_text(alloc, bytes, scratch) {
        Ok(text) => Ok(text),
        Err(TreeFault::OutOfMemory) => Err(LineFault::OutOfMemory),
        Err(TreeFault::NotJson) => Err(LineFault::Skipped(SkipReason::NotJson)),
    }
}

/// The same of bytes that are to stand at a key of a line, and so nest one level less deep.
pub(crate) fn read_part<'a>(
    alloc: Global,
    bytes: &'a [u8],
    scratch: &'a mut Scratch,
) -> Result<TextRead<'a>, LineFault>
    ensures { Gives wants_memory text_view result
        (ok_or (data_within part_depth bytes.entry.now) (LineFault.Skipped SkipReason.NotJson)) }
{
    read_within(alloc, bytes, scratch, PART_DEPTH)
}

/// The same of bytes that are to be an item of a list at such a key, or a feature of an object there.
pub(crate) fn read_item<'a>(
    alloc: Global,
    bytes: &'a [u8],
    scratch: &'a mut Scratch,
) -> Result<TextRead<'a>, LineFault>
    ensures { Gives wants_memory text_view result
        (ok_or (data_within item_depth bytes.entry.now) (LineFault.Skipped SkipReason.NotJson)) }
{
    read_within(alloc, bytes, scratch, ITEM_DEPTH)
}

fn read_within<'a>(
    alloc: Global,
    bytes: &'a [u8],
    scratch: &'a mut Scratch,
    depth: usize,
) -> Result<TextRead<'a>, LineFault>
    requires { depth ≤ part_depth }
    ensures { Gives wants_memory text_view result
        (ok_or (data_within depth bytes.entry.now) (LineFault.Skipped SkipReason.NotJson)) }
{
    match read_short(alloc, bytes, scratch, depth) {
        Ok(text) => Ok(text),
        Err(TreeFault::OutOfMemory) => Err(LineFault::OutOfMemory),
        Err(TreeFault::NotJson) => Err(LineFault::Skipped(SkipReason::NotJson)),
    }
}

/// A text that has to be there.
pub(crate) fn needed_text<'a>(found: &Option<Tree<'_, 'a>>) -> Result<&'a str, LineFault>
    ensures { Gives wants_memory (λ s. s.now) result
        (needed (option_and_then as_str (option_map tree_view found.now))) }
{
    match found {
        Some(found) => match as_text(found) {
            Some(text) => Ok(text),
            None => Err(LineFault::Skipped(SkipReason::Shape)),
        },
        None => Err(LineFault::Skipped(SkipReason::Shape)),
    }
}

/// A text, if it is there.
pub(crate) fn text_if_any<'a>(found: &Option<Tree<'_, 'a>>) -> Result<Option<&'a str>, LineFault>
    ensures { Gives wants_memory (option_map (λ s. s.now)) result
        (optional None text_of (option_map tree_view found.now)) }
{
    match found {
        Some(found) => match as_text(found) {
            Some(text) => Ok(Some(text)),
            None => Err(LineFault::Skipped(SkipReason::Shape)),
        },
        None => Ok(None),
    }
}

/// A flag, or what it is where it is absent.
pub(crate) fn flag(found: &Option<Tree<'_, '_>>, absent: bool) -> Result<bool, LineFault>
    ensures { Gives wants_memory (λ b. b) result (optional absent as_bool (option_map tree_view found.now)) }
{
    match found {
        Some(found) => match as_flag(found) {
            Some(flag) => Ok(flag),
            None => Err(LineFault::Skipped(SkipReason::Shape)),
        },
        None => Ok(absent),
    }
}

/// A whole number, or what it is where it is absent.
pub(crate) fn whole(found: &Option<Tree<'_, '_>>, absent: u64) -> Result<u64, LineFault>
    ensures { Gives wants_memory (λ n. n) result (optional absent as_whole (option_map tree_view found.now)) }
{
    match found {
        Some(found) => match as_whole(found) {
            Some(number) => Ok(number),
            None => Err(LineFault::Skipped(SkipReason::Shape)),
        },
        None => Ok(absent),
    }
}

/// The texts of the items of a list.
#[tactic(auto, unfolding(crate::specs::Shapes::texts_in))]
fn texts_in<'a>(alloc: Global, mut items: Elements<'_, 'a>) -> Result<Vec<&'a str>, LineFault>
    ensures { Gives wants_memory (λ v. text_views v.items) result (texts_in (left_items items.entry)) }
{
    let mut found = Vec::new(alloc);
    'items: while let Some(item) = next_element(&mut items) {
        match as_text(&item) {
            Some(text) => found.push(text)?,
            None => return Err(LineFault::Skipped(SkipReason::Shape)),
        }
    }
    Ok(found)
}

/// The texts of a value that has to be a list of them.
#[tactic(auto, unfolding(crate::specs::Shapes::texts_of))]
pub(crate) fn texts<'a>(alloc: Global, value: &Tree<'_, 'a>) -> Result<Vec<&'a str>, LineFault>
    ensures { Gives wants_memory (λ v. text_views v.items) result (texts_of (tree_view value.now)) }
{
    match elements(value) {
        Some(items) => texts_in(alloc, items),
        None => Err(LineFault::Skipped(SkipReason::Shape)),
    }
}

/// Texts: none where they are absent.
pub(crate) fn texts_if_any<'a>(
    alloc: Global,
    found: &Option<Tree<'_, 'a>>,
) -> Result<Vec<&'a str>, LineFault>
    ensures { Gives wants_memory (λ v. text_views v.items) result (texts_or_none (option_map tree_view found.now)) }
{
    match found {
        Some(found) => texts(alloc, found),
        None => Ok(Vec::new(alloc)),
    }
}
