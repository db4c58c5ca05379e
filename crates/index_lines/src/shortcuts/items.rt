//! The dependencies of a line one by one.
//!
//! Where the dependencies of a line aren't those of the line before, most of them still stand there byte for byte. So
//! a list is cut into its items with no look into those that the line before has too, and what these say is kept. Each
//! other one seems to end at the first `},`, or where the list ends. Such a cut may be wrong, as there may be brackets
//! in an item or in its texts: then what was cut off is no dependency, and the line is read as a whole.

ghost use Rattle.std.specs.Prelude.{◌≡◌, ◌≤◌, ◌++◌, IfOk, IfSome, codes, length};
ghost use Rattle.features.specs.inner.Tables.{dep_names_view};
ghost use Rattle.features.specs.Views.{dependency_views};
ghost use Rattle.trees.specs.inner.Parts.{between_commas, list_of};
ghost use Rattle.index_lines.specs.inner.Items.{item_names, item_texts, those_taking_part};

use crate::fault::{LineFault, SkipReason};
use crate::known::KnownDependencies;
use crate::shortcuts::item::ItemRead;
use crate::shortcuts::split::behind;
use features::{DepName, Dependency};
use memchr::memmem;
use std::alloc::{AllocError, Global};
use trees::Scratch;

/// How many items of the line before may be the next one of a line: those between are in this line no more.
const WINDOW: usize = 16;

/// An item of a list, and what is left behind it.
#[derive(Drop)]
struct Next<'a> {
    item: ItemRead<'a>,
    left: &'a [u8],
    /// The place of the first item of the line before that may come next.
    place: usize,
}

/// The items of a list: those of the line before, as far as their bytes are the same.
///
/// # Errors
/// `Skipped` where the list can't be read by its items, or one of them is no dependency.
pub(crate) fn items_after<'a>(
    alloc: Global,
    bytes: &'a [u8],
    before: &[ItemRead<'a>],
    scratch: &mut Scratch,
    known: &mut KnownDependencies,
) -> Result<Vec<ItemRead<'a>>, LineFault>
    ensures { IfOk result (λ v. bytes.entry.now ≡ list_of (item_texts v.items)) }
{
    if bytes == b"[]".as_slice() {
        return Ok(Vec::new(alloc));
    }
    let Some(items) = behind(bytes, b"[") else {
        return Err(LineFault::Skipped(SkipReason::Shape));
    };
    let first = next_item(alloc, items, before, 0, scratch, known)?;
    items_from(alloc, first, before, scratch, known)
}

/// The items of a list from this one on.
fn items_from<'a>(
    alloc: Global,
    first: Next<'a>,
    before: &[ItemRead<'a>],
    scratch: &mut Scratch,
    known: &mut KnownDependencies,
) -> Result<Vec<ItemRead<'a>>, LineFault>
    ensures { IfOk result (λ v. first.entry.item.bytes.now ++ first.entry.left.now
        ≡ between_commas (item_texts v.items) ++ codes "]") }
{
    let mut found = Vec::with_capacity(alloc, before.len())?;
    let mut left = first.left;
    let mut place = first.place;
    found.push(first.item)?;
    'items: while let Some(items) = behind(left, b",") {
        let next = next_item(alloc, items, before, place, scratch, known)?;
        left = next.left;
        place = next.place;
        found.push(next.item)?;
    }
    if left != b"]".as_slice() {
        return Err(LineFault::Skipped(SkipReason::Shape));
    }
    Ok(found)
}

/// The item that bytes begin with.
fn next_item<'a>(
    alloc: Global,
    bytes: &'a [u8],
    before: &[ItemRead<'a>],
    place: usize,
    scratch: &mut Scratch,
    known: &mut KnownDependencies,
) -> Result<Next<'a>, LineFault>
    ensures { IfOk result (λ n. bytes.entry.now ≡ n.item.bytes.now ++ n.left.now) }
{
    if let Some(next) = item_again(bytes, before, place)? {
        return Ok(next);
    }
    let (text, left) = cut_item(bytes);
    let item = ItemRead::of(alloc, text, scratch, known)?;
    Ok(Next { item, left, place })
}

/// The same, if it is one of the next ones of the line before.
fn item_again<'a>(
    bytes: &'a [u8],
    before: &[ItemRead<'a>],
    place: usize,
) -> Result<Option<Next<'a>>, AllocError>
    ensures { IfOk result (λ o. IfSome o (λ n. bytes.entry.now ≡ n.item.bytes.now ++ n.left.now)) }
{
    'places: for place in place..place.saturating_add(WINDOW) {
        let Some(item) = before.get(place) else {
            return Ok(None);
        };
        if let Some(left) = behind(bytes, item.bytes) {
            return Ok(Some(Next {
                item: item.again()?,
                left,
                place: place + 1,
            }));
        }
    }
    Ok(None)
}

/// The bytes up to where an item seems to end, and those from there on.
fn cut_item<'a>(bytes: &'a [u8]) -> (&'a [u8], &'a [u8])
    ensures { bytes.entry.now ≡ result.0.now ++ result.1.now }
{
    bytes.split_at(item_end(bytes))
}

/// The last item of a list is all that is left up to its end.
fn item_end(bytes: &[u8]) -> usize
    ensures { result ≤ length bytes.now }
{
    match memmem::find(bytes, b"},") {
        Some(bracket) => bracket + 1,
        None => bytes.len().saturating_sub(1),
    }
}

/// What the items are called.
pub(crate) fn names(alloc: Global, items: &[ItemRead<'_>]) -> Result<Vec<DepName>, AllocError>
    ensures { IfOk result (λ v. dep_names_view v.items ≡ item_names items.now) }
{
    let mut found = Vec::with_capacity(alloc, items.len())?;
    'items: for item in items {
        found.push(item.called()?)?;
    }
    Ok(found)
}

/// Those of the items that take part.
pub(crate) fn those_taking_part(
    alloc: Global,
    items: &[ItemRead<'_>],
) -> Result<Vec<Dependency>, AllocError>
    ensures { IfOk result (λ v. dependency_views v.items ≡ those_taking_part items.now) }
{
    let mut found = Vec::with_capacity(alloc, items.len())?;
    'items: for item in items {
        if let Some(dependency) = item.taking_part()? {
            found.push(dependency)?;
        }
    }
    Ok(found)
}
