//! A feature of a line that is read on its own.

ghost use Rattle.std.specs.Prelude.{◌≡◌, IfOk, IfSome, true};
ghost use Rattle.model.specs.Outcome.{Gives};
ghost use Rattle.features.specs.EntryViews.{entry_views};
ghost use Rattle.features.specs.Views.{text_views};
ghost use Rattle.trees.specs.inner.Parts.{is_plain, member_text};
ghost use Rattle.index_lines.specs.inner.ByParts.{IsRow, row_of_member};
ghost use Rattle.index_lines.specs.inner.Plain.{texts_of_item};
ghost use Rattle.index_lines.specs.Shapes.{wants_memory};

use crate::fault::{LineFault, SkipReason};
use crate::shortcuts::plain::plain_texts;
use crate::shortcuts::split::{behind, plain_text};
use crate::values::{read_item, texts};
use crate::written::{entries, feature_name};
use features::Row;
use std::alloc::Global;
use trees::{Scratch, root};

/// A feature of a line, and the bytes that it was read off.
#[derive(Drop)]
pub(crate) struct RowRead<'a> {
    /// Those of the whole member, its key too.
    pub bytes: &'a [u8],
    pub row: Row,
    ghost read: { IsRow bytes.now row.0 (entry_views row.1.items) },
}

impl<'a> RowRead<'a> {
    /// What these bytes are as a feature.
    ///
    /// # Errors
    /// `Skipped` where they are none, or what stands in them isn't plain.
    pub(crate) fn of(
        alloc: Global,
        bytes: &'a [u8],
        scratch: &mut Scratch,
    ) -> Result<RowRead<'a>, LineFault>
        ensures { IfOk result (λ r. r.bytes.now ≡ bytes.entry.now) }
    {
        let Some((key, value)) = key_and_value(bytes) else {
            return Err(LineFault::Skipped(SkipReason::Shape));
        };
        let row = row_of_member(alloc, key, value, scratch)?;
        Ok(RowRead { bytes, row })
    }
}

/// The key of a member, if each of its bytes stands for itself, and the bytes of what stands there.
fn key_and_value<'a>(bytes: &'a [u8]) -> Option<(&'a str, &'a [u8])>
    ensures { IfSome result
        (λ p. (bytes.entry.now ≡ member_text (p.0.now, p.1.now)) × (is_plain p.0.now ≡ true)) }
{
    let left = behind(bytes, b"\"")?;
    let (key, left) = plain_text(left)?;
    let value = behind(left, b"\":")?;
    Some((key, value))
}

/// The feature that these are as a name and a list.
#[tactic(auto, unfolding(crate::specs::inner::ByParts::row_of_member, crate::specs::Records::feature_read))]
fn row_of_member(
    alloc: Global,
    key: &str,
    value: &[u8],
    scratch: &mut Scratch,
) -> Result<Row, LineFault>
    ensures { Gives wants_memory
        (λ row. (row.0, entry_views row.1.items)) result (row_of_member key.now value.now) }
{
    let texts = texts_of(alloc, value, scratch)?;
    let name = feature_name(alloc, key)?;
    let entries = entries(alloc, &texts)?;
    Ok(Row::new(alloc, name, entries)?)
}

/// The texts of a list: without a tape where each is plain.
fn texts_of<'a>(
    alloc: Global,
    bytes: &'a [u8],
    scratch: &'a mut Scratch,
) -> Result<Vec<&'a str>, LineFault>
    ensures { Gives wants_memory (λ v. text_views v.items) result (texts_of_item bytes.entry.now) }
{
    if let Some(texts) = plain_texts(alloc, bytes)? {
        return Ok(texts);
    }
    let tape = read_item(alloc, bytes, scratch)?;
    texts(alloc, &root(&tape))
}
