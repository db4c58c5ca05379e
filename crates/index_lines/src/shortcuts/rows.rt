//! The features of a line one by one.
//!
//! Where the features of a line aren't those of the line before, nine of ten still stand there byte for byte. So an
//! object is cut into its members with no look into those that the line before has too, and what these say is kept, as
//! with dependencies (`items.rt`). Each other one seems to end at the first `]`. Such a cut may be wrong, as a text may
//! have a bracket: then what was cut off is no feature, and the features are read together. So are those that don't
//! rise by their names, for of a name that comes twice the last one counts.

ghost use Rattle.std.specs.Prelude.{◌≡◌, ◌≤◌, ◌++◌, [], IfOk, IfSome, codes, length, true};
ghost use Rattle.features.specs.inner.Tables.{rows_of};
ghost use Rattle.trees.specs.inner.Parts.{between_commas, keys_rise};
ghost use Rattle.index_lines.specs.inner.Rows.{braced, row_texts, row_views};

use crate::fault::{LineFault, SkipReason};
use crate::shortcuts::row::RowRead;
use crate::shortcuts::split::behind;
use crate::written::comes_before;
use features::Row;
use memchr::memchr;
use std::alloc::{AllocError, Global};
use trees::Scratch;

/// How many features of the line before may be the next one of a line: those between are in this line no more.
const WINDOW: usize = 16;

/// A feature of a line, and what is left behind it.
#[derive(Drop)]
struct Next<'a> {
    row: RowRead<'a>,
    left: &'a [u8],
}

/// The features of an object, whose names rise: those of the line before, as far as their bytes are the same.
///
/// # Errors
/// `Skipped` where the object can't be read by its members, or they are no features whose names rise.
pub(crate) fn rows_after<'a>(
    alloc: Global,
    bytes: &'a [u8],
    mut before: Vec<RowRead<'a>>,
    scratch: &mut Scratch,
) -> Result<Vec<RowRead<'a>>, LineFault>
    ensures told { IfOk result (λ v. bytes.entry.now ≡ braced (row_texts v.items)) }
    ensures rising { IfOk result (λ v. keys_rise [] (row_views v.items) ≡ true) }
{
    if bytes == b"{}".as_slice() {
        return Ok(Vec::new(alloc));
    }
    let Some(members) = behind(bytes, b"{") else {
        return Err(LineFault::Skipped(SkipReason::Shape));
    };
    before.reverse();
    let first = next_row(alloc, members, &mut before, scratch)?;
    let found = rows_from(alloc, first, &mut before, scratch)?;
    if !rows_rise(&found) {
        return Err(LineFault::Skipped(SkipReason::Shape));
    }
    Ok(found)
}

/// The features of an object from this one on. Of the line before, the next one stands last.
fn rows_from<'a>(
    alloc: Global,
    first: Next<'a>,
    before: &mut Vec<RowRead<'a>>,
    scratch: &mut Scratch,
) -> Result<Vec<RowRead<'a>>, LineFault>
    ensures { IfOk result (λ v. first.entry.row.bytes.now ++ first.entry.left.now
        ≡ between_commas (row_texts v.items) ++ codes "}") }
{
    let mut found = Vec::with_capacity(alloc, before.len().saturating_add(1))?;
    let mut left = first.left;
    found.push(first.row)?;
    'members: while let Some(members) = behind(left, b",") {
        let next = next_row(alloc, members, before, scratch)?;
        left = next.left;
        found.push(next.row)?;
    }
    if left != b"}".as_slice() {
        return Err(LineFault::Skipped(SkipReason::Shape));
    }
    Ok(found)
}

/// The feature that bytes begin with.
fn next_row<'a>(
    alloc: Global,
    bytes: &'a [u8],
    before: &mut Vec<RowRead<'a>>,
    scratch: &mut Scratch,
) -> Result<Next<'a>, LineFault>
    ensures { IfOk result (λ n. bytes.entry.now ≡ n.row.bytes.now ++ n.left.now) }
{
    if let Some(next) = row_again(bytes, before) {
        return Ok(next);
    }
    let (text, left) = cut_row(bytes);
    let row = RowRead::of(alloc, text, scratch)?;
    Ok(Next { row, left })
}

/// The same, if it is one of the next ones of the line before: this and those before it are taken from there.
fn row_again<'a>(bytes: &'a [u8], before: &mut Vec<RowRead<'a>>) -> Option<Next<'a>>
    ensures { IfSome result (λ n. bytes.entry.now ≡ n.row.bytes.now ++ n.left.now) }
{
    let gone = gone_before(bytes, before)?;
    before.truncate(before.len().saturating_sub(gone));
    let row = before.pop()?;
    let left = behind(bytes, row.bytes)?;
    Some(Next { row, left })
}

/// How many of the next features of the line before stand in front of the one that bytes begin with.
fn gone_before(bytes: &[u8], before: &[RowRead<'_>]) -> Option<usize> {
    before
        .iter()
        .rev()
        .take(WINDOW)
        .position(|row| bytes.starts_with(row.bytes))
}

/// The bytes up to where a feature seems to end, and those from there on.
fn cut_row<'a>(bytes: &'a [u8]) -> (&'a [u8], &'a [u8])
    ensures { bytes.entry.now ≡ result.0.now ++ result.1.now }
{
    bytes.split_at(row_end(bytes))
}

fn row_end(bytes: &[u8]) -> usize
    ensures { result ≤ length bytes.now }
{
    match memchr(b']', bytes) {
        Some(bracket) => bracket + 1,
        None => bytes.len(),
    }
}

/// Whether each feature's name comes after the one before it.
fn rows_rise(rows: &[RowRead<'_>]) -> bool
    ensures { result ≡ keys_rise [] (row_views rows.now) }
{
    let mut before = "";
    'rows: for row in rows {
        let name = row.row.name().as_str();
        if !comes_before(before, name) {
            return false;
        }
        before = name;
    }
    true
}

/// The features with their entries for a table, which shares them, with room for `default` and an implicit feature.
pub(crate) fn copied_rows(alloc: Global, rows: &[RowRead<'_>]) -> Result<Vec<Row>, AllocError>
    ensures { IfOk result (λ v. rows_of v.items ≡ row_views rows.now) }
{
    let mut found = Vec::with_capacity(alloc, rows.len().saturating_add(2))?;
    'rows: for row in rows {
        found.push(row.row.clone()?)?;
    }
    Ok(found)
}
