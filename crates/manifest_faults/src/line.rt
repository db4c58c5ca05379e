//! On which line something stands in a manifest.
//!
//! A table of TOML says of no value where it stands. So the lines are looked at for a header or a key that seems to
//! begin what is looked for, and the first of them is held against TOML itself: what stands before it has to be TOML
//! that lacks it, and with the header, or the key and a 0, TOML that has it. Where that isn't so no line is told.

ghost use Rattle.std.specs.Prelude.{◌≡◌, ◌≤◌, ◌++◌, IfOk, IfSome, true};
ghost use Rattle.manifest_faults.specs.inner.Lines.{Begins, Has, IsLineOf, front_of, up_to};
ghost use Rattle.manifest_faults.specs.inner.Places.{value_at};

use crate::place::{Place, named_value, value_at};
use std::alloc::{AllocError, Global};
use std::str::from_utf8;
use tables::{line_after, member, read_table};
use toml::{Table, Value};

/// The line on which what stands at a place begins, if that is certain.
pub(crate) fn line_of(
    alloc: Global,
    bytes: &[u8],
    place: &Place<'_>,
) -> Result<Option<usize>, AllocError>
    ensures { IfOk result (λ o. IfSome o (IsLineOf place.now bytes.now)) }
{
    let Some(at) = seeming_start(alloc, bytes, place)? else {
        return Ok(None);
    };
    if at > bytes.len() {
        return Ok(None);
    }
    let before = &bytes[..at];
    if begins(alloc, before, &bytes[at..], place)? {
        Ok(Some(line_after(before)))
    } else {
        Ok(None)
    }
}

/// Whether what begins the rest puts something at the place.
fn begins(alloc: Global, before: &[u8], rest: &[u8], place: &Place<'_>) -> Result<bool, AllocError>
    ensures { IfOk result (λ b. b ≡ true → Begins place.now before.now rest.now) }
{
    if !has(alloc, before, place, false)? {
        return Ok(false);
    }
    let Ok(rest) = from_utf8(rest) else {
        return Ok(false);
    };
    let with_front = joined(alloc, before, line_in(rest))?;
    has(alloc, &with_front, place, true)
}

/// Whether bytes are TOML, and have something at the place, or nothing if that is wanted.
fn has(alloc: Global, bytes: &[u8], place: &Place<'_>, wanted: bool) -> Result<bool, AllocError>
    ensures { IfOk result (λ b. b ≡ true → Has wanted place.now bytes.now) }
{
    let Some(table) = read_table(alloc, bytes)? else {
        return Ok(false);
    };
    Ok(value_at(&table, place).is_some() == wanted)
}

/// The bytes with a header behind them as it stands in its line, or with the key there and 0 as its value.
fn joined(alloc: Global, before: &[u8], line: &str) -> Result<Vec<u8>, AllocError>
    ensures { IfOk result (λ v. v.items ≡ before.now ++ front_of line.now) }
{
    let mut bytes = Vec::new(alloc);
    bytes.extend_from_slice(before)?;
    if line.starts_with("[") {
        bytes.extend_from_slice(line.as_bytes())?;
    } else {
        bytes.extend_from_slice(key_in(line).as_bytes())?;
        bytes.extend_from_slice(b"=0")?;
    }
    Ok(bytes)
}

fn key_in(line: &str) -> &str
    ensures { result.now ≡ up_to 61 line.now }
{
    match line.split_once('=') {
        Some((key, _)) => key,
        None => line,
    }
}

fn line_in(text: &str) -> &str
    ensures { result.now ≡ up_to 10 text.now }
{
    match text.split_once('\n') {
        Some((line, _)) => line,
        None => text,
    }
}

/// In which table the lines are that come next.
#[derive(Clone, Copy)]
enum Within {
    /// In none yet.
    Top,
    /// In that in which the place is.
    Parent,
    Other,
}

/// Where the first header or key begins that seems to put something at the place.
fn seeming_start(
    alloc: Global,
    bytes: &[u8],
    place: &Place<'_>,
) -> Result<Option<usize>, AllocError> {
    let Ok(text) = from_utf8(bytes) else {
        return Ok(None);
    };
    let mut begun = 0usize;
    let mut within = Within::Top;
    for line in text.split('\n') {
        let words = line.trim_start();
        let at = begun.saturating_add(line.len().saturating_sub(words.len()));
        begun = begun.saturating_add(line.len()).saturating_add(1);
        if words.starts_with("[") {
            if let Some(table) = read_table(alloc, words.as_bytes())? {
                if value_at(&table, place).is_some() {
                    return Ok(Some(at));
                }
                within = within_at(&table, place);
            }
        } else if seems(alloc, words, place, within)? {
            return Ok(Some(at));
        }
    }
    Ok(None)
}

fn within_at(header: &Table, place: &Place<'_>) -> Within {
    match parent_at(header, place) {
        Some(Value::Table(table)) => {
            if table.is_empty() {
                Within::Parent
            } else {
                Within::Other
            }
        }
        _ => Within::Other,
    }
}

/// The table in which a place is, if it isn't the whole manifest.
fn parent_at<'t>(top: &'t Table, place: &Place<'_>) -> Option<&'t Value> {
    if place.key.is_some() {
        named_value(top, place)
    } else if place.name.is_some() {
        value_at(top, &place.at_section(place.section))
    } else {
        member(top, "target")?.get(place.target?)
    }
}

/// Whether the key at the front of a line seems to put something at the place.
fn seems(
    alloc: Global,
    words: &str,
    place: &Place<'_>,
    within: Within,
) -> Result<bool, AllocError> {
    if matches!(within, Within::Other) {
        return Ok(false);
    }
    let mut line = String::new(alloc);
    line.push_str(key_in(words))?;
    line.push_str("=0")?;
    let Some(table) = read_table(alloc, line.as_bytes())? else {
        return Ok(false);
    };
    if matches!(within, Within::Top) {
        return Ok(value_at(&table, place).is_some());
    }
    let last = place.key.or(place.name).unwrap_or(place.section);
    Ok(member(&table, last).is_some())
}
