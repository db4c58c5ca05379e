//! Where and why a file of TOML doesn't read, and the line that tells it to people.
//!
//! `lock_faults` and `manifest_faults` find what is at fault, each in its own file. What they have in common is here:
//! what is told (`Misreading`), and where bytes are no TOML at all.
//!
//! A layer above may rely on the number of a line (`line_after`); of the words nothing is stated.

use crate::line::line_after;
use std::alloc::{AllocError, Global};
use std::str::from_utf8;

/// Where and why a file doesn't read.
#[derive(Drop)]
pub struct Misreading {
    /// The line, from 1; none of what is wrong with the file as a whole.
    pub line: Option<usize>,
    /// The column on the line, from 1, where the place is known.
    pub column: Option<usize>,
    pub why: String,
    /// The line itself, with a mark below the place; nothing where the line is all that is known.
    pub shown: String,
}

impl Misreading {
    /// What is wrong with a line, or with the file.
    pub fn new(alloc: Global, line: Option<usize>, why: String) -> Misreading {
        Misreading {
            line,
            column: None,
            why,
            shown: String::new(alloc),
        }
    }

    /// `Cargo.toml line 3: expected newline`, and a line end.
    pub fn told(&self, alloc: Global, path: &str) -> Result<String, AllocError> {
        let Misreading {
            line,
            column,
            why,
            shown,
        } = self;
        match (line, column) {
            (Some(line), Some(column)) => {
                format!(in alloc; "{path} line {line}, column {column}: {why}\n{shown}")
            }
            (Some(line), None) => format!(in alloc; "{path} line {line}: {why}\n{shown}"),
            (None, _) => format!(in alloc; "{path}: {why}\n"),
        }
    }
}

/// Where and why bytes are no TOML.
pub fn no_toml(
    alloc: Global,
    bytes: &[u8],
    error: &toml::de::Error,
) -> Result<Misreading, AllocError> {
    let Some(span) = error.span() else {
        return Err(AllocError);
    };
    let (before, after) = bytes.split_at(span.start.min(bytes.len()));
    Ok(Misreading {
        line: Some(line_after(before)),
        column: column_after(before),
        why: String::from_str(alloc, why_of(error.message(), after))?,
        shown: shown(alloc, before, after)?,
    })
}

/// The column of what stands behind these bytes, from 1, where their last line is text.
fn column_after(before: &[u8]) -> Option<usize> {
    let front = before.rsplit(|byte| *byte == b'\n').next().unwrap_or(&[]);
    Some(from_utf8(front).ok()?.chars().count().saturating_add(1))
}

/// What is wrong before the rest of a file.
fn why_of<'a>(message: &'a str, rest: &[u8]) -> &'a str {
    let is_cut = message == "invalid string";
    match rest.trim_ascii_start().first() {
        None if is_cut => "the file ends within this string; it was probably cut off",
        _ if is_cut && rest.first() == Some(&b'\n') => { "this string has no closing quote" }
        _ => message,
    }
}

/// Longer lines aren't shown.
const WIDEST: usize = 160;

/// The line on which two parts of a file meet, with a mark below the place where they do.
fn shown(alloc: Global, before: &[u8], after: &[u8]) -> Result<String, AllocError> {
    let mut shown = String::new(alloc);
    let front = before.rsplit(|byte| *byte == b'\n').next().unwrap_or(&[]);
    let back = after.split(|byte| *byte == b'\n').next().unwrap_or(&[]);
    let (Ok(front), Ok(back)) = (from_utf8(front), from_utf8(back)) else {
        return Ok(shown);
    };
    if front.len() + back.len() > WIDEST {
        return Ok(shown);
    }
    let back = back.trim_end();
    writeln!(shown, "    {front}{back}")?;
    shown.push_str("    ")?;
    for char in front.chars() {
        shown.push(if char == '\t' { '\t' } else { ' ' })?;
    }
    shown.push_str("^\n")?;
    Ok(shown)
}
