//! Where and why a lock doesn't read.

use crate::marks::first_mark;
use crate::misread::Misread;
use crate::reading::misread_in;
use std::alloc::{AllocError, Global};
use std::str::from_utf8;
use tables::{Misreading, no_toml};

/// The greatest number of bytes that a lock may have: 64 MiB.
const MOST_BYTES: usize = 67_108_864;

/// What is told of a lock that a merge left unfinished, at its first mark, and at another one.
const BEGUN: &str = "an unfinished merge begins here (<<<<<<<)";

const LEFT: &str = "a mark of a merge was left here";

/// Where and why the bytes of a lock don't read, if they don't.
pub fn misreading_of(alloc: Global, bytes: &[u8]) -> Result<Option<Misreading>, AllocError> {
    if bytes.len() > MOST_BYTES {
        let why = String::from_str(alloc, "it has more than 64 MiB")?;
        return Ok(Some(Misreading::new(alloc, None, why)));
    }
    match toml::table_from_slice(alloc, bytes) {
        Ok(table) => match misread_in(alloc, &table) {
            Ok(()) => Ok(None),
            Err(misread) => Ok(Some(of_rule(alloc, bytes, &misread)?)),
        },
        Err(error) => Ok(Some(of_toml(alloc, bytes, &error)?)),
    }
}

/// Bytes that are no TOML, maybe since a merge left its marks.
fn of_toml(alloc: Global, bytes: &[u8], error: &toml::de::Error) -> Result<Misreading, AllocError> {
    let found = no_toml(alloc, bytes, error)?;
    match first_mark(bytes) {
        Some(mark) if is_before(mark, found.line) => {
            let why = String::from_str(alloc, told_of_mark(bytes, mark))?;
            Ok(Misreading::new(alloc, Some(mark), why))
        }
        _ => Ok(found),
    }
}

/// What is told of the first mark of a merge, on the line of this number, from 1.
fn told_of_mark(bytes: &[u8], number: usize) -> &'static str {
    let mut lines = bytes
        .split(|byte| *byte == b'\n')
        .skip(number.saturating_sub(1));
    match lines.next() {
        Some(line) if line.starts_with("<<<<<<<".as_bytes()) => BEGUN,
        _ => LEFT,
    }
}

/// Whether a line isn't behind another one.
fn is_before(mark: usize, line: Option<usize>) -> bool {
    match line {
        Some(line) => mark <= line,
        None => false,
    }
}

/// A rule of reading that is broken; of a package by the line of its header.
fn of_rule(alloc: Global, bytes: &[u8], misread: &Misread<'_>) -> Result<Misreading, AllocError> {
    let line = match misread {
        Misread::Package(number, _) => header_line(bytes, *number),
        _ => None,
    };
    let why = match misread {
        Misread::OutOfMemory => return Err(AllocError),
        Misread::NoFormat => String::from_str(alloc, "its version is no whole number")?,
        Misread::Format(number) => {
            format!(in alloc; "its version is {number}, and only 1 to 4 are read")?
        }
        Misread::NoPackages => String::from_str(alloc, "its packages are no array of tables")?,
        Misread::Package(_, broken) => format!(in alloc; "{broken}")?,
    };
    Ok(Misreading::new(alloc, line, why))
}

/// The line, from 1, of the header `[[package]]` of a number, from 0.
fn header_line(bytes: &[u8], number: usize) -> Option<usize> {
    let mut left = number;
    for (line, words) in from_utf8(bytes).ok()?.lines().enumerate() {
        if words.trim() == "[[package]]" {
            if left == 0 {
                return Some(line + 1);
            }
            left -= 1;
        }
    }
    None
}
