//! Lines with the signs by which a terminal shows colors.

use crate::parts::{Colored, newer, parts_of};
use std::alloc::AllocError;
use std::str::from_utf8;

/// How a part of a line is shown: bold, and in a color, as in Cargo 1.95.
#[derive(Clone, Copy)]
pub(crate) enum Style {
    Bold,
    Green,
    Yellow,
    Red,
}

impl Style {
    /// The signs from which on a terminal shows it so.
    fn signs(self) -> &'static str {
        match self {
            Style::Bold => "\x1b[1m",
            Style::Green => "\x1b[1m\x1b[92m",
            Style::Yellow => "\x1b[1m\x1b[33m",
            Style::Red => "\x1b[1m\x1b[91m",
        }
    }
}

/// The sign from which on a terminal shows nothing special.
const PLAIN: &str = "\x1b[0m";

/// Adds a line, with its front and a newer version at its end painted; bytes that are no text are added as they are.
pub(crate) fn push_painted(to: &mut Vec<u8>, line: &[u8]) -> Result<(), AllocError> {
    if let Ok(text) = from_utf8(line) {
        if let Some(parts) = parts_of(text) {
            return push_colored(to, parts);
        }
    }
    to.extend_from_slice(line)
}

/// A line with its first word in color, and the newer version that it names.
fn push_colored(to: &mut Vec<u8>, parts: Colored<'_>) -> Result<(), AllocError> {
    push_styled(to, parts.style, parts.word)?;
    match newer(parts.rest) {
        Some((front, version, end)) => {
            push(to, front)?;
            push_styled(to, Style::Yellow, version)?;
            push(to, end)
        }
        None => push(to, parts.rest),
    }
}

fn push_styled(to: &mut Vec<u8>, style: Style, part: &str) -> Result<(), AllocError> {
    push(to, style.signs())?;
    push(to, part)?;
    push(to, PLAIN)
}

fn push(to: &mut Vec<u8>, text: &str) -> Result<(), AllocError> {
    to.extend_from_slice(text.as_bytes())
}
