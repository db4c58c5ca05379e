//! Characters of strangers' files, before a terminal gets them.

use std::alloc::{AllocError, Global};

/// How a control character is told.
#[derive(Clone, Copy)]
pub(crate) enum Escape {
    /// As `\u{1b}`.
    Braced,
    /// As `\u001b`, which a text of JSON may have.
    Json,
}

/// The same text, `\u{FFFD}` for what is none, with each control character but line ends and tabs told by its number:
/// what a file says may have any, and a terminal would obey them.
pub(crate) fn shown(alloc: Global, bytes: &[u8], escape: Escape) -> Result<String, AllocError> {
    let mut told = String::new(alloc);
    let text = String::from_utf8_lossy(alloc, bytes)?;
    for char in text.as_str().chars() {
        push_shown(&mut told, char, escape)?;
    }
    Ok(told)
}

fn push_shown(told: &mut String, char: char, escape: Escape) -> Result<(), AllocError> {
    if !is_order(char) {
        return told.push(char);
    }
    match escape {
        Escape::Braced => push_braced(told, char),
        Escape::Json => push_json(told, char),
    }
}

/// Whether a terminal may take a character for an order.
fn is_order(char: char) -> bool {
    char.is_control() && !matches!(char, '\n' | '\t')
}

fn push_braced(told: &mut String, char: char) -> Result<(), AllocError> {
    for part in char.escape_unicode() {
        told.push(part)?;
    }
    Ok(())
}

/// A control character has a number of two digits.
fn push_json(told: &mut String, char: char) -> Result<(), AllocError> {
    told.push_str("\\u00")?;
    told.push(digit(char as u32 / 16))?;
    told.push(digit(char as u32 % 16))
}

fn digit(number: u32) -> char {
    char::from_digit(number, 16).unwrap_or('0')
}
