//! The commands beside programs that a session can use: they make large files and compare files.

use crate::sink::Sink;
use std::alloc::{AllocError, Global};
use std::fs;
use std::io::{self, ErrorKind, Write};
use std::rt::Files;

/// `repeat COUNT TEXT`: writes a text that often, with spaces for `_`, line ends for `;`, and for `@` the number of the
/// time in five digits.
pub(crate) fn repeat<R: AllocGlobal, F: Write>(
    rt: &R,
    words: &[String],
    out: &mut Sink<F>,
) -> io::Result<u8> {
    let count: u32 = word(words, 1)?.parse().map_err(|_| wrong())?;
    let text = word(words, 2)?.replace(rt.alloc(), ";", "\n")?;
    let text = text.replace(rt.alloc(), "_", " ")?;
    let text = repeated(rt.alloc(), text.as_str(), count)?;
    out.write_all(text.as_bytes())?;
    Ok(0)
}

/// The text so many times, with the number of the copy for each `@`.
fn repeated(alloc: Global, text: &str, count: u32) -> Result<String, AllocError> {
    if !text.contains('@') {
        return text.repeat(alloc, count as usize);
    }
    let mut made = String::new(alloc);
    for i in 0..count {
        let number = format!(in alloc; "{i:05}")?;
        let copy = text.replace(alloc, "@", number.as_str())?;
        made.push_str(copy.as_str())?;
    }
    Ok(made)
}

/// `cat PATH`: writes the bytes of a file.
pub(crate) fn cat<R: Files + AllocGlobal, F: Write>(
    rt: &R,
    words: &[String],
    out: &mut Sink<F>,
) -> io::Result<u8> {
    let bytes = fs::read(rt, word(words, 1)?)?;
    out.write_all(bytes.as_slice())?;
    Ok(0)
}

/// `cmp PATH PATH`: 0 where two files have the same bytes, else 1.
pub(crate) fn cmp<R: Files + AllocGlobal>(rt: &R, words: &[String]) -> io::Result<u8> {
    let first = fs::read(rt, word(words, 1)?)?;
    let second = fs::read(rt, word(words, 2)?)?;
    Ok(if first == second { 0 } else { 1 })
}

fn word(words: &[String], at: usize) -> io::Result<&str> {
    match words.get(at) {
        Some(word) => Ok(word.as_str()),
        None => Err(wrong()),
    }
}

fn wrong() -> io::Error {
    io::Error::from(ErrorKind::InvalidInput)
}
