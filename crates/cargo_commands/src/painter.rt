//! What is told, in the colors in which Cargo tells it.
//!
//! Who prints needn't know: a `Painter` stands before what is written to, and paints line by line what goes through. A
//! text comes in pieces of any length, so a line is kept until it ends; what was painted by one call is handed on at
//! once, for a terminal to show a report in one go.
//!
//! What a manifest, a lock or an index says stands in what is told, and may have any character. So control characters
//! are told by their numbers here, in every message (`shown.rt`); those of colors come after.
//!
//! A layer above may rely on this: the word at the front of a line and what stands after it are the line (`parts.rt`),
//! so that paint takes nothing away from a line. Which words are painted, and how, is Cargo's choice and shown by
//! cases.

use crate::paint::push_painted;
use crate::shown::{Escape, shown};
use std::alloc::{AllocError, Global};
use std::io::{self, Write};

/// What becomes of what goes through a painter.
#[derive(Clone, Copy, PartialEq, Eq)]
pub(crate) enum Show {
    Plain,
    InColors,
    /// Lines of JSON, which stay JSON.
    Json,
    Nothing,
}

/// A writer that hands on what it gets as it is, or painted line by line, or not at all; but control characters are
/// told by their numbers.
#[derive(Drop)]
pub(crate) struct Painter<W: Write + Drop> {
    to: W,
    alloc: Global,
    show: Show,
    /// The line that didn't end yet, where lines are painted.
    line: Vec<u8>,
}

impl<W: Write + Drop> Painter<W> {
    pub(crate) fn new(alloc: Global, to: W, show: Show) -> Painter<W> {
        Painter {
            to,
            alloc,
            show,
            line: Vec::new(alloc),
        }
    }

    /// Paints the lines that end in a text, and keeps what stands after them.
    fn paint(&mut self, bytes: &[u8]) -> io::Result<()> {
        let mut painted = Vec::new(self.alloc);
        for byte in bytes.iter() {
            self.line.push(*byte)?;
            if *byte == b'\n' {
                self.push_line(&mut painted)?;
            }
        }
        self.to.write_all(&painted)
    }

    /// Adds the line that was kept, painted.
    fn push_line(&mut self, painted: &mut Vec<u8>) -> Result<(), AllocError> {
        push_painted(painted, &self.line)?;
        self.line.clear();
        Ok(())
    }
}

impl<W: Write + Drop> Write for Painter<W> {
    fn write(&mut self, buf: &[u8]) -> io::Result<usize> {
        let escape = match self.show {
            Show::Nothing => return Ok(buf.len()),
            Show::Json => Escape::Json,
            Show::Plain | Show::InColors => Escape::Braced,
        };
        let text = shown(self.alloc, buf, escape)?;
        if self.show == Show::InColors {
            self.paint(text.as_bytes())?;
        } else {
            self.to.write_all(text.as_bytes())?;
        }
        Ok(buf.len())
    }

    /// What is left of a line that didn't end is handed on too.
    fn flush(&mut self) -> io::Result<()> {
        let mut painted = Vec::new(self.alloc);
        self.push_line(&mut painted)?;
        self.to.write_all(&painted)?;
        self.to.flush()
    }
}
