//! Where the texts of a command go.

use std::io::{self, Write};
use std::str::from_utf8;

/// A text that is kept to be compared, or a file.
#[derive(Drop)]
pub(crate) enum Sink<F> {
    Kept(Vec<u8>),
    Written(F),
}

impl<F> Sink<F> {
    /// The text that was kept; of a file nothing, and of bytes that are no text nothing.
    pub(crate) fn kept_text(&self) -> &str {
        match self {
            Sink::Kept(bytes) => from_utf8(bytes.as_slice()).unwrap_or("no UTF-8"),
            Sink::Written(_) => "",
        }
    }
}

impl<F: Write> Write for Sink<F> {
    fn write(&mut self, buf: &[u8]) -> io::Result<usize> {
        match self {
            Sink::Kept(bytes) => bytes.write(buf),
            Sink::Written(file) => file.write(buf),
        }
    }

    fn flush(&mut self) -> io::Result<()> {
        match self {
            Sink::Kept(bytes) => bytes.flush(),
            Sink::Written(file) => file.flush(),
        }
    }
}
