//! The streams that a run prints to.

use std::fmt::Display;
use std::io::Write;

/// A stream that a run prints to.
pub trait Stream {
    ghost use Rattle.std.specs.Prelude.{◌≡◌, ℕ, List, Option, true, false, IfSome};
    ghost use Rattle.std.specs.Fmt.{with_newline};
    ghost use Rattle.std.specs.Io.KnownBytes.{Appends};

    /// The bytes that it holds, where they are known.
    ghost contents: { Self → Option (List ℕ) };

    /// The stream before, bytes that couldn't all be written to it, and the stream after.
    ghost fails: { Self → List ℕ → Self → Type 0 };

    /// Writes bytes, and says whether all of them were written.
    fn put(&mut self, bytes: &[u8]) -> bool
        ensures written { result ≡ true → Appends (contents self.old) (contents self.new) bytes.now }
        ensures failed { result ≡ false → fails self.old bytes.now self.new };

    /// Writes a line, and says whether all of it was written.
    fn put_line<T: Display + Drop>(&mut self, text: T) -> bool
        ensures written { result ≡ true
            → IfSome (with_newline (T.output text)) (Appends (contents self.old) (contents self.new)) }
        ensures failed { result ≡ false
            → IfSome (with_newline (T.output text)) (λ bytes. fails self.old bytes self.new) };
}

/// Of a write that failed the toolchain's writers promise nothing.
impl<W: Write> Stream for W {
    ghost contents = { W.contents };

    ghost fails = { λ _ _ _. Unit {0} };

    fn put(&mut self, bytes: &[u8]) -> bool {
        self.write_all(bytes).is_ok()
    }

    fn put_line<T: Display + Drop>(&mut self, text: T) -> bool {
        writeln!(self, "{text}").is_ok()
    }
}
