//! Lines that say nothing, which readers of lines pass over.

ghost use Rattle.std.specs.Prelude.{◌≡◌};
ghost use Rattle.trees.specs.Trees.{is_blank, is_blank_byte};

/// Whether a line has spaces, tabs and `\r` alone.
pub fn is_blank(line: &[u8]) -> bool
    ensures { result ≡ is_blank line.now }
{
    line.iter().all(|b| is_blank_byte(*b))
}

fn is_blank_byte(byte: u8) -> bool
    ensures { result ≡ is_blank_byte byte }
{
    byte == b' ' || byte == b'\t' || byte == b'\r'
}
