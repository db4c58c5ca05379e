//! The numbers of lines.

ghost use Rattle.std.specs.Prelude.{◌≡◌, ◌≤◌, filter, length};
ghost use Rattle.tables.specs.inner.Lines.{is_line_end, line_after};

/// The number of the line that stands behind these bytes, from 1.
pub fn line_after(before: &[u8]) -> usize
    ensures { result ≡ line_after before.now }
{
    line_ends(before) + 1
}

fn line_ends(bytes: &[u8]) -> usize
    ensures count { result ≡ length (filter is_line_end bytes.now) }
    ensures bound { result ≤ length bytes.now }
{
    bytes.iter().filter(|byte| is_line_end(**byte)).count()
}

fn is_line_end(byte: u8) -> bool
    ensures { result ≡ is_line_end byte }
{
    byte == b'\n'
}
