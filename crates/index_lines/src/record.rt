//! What a line of an index file is.

ghost use Rattle.std.specs.Prelude.{◌≡◌};
ghost use Rattle.std.specs.List.{list_all};
ghost use Rattle.semver.specs.Grammar.{IsValid};
ghost use Rattle.semver.specs.Identifiers.{parts_of};
ghost use Rattle.index_lines.specs.Records.{is_hexadecimal, is_checksum};

use classes::RustVersion;
use features::Summary;
use semver::Version;

/// A version of a package, as its line has it.
#[derive(Drop)]
pub struct Record {
    pub version: Version,
    /// The checksum of its file, as the line has it: 64 lower-case hexadecimal digits in every record that a line or a
    /// file gives.
    pub checksum: String,
    pub yanked: bool,
    /// The Rust version that it needs, if it says one.
    pub rust_version: Option<RustVersion>,
    pub brings: Summary,
    ghost is_read: { IsValid (parts_of version) },
}

/// Whether a text is the checksum of a file.
pub fn is_checksum(text: &str) -> bool
    ensures { result ≡ is_checksum text.now }
{
    text.len() == 64 && are_hexadecimal(text.as_bytes())
}

/// Whether all bytes are lower-case hexadecimal digits, without an end at the first that is none, so that many are
/// looked at at a time.
pub fn are_hexadecimal(text: &[u8]) -> bool
    ensures { result ≡ list_all is_hexadecimal text.now }
{
    let mut all = true;
    'bytes: for byte in text {
        all &= is_hexadecimal(*byte);
    }
    all
}

/// A lower-case hexadecimal digit.
fn is_hexadecimal(byte: u8) -> bool
    ensures { result ≡ is_hexadecimal byte }
{
    matches!(byte, b'0'..=b'9' | b'a'..=b'f')
}
