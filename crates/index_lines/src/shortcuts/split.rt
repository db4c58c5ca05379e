//! Cutting a line into its parts.
//!
//! A registry writes each line in one way, with no blanks: the name, the version, the dependencies, the checksum and
//! the features in this order, then whether it is yanked, and the rest. Such a line is cut here with no look into its
//! dependencies and features, for half of the lines have those of the line before. A cut may be wrong, as the texts
//! that stand between the parts may stand in one: then what was cut off isn't read on its own.

ghost use Rattle.std.specs.Prelude.{◌≡◌, ◌≤◌, ◌++◌, IfSome, length, true};
ghost use Rattle.trees.specs.inner.Parts.{is_plain, is_plain_byte};
ghost use Rattle.index_lines.specs.inner.ByParts.{IsCut};

use features::PackageName;
use memchr::{memchr, memmem};
use std::str::from_utf8;

/// The parts of a line: what stands between its brackets, but for its name.
#[derive(Drop)]
pub(crate) struct LineParts<'a> {
    pub version: &'a str,
    pub dependencies: &'a [u8],
    pub checksum: &'a str,
    pub features: &'a [u8],
    /// What follows the features and a comma, with the line's last bracket.
    pub rest: &'a [u8],
}

/// The parts of a line of this package, if it is written as a registry's: where it goes on with these dependencies or
/// these features, their end isn't looked for.
pub(crate) fn split<'a>(
    name: &PackageName,
    line: &'a [u8],
    dependencies: &[u8],
    features: &[u8],
) -> Option<LineParts<'a>>
    ensures { IfSome result (λ p. IsCut name.now p line.entry.now) }
{
    let left = behind(line, b"{\"name\":\"")?;
    let left = behind(left, name.as_str().as_bytes())?;
    let left = behind(left, b"\",\"vers\":\"")?;
    let (version, left) = plain_text(left)?;
    let left = behind(left, b"\",\"deps\":")?;
    let (dependencies, left) = cut_at(left, dependencies, b",\"cksum\":\"")?;
    let left = behind(left, b",\"cksum\":\"")?;
    let (checksum, left) = plain_text(left)?;
    let left = behind(left, b"\",\"features\":")?;
    let (features, left) = cut_at(left, features, b",\"yanked\":")?;
    let rest = behind(left, b",")?;
    Some(LineParts {
        version,
        dependencies,
        checksum,
        features,
        rest,
    })
}

/// What stands behind a text that the bytes begin with.
pub(crate) fn behind<'a>(bytes: &'a [u8], text: &[u8]) -> Option<&'a [u8]>
    ensures { IfSome result (λ rest. bytes.entry.now ≡ text.now ++ rest.now) }
{
    bytes.strip_prefix(text)
}

/// A text up to the next `"`, if each of its bytes stands for itself, and what stands from there on.
pub(crate) fn plain_text<'a>(bytes: &'a [u8]) -> Option<(&'a str, &'a [u8])>
    ensures { IfSome result (λ p. (bytes.entry.now ≡ p.0.now ++ p.1.now) × (is_plain p.0.now ≡ true)) }
{
    let end = memchr(b'"', bytes)?;
    let (text, rest) = bytes.split_at(end);
    if !is_plain(text) {
        return None;
    }
    match from_utf8(text) {
        Ok(text) => Some((text, rest)),
        Err(_) => None,
    }
}

/// Without an end at the first byte that isn't plain, so that many are looked at at a time.
fn is_plain(text: &[u8]) -> bool
    ensures { result ≡ is_plain text.now }
{
    let mut all = true;
    'bytes: for byte in text {
        all &= is_plain_byte(*byte);
    }
    all
}

fn is_plain_byte(byte: u8) -> bool
    ensures { result ≡ is_plain_byte byte }
{
    byte >= b' ' && byte <= b'~' && byte != b'"' && byte != b'\\'
}

/// The bytes before a mark, and those from there on.
fn cut_at<'a>(bytes: &'a [u8], known: &[u8], mark: &[u8]) -> Option<(&'a [u8], &'a [u8])>
    ensures { IfSome result (λ p. bytes.entry.now ≡ p.0.now ++ p.1.now) }
{
    let end = place(bytes, known, mark)?;
    Some(bytes.split_at(end))
}

/// Where a mark stands: behind what is known, if the bytes go on with this.
fn place(bytes: &[u8], known: &[u8], mark: &[u8]) -> Option<usize>
    ensures { IfSome result (λ n. n ≤ length bytes.now) }
{
    if let Some(left) = bytes.strip_prefix(known) {
        if left.starts_with(mark) {
            return Some(known.len());
        }
    }
    memmem::find(bytes, mark)
}
