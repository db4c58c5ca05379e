//! What the file of a name has of a version that isn't there.

use crate::package_file::IndexFile;
use index_reader::SkipReason;
use semver::Version;
use std::alloc::Global;
use std::str::from_utf8;

/// The newest version of a line that can be used.
pub(crate) fn newest_in(file: &IndexFile) -> Option<&Version> {
    let mut newest: Option<&Version> = None;
    for record in file.records.iter() {
        let is_newer = match newest {
            Some(version) => record.version.cmp_precedence(version).is_gt(),
            None => true,
        };
        if is_newer {
            newest = Some(&record.version);
        }
    }
    newest
}

/// The number of the skipped line of a version, if there is one, and why it is skipped.
pub(crate) fn skipped_in(
    alloc: Global,
    file: &IndexFile,
    version: &Version,
) -> Option<(u64, SkipReason)> {
    for skip in file.skips.iter() {
        if is_of(alloc, line_at(&file.bytes, skip.line), version) {
            return Some((skip.line, skip.reason));
        }
    }
    None
}

/// The line of a number, from 1.
fn line_at(bytes: &[u8], number: u64) -> &[u8] {
    let mut left = number;
    for line in bytes.split(|byte| *byte == b'\n') {
        if left <= 1 {
            return line;
        }
        left -= 1;
    }
    &[]
}

/// Whether a line says that it is of a version, whatever else is wrong with it.
fn is_of(alloc: Global, line: &[u8], version: &Version) -> bool {
    match version_in(line) {
        Some(text) => match Version::parse(alloc, text) {
            Ok(found) => found == *version,
            Err(_) => false,
        },
        None => false,
    }
}

/// The text of the first `"vers":".."` of a line.
fn version_in(line: &[u8]) -> Option<&str> {
    let (_, rest) = from_utf8(line).ok()?.split_once("\"vers\"")?;
    let rest = rest.trim_start().strip_prefix(':')?;
    let rest = rest.trim_start().strip_prefix('"')?;
    let (text, _) = rest.split_once('"')?;
    Some(text)
}
