//! On which line of a lock the checksum of a package stands.

use std::str::from_utf8;

/// The line, from 1, of the checksum of a package, where it stands as Cargo writes it: behind the name and the version.
pub fn checksum_line(bytes: &[u8], name: &str, version: &str) -> Option<usize> {
    let text = from_utf8(bytes).ok()?;
    let mut is_named = false;
    let mut is_meant = false;
    for (number, line) in text.lines().enumerate() {
        if let Some((key, said)) = said_in(line) {
            if key == "name" {
                is_named = said == name;
                is_meant = false;
            } else if key == "version" {
                is_meant = is_named && said == version;
            } else if is_meant && key == "checksum" {
                return Some(number + 1);
            }
        }
    }
    None
}

/// The key of a line and the text that it says.
fn said_in(line: &str) -> Option<(&str, &str)> {
    let (key, said) = line.split_once(" = \"")?;
    Some((key, said.trim_end().strip_suffix('"')?))
}
