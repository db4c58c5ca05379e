//! The Rust version that a package needs.

ghost use Rattle.std.specs.Prelude.{◌≡◌, option_map};
ghost use Rattle.features.specs.Names.{around};
ghost use Rattle.classes.specs.Classes.{patch_after, rust_version_of, rust_version_view};

use crate::numbers::whole_number;

/// A version of Rust: three numbers, compared one by one (Cargo book, "The Manifest Format", `rust-version`).
#[derive(Clone, Copy, Debug, PartialEq, Eq, PartialOrd, Ord)]
pub struct RustVersion {
    pub major: u64,
    pub minor: u64,
    pub patch: u64,
}

impl RustVersion {
    /// The Rust version that a text is: one to three whole numbers of 64 bits in decimal without leading zeros, joined
    /// by `.`; those that are missing are 0.
    pub fn parse(text: &str) -> Option<RustVersion>
        ensures { option_map rust_version_view result ≡ rust_version_of text.now }
    {
        match around_dot(text) {
            Some((major, rest)) => with_major(major, rest),
            None => {
                let major = whole_number(text)?;
                Some(RustVersion {
                    major,
                    minor: 0,
                    patch: 0,
                })
            }
        }
    }
}

/// `major.rest`
fn with_major(major: &str, rest: &str) -> Option<RustVersion>
    ensures { option_map rust_version_view result ≡ patch_after major.now rest.now (around 46 rest.now) }
{
    let major = whole_number(major)?;
    match around_dot(rest) {
        Some((minor, patch)) => {
            let minor = whole_number(minor)?;
            let patch = whole_number(patch)?;
            Some(RustVersion {
                major,
                minor,
                patch,
            })
        }
        None => {
            let minor = whole_number(rest)?;
            Some(RustVersion {
                major,
                minor,
                patch: 0,
            })
        }
    }
}

fn around_dot(text: &str) -> Option<(&str, &str)>
    ensures { option_map (λ p. (p.0.now, p.1.now)) result ≡ around 46 text.now }
{
    text.split_once('.')
}
