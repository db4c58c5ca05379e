//! The lines of an index that were not used.

use index_reader::{Skip, SkipReason};
use std::alloc::{AllocError, Global};

/// The reasons to skip a line, in the order in which they are looked for.
pub const REASONS: [SkipReason; 10] = [
    SkipReason::NotJson,
    SkipReason::Shape,
    SkipReason::NewerFormat,
    SkipReason::OtherName,
    SkipReason::BadVersion,
    SkipReason::BadRequirement,
    SkipReason::BadFeatures,
    SkipReason::OtherRegistry,
    SkipReason::Duplicate,
    SkipReason::BadChecksum,
];

/// How many lines were skipped for each reason that there is, a line a reason, and below it each of them if `all` are
/// asked for; or that none was.
pub fn tell_skips(alloc: Global, skips: &[Skip], all: bool) -> Result<String, AllocError> {
    let mut text = String::new(alloc);
    for reason in REASONS.iter() {
        push_reason(&mut text, skips, *reason, all)?;
    }
    if skips.is_empty() {
        text.push_str("no line was skipped\n")?;
    }
    Ok(text)
}

/// How many lines are skipped for one reason, and each of them if all are told.
fn push_reason(
    text: &mut String,
    skips: &[Skip],
    reason: SkipReason,
    all: bool,
) -> Result<(), AllocError> {
    let count = skips.iter().filter(|skip| skip.reason == reason).count();
    if count == 0 {
        return Ok(());
    }
    let lines = if count == 1 { "line" } else { "lines" };
    let why = meaning(reason);
    writeln!(text, "{count} {lines} skipped: {why} ({reason})")?;
    if all {
        push_lines(text, skips, reason)?;
    }
    Ok(())
}

/// The lines that were skipped for a reason.
fn push_lines(text: &mut String, skips: &[Skip], reason: SkipReason) -> Result<(), AllocError> {
    for skip in skips.iter() {
        if skip.reason == reason {
            let Skip { name, line, .. } = skip;
            writeln!(text, "  {name} line {line}")?;
        }
    }
    Ok(())
}

/// What a reason says.
pub fn meaning(reason: SkipReason) -> &'static str {
    match reason {
        SkipReason::NotJson => "no JSON",
        SkipReason::Shape => "not of the form of an index line",
        SkipReason::NewerFormat => "of a newer format",
        SkipReason::OtherName => "of another package",
        SkipReason::BadVersion => "a version that doesn't read",
        SkipReason::BadRequirement => "a requirement that doesn't read",
        SkipReason::BadFeatures => "features that don't read",
        SkipReason::OtherRegistry => "a dependency of another registry",
        SkipReason::Duplicate => "a version that an earlier line has",
        SkipReason::BadChecksum => "a checksum that isn't 64 digits of 0-9 and a-f",
    }
}
