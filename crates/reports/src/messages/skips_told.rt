//! Which lines of the index aren't used.

use crate::messages::message::{Message, push_message};
use crate::messages::shown::Shown;
use changes::{REASONS, meaning};
use index_reader::{Skip, SkipReason};
use std::alloc::{AllocError, Global};

/// The lines of the index that were not used: how many for each reason that there is, and with `all` each of them.
pub fn skips(alloc: Global, skips: &[Skip], all: bool) -> Result<String, AllocError> {
    let mut text = String::new(alloc);
    for reason in REASONS.iter() {
        push_reason(&mut text, alloc, skips, reason, all)?;
    }
    Ok(text)
}

/// How many lines are skipped for one reason, and each of them if all are told.
fn push_reason(
    text: &mut String,
    alloc: Global,
    skips: &[Skip],
    reason: &SkipReason,
    all: bool,
) -> Result<(), AllocError> {
    let count = skips.iter().filter(|skip| skip.reason == *reason).count();
    if count == 0 {
        return Ok(());
    }
    let message = Message::SkippedLines {
        code: Shown(reason),
        meaning: meaning(*reason),
        count,
    };
    push_message(text, alloc, &message)?;
    if all {
        push_lines(text, alloc, skips, reason)?;
    }
    Ok(())
}

/// The lines that were skipped for a reason.
fn push_lines(
    text: &mut String,
    alloc: Global,
    skips: &[Skip],
    reason: &SkipReason,
) -> Result<(), AllocError> {
    for skip in skips.iter() {
        if skip.reason == *reason {
            let message = Message::SkippedLine {
                code: Shown(&skip.reason),
                name: skip.name.as_str(),
                line: skip.line,
            };
            push_message(text, alloc, &message)?;
        }
    }
    Ok(())
}
