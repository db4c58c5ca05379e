//! Messages of a run itself: what went wrong, and what of its files there is to say.

use crate::messages::message::push_message;
use serde::Serialize;
use std::alloc::{AllocError, Global};

/// Whether a run goes on.
#[derive(Clone, Copy, Debug, PartialEq, Eq)]
pub enum Severity {
    /// What went wrong, or a no.
    Error,
    /// What a run goes on after.
    Warning,
}

/// What is told of a run; `reason` says which of these it is.
#[derive(Drop, Serialize)]
#[serde(tag = "reason", rename_all = "kebab-case")]
enum RunMessage<'a> {
    Error(Trouble<'a>),
    Warning(Trouble<'a>),
    /// Where and why a file doesn't read.
    Misreading {
        path: &'a str,
        /// From 1.
        line: Option<usize>,
        message: &'a str,
    },
    /// How many packages of a lock that doesn't read could be.
    Repair {
        path: &'a str,
        packages: usize,
    },
    /// How much of an index was read.
    Index {
        path: &'a str,
        files: u64,
        lines: u64,
    },
    /// That the index is what Cargo fetched, and how many packages were looked for that it didn't.
    Fetched {
        path: &'a str,
        missing: Option<usize>,
    },
}

/// What went wrong, or may have.
#[derive(Drop, Serialize)]
struct Trouble<'a> {
    kind: &'a str,
    message: &'a str,
    /// The fault, as `relock` names it.
    code: Option<&'a str>,
}

/// The message of an error or a warning, by its kind; of a fault there is a code too, as `relock` names it.
pub fn diagnostic<'a>(
    alloc: Global,
    severity: Severity,
    kind: &'a str,
    message: &'a str,
    code: Option<&'a str>,
) -> Result<String, AllocError> {
    let trouble = Trouble {
        kind,
        message,
        code,
    };
    let message = match severity {
        Severity::Error => RunMessage::Error(trouble),
        Severity::Warning => RunMessage::Warning(trouble),
    };
    told(alloc, &message)
}

/// The message of where and why a file doesn't read.
pub fn misreading<'a>(
    alloc: Global,
    path: &'a str,
    line: Option<usize>,
    message: &'a str,
) -> Result<String, AllocError> {
    told(
        alloc,
        &RunMessage::Misreading {
            path,
            line,
            message,
        },
    )
}

/// The message of how many packages of a lock that doesn't read could be.
pub fn repair(alloc: Global, path: &str, packages: usize) -> Result<String, AllocError> {
    told(alloc, &RunMessage::Repair { path, packages })
}

/// The message of how much of an index was read.
pub fn index_read(alloc: Global, path: &str, files: u64, lines: u64) -> Result<String, AllocError> {
    told(alloc, &RunMessage::Index { path, files, lines })
}

/// The message that an index is what Cargo fetched, and how many packages were looked for that it didn't.
pub fn index_fetched(
    alloc: Global,
    path: &str,
    missing: Option<usize>,
) -> Result<String, AllocError> {
    told(alloc, &RunMessage::Fetched { path, missing })
}

fn told(alloc: Global, message: &RunMessage<'_>) -> Result<String, AllocError> {
    let mut text = String::new(alloc);
    push_message(&mut text, alloc, message)?;
    Ok(text)
}
