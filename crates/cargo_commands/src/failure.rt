//! Why a run fails.

use outcomes::{ReadFault, WriteFault};
use resolver::Fault;
use std::alloc::AllocError;
use std::{fmt, io};

/// Why a run ends before its answer, or can't hand it on: its line, and the status 2.
#[derive(Drop)]
pub(crate) enum Failure<'a> {
    OutOfMemory,
    Unread(ReadFault<'a>),
    /// There is no lock at this path, and one is needed.
    NoLock(&'a str),
    Unwritten(WriteFault<'a>),
    /// Neither the words nor the environment name an index, and Cargo fetched none.
    NoIndex,
    NoPackage(String),
    NoVersion(String),
    /// The words name this as the source of packages, and it is none.
    NoSource(&'a str),
    /// A version is asked for, but not of one package.
    NotOne,
    /// The manifest is a member of the workspace of the one at this path, and a lock was to be written.
    Member(String),
    /// The environment has no word of `--color` where it has one for that.
    NoColor(&'a str),
    /// What the system says of standard output.
    CannotWrite(io::Error),
}

impl Failure<'_> {
    /// What kind of error it is, for programs.
    pub(crate) fn kind(&self) -> &'static str {
        match self {
            Failure::OutOfMemory => "fault",
            Failure::Unread(_) | Failure::NoLock(_) => "unread",
            Failure::Unwritten(_) | Failure::CannotWrite(_) => "unwritten",
            Failure::NoIndex
            | Failure::NoPackage(_)
            | Failure::NoVersion(_)
            | Failure::NoSource(_)
            | Failure::NotOne
            | Failure::NoColor(_) => "usage",
            Failure::Member(_) => "workspace",
        }
    }
}

impl fmt::Display for Failure<'_> {
    fn fmt<W: fmt::Write>(&self, f: &mut fmt::Formatter<W>) -> fmt::Result {
        match self {
            Failure::OutOfMemory => write!(f, "there isn't enough memory ({})", Fault::OutOfMemory),
            Failure::Unread(fault) => write!(f, "{fault}"),
            Failure::NoLock(path) => write!(
                f,
                "there is no {path} yet; `cargo relock resolve` tells what it would be"
            ),
            Failure::Unwritten(fault) => write!(f, "{fault}"),
            Failure::NoIndex => f.write_str(
                "no index is named, and Cargo fetched none: give --index DIR, or set RELOCK_INDEX",
            ),
            Failure::NoPackage(text) => write!(f, "`{text}` is no NAME or NAME@VERSION"),
            Failure::NoVersion(text) => write!(f, "`{text}` is no full version, such as 1.1.0"),
            Failure::NoSource(text) => write!(
                f,
                "`{text}` is no source of packages: locks have `registry+URL` or `sparse+URL`"
            ),
            Failure::NotOne => f.write_str("--precise needs one package"),
            Failure::Member(path) => write!(
                f,
                "nothing is written: the lock of a workspace lies beside {path}"
            ),
            Failure::NoColor(word) => write!(
                f,
                "CARGO_TERM_COLOR must be auto, always, or never, but is `{word}`"
            ),
            Failure::CannotWrite(error) => write!(f, "cannot write to standard output: {error}"),
        }
    }
}

impl From<AllocError> for Failure<'_> {
    fn from(_e: AllocError) -> Self {
        Failure::OutOfMemory
    }
}

impl<'a> From<ReadFault<'a>> for Failure<'a> {
    fn from(fault: ReadFault<'a>) -> Self {
        match fault {
            ReadFault::OutOfMemory => Failure::OutOfMemory,
            fault => Failure::Unread(fault),
        }
    }
}

impl<'a> From<WriteFault<'a>> for Failure<'a> {
    fn from(fault: WriteFault<'a>) -> Self {
        match fault {
            WriteFault::OutOfMemory => Failure::OutOfMemory,
            fault => Failure::Unwritten(fault),
        }
    }
}
