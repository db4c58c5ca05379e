//! Why a line gives no record.

use std::alloc::{AllocError, AllocFailed};
use std::fmt;
use thiserror::Error;

/// Why a line is skipped: of several reasons the first in this order.
#[derive(Clone, Copy, Debug, PartialEq, Eq)]
pub enum SkipReason {
    /// The line is no JSON.
    NotJson,
    /// It is no object, lacks a key that it needs, or has a value of a wrong kind.
    Shape,
    /// Its format is neither 1 nor 2.
    NewerFormat,
    /// It is of another package.
    OtherName,
    /// Its version doesn't read.
    BadVersion,
    /// The requirement of one of its dependencies doesn't read.
    BadRequirement,
    /// The name or an entry of a feature doesn't read, or the features don't make a table.
    BadFeatures,
    /// One of its dependencies is of another registry.
    OtherRegistry,
    /// An earlier line of the file that was kept has a version of equal precedence.
    Duplicate,
    /// Its checksum isn't 64 lower-case hexadecimal digits.
    BadChecksum,
}

impl fmt::Display for SkipReason {
    ghost use Rattle.std.specs.Prelude.{Some};
    ghost use Rattle.index_lines.specs.Reasons.{reason_text};

    ghost output = { λ reason. Some (reason_text reason) };

    fn fmt<W: fmt::Write>(&self, f: &mut fmt::Formatter<W>) -> fmt::Result {
        f.write_str(match self {
            SkipReason::NotJson => "S1 NotJson",
            SkipReason::Shape => "S2 Shape",
            SkipReason::NewerFormat => "S3 NewerFormat",
            SkipReason::OtherName => "S4 OtherName",
            SkipReason::BadVersion => "S5 BadVersion",
            SkipReason::BadRequirement => "S6 BadRequirement",
            SkipReason::BadFeatures => "S7 BadFeatures",
            SkipReason::OtherRegistry => "S8 OtherRegistry",
            SkipReason::Duplicate => "S10 Duplicate",
            SkipReason::BadChecksum => "S11 BadChecksum",
        })
    }
}

/// Why a line gives no record.
#[derive(Clone, Copy, Debug, PartialEq, Eq, Error)]
pub enum LineFault {
    #[error("out of memory")]
    OutOfMemory,
    #[error("{0}")]
    Skipped(SkipReason),
}

impl From<AllocError> for LineFault {
    ghost use Rattle.std.specs.Prelude.{◌≡◌};
    ghost use Rattle.index_lines.specs.declared.fault.LineFault.TheVariants.{OutOfMemory};

    ghost from_gives = { λ _ e. e ≡ OutOfMemory };

    fn from(_e: AllocError) -> LineFault {
        LineFault::OutOfMemory
    }
}

impl<T: Drop> From<AllocFailed<T>> for LineFault {
    ghost use Rattle.std.specs.Prelude.{◌≡◌};
    ghost use Rattle.index_lines.specs.declared.fault.LineFault.TheVariants.{OutOfMemory};

    ghost from_gives = { λ _ e. e ≡ OutOfMemory };

    fn from(_e: AllocFailed<T>) -> LineFault {
        LineFault::OutOfMemory
    }
}
