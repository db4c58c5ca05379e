//! Why bytes are no derivation.

use std::alloc::{AllocError, AllocFailed};
use std::error::Error;
use std::fmt;

/// Why bytes are no derivation: the first line with a fault, counted from 1 with the blank ones, and of its faults the
/// first in this order.
#[derive(Clone, Copy, Debug, PartialEq, Eq)]
pub enum DerivationFault {
    OutOfMemory,
    /// It is no JSON, no object of the form of a step, or has a text that doesn't read, a vertex twice or a state
    /// twice.
    NotALine(u64),
    /// It refers to its own step or to a later one.
    Forward(u64),
    /// It is a step, and there are 16,777,216 before it.
    TooMany(u64),
}

impl fmt::Display for DerivationFault {
    ghost use Rattle.std.specs.Prelude.{Some};
    ghost use Rattle.derivations.specs.Faults.{fault_text};

    ghost output = { λ fault. Some (fault_text fault) };

    fn fmt<W: fmt::Write>(&self, f: &mut fmt::Formatter<W>) -> fmt::Result {
        match self {
            DerivationFault::OutOfMemory => f.write_str("out of memory"),
            DerivationFault::NotALine(line) => write!(f, "K1 NotALine at line {line}"),
            DerivationFault::Forward(line) => write!(f, "K2 Forward at line {line}"),
            DerivationFault::TooMany(line) => write!(f, "K3 TooMany at line {line}"),
        }
    }
}

impl Error for DerivationFault {}

/// Why a line is no step.
#[derive(Clone, Copy, PartialEq, Eq)]
pub(crate) enum LineFault {
    OutOfMemory,
    NotALine,
    Forward,
}

impl From<AllocError> for LineFault {
    ghost use Rattle.std.specs.Prelude.{◌≡◌};
    ghost use Rattle.derivations.specs.declared.fault.LineFault.TheVariants.{OutOfMemory};

    ghost from_gives = { λ _ e. e ≡ OutOfMemory };

    fn from(_e: AllocError) -> LineFault {
        LineFault::OutOfMemory
    }
}

impl<T: Drop> From<AllocFailed<T>> for LineFault {
    ghost use Rattle.std.specs.Prelude.{◌≡◌};
    ghost use Rattle.derivations.specs.declared.fault.LineFault.TheVariants.{OutOfMemory};

    ghost from_gives = { λ _ e. e ≡ OutOfMemory };

    fn from(_e: AllocFailed<T>) -> LineFault {
        LineFault::OutOfMemory
    }
}

impl From<AllocError> for DerivationFault {
    ghost use Rattle.std.specs.Prelude.{◌≡◌};
    ghost use Rattle.derivations.specs.declared.fault.DerivationFault.TheVariants.{OutOfMemory};

    ghost from_gives = { λ _ e. e ≡ OutOfMemory };

    fn from(_e: AllocError) -> DerivationFault {
        DerivationFault::OutOfMemory
    }
}

impl<T: Drop> From<AllocFailed<T>> for DerivationFault {
    ghost use Rattle.std.specs.Prelude.{◌≡◌};
    ghost use Rattle.derivations.specs.declared.fault.DerivationFault.TheVariants.{OutOfMemory};

    ghost from_gives = { λ _ e. e ≡ OutOfMemory };

    fn from(_e: AllocFailed<T>) -> DerivationFault {
        DerivationFault::OutOfMemory
    }
}
