//! The faults of a lock.

use std::alloc::{AllocError, AllocFailed};
use thiserror::Error;

/// The fault of a lock that doesn't read.
#[derive(Clone, Copy, Debug, PartialEq, Eq, Error)]
pub enum LockFault {
    #[error("out of memory")]
    OutOfMemory,
    /// The bytes are no TOML.
    #[error("the lock is no TOML")]
    NotToml,
    /// `version` is a whole number other than 1 to 4.
    #[error("the lock is of another version")]
    LockVersion,
    /// Any other rule of reading a lock is broken.
    #[error("the lock has another shape")]
    LockShape,
    /// The lock has more than 64 MiB.
    #[error("the lock is too large")]
    TooLarge,
}

impl From<AllocError> for LockFault {
    ghost use Rattle.std.specs.Prelude.{◌≡◌};
    ghost use Rattle.lockfile.specs.declared.fault.LockFault.TheVariants.{OutOfMemory};

    ghost from_gives = { λ _ e. e ≡ OutOfMemory };

    fn from(_e: AllocError) -> LockFault {
        LockFault::OutOfMemory
    }
}

impl<T: Drop> From<AllocFailed<T>> for LockFault {
    ghost use Rattle.std.specs.Prelude.{◌≡◌};
    ghost use Rattle.lockfile.specs.declared.fault.LockFault.TheVariants.{OutOfMemory};

    ghost from_gives = { λ _ e. e ≡ OutOfMemory };

    fn from(_e: AllocFailed<T>) -> LockFault {
        LockFault::OutOfMemory
    }
}
