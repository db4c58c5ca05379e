//! Why bytes give no tree.

use std::alloc::{AllocError, AllocFailed};

/// Why bytes give no tree.
#[derive(Clone, Copy, PartialEq, Eq)]
pub enum TreeFault {
    OutOfMemory,
    /// They are no JSON, nest too deep, or have a number beyond the floats.
    NotJson,
}

impl From<AllocError> for TreeFault {
    ghost use Rattle.std.specs.Prelude.{◌≡◌};
    ghost use Rattle.trees.specs.declared.fault.TreeFault.TheVariants.{OutOfMemory};

    ghost from_gives = { λ _ e. e ≡ OutOfMemory };

    fn from(_e: AllocError) -> TreeFault {
        TreeFault::OutOfMemory
    }
}

impl<T: Drop> From<AllocFailed<T>> for TreeFault {
    ghost use Rattle.std.specs.Prelude.{◌≡◌};
    ghost use Rattle.trees.specs.declared.fault.TreeFault.TheVariants.{OutOfMemory};

    ghost from_gives = { λ _ e. e ≡ OutOfMemory };

    fn from(_e: AllocFailed<T>) -> TreeFault {
        TreeFault::OutOfMemory
    }
}
