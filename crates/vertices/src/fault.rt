//! Why a text is no vertex or no state.

use std::alloc::AllocError;
use thiserror::Error;

/// Why a text is not what it was read for.
#[derive(Clone, Copy, Debug, PartialEq, Eq, Error)]
pub enum TextFault {
    #[error("out of memory")]
    OutOfMemory,
    /// It isn't of the form, or a name, a version or a number in it isn't one.
    #[error("not of the form")]
    NotAText,
}

impl From<AllocError> for TextFault {
    ghost use Rattle.std.specs.Prelude.{◌≡◌};
    ghost use Rattle.vertices.specs.declared.fault.TextFault.TheVariants.{OutOfMemory};

    ghost from_gives = { λ _ e. e ≡ OutOfMemory };

    fn from(_e: AllocError) -> TextFault {
        TextFault::OutOfMemory
    }
}
