//! What a command ends with.

ghost use Rattle.std.specs.Prelude.{◌≡◌, None, Some};
ghost use Rattle.outcomes.specs.inner.Outcomes.{ending_view};

/// The status of a yes.
const YES: u8 = 0;

/// The status of a no: a lock that would change or isn't valid, a manifest without a lock, a package that isn't in the
/// lock.
const NO: u8 = 1;

/// The status of wrong use, of a fault, of a file that can't be read and of output that can't be written.
pub const FAILED: u8 = 2;

/// What a command ends with, beside what it told.
#[derive(Drop)]
pub struct Outcome {
    pub status: u8,
    /// The lock that is to replace the old one.
    pub new_lock: Option<Vec<u8>>,
}

impl Outcome {
    pub fn is_yes(&self) -> bool {
        self.status == YES
    }

    pub(crate) fn yes() -> Outcome
        ensures { ending_view result ≡ (0, None) }
    {
        Outcome {
            status: YES,
            new_lock: None,
        }
    }

    /// A yes, with a lock that is to replace the old one.
    pub(crate) fn with_lock(bytes: Vec<u8>) -> Outcome
        ensures { ending_view result ≡ (0, Some bytes.items) }
    {
        Outcome {
            status: YES,
            new_lock: Some(bytes),
        }
    }

    pub(crate) fn no() -> Outcome
        ensures { ending_view result ≡ (1, None) }
    {
        Outcome {
            status: NO,
            new_lock: None,
        }
    }

    pub(crate) fn failed() -> Outcome
        ensures { ending_view result ≡ (2, None) }
    {
        Outcome {
            status: FAILED,
            new_lock: None,
        }
    }
}
