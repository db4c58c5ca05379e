//! Why words ask for nothing.

ghost use Rattle.std.specs.Prelude.{IfSome};
ghost use Rattle.clap.specs.Words.{kind_of};
ghost use Rattle.words.specs.WordsFaults.{HasText, IsToldAs, Tells};

use clap::Error;
use clap::error::ErrorKind;
use std::alloc::{AllocError, Global};
use std::fmt::Display;
use thiserror::Error as Fault;

/// Why words ask for nothing; the texts are `clap`'s.
#[derive(Debug, Drop, Fault)]
pub enum WordsFault {
    #[error("out of memory")]
    OutOfMemory,
    /// They ask for help.
    #[error("{0}")]
    Help(String),
    /// They are wrong use.
    #[error("{0}")]
    Wrong(String),
}

impl From<AllocError> for WordsFault {
    ghost use Rattle.std.specs.Prelude.{◌≡◌};
    ghost use Rattle.words.specs.declared.fault.WordsFault.TheVariants.{OutOfMemory};

    ghost from_gives = { λ _ e. e ≡ OutOfMemory };

    fn from(_e: AllocError) -> WordsFault {
        WordsFault::OutOfMemory
    }
}

/// What is said of `clap`'s error; for the words of another program too.
pub fn fault_of(alloc: Global, error: &Error) -> WordsFault
    ensures { Tells (kind_of error.now) result }
{
    if error.kind() == ErrorKind::OutOfMemory {
        return WordsFault::OutOfMemory;
    }
    told_as(alloc, error, error.use_stderr())
}

/// Wrong use or help, in the words in which something shows itself. It may be anything, so that no other text can stand
/// for them: `clap` states none of its errors.
fn told_as<T: Display>(alloc: Global, shown: &T, is_wrong: bool) -> WordsFault
    ensures kind { IsToldAs is_wrong result }
    ensures text { IfSome (T.output shown.now) (λ text. HasText text result) }
{
    match shown.to_string(alloc) {
        Ok(text) => {
            if is_wrong {
                WordsFault::Wrong(text)
            } else {
                WordsFault::Help(text)
            }
        }
        Err(_) => WordsFault::OutOfMemory,
    }
}
