//! How far a run has come, told on a terminal while it asks an index for one name after another.
//!
//! A run doesn't know that somebody watches it: a `Counted` folder stands before its own, counts what that is asked for
//! and what is read of it, and tells the numbers on one line of standard error, which is rewritten, and erased when the
//! folder is given up: so nothing is left of it when an answer or an error is printed. A run that is over at once tells
//! nothing. What was counted is there afterwards too (`Seen`), whoever watches.
//!
//! How many decisions and conflicts there were isn't told: the search would have to be handed somebody who listens, and
//! each contract from `guiding` up would speak of that one.
//!
//! A layer above may rely on this: a counted folder answers and fails as its own (`calls`, `failed`), so what is proved
//! over every folder is proved over it. What is counted and told, and when, no clause says.

use std::time::{Clock, Instant};

/// Since when a run goes on, and who is told how far it has come.
#[derive(Clone, Copy)]
pub(crate) struct Watch {
    since: Option<Instant>,
    /// Whether a terminal shows it meanwhile.
    is_shown: bool,
    /// Whether it is told at the end how long it took.
    is_told: bool,
}

impl Watch {
    /// From now on, if the time can be read.
    pub(crate) fn from_now<R: Clock>(rt: &R, is_shown: bool, is_told: bool) -> Watch {
        Watch {
            since: Instant::now(rt).ok(),
            is_shown,
            is_told,
        }
    }

    /// For how many milliseconds the run goes on, if a terminal shows it.
    pub(crate) fn shown<R: Clock>(&self, rt: &R) -> Option<u128> {
        if self.is_shown { self.millis(rt) } else { None }
    }

    /// The same, if it is told at the end.
    pub(crate) fn told<R: Clock>(&self, rt: &R) -> Option<u128> {
        if self.is_told { self.millis(rt) } else { None }
    }

    fn millis<R: Clock>(&self, rt: &R) -> Option<u128> {
        let time = self.since?.elapsed(rt).ok()?;
        Some(time.as_millis())
    }
}
