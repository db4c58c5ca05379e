//! What each command of `cargo relock` finds out, from the files that were read and over any index.
//!
//! The proved calls of `resolver` answer first, whether and which lock there is or whether one is valid. What is told
//! beside that comes from `reports`, in lines for people, or from its `messages`, as JSON for programs; here alone it
//! is chosen by whom it is for (`Form`), so that what a run does and its status are one for both.
//!
//! A run has one folder, which each of these is handed. What is loaded of it for a verdict tells the rest too;
//! `resolve` keeps what it loads to itself, so the index is loaded once more for what is told of its answer.

mod asking;
mod changing;
mod form;
mod judging;
mod misread;
mod preferring;
mod repairing;
mod skipping;
mod unlocking;
mod why;

pub use asking::CRATES_IO;
pub(crate) use asking::{inputs_in, lock_in, new_lock, verdict_on};
pub(crate) use changing::{NewLock, changes_in, lost_in, other_source_in, refusal_in};
pub use form::Form;
pub(crate) use judging::{flaws_in, verdict_in};
pub(crate) use misread::{manifest_misreading_in, misreading_in};
pub(crate) use preferring::{is_of_old_format, preferred_by_cargo};
pub(crate) use repairing::{Repaired, readable_rest};
pub(crate) use skipping::{skips_in, skips_in_all};
pub(crate) use unlocking::{Unlocked, found_in, rest_without, unlock};
pub(crate) use why::{meant_in, way_in};
