//! What each command of `cargo relock` ends with: its status, what is told, and the lock that is to replace the old
//! one.
//!
//! A command prints nothing itself: it adds to two texts (`Said`), which are the same run's for people and for
//! programs, and says what else is to be done (`Outcome`). So a layer above prints at the end alone, once the line that
//! told how far the run had come is gone, and replaces the lock after that.
//!
//! To people a fault is told in a sentence, with the code of `relock` behind it (`faults.rt`); to programs both have
//! their own keys.
//!
//! What such a layer calls for its files is here too: where they are (`paths.rt`), what they hold (`reading.rt`), what
//! Cargo keeps of an index (`fetched.rt`), and how the lock is replaced (`writing.rt`).
//!
//! A layer above may rely on this: a lock is handed on only where `--write` was given and `--locked` wasn't, with the
//! status 0 (`Outcome` of `with_new_lock`).
#![tactic(auto)]

mod above;
mod answers;
mod fault;
mod faults;
mod fetched;
mod index;
mod listing;
mod outcome;
mod paths;
mod pinning;
mod precise;
mod reading;
mod resolving;
mod said;
mod skipping;
mod verifying;
mod why;
mod workspace;
mod writing;

pub use above::manifests_above;
pub use answers::{CRATES_IO, Form};
pub use fault::{ReadFault, WriteFault};
pub use faults::told_fault;
pub use fetched::{IndexFolder, fetched_index};
pub use index::{no_index, tell_fetched, tell_read, tell_time};
pub use listing::{is_missing, paths_below};
pub use outcome::{FAILED, Outcome};
pub use paths::{Paths, lock_at};
pub use pinning::{Pinned, Pins};
pub use precise::{Precise, precise_in, precise_told};
pub use reading::{Bytes, Project, read_files};
pub use resolving::{Wish, resolve_told, update_told};
pub use said::Said;
pub use skipping::{skips_told, skips_told_of_all};
pub use verifying::verify_told;
pub use why::{Question, question_in, why_told};
pub use workspace::{has_workspace, standing_of, warn_of_workspace};
pub use writing::replace_lock;
