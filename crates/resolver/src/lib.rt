//! The calls of the product: resolve a manifest, verify a lock, check a refusal.
//!
//! Each goes from bytes to an answer, over any folder: the manifest, the old lock and the index are read in this order
//! (`inputs.rt`), and the first fault is the call's. A valid old lock is handed on byte for byte; a new content is
//! spelled, read again and compared before it goes out, for no contract says that TOML reads each spelling as its own
//! table (`writing.rt`).
//!
//! What is hard is to say of three calls what a user would ask of them together. The laws in `returning.rt` do: an
//! answer is a lock exactly where a valid selection exists; over one map of files a lock that was given comes back and
//! is found valid, a refusal that was given is found to prove; names that no run asked for can't matter.
//!
//! A layer above may rely on the three statements `Resolves`, `Verifies` and `Checks` (`specs`), which speak of bytes,
//! the folder's calls and the model alone: each answer is right, each fault comes exactly where its definition says,
//! and after want of memory a call says what is left of the folder. `ResolvesKeeping` and `VerifiesKeeping` say the
//! same of the calls that hand the loaded index back beside the answer.
#![tactic(auto)]

mod checking;
mod fault;
mod inputs;
mod resolving;
mod returning;
mod same;
mod verifying;
mod writing;

pub use checking::check_bytes;
pub use fault::{CheckFault, Fault, TooLarge};
pub use resolving::{Answer, resolve, resolve_keeping};
pub use returning::{
    chosen_contents_are_writable, given_locks_ask_for_no_more, given_locks_come_back,
    given_locks_verify, given_refusals_prove, loaded_inputs_make_a_catalogue,
    locks_are_given_where_there_are_selections, memory_folders_stay,
    names_not_asked_for_cannot_matter, verified_locks_exclude_refusals,
};
pub use verifying::{verify_bytes, verify_bytes_keeping};
