//! What people are told, told to programs: JSON, an object a line, each with its `reason` (docs/JSON.md).
//!
//! A program reads line by line, so no text may break a line, whatever a manifest, an index or the system puts into it:
//! `serde_json` writes each object, and that its text is compact JSON is a fact of its own contract, from which
//! `push_message` says what a line is. What is told comes as values from `changes` and `flaws`, and no printed
//! text is read again; keys and reasons are written once, in the enums that are serialized.
//!
//! A layer above may rely on this: what `push_message` adds is one compact JSON text and a line end. Which keys an
//! object has is shown by cases.

mod changes_told;
mod lacks_told;
mod message;
mod run_told;
mod shown;
mod skips_told;
mod verdicts_told;
mod ways_told;

pub use changes_told::{NewLock, changes_to};
pub use lacks_told::lacks_of;
pub use message::refusal;
pub use run_told::{Severity, diagnostic, index_fetched, index_read, misreading, repair};
pub use skips_told::skips;
pub use verdicts_told::{flaws_of_lock, verdict};
pub use ways_told::{dependencies, way};
