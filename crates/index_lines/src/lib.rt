//! What a line of an index file says of a version of a package (Cargo book, "Registry Index", "JSON schema").
//!
//! An index is not one's own: a line may be anything, and it gives a record or the first reason of a stated order to
//! skip it. It is looked at in three steps, its JSON (`values.rt`), its shape (`shape.rt`) and its texts (`whole.rt`).
//!
//! It is to be fast too: a line is read as its tokens in a row, with its texts borrowed (`trees`), and what stands at
//! the keys of a line or of a dependency is found in one pass over its members (`parts.rt`); each vector of a record
//! takes the room that it needs, and a requirement no more than its comparators take; neighbouring lines that write the
//! same features share one table (`made.rt`), dependencies that stand word for word in several lines are read once and
//! shared (`known.rt`), and so are requirements (`known_requirements.rt`). Most lines aren't even read as a whole:
//! `shortcuts` gives a record of what they share with the line before, or none.
//!
//! Each module uses modules below it alone: at the bottom stands what one key or text says, then dependencies and
//! tables, which a line as a whole (`whole.rt`) and the shortcuts need, and at the top `line.rt`, which uses both.
//!
//! A layer above may rely on this: `read_unchecked` gives what the definitions give for the bytes of a line, whatever
//! its checksum is, unless memory was wanting; what it is handed of the lines before changes nothing of that.
#![tactic(auto)]

mod fault;
mod known;
mod known_requirements;
mod line;
mod parts;
mod record;
mod required;
mod shape;
mod shortcuts;
mod texts;
mod values;
mod whole;
mod written;

pub use fault::{LineFault, SkipReason};
pub use known::KnownDependencies;
pub use line::{LineBefore, read_unchecked};
pub use record::{Record, are_hexadecimal, is_checksum};
