//! Where and why a lock doesn't read, and what can be read of it all the same.
//!
//! `lockfile` says which rule of reading a lock breaks by a number alone, as the answers of `relock` have it. Here the
//! bytes are gone through once more, in the same order, for the first thing that breaks a rule: a place in the text
//! where that is no TOML, else a package, its key or an element of its list, with the line on which the package begins.
//!
//! A lock in which a merge left its marks is told as such, and its packages are those of both sides.
//!
//! What a side is stands in `specs/inner/Sides`. Else nothing is stated: what is proved is which fault a lock has, and
//! what is told beside it, or read of it, is only tested.
#![tactic(auto)]

mod called;
mod checksums;
mod marks;
mod misread;
mod reading;
mod repairing;
mod section;
mod telling;

pub use checksums::checksum_line;
pub use repairing::{LeftOut, Readable, part_without, readable_part};
pub use telling::misreading_of;
