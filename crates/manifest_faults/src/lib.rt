//! Where and why a manifest doesn't read.
//!
//! `manifest` says which fault a manifest has, and of few faults more than the part of it. Here the tables are gone
//! through in the order in which they are read, and what seems to be at fault is held against the manifest's own
//! definitions: only a part that has the fault is told (`is_blamed`, in `specs/inner/Blame`). So how it is searched for
//! needs no proof. The line is treated alike (`line.rt`): it is told where TOML itself says that what stands there
//! begins on it.
//!
//! The lines of dependencies that read are told too (`lines.rt`), for who tells what else is wrong with one.
//!
//! A layer above may rely on this: a part that is found has the fault that is given, and a line that is found is one on
//! which the part begins. That something is found, and the words in which it is told, are only tested.
#![tactic(auto)]

mod called;
mod due;
mod entries;
mod feature_finding;
mod finding;
mod line;
mod lines;
mod meaning;
mod place;
mod sentences;
mod shape;
mod sought;
mod telling;
mod why;
mod wrong;

pub use lines::dependency_lines;
pub use telling::misreading_of;
