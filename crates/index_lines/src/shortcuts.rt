//! Shorter ways to a record than to read a line as a whole.
//!
//! A line that is written as a registry's is cut into its parts (`split`), and what the line before has too isn't read
//! again: a part (`by_parts`), a dependency (`items`), a feature (`rows`) or the rest (`rest`). Each other dependency
//! and list of texts that is spelt as a registry does is read without its tokens (`plain`).
//!
//! The line reader may rely on this: `record_by_parts` gives the record that the line is as a whole, or none. Which of
//! the two no contract says: who never finds a part of the line before reads each line by the longer way, to the same
//! record (`bench/run --shares` shows which is taken).

mod brought;
mod by_parts;
mod item;
mod items;
mod plain;
mod rest;
mod row;
mod rows;
mod split;

pub(crate) use by_parts::{PartsBefore, record_by_parts};
