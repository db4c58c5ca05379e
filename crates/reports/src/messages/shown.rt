//! Texts of values that have no form of their own in JSON.

use serde::{Described, Serialize, Serializer};
use std::fmt::Display;

/// A value whose text is a text in JSON.
#[derive(Drop)]
pub(crate) struct Shown<'a, T: Display>(pub(crate) &'a T);

impl<T: Display> Described for Shown<'_, T> {}

impl<T: Display> Serialize for Shown<'_, T> {
    fn serialize<S: Serializer>(&self, out: &mut S) -> Result<(), S::Error> {
        out.collect_str(self.0)
    }
}
