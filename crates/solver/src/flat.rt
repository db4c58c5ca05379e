//! Incompatibilities in a row, each an axiom or the combination of two earlier ones.

use incompatibilities::Incompatibility;
use version_sets::States;

/// Where an incompatibility of a row came from.
#[derive(Clone, Copy, PartialEq, Eq, Debug)]
pub enum Source {
    /// It was given, as an instance of the axiom with this number.
    Axiom(u8),
    /// It is the combination of two earlier ones, by their places in the row, at a vertex.
    Combined {
        first: usize,
        second: usize,
        vertex: usize,
    },
}

/// An incompatibility, and where it came from.
#[derive(Drop)]
pub struct Flat<S: States> {
    pub incompatibility: Incompatibility<S>,
    pub source: Source,
}
