//! Where an incompatibility came from.

use crate::chain::Chain;
use std::marker::Model;

/// The place of an incompatibility in its store, counted from 0.
#[derive(Clone, Copy, PartialEq, Eq, PartialOrd, Ord, Debug)]
pub struct Id {
    index: usize,
}

impl Model for Id {
    ghost use Rattle.std.specs.Prelude.{ℕ};

    ghost Value = { ℕ };

    ghost view = { λ i. i.index };

    ghost inverse = { λ n. record { index = n } };
}

impl Id {
    ghost use Rattle.std.specs.Prelude.{◌≡◌};

    /// The place `index`.
    pub fn new(index: usize) -> Id
        ensures { result ≡ index }
    {
        Id { index }
    }

    /// The place as a number.
    pub fn index(self) -> usize
        ensures { result ≡ self }
    {
        self.index
    }
}

/// Where an incompatibility came from. A derivation has an `Origin` of its own, for whoever checks it: there each
/// combination of a chain is a step.
#[derive(Drop)]
pub enum Origin {
    /// It was given, as an instance of the axiom with this number.
    Axiom(u8),
    /// A conflict taught it: it is what comes out of a chain of combinations of earlier ones.
    Learned(Chain),
}
