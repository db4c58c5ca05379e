//! The steps of a derivation, whose vertices and states are numbers into its tables.

ghost use Rattle.std.specs.Prelude.{◌≡◌};
ghost use Rattle.derivations.specs.inner.References.{references_by};

use vertices::Kind;

/// A vertex and a set of its states, by their numbers.
#[derive(Clone, Copy)]
pub struct Term {
    pub vertex: usize,
    pub states: usize,
}

/// Why the terms of a step can't all hold. Of a derivation's own steps the vertex is a number. The search has an
/// `Origin` of its own in `incompatibilities`, which keeps a whole chain of combinations as one.
#[derive(Drop)]
pub enum Origin<V> {
    Axiom(Kind),
    /// The numbers of two earlier steps, and the vertex at which they are combined.
    Combination(u64, u64, V),
}

impl<V> Origin<V> {
    /// The numbers of the two steps that it combines, if it does.
    pub(crate) fn references(&self) -> Option<(u64, u64)>
        ensures { result ≡ references_by self.now }
    {
        match self {
            Origin::Axiom(_) => None,
            Origin::Combination(first, second, _) => Some((*first, *second)),
        }
    }
}

/// A step: a set of terms that can't all hold, and why.
#[derive(Drop)]
pub struct Step {
    pub origin: Origin<usize>,
    pub terms: Vec<Term>,
}
