//! A term, and the ways in which a set of states can stand to it.

ghost use Rattle.std.specs.Prelude.{◌≡◌, IfOk};
ghost use Rattle.terms.specs.Terms.{negated, term_view};

use std::alloc::{AllocError, Global};
use version_sets::States;

/// A vertex, and some of its states: the statement that the vertex has one of them.
#[derive(Drop)]
pub struct Term<S> {
    /// The vertex's number.
    pub vertex: usize,
    /// The states.
    pub states: S,
}

/// How the states that are left to a vertex stand to a term on it (Dart pub's `solver.md`, "Term").
#[derive(Clone, Copy, PartialEq, Eq, Debug)]
pub enum Relation {
    /// Some state is left, and each one that is left makes the term hold.
    Satisfied,
    /// No state that is left makes it hold.
    Contradicted,
    /// Some do, and some don't.
    Open,
}

impl<S: States> Term<S> {
    /// The term that holds exactly where this one doesn't.
    pub fn negate(&self, alloc: Global) -> Result<Term<S>, AllocError>
        ensures { IfOk result (λ t. term_view S.tests t ≡ negated (term_view S.tests self.now)) }
    {
        Ok(Term {
            vertex: self.vertex,
            states: self.states.complement(alloc)?,
        })
    }
}
