//! What an incompatibility is.

ghost use Rattle.incompatibilities.specs.Incompatibilities.{IsIncompatibility, IsMadeOf, LiesIn, OneEach, states_at};
ghost use Rattle.std.specs.List.Sorted.{IsNonDecreasingBy, IsPermutation};
ghost use Rattle.std.specs.List.{filter};
ghost use Rattle.std.specs.Prelude.{◌≡◌, ℕ, IfOk, not};
ghost use Rattle.terms.specs.Terms.{terms_view};
ghost use Rattle.version_sets.specs.Sets.{is_full};

use crate::rows::copies_of;
use std::alloc::{AllocError, Global};
use std::marker::Model;
use terms::Term;
use version_sets::States;

/// Terms that don't all hold: one term a vertex, in rising order of the vertices, and none with all states.
#[derive(Drop)]
pub struct Incompatibility<S: States> {
    terms: Vec<Term<S>>,
}

impl<S: States> Model for Incompatibility<S> {
    ghost use Rattle.incompatibilities.specs.Incompatibilities.{IsIncompatibility};
    ghost use Rattle.std.specs.Prelude.{List};
    ghost use Rattle.terms.specs.Terms.{terms_view};
    ghost use Rattle.terms.specs.declared.term.Term.{Term};

    ghost Value = { List (Term S) };

    ghost view = { λ i. i.terms.items };

    ghost invariant = { λ i. IsIncompatibility (terms_view S.tests i.terms.items) };
}

/// Whether a set has every state of its universe.
pub(crate) fn is_full<S: States>(set: &S) -> bool
    ensures { result ≡ is_full (S.tests set.now) }
{
    set.count() == set.universe()
}

/// Drops the full terms, and the room past those that are left: searches keep many incompatibilities.
fn drop_full<S: States + Drop>(terms: &mut Vec<Term<S>>)
    ensures { terms.new.items ≡ filter (λ t. not (is_full (S.tests t.states))) terms.old.items }
{
    terms.retain(|term| !is_full(&term.states));
    terms.shrink_to_fit();
}

/// Puts terms in rising order of their vertices.
fn sort_by_vertex<S: Drop>(terms: &mut Vec<Term<S>>)
    ensures permutation { IsPermutation terms.old.items terms.new.items }
    ensures sorted { IsNonDecreasingBy (λ t. t.vertex) terms.new.items }
{
    terms.sort_unstable_by_key(|term| term.vertex);
}

impl<S: States + Drop> Incompatibility<S> {
    /// The incompatibility of these terms, in any order; full ones are dropped. At most one may stand at a vertex.
    pub fn new(terms: Vec<Term<S>>) -> Incompatibility<S>
        requires { OneEach (terms_view S.tests terms.items) }
        ensures made { IsMadeOf (terms_view S.tests terms.items) (terms_view S.tests result) }
        // Its sets are of their vertices' universes where those of the terms are.
        ensures spaces { (space : ℕ → ℕ) → LiesIn space (states_at (terms_view S.tests terms.items))
            → LiesIn space (states_at (terms_view S.tests result)) }
    {
        let mut terms = terms;
        drop_full(&mut terms);
        sort_by_vertex(&mut terms);
        Incompatibility { terms }
    }

    /// The terms, in rising order of their vertices.
    pub fn terms(&self) -> &[Term<S>]
        ensures terms { result.now ≡ self.now }
        ensures is { IsIncompatibility (terms_view S.tests self.now) }
    {
        &self.terms
    }

    /// The same incompatibility again.
    pub fn copy(&self, alloc: Global) -> Result<Incompatibility<S>, AllocError>
        ensures { IfOk result (λ i. terms_view S.tests i ≡ terms_view S.tests self.now) }
    {
        Ok(Incompatibility::of_rising(copies_of(alloc, self.terms())?))
    }

    /// Terms that are an incompatibility as they stand.
    pub(crate) fn of_rising(terms: Vec<Term<S>>) -> Incompatibility<S>
        requires { IsIncompatibility (terms_view S.tests terms.items) }
        ensures { terms_view S.tests result ≡ terms_view S.tests terms.items }
    {
        Incompatibility { terms }
    }
}
