//! The terms of a step of a derivation, borrowed.

ghost use Rattle.std.specs.Prelude.{◌≡◌, IfOk, slice_get};
ghost use Rattle.std.specs.List.{AllByRecursion};
ghost use Rattle.lookups.specs.inner.TermViews.{term_view, term_views};
ghost use Rattle.derivations.specs.inner.Tables.{term_at, terms_at};
ghost use Rattle.telling.specs.inner.Terms.{IsOrderedTerm, terms_if};

use derivations::{Derivation, Tables, states_in};
use lookups::{StateSet, Term};
use std::alloc::{AllocError, Global};

/// The terms of the step of this number, if there is one.
pub(crate) fn terms_of<'a>(
    alloc: Global,
    derivation: &'a Derivation,
    number: usize,
) -> Result<Vec<Term<'a>>, AllocError>
    ensures { IfOk result (λ v. term_views v.items ≡ terms_if (slice_get derivation.entry.now number)) }
{
    let (tables, steps) = derivation.parts();
    match steps.get(number) {
        Some(step) => terms_in(alloc, tables, &step.terms),
        None => Ok(Vec::new(alloc)),
    }
}

/// The terms by what their numbers stand for.
fn terms_in<'a>(
    alloc: Global,
    tables: &'a Tables,
    terms: &[derivations::Term],
) -> Result<Vec<Term<'a>>, AllocError>
    requires { AllByRecursion (IsOrderedTerm tables.now) terms.now }
    ensures { IfOk result (λ v. term_views v.items ≡ terms_at tables.entry.now terms.now) }
{
    let mut found = Vec::with_capacity(alloc, terms.len())?;
    'terms: for term in terms {
        found.push(term_of(alloc, tables, term)?)?;
    }
    Ok(found)
}

/// A term by what its numbers stand for.
fn term_of<'a>(
    alloc: Global,
    tables: &'a Tables,
    term: &derivations::Term,
) -> Result<Term<'a>, AllocError>
    requires { IsOrderedTerm tables.now term.now }
    ensures { IfOk result (λ t. term_view t ≡ term_at tables.entry.now term.now) }
{
    let states = states_in(alloc, tables, tables.set(term.states))?;
    Ok(Term {
        vertex: tables.vertex(term.vertex).borrowed(),
        states: StateSet::rising(states),
    })
}
