//! The index of a store: for each vertex the places of the incompatibilities with a term there, and beside them the
//! states of that term, so that who goes through a row reads memory in order: most often these are all that has to be
//! looked at, and the incompatibility and its terms lie elsewhere.

ghost use Rattle.incompatibilities.specs.inner.Rows.{HasRoom, IsApart, IsGrown, listed_in, row_at, stands_in};
ghost use Rattle.std.specs.Prelude.{◌≡◌, ◌≢◌, ◌++◌, ◌∷◌, [], ℕ, IfOk, OnOk, map, true};
ghost use Rattle.terms.specs.Terms.{term_view, terms_view};

use crate::origin::Id;
use std::alloc::{AllocError, Global};
use terms::Term;
use version_sets::States;

/// A vertex's row; a vertex past the rows has nothing.
pub(crate) fn row_of<E>(rows: &[Vec<E>], vertex: usize) -> &[E]
    ensures { result.now ≡ row_at rows.now vertex }
{
    match rows.get(vertex) {
        Some(row) => row,
        None => &[],
    }
}

/// The same term again.
fn copy_of<S: States + Drop>(alloc: Global, term: &Term<S>) -> Result<Term<S>, AllocError>
    ensures { IfOk result (λ t. term_view S.tests t ≡ term_view S.tests term.now) }
{
    Ok(Term {
        vertex: term.vertex,
        states: term.states.copy(alloc)?,
    })
}

/// The same terms again, to be listed.
pub(crate) fn copies_of<S: States + Drop>(
    alloc: Global,
    terms: &[Term<S>],
) -> Result<Vec<Term<S>>, AllocError>
    ensures { IfOk result (λ v. terms_view S.tests v.items ≡ terms_view S.tests terms.now) }
{
    let mut copies = Vec::with_capacity(alloc, terms.len())?;
    'terms: for term in terms {
        copies.push(copy_of(alloc, term)?)?;
    }
    Ok(copies)
}

/// Makes room for one more in a vertex's row.
fn reserve_at<E: Drop>(
    rows: &mut Vec<Vec<E>>,
    alloc: Global,
    vertex: usize,
) -> Result<(), AllocError>
    ensures grown { IsGrown rows.old.items rows.new.items }
    ensures room { OnOk result (HasRoom rows.new.items vertex) }
{
    'shorter: while rows.len() <= vertex {
        rows.push(Vec::new(alloc))?;
    }
    rows[vertex].reserve(1)
}

/// Makes room for one more in the row of each term's vertex.
pub(crate) fn reserve_rows<E: Drop, S: Drop>(
    rows: &mut Vec<Vec<E>>,
    alloc: Global,
    terms: &[Term<S>],
) -> Result<(), AllocError>
    ensures grown { IsGrown rows.old.items rows.new.items }
    ensures room { OnOk result
        ((v : ℕ) → stands_in v (map (λ t. t.vertex) terms.now) ≡ true → HasRoom rows.new.items v) }
{
    'terms: for term in terms {
        reserve_at(rows, alloc, term.vertex)?;
    }
    Ok(())
}

/// Puts one at the end of a vertex's row.
fn push_at<E: Drop>(rows: &mut Vec<Vec<E>>, vertex: usize, item: E)
    requires { HasRoom rows.old.items vertex }
    ensures here { row_at rows.new.items vertex ≡ row_at rows.old.items vertex ++ item ∷ [] }
    ensures others { (v : ℕ) → v ≢ vertex → row_at rows.new.items v ≡ row_at rows.old.items v }
    ensures room { (v : ℕ) → v ≢ vertex → HasRoom rows.old.items v → HasRoom rows.new.items v }
{
    rows[vertex].push_reserved(item);
}

/// Puts a place, and the states of each term, at the ends of the rows of the term's vertex.
pub(crate) fn push_rows<S: States + Drop>(
    ids: &mut Vec<Vec<Id>>,
    sets: &mut Vec<Vec<S>>,
    terms: Vec<Term<S>>,
    id: Id,
)
    requires ids { (v : ℕ) → stands_in v (map (λ t. t.vertex) terms.items) ≡ true → HasRoom ids.old.items v }
    requires sets { (v : ℕ) → stands_in v (map (λ t. t.vertex) terms.items) ≡ true → HasRoom sets.old.items v }
    requires apart { IsApart (map (λ t. t.vertex) terms.items) }
    ensures ids { (v : ℕ) → row_at ids.new.items v ≡ row_at ids.old.items v ++ listed_in (λ t. id) v terms.items }
    ensures sets { (v : ℕ) → row_at sets.new.items v
        ≡ row_at sets.old.items v ++ listed_in (λ t. t.states) v terms.items }
{
    'terms: for term in terms {
        let Term { vertex, states } = term;
        push_at(ids, vertex, id);
        push_at(sets, vertex, states);
    }
}
