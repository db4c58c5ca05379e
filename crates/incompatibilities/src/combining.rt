//! Combining two incompatibilities at a vertex.

ghost use Rattle.incompatibilities.specs.Incompatibilities.{Fit, IsCombination, LiesIn, OneIsBroken, states_at};
ghost use Rattle.incompatibilities.specs.inner.Merging.{FitAll, FitsIn, both, kept, lone, merged, past, up_to};
ghost use Rattle.std.specs.Prelude.{◌≡◌, ◌++◌, ℕ, IfOk, List, OnOk, flat_map, length};
ghost use Rattle.terms.specs.Terms.{TermView, term_view, terms_view};

use crate::incompatibility::{Incompatibility, is_full};
use std::alloc::{AllocError, Global};
use terms::Term;
use version_sets::States;

/// A term, unless it is full.
fn push_kept<S: States + Drop>(
    made: &mut Vec<Term<S>>,
    vertex: usize,
    states: S,
) -> Result<(), AllocError>
    ensures { OnOk result (terms_view S.tests made.new.items
        ≡ terms_view S.tests made.old.items ++ kept (record { vertex = vertex; states = S.tests states })) }
{
    if !is_full(&states) {
        made.push(Term { vertex, states })?;
    }
    Ok(())
}

/// A term whose vertex has none in the other incompatibility, where all states count: so the union with these is full
/// and drops out, and the intersection is the term itself.
fn push_lone<S: States + Drop>(
    alloc: Global,
    made: &mut Vec<Term<S>>,
    at: usize,
    term: &Term<S>,
) -> Result<(), AllocError>
    ensures { OnOk result (terms_view S.tests made.new.items
        ≡ terms_view S.tests made.old.items ++ lone at (term_view S.tests term.now)) }
{
    if term.vertex != at {
        made.push(Term {
            vertex: term.vertex,
            states: term.states.copy(alloc)?,
        })?;
    }
    Ok(())
}

/// Two terms of one vertex.
fn push_both<S: States + Drop>(
    alloc: Global,
    made: &mut Vec<Term<S>>,
    at: usize,
    term: &Term<S>,
    other: &Term<S>,
) -> Result<(), AllocError>
    requires { length (S.tests term.now.states) ≡ length (S.tests other.now.states) }
    ensures { OnOk result (terms_view S.tests made.new.items
        ≡ terms_view S.tests made.old.items ++ both at (term_view S.tests term.now) (term_view S.tests other.now)) }
{
    let states = if term.vertex == at {
        term.states.union(alloc, &other.states)?
    } else {
        term.states.intersect(alloc, &other.states)?
    };
    push_kept(made, term.vertex, states)
}

/// What comes of a term and of the other incompatibility's terms up to its vertex; gives back the others past it.
fn push_up_to<'a, S: States + Drop>(
    alloc: Global,
    made: &mut Vec<Term<S>>,
    at: usize,
    term: &Term<S>,
    others: &'a [Term<S>],
) -> Result<&'a [Term<S>], AllocError>
    requires { FitsIn (term_view S.tests term.now) (terms_view S.tests others.now) }
    ensures made { OnOk result (terms_view S.tests made.new.items ≡ terms_view S.tests made.old.items
        ++ up_to at (term_view S.tests term.now) (terms_view S.tests others.entry.now)) }
    ensures rest { IfOk result
        (λ r. terms_view S.tests r.now ≡ past (term_view S.tests term.now) (terms_view S.tests others.entry.now)) }
{
    let mut rest = others;
    'earlier: while let [other, later @ ..] = rest {
        if other.vertex >= term.vertex {
            break;
        }
        push_lone(alloc, made, at, other)?;
        rest = later;
    }
    match rest {
        [other, later @ ..] if other.vertex == term.vertex => {
            push_both(alloc, made, at, term, other)?;
            Ok(later)
        }
        _ => {
            push_lone(alloc, made, at, term)?;
            Ok(rest)
        }
    }
}

/// The terms of the second incompatibility past all of the first's.
fn push_rest<S: States + Drop>(
    alloc: Global,
    made: &mut Vec<Term<S>>,
    at: usize,
    others: &[Term<S>],
) -> Result<(), AllocError>
    ensures { OnOk result (terms_view S.tests made.new.items
        ≡ terms_view S.tests made.old.items ++ flat_map (lone at) (terms_view S.tests others.now)) }
{
    'others: for other in others {
        push_lone(alloc, made, at, other)?;
    }
    Ok(())
}

/// One merge of two rising lists of terms, with no room past its end.
fn merge<S: States + Drop>(
    alloc: Global,
    at: usize,
    first: &[Term<S>],
    second: &[Term<S>],
) -> Result<Vec<Term<S>>, AllocError>
    requires { FitAll (terms_view S.tests first.now) (terms_view S.tests second.now) }
    ensures { IfOk result
        (λ v. terms_view S.tests v.items ≡ merged at (terms_view S.tests first.now) (terms_view S.tests second.now)) }
{
    let mut made = Vec::new(alloc);
    let mut rest = second;
    'firsts: for term in first {
        rest = push_up_to(alloc, &mut made, at, term, rest)?;
    }
    push_rest(alloc, &mut made, at, rest)?;
    made.shrink_to_fit();
    Ok(made)
}

/// The combination of two at a vertex: the union of their sets there, the intersection elsewhere, full terms dropped.
/// Where both have a term at a vertex, the two sets have one universe.
pub fn combine<S: States + Drop>(
    alloc: Global,
    a: &Incompatibility<S>,
    b: &Incompatibility<S>,
    vertex: usize,
) -> Result<Incompatibility<S>, AllocError>
    requires { Fit (states_at (terms_view S.tests a.now)) (states_at (terms_view S.tests b.now)) }
    ensures combination { IfOk result
        (λ c. IsCombination vertex (terms_view S.tests a.now) (terms_view S.tests b.now) (terms_view S.tests c)) }
    // It is the one list that is.
    ensures exact { IfOk result (λ c. (ts : List TermView)
        → IsCombination vertex (terms_view S.tests a.now) (terms_view S.tests b.now) ts → ts ≡ terms_view S.tests c) }
    // Its sets are of their vertices' universes where those of the two are.
    ensures spaces { IfOk result (λ c. (space : ℕ → ℕ) → LiesIn space (states_at (terms_view S.tests a.now))
        → LiesIn space (states_at (terms_view S.tests b.now)) → LiesIn space (states_at (terms_view S.tests c))) }
    // An assignment that breaks it breaks one of the two.
    ensures broken { IfOk result (λ c. OneIsBroken (states_at (terms_view S.tests a.now))
        (states_at (terms_view S.tests b.now)) (states_at (terms_view S.tests c))) }
{
    Ok(Incompatibility::of_rising(merge(alloc, vertex, a.terms(), b.terms())?))
}
