//! The terms of the instance that a cause gives rise to, as sets of states.

ghost use Rattle.std.specs.Prelude.{◌≡◌, IfOk};
ghost use Rattle.model.specs.Causes.{terms_of_cause};
ghost use Rattle.axioms.specs.inner.KeptViews.{problem_of};
ghost use Rattle.lookups.specs.inner.CauseViews.{cause_view};
ghost use Rattle.lookups.specs.inner.Symbolic.{symbolic_view};
ghost use Rattle.lookups.specs.inner.TermViews.{term_view, term_views};

use crate::instances::kept::Kept;
use crate::instances::lacking::lacking_term;
use crate::instances::matched::taken_term;
use crate::instances::terms::{chosen, flag_term, term};
use crate::instances::unmatched::left_term;
use lookups::{Cause, SymbolicTerm, Term, symbolic_terms};
use std::alloc::{AllocError, Global};
use vertices::{StateRef, VertexRef};

/// The terms of the instance.
pub(crate) fn terms_of_cause<'a>(
    alloc: Global,
    kept: &mut Kept<'a>,
    cause: &Cause<'a>,
) -> Result<Vec<Term<'a>>, AllocError>
    ensures terms { IfOk result
        (λ v. term_views v.items ≡ terms_of_cause (problem_of kept.old) (cause_view cause.now)) }
    ensures same { problem_of kept.new ≡ problem_of kept.old }
{
    let symbolic = symbolic_terms(alloc, &kept.problem, cause)?;
    let mut terms = Vec::with_capacity(alloc, symbolic.len())?;
    'terms: for term in symbolic.iter() {
        terms.push(term_of(alloc, kept, *term)?)?;
    }
    Ok(terms)
}

/// A term with its vertex's states.
fn term_of<'a>(
    alloc: Global,
    kept: &mut Kept<'a>,
    symbolic: SymbolicTerm<'a>,
) -> Result<Term<'a>, AllocError>
    ensures term { IfOk result (λ t. term_view t ≡ symbolic_view (problem_of kept.old) symbolic.entry) }
    ensures same { problem_of kept.new ≡ problem_of kept.old }
{
    match symbolic {
        SymbolicTerm::Root(there) => flag_term(alloc, VertexRef::Root, there),
        SymbolicTerm::Feature(name, class, feature, on) => {
            flag_term(alloc, VertexRef::Feature(name, class, feature), on)
        }
        SymbolicTerm::Ask(name, version, number, feature, asks) => {
            flag_term(alloc, VertexRef::Ask(name, version, number, feature), asks)
        }
        SymbolicTerm::Chosen(name, version) => chosen(alloc, name, version),
        SymbolicTerm::Absent(owner, number) => {
            let vertex = VertexRef::Dependency(owner, number);
            term(alloc, vertex, StateRef::Absent)
        }
        SymbolicTerm::Leads(owner, number, class) => {
            let vertex = VertexRef::Dependency(owner, number);
            term(alloc, vertex, StateRef::Class(class))
        }
        SymbolicTerm::Unmatched(dependency, class) => left_term(alloc, kept, dependency, class),
        SymbolicTerm::Matched(dependency, class) => taken_term(alloc, kept, dependency, class),
        SymbolicTerm::Lacking(name, class, feature) => {
            lacking_term(alloc, kept, name, class, feature)
        }
    }
}
