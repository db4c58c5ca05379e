//! What may want memory of a step: the decision of an axiom, and what a combination looks up.

ghost use Rattle.std.specs.Prelude.{◌≡◌, List, IfOk};
ghost use Rattle.std.specs.List.{AllByRecursion};
ghost use Rattle.model.specs.Axioms as model;
ghost use Rattle.model.specs.Content.{Problem};
ghost use Rattle.model.specs.inner.Instances.{is_instance};
ghost use Rattle.vertices.specs.Texts.{kind_view};
ghost use Rattle.vertices.specs.declared.kind.Kind as kinds;
ghost use Rattle.axioms.specs.inner.GatheredViews.{problem_of};
ghost use Rattle.lookups.specs.inner.TermViews.{term_view, term_views};
ghost use Rattle.derivations.specs.inner.Tables.{term_at, terms_at};
ghost use Rattle.derivations.specs.declared.step.Origin.TheVariants as origin;
ghost use Rattle.checker.specs.inner.Prepared.{IsPrepared, IsPreparedBy};
ghost use Rattle.checker.specs.inner.Ready.{IsReady, IsReadyStep, tables_of};

use crate::names::Names;
use axioms::{Gathered, is_instance};
use derivations::{Origin, Step, Term};
use std::alloc::{AllocError, Global};
use vertices::{Kind, Vertex};

/// What the decision of a step takes.
#[derive(Clone, Copy)]
pub(crate) enum Prepared {
    /// Whether the terms are those of an instance of the axiom, without full ones.
    Axiom(bool),
    /// All is at hand.
    Combination,
}

/// What the decision of a step takes.
///
/// # Errors
/// Want of memory.
pub(crate) fn prepare<'a>(
    alloc: Global,
    gathered: &mut Gathered<'a>,
    names: &Names<'a>,
    step: &Step,
) -> Result<Prepared, AllocError>
    requires { IsReadyStep names.now step.now }
    ensures prepared { IfOk result (λ p. IsPrepared (problem_of gathered.old) (tables_of names.now) step.now p) }
    ensures same { problem_of gathered.new ≡ problem_of gathered.old }
{
    match &step.origin {
        Origin::Axiom(kind) => prepare_axiom(alloc, gathered, names, *kind, &step.terms),
        Origin::Combination(_, _, vertex) => prepare_vertex(alloc, gathered, names.vertex(*vertex)),
    }
}

/// An axiom is decided here, as that may want memory.
fn prepare_axiom<'a>(
    alloc: Global,
    gathered: &mut Gathered<'a>,
    names: &Names<'a>,
    kind: Kind,
    terms: &[Term],
) -> Result<Prepared, AllocError>
    requires { AllByRecursion (IsReady names.now) terms.now }
    ensures prepared { IfOk result (λ p.
        IsPreparedBy (problem_of gathered.old) (terms_at (tables_of names.now) terms.now) (origin.Axiom kind) p) }
    ensures same { problem_of gathered.new ≡ problem_of gathered.old }
{
    let looked_up = terms_in(alloc, names, terms)?;
    let is_right = is_instance(alloc, gathered, kind, looked_up.as_slice())?;
    Ok(Prepared::Axiom(is_right))
}

/// Has the classes at hand to which a dependency may lead, if steps are combined at its vertex.
fn prepare_vertex<'a>(
    alloc: Global,
    gathered: &mut Gathered<'a>,
    vertex: &'a Vertex,
) -> Result<Prepared, AllocError>
    ensures same { problem_of gathered.new ≡ problem_of gathered.old }
{
    if let Vertex::Dependency(owner, number) = vertex {
        gathered.keep_classes(alloc, owner.borrowed(), *number as usize)?;
    }
    Ok(Prepared::Combination)
}

/// Whether the terms of an axiom for which this was made are those of an instance of its kind, without full ones.
pub(crate) fn is_axiom(prepared: Prepared) -> bool
    ensures { (q : Problem) (k : kinds.Kind) (ts : List model.Term) → IsPreparedBy q ts (origin.Axiom k) prepared
        → result ≡ is_instance q (kind_view k) ts }
{
    match prepared {
        Prepared::Axiom(is_right) => is_right,
        Prepared::Combination => false,
    }
}

/// The same terms, as they are looked up.
fn terms_in<'a>(
    alloc: Global,
    names: &Names<'a>,
    terms: &[Term],
) -> Result<Vec<lookups::Term<'a>>, AllocError>
    requires { AllByRecursion (IsReady names.now) terms.now }
    ensures { IfOk result (λ v. term_views v.items ≡ terms_at (tables_of names.now) terms.now) }
{
    let mut looked_up = Vec::with_capacity(alloc, terms.len())?;
    'terms: for term in terms {
        looked_up.push(term_of(alloc, names, term)?)?;
    }
    Ok(looked_up)
}

/// A term, as it is looked up.
fn term_of<'a>(
    alloc: Global,
    names: &Names<'a>,
    term: &Term,
) -> Result<lookups::Term<'a>, AllocError>
    requires { IsReady names.now term.now }
    ensures { IfOk result (λ t. term_view t ≡ term_at (tables_of names.now) term.now) }
{
    Ok(lookups::Term {
        vertex: names.vertex(term.vertex).borrowed(),
        states: names.set(term.states).copy(alloc)?,
    })
}
