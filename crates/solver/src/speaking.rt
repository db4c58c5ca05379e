//! The terms of an incompatibility over numbers, as vertices with their states.

ghost use Rattle.std.specs.List.{All};
ghost use Rattle.std.specs.Prelude.{◌≡◌, ◌++◌, [], IfOk, OnOk, Some, length, slice_get, true};
ghost use Rattle.terms.specs.Terms.{terms_view};
ghost use Rattle.model.specs.Axioms.{at};
ghost use Rattle.model.specs.Vertices.{space};
ghost use Rattle.vertices.specs.inner.RefViews.{vertex_ref_view};
ghost use Rattle.derivations.specs.inner.Named.{named_views};
ghost use Rattle.numbering.specs.inner.KnownProblem.{problem};
ghost use Rattle.solver.specs.inner.Decoding.{sizes, states_in, terms_of, with_term};
ghost use Rattle.solver.specs.Refusing.{AreListed, AreSized, AreSpelt, IsListed, is_listed, spoken_view};
ghost use Rattle.solver.specs.Refusing.{spoken_views};

use crate::spaces::Spaces;
use crate::values::chosen;
use derivations::{NamedTerm, Spelling};
use numbering::{KnownProblem, Table};
use std::alloc::{AllocError, Global};
use terms::Term;
use version_sets::States;
use vertices::{StateRef, VertexRef};

/// A vertex and some of its states.
#[derive(Drop)]
pub(crate) struct Spoken<'p, 'a> {
    pub vertex: &'p Spelling,
    pub states: Vec<StateRef<'a>>,
}

/// A vertex with those of its states that a set has.
fn speak<'p, 'a, S: States + Drop>(
    alloc: Global,
    known: &KnownProblem<'a>,
    table: &Table<'a>,
    spaces: &'p Spaces<'a>,
    number: usize,
    vertex: VertexRef<'a>,
    set: &S,
) -> Result<Spoken<'p, 'a>, AllocError>
    requires listed { AreListed (problem known.now) table.now spaces.now }
    requires spelt { AreSpelt table.now spaces.now }
    requires there { slice_get table.now number ≡ Some (vertex_ref_view vertex) }
    requires named { is_listed spaces.now number ≡ true }
    requires sized { length (S.tests set.now) ≡ length (space (problem known.now) (vertex_ref_view vertex)) }
    ensures { IfOk result (λ t. spoken_view t ≡ at (vertex_ref_view vertex.entry)
        (states_in (space (problem known.now) (vertex_ref_view vertex.entry)) (S.tests set.now))) }
{
    let space = spaces.space(number);
    let states = chosen(alloc, &space.states, set)?;
    Ok(Spoken {
        vertex: &space.spelling,
        states,
    })
}

/// Puts one term at the end.
fn push_spoken<'p, 'a, S: States + Drop>(
    alloc: Global,
    known: &KnownProblem<'a>,
    table: &Table<'a>,
    spaces: &'p Spaces<'a>,
    made: &mut Vec<Spoken<'p, 'a>>,
    term: &Term<S>,
) -> Result<(), AllocError>
    requires listed { AreListed (problem known.now) table.now spaces.now }
    requires spelt { AreSpelt table.now spaces.now }
    requires named { IsListed table.now spaces.now term.now.vertex }
    requires sized { length (S.tests term.now.states) ≡ sizes (problem known.now) table.now term.now.vertex }
    ensures { OnOk result (spoken_views made.new.items ≡ spoken_views made.old.items
        ++ with_term (problem known.now) (slice_get table.now term.now.vertex) (S.tests term.now.states) []) }
{
    match table.vertex(term.vertex) {
        Some(vertex) => {
            let one = speak(
                alloc,
                known,
                table,
                spaces,
                term.vertex,
                vertex,
                &term.states,
            )?;
            made.push(one)?;
            Ok(())
        }
        None => Ok(()),
    }
}

/// The terms of an incompatibility, in its order.
pub(crate) fn spoken_terms<'p, 'a, S: States + Drop>(
    alloc: Global,
    known: &KnownProblem<'a>,
    table: &Table<'a>,
    spaces: &'p Spaces<'a>,
    terms: &[Term<S>],
) -> Result<Vec<Spoken<'p, 'a>>, AllocError>
    requires listed { AreListed (problem known.now) table.now spaces.now }
    requires spelt { AreSpelt table.now spaces.now }
    requires named { All (λ t. IsListed table.now spaces.now t.vertex) terms.now }
    requires sized { AreSized (problem known.now) table.now (terms_view S.tests terms.now) }
    ensures { IfOk result
        (λ v. spoken_views v.items ≡ terms_of (problem known.now) table.now (terms_view S.tests terms.now)) }
{
    let mut made = Vec::with_capacity(alloc, terms.len())?;
    'terms: for term in terms.iter() {
        push_spoken(alloc, known, table, spaces, &mut made, term)?;
    }
    Ok(made)
}

/// The terms, with their states where these lie.
pub(crate) fn named_terms<'p, 's, 'a>(
    alloc: Global,
    terms: &'s [Spoken<'p, 'a>],
) -> Result<Vec<NamedTerm<'p, 's, 'a>>, AllocError>
    ensures { IfOk result (λ v. named_views v.items ≡ spoken_views terms.entry.now) }
{
    let mut refs = Vec::with_capacity(alloc, terms.len())?;
    'terms: for term in terms.iter() {
        let states = term.states.as_slice();
        refs.push(NamedTerm {
            vertex: term.vertex,
            states,
        })?;
    }
    Ok(refs)
}
