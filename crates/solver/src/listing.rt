//! The vertices that a row speaks of, listed in the order of their texts.
//!
//! So a derivation numbers them in that order, and finds and orders terms by numbers. Nothing rests on the order.

ghost use Rattle.std.specs.Prelude.{◌≡◌};
ghost use Rattle.numbering.specs.inner.KnownProblem.{problem};
ghost use Rattle.solver.specs.Refusing.{AreListed, AreReadVertices, AreSpelt};

use crate::flat::Flat;
use crate::spaces::Spaces;
use derivations::Derivation;
use numbering::{KnownProblem, Table};
use std::alloc::{AllocError, Global};
use std::fmt::Write;
use terms::Term;
use version_sets::States;

/// A vertex's text and its number.
#[derive(Drop)]
struct Texted {
    text: String,
    number: usize,
}

/// Marks the vertices of terms.
fn mark<S: States>(marks: &mut Vec<bool>, terms: &[Term<S>]) {
    'terms: for term in terms {
        if let Some(mark) = marks.get_mut(term.vertex) {
            *mark = true;
        }
    }
}

/// Whether a row speaks of each vertex.
fn marked<S: States + Drop>(
    alloc: Global,
    table: &Table<'_>,
    row: &[Flat<S>],
) -> Result<Vec<bool>, AllocError> {
    let mut marks = vec![in alloc; false; table.len()]?;
    'row: for flat in row {
        mark(&mut marks, flat.incompatibility.terms());
    }
    Ok(marks)
}

/// Puts the text of the vertex of a number at the end, if it is marked.
fn push_marked(
    alloc: Global,
    table: &Table<'_>,
    found: &mut Vec<Texted>,
    number: usize,
    is_marked: bool,
) -> Result<(), AllocError> {
    if !is_marked {
        return Ok(());
    }
    if let Some(vertex) = table.vertex(number) {
        let mut text = String::new(alloc);
        write!(text, "{vertex}")?;
        found.push(Texted { text, number })?;
    }
    Ok(())
}

/// The marked vertices in the order of their texts.
fn by_text(alloc: Global, table: &Table<'_>, marks: &[bool]) -> Result<Vec<Texted>, AllocError> {
    let mut found = Vec::new(alloc);
    'marks: for (number, is_marked) in marks.iter().enumerate() {
        push_marked(alloc, table, &mut found, number, *is_marked)?;
    }
    found.sort_unstable_by(|a, b| a.text.as_str().cmp(b.text.as_str()));
    Ok(found)
}

/// Lists the vertices that a row speaks of.
pub(crate) fn list_by_text<'a, S: States + Drop>(
    alloc: Global,
    known: &KnownProblem<'a>,
    table: &Table<'a>,
    row: &[Flat<S>],
    spaces: &mut Spaces<'a>,
    steps: &mut Derivation,
) -> Result<(), AllocError>
    requires listed { AreListed (problem known.now) table.now spaces.old }
    requires spelt { AreSpelt table.now spaces.old }
    requires valid { AreReadVertices table.now }
    ensures listed { AreListed (problem known.now) table.now spaces.new }
    ensures spelt { AreSpelt table.now spaces.new }
    ensures steps { steps.new ≡ steps.old }
{
    let marks = marked(alloc, table, row)?;
    let found = by_text(alloc, table, &marks)?;
    'vertices: for one in found.iter() {
        spaces.list(alloc, known, table, steps, one.number)?;
    }
    Ok(())
}
