//! What an encoding gives, as lines in the order of their bytes.

ghost use Rattle.std.specs.Prelude.{◌<◌, length};

use encoding::{Encoding, Kind};
use incompatibilities::Incompatibility;
use std::alloc::{AllocError, Global};
use version_sets::{ListStates, States};

/// The vertices, each with all its states.
pub(crate) fn vertex_lines(
    alloc: Global,
    encoding: &Encoding<'_>,
) -> Result<Vec<String>, AllocError> {
    let mut lines = Vec::new(alloc);
    for vertex in 0..encoding.len() {
        lines.push(vertex_line(alloc, encoding, vertex)?)?;
    }
    lines.sort()?;
    Ok(lines)
}

fn vertex_line(alloc: Global, encoding: &Encoding<'_>, vertex: usize) -> Result<String, AllocError>
    requires { vertex < length encoding.now.vertices }
{
    let mut line = format!(in alloc; "{} in", encoding.vertex(vertex))?;
    for state in 0..encoding.space(vertex) as usize {
        put_state(alloc, encoding, &mut line, vertex, state)?;
    }
    Ok(line)
}

/// What `axioms` gives.
pub(crate) fn all_lines(alloc: Global, encoding: &Encoding<'_>) -> Result<Vec<String>, AllocError> {
    let given = encoding.axioms::<ListStates>()?;
    let mut lines = Vec::new(alloc);
    put_lines(alloc, encoding, &mut lines, given.as_slice())?;
    lines.sort()?;
    Ok(lines)
}

/// What `axioms_at` gives over all pairs.
pub(crate) fn pair_lines(
    alloc: Global,
    encoding: &Encoding<'_>,
) -> Result<Vec<String>, AllocError> {
    let mut lines = Vec::new(alloc);
    for vertex in 0..encoding.len() {
        put_pairs(alloc, encoding, &mut lines, vertex)?;
    }
    lines.sort()?;
    Ok(lines)
}

fn put_pairs(
    alloc: Global,
    encoding: &Encoding<'_>,
    lines: &mut Vec<String>,
    vertex: usize,
) -> Result<(), AllocError>
    requires { vertex < length encoding.now.vertices }
{
    for state in 0..encoding.space(vertex) as usize {
        let given = encoding.axioms_at::<ListStates>(vertex, state)?;
        put_lines(alloc, encoding, lines, given.as_slice())?;
    }
    Ok(())
}

/// What `axioms_at` gives for a pair.
pub(crate) fn given_lines(
    alloc: Global,
    encoding: &Encoding<'_>,
    vertex: usize,
    state: usize,
) -> Result<Vec<String>, AllocError> {
    let given = encoding.axioms_at::<ListStates>(vertex, state)?;
    let mut lines = Vec::new(alloc);
    put_lines(alloc, encoding, &mut lines, given.as_slice())?;
    lines.sort()?;
    Ok(lines)
}

/// A line for each instance.
fn put_lines(
    alloc: Global,
    encoding: &Encoding<'_>,
    lines: &mut Vec<String>,
    given: &[(Kind, Incompatibility<ListStates>)],
) -> Result<(), AllocError> {
    for (kind, instance) in given.iter() {
        let terms = terms_text(alloc, encoding, instance)?;
        lines.push(format!(in alloc; "{kind} {terms}")?)?;
    }
    Ok(())
}

/// The terms in the order of their bytes.
fn terms_text(
    alloc: Global,
    encoding: &Encoding<'_>,
    instance: &Incompatibility<ListStates>,
) -> Result<String, AllocError> {
    let mut terms = Vec::new(alloc);
    for term in instance.terms().iter() {
        if term.vertex < encoding.len() {
            terms.push(term_text(alloc, encoding, term.vertex, &term.states)?)?;
        }
    }
    terms.sort()?;
    terms.join(alloc, ", ")
}

fn term_text(
    alloc: Global,
    encoding: &Encoding<'_>,
    vertex: usize,
    states: &ListStates,
) -> Result<String, AllocError>
    requires { vertex < length encoding.now.vertices }
{
    let mut text = format!(in alloc; "{} in", encoding.vertex(vertex))?;
    for state in 0..states.universe() {
        if states.member(state) {
            put_state(alloc, encoding, &mut text, vertex, state as usize)?;
        }
    }
    Ok(text)
}

/// The state of this number, if there is one.
fn put_state(
    alloc: Global,
    encoding: &Encoding<'_>,
    text: &mut String,
    vertex: usize,
    state: usize,
) -> Result<(), AllocError>
    requires { vertex < length encoding.now.vertices }
{
    if state < encoding.space(vertex) as usize {
        let value = encoding.value(vertex, state)?;
        text.push_str(format!(in alloc; " {value}")?.as_str())?;
    }
    Ok(())
}
