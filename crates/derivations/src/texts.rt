//! The vertices and states that texts of a line are.

ghost use Rattle.model.specs.Outcome.{Gives};
ghost use Rattle.vertices.specs.Views.{vertex_view, state_view};
ghost use Rattle.derivations.specs.Lines.{line_wants_memory, vertex_in_line, state_in_line};

use crate::fault::LineFault;
use crate::spelt::SpeltVertex;
use std::alloc::Global;
use vertices::{State, TextFault, Vertex};

/// The vertex that a text is.
pub(crate) fn read_vertex(alloc: Global, text: &str) -> Result<SpeltVertex, LineFault>
    ensures { Gives line_wants_memory (λ v. v) result (vertex_in_line text.now) }
{
    match Vertex::parse(alloc, text) {
        Ok(vertex) => Ok(SpeltVertex::new(alloc, text, vertex)?),
        Err(TextFault::OutOfMemory) => Err(LineFault::OutOfMemory),
        Err(TextFault::NotAText) => Err(LineFault::NotALine),
    }
}

/// The state of the vertex that a text is.
pub(crate) fn read_state(alloc: Global, vertex: &Vertex, text: &str) -> Result<State, LineFault>
    ensures { Gives line_wants_memory state_view result (state_in_line (vertex_view vertex.now) text.now) }
{
    match State::parse(alloc, vertex, text) {
        Ok(state) => Ok(state),
        Err(TextFault::OutOfMemory) => Err(LineFault::OutOfMemory),
        Err(TextFault::NotAText) => Err(LineFault::NotALine),
    }
}
