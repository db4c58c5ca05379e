//! Vertices and states that own their parts, made from borrowed ones.

ghost use Rattle.std.specs.Prelude.{◌≡◌, Ok, IfOk};
ghost use Rattle.std.specs.Result.{IsOk};
ghost use Rattle.vertices.specs.inner.RefViews.{state_ref_view};
ghost use Rattle.vertices.specs.Texts.{vertex_of_text};
ghost use Rattle.vertices.specs.Views.{vertex_view, state_view};

use std::alloc::{AllocError, Global};
use vertices::{State, StateRef, TextFault, Vertex};

/// The vertex whose text this is.
pub(crate) fn owned_vertex(alloc: Global, text: &str) -> Result<Vertex, AllocError>
    requires { IsOk (vertex_of_text text.now) }
    ensures { IfOk result (λ v. vertex_of_text text.now ≡ Ok (vertex_view v)) }
{
    match Vertex::parse(alloc, text) {
        Ok(vertex) => Ok(vertex),
        Err(TextFault::OutOfMemory) => Err(AllocError),
        Err(TextFault::NotAText) => unreachable!(),
    }
}

/// The same state with its own version.
pub(crate) fn owned_state(state: StateRef<'_>) -> Result<State, AllocError>
    ensures { IfOk result (λ s. state_view s ≡ state_ref_view state.entry) }
{
    match state {
        StateRef::Absent => Ok(State::Absent),
        StateRef::Present => Ok(State::Present),
        StateRef::Version(version) => Ok(State::Version(version.clone()?)),
        StateRef::Class(class) => Ok(State::Class(class)),
    }
}
