//! Vertices and states that stand with their texts.

ghost use Rattle.std.specs.Prelude.{◌≡◌, IfOk, string_bytes};
ghost use Rattle.std.specs.Cmp.{partial_equiv_from_equiv};
ghost use Rattle.model.specs.Vertices.{same_state, same_vertex};
ghost use Rattle.vertices.specs.inner.RefViews.{vertex_ref_view};
ghost use Rattle.vertices.specs.inner.Same.{state_alike, state_equivalence, state_fed, vertex_alike};
ghost use Rattle.vertices.specs.inner.Same.{vertex_equivalence};
ghost use Rattle.vertices.specs.inner.Same.{vertex_fed};
ghost use Rattle.vertices.specs.Texts.{IsReadVertex, state_text, vertex_text};
ghost use Rattle.vertices.specs.Views.{state_view, vertex_view};

use crate::owning::owned_vertex;
use std::alloc::{AllocError, Global};
use std::hash::{Hash, Hasher};
use std::marker::Model;
use vertices::{State, Vertex, VertexRef};

/// A vertex with its text.
#[derive(Drop)]
pub(crate) struct SpeltVertex {
    text: String,
    vertex: Vertex,
}

impl Model for SpeltVertex {
    ghost use Rattle.std.specs.Prelude.{◌≡◌, string_bytes};
    ghost use Rattle.model.specs.Vertices as model;
    ghost use Rattle.vertices.specs.Texts.{vertex_text};
    ghost use Rattle.vertices.specs.Views.{vertex_view};

    ghost Value = { model.Vertex };

    ghost view = { λ s. vertex_view s.vertex };

    ghost invariant = { λ s. string_bytes s.text ≡ vertex_text (vertex_view s.vertex) };
}

impl SpeltVertex {
    /// A vertex and its text.
    pub(crate) fn new(alloc: Global, text: &str, vertex: Vertex) -> Result<SpeltVertex, AllocError>
        requires { text.now ≡ vertex_text (vertex_view vertex) }
        ensures { IfOk result (λ s. s ≡ vertex_view vertex) }
    {
        Ok(SpeltVertex::of(String::from_str(alloc, text)?, vertex))
    }

    /// A vertex and its text, which is its own.
    fn of(text: String, vertex: Vertex) -> SpeltVertex
        requires { string_bytes text ≡ vertex_text (vertex_view vertex) }
        ensures { result ≡ vertex_view vertex }
    {
        SpeltVertex { text, vertex }
    }

    pub(crate) fn text(&self) -> &str
        ensures { result.now ≡ vertex_text self.now }
    {
        &self.text
    }

    pub(crate) fn vertex(&self) -> &Vertex
        ensures { vertex_view result.now ≡ self.now }
    {
        &self.vertex
    }
}

impl PartialEq for SpeltVertex {
    ghost eq = { same_vertex };

    ghost laws = { partial_equiv_from_equiv vertex_equivalence };

    fn eq(&self, other: &SpeltVertex) -> bool {
        self.vertex == other.vertex
    }
}

impl Eq for SpeltVertex {
    ghost laws = { vertex_equivalence };
}

impl Hash for SpeltVertex {
    ghost hash_input = { vertex_fed };

    ghost respects_eq = { vertex_alike };

    fn hash<H: Hasher>(&self, state: &mut H) {
        self.vertex.hash(state)
    }
}

/// A spelt vertex that is what its text reads as, to stand in terms of any number of steps.
///
/// It also has the number that the vertex has in a derivation's tables. Nothing follows from the number: it is looked
/// at first, and where another derivation has another vertex there, the vertex is looked for.
#[derive(Drop)]
pub struct Spelling {
    spelt: SpeltVertex,
    number: usize,
}

impl Model for Spelling {
    ghost use Rattle.model.specs.Vertices as model;
    ghost use Rattle.vertices.specs.Texts.{IsReadVertex};

    ghost Value = { model.Vertex };

    ghost view = { λ s. s.spelt };

    ghost invariant = { λ s. IsReadVertex s.spelt };
}

impl Spelling {
    /// A vertex that may have this number.
    pub(crate) fn new(
        alloc: Global,
        vertex: VertexRef<'_>,
        number: usize,
    ) -> Result<Spelling, AllocError>
        requires { IsReadVertex (vertex_ref_view vertex) }
        ensures { IfOk result (λ s. s ≡ vertex_ref_view vertex.entry) }
    {
        let mut text = String::new(alloc);
        write!(text, "{vertex}")?;
        let vertex = owned_vertex(alloc, &text)?;
        Ok(Spelling {
            spelt: SpeltVertex::of(text, vertex),
            number,
        })
    }

    /// The vertex's text.
    pub(crate) fn text(&self) -> &str
        ensures text { result.now ≡ vertex_text self.now }
        ensures read { IsReadVertex self.now }
    {
        self.spelt.text()
    }

    /// The vertex.
    pub(crate) fn vertex(&self) -> &Vertex
        ensures { vertex_view result.now ≡ self.now }
    {
        self.spelt.vertex()
    }

    /// The number that the vertex may have.
    pub(crate) fn guess(&self) -> usize {
        self.number
    }
}

/// A state with its text.
#[derive(Drop)]
pub(crate) struct SpeltState {
    text: String,
    state: State,
}

impl Model for SpeltState {
    ghost use Rattle.std.specs.Prelude.{◌≡◌, string_bytes};
    ghost use Rattle.model.specs.Vertices as model;
    ghost use Rattle.vertices.specs.Texts.{state_text};
    ghost use Rattle.vertices.specs.Views.{state_view};

    ghost Value = { model.State };

    ghost view = { λ s. state_view s.state };

    ghost invariant = { λ s. string_bytes s.text ≡ state_text (state_view s.state) };
}

impl SpeltState {
    /// A state and its text.
    pub(crate) fn new(alloc: Global, state: State) -> Result<SpeltState, AllocError>
        ensures { IfOk result (λ s. s ≡ state_view state) }
    {
        let mut text = String::new(alloc);
        write!(text, "{state}")?;
        Ok(SpeltState { text, state })
    }

    pub(crate) fn text(&self) -> &str
        ensures { result.now ≡ state_text self.now }
    {
        &self.text
    }

    pub(crate) fn state(&self) -> &State
        ensures { state_view result.now ≡ self.now }
    {
        &self.state
    }
}

impl PartialEq for SpeltState {
    ghost eq = { same_state };

    ghost laws = { partial_equiv_from_equiv state_equivalence };

    fn eq(&self, other: &SpeltState) -> bool {
        self.state == other.state
    }
}

impl Eq for SpeltState {
    ghost laws = { state_equivalence };
}

impl Hash for SpeltState {
    ghost hash_input = { state_fed };

    ghost respects_eq = { state_alike };

    fn hash<H: Hasher>(&self, state: &mut H) {
        self.state.hash(state)
    }
}
