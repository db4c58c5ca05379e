//! Vertices with numbers, in the order in which they were first spoken of.

ghost use Rattle.std.specs.Prelude.{◌≡◌, [], Some, IfOk, OnOk, OnErr, option_map, slice_get, length};
ghost use Rattle.numbering.specs.Numberings.{number_in, with_vertex};
ghost use Rattle.vertices.specs.inner.RefViews.{vertex_ref_view};

use indexmap::IndexSet;
use std::alloc::{AllocError, Global};
use std::marker::Model;
use vertices::VertexRef;

/// Each vertex once; its number is its place.
#[derive(Drop)]
pub struct Table<'a> {
    vertices: IndexSet<VertexRef<'a>>,
}

impl<'a> Model for Table<'a> {
    ghost use Rattle.std.specs.Prelude.{◌≡◌, map};
    ghost use Rattle.numbering.specs.Numberings.{Numbering};
    ghost use Rattle.vertices.specs.inner.RefViews.{vertex_ref_view};

    ghost Value = { Numbering };

    ghost view = { λ t. map vertex_ref_view t.vertices.keys };
}

impl<'a> Table<'a> {
    /// The table with no vertex.
    pub fn new(alloc: Global) -> Table<'a>
        ensures { result ≡ [] }
    {
        Table {
            vertices: IndexSet::new(alloc),
        }
    }

    /// How many vertices have numbers.
    pub fn len(&self) -> usize
        ensures { result ≡ length self.now }
    {
        self.vertices.len()
    }

    /// The number of a vertex.
    #[tactic(auto, using(crate::proofs::Same::number_kept))]
    pub fn number(&self, vertex: &VertexRef<'a>) -> Option<usize>
        ensures { result ≡ number_in self.now (vertex_ref_view vertex.now) }
    {
        self.vertices.get_index_of(vertex)
    }

    /// The vertex that has a number.
    pub fn vertex(&self, number: usize) -> Option<VertexRef<'a>>
        ensures { option_map vertex_ref_view result ≡ slice_get self.now number }
    {
        self.vertices.get_index(number).copied()
    }

    /// The number of a vertex, which gets the next one if it has none.
    #[tactic(auto, using(crate::proofs::Same::put_kept, crate::proofs::Same::kept_same))]
    pub fn put(&mut self, vertex: VertexRef<'a>) -> Result<usize, AllocError>
        ensures number { IfOk result (λ n. slice_get self.new n ≡ Some (vertex_ref_view vertex.entry)) }
        ensures ok { OnOk result (self.new ≡ with_vertex self.old (vertex_ref_view vertex.entry)) }
        ensures err { OnErr result (self.new ≡ self.old) }
    {
        let (number, _) = self.vertices.insert_full(vertex)?;
        Ok(number)
    }
}
