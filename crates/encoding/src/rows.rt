//! The vertices in memory of their own, with how many states each has.

ghost use Rattle.std.specs.Prelude.{◌≡◌, ◌++◌, ◌∷◌, [], Some, IfOk, OnOk, map, position, slice_get};
ghost use Rattle.model.specs.Vertices.{Vertex as model, same_vertex};
ghost use Rattle.vertices.specs.inner.RefViews.{vertex_ref_view};
ghost use Rattle.numbering.specs.inner.KnownProblem.{KnowsDefault, problem};
ghost use Rattle.encoding.specs.Encodings.{numbered};
ghost use Rattle.encoding.specs.inner.Rows.{IsEncoding, row_view, sized, vertices_of};
ghost use Rattle.encoding.specs.Views.{vertex_view, vertex_views};

use crate::naming::named;
use crate::vertex::Vertex;
use catalogue::catalogues_are_well_formed;
use numbering::{KnownProblem, Table, space_of};
use std::alloc::{AllocError, Global};
use vertices::VertexRef;

/// A vertex, and how many states it has.
#[derive(Drop)]
pub(crate) struct Row {
    pub(crate) vertex: Vertex,
    pub(crate) space: u32,
}

/// Every vertex of the manifest and the loaded index.
pub(crate) fn every_row(alloc: Global, known: &KnownProblem<'_>) -> Result<Vec<Row>, AllocError>
    requires default { KnowsDefault known.now }
    ensures { IfOk result (λ rows. IsEncoding (problem known.now) rows.items) }
{
    catalogues_are_well_formed(known.problem.manifest, known.problem.catalogue);
    let vertices = named(alloc, known)?;
    let table = numbered(alloc, vertices.as_slice())?;
    sized_rows(alloc, known, &table)
}

/// The vertices of these by number, each where it comes first.
pub(crate) fn numbered<'a>(
    alloc: Global,
    vertices: &[VertexRef<'a>],
) -> Result<Table<'a>, AllocError>
    ensures { IfOk result (λ t. t ≡ numbered [] (vertex_views vertices.now)) }
{
    let mut table = Table::new(alloc);
    'vertices: for vertex in vertices.iter() {
        table.put(*vertex)?;
    }
    Ok(table)
}

/// The vertices of a table, in its order.
fn sized_rows(
    alloc: Global,
    known: &KnownProblem<'_>,
    table: &Table<'_>,
) -> Result<Vec<Row>, AllocError>
    ensures { IfOk result (λ rows. map row_view rows.items ≡ map (sized (problem known.now)) table.now) }
{
    let mut rows = Vec::new(alloc);
    'vertices: for number in 0..table.len() {
        put_row(alloc, known, table, &mut rows, number)?;
    }
    Ok(rows)
}

/// The row of the vertex with a number, if there is one.
fn put_row(
    alloc: Global,
    known: &KnownProblem<'_>,
    table: &Table<'_>,
    rows: &mut Vec<Row>,
    number: usize,
) -> Result<(), AllocError>
    ensures { OnOk result ((v : model) → slice_get table.now number ≡ Some v
        → map row_view rows.new.items ≡ map row_view rows.old.items ++ sized (problem known.now) v ∷ []) }
{
    match table.vertex(number) {
        Some(vertex) => push_row(alloc, known, rows, &vertex),
        None => Ok(()),
    }
}

/// The row of a vertex, in memory of its own.
fn push_row(
    alloc: Global,
    known: &KnownProblem<'_>,
    rows: &mut Vec<Row>,
    vertex: &VertexRef<'_>,
) -> Result<(), AllocError>
    ensures { OnOk result (map row_view rows.new.items
        ≡ map row_view rows.old.items ++ sized (problem known.now) (vertex_ref_view vertex.now) ∷ []) }
{
    let space = space_of(alloc, known, vertex)? as u32;
    let vertex = Vertex::of(*vertex)?;
    rows.push(Row { vertex, space })?;
    Ok(())
}

/// The place of the row that has a vertex.
pub(crate) fn place_of(rows: &[Row], wanted: &VertexRef<'_>) -> Option<usize>
    ensures { result ≡ position (λ r. same_vertex (vertex_ref_view wanted.now) (vertex_view r.vertex)) rows.now }
{
    rows.iter().position(|row| *wanted == row.vertex.borrowed())
}

/// The vertices of rows, borrowed.
pub(crate) fn borrowed<'a>(alloc: Global, rows: &'a [Row]) -> Result<Vec<VertexRef<'a>>, AllocError>
    ensures { IfOk result (λ vs. vertex_views vs.items ≡ vertices_of rows.entry.now) }
{
    let mut vertices = Vec::new(alloc);
    'rows: for row in rows.iter() {
        vertices.push(row.vertex.borrowed())?;
    }
    Ok(vertices)
}
