//! What is looked up in the manifest and the loaded index for a vertex in a state.

ghost use Rattle.std.specs.Prelude.{◌≡◌, ◌<◌, IfOk, Some, codes, length, slice_get};
ghost use Rattle.catalogue.specs.Problems.{problem_in};
ghost use Rattle.model.specs.Vertices.{Vertex as model, space};
ghost use Rattle.numbering.specs.inner.Assignments.{state_at};
ghost use Rattle.numbering.specs.GivenViews.{given_views};
ghost use Rattle.numbering.specs.Pairs.{IsGivenAt};
ghost use Rattle.vertices.specs.Views.{state_view};
ghost use Rattle.encoding.specs.Encodings.{AreVertices};
ghost use Rattle.encoding.specs.inner.Rows.{vertices_of};
ghost use Rattle.encoding.specs.Views.{vertex_view};

use crate::rows::{Row, borrowed, numbered};
use crate::vertex::{Vertex, state_of};
use catalogue::Catalogue;
use features::{FeatureName, NameFault};
use incompatibilities::Incompatibility;
use manifest::Manifest;
use numbering::{KnownProblem, axioms_at, state_at};
use std::alloc::{AllocError, Global};
use version_sets::States;
use vertices::{Kind, State};

/// The name of the feature `default`.
pub(crate) fn default_name(alloc: Global) -> Result<FeatureName, AllocError>
    ensures { IfOk result (λ n. n ≡ codes "default") }
{
    match FeatureName::parse(alloc, "default") {
        Ok(name) => Ok(name),
        Err(NameFault::OutOfMemory) => Err(AllocError),
        Err(NameFault::NotAName) => unreachable!(),
    }
}

/// The state of a vertex that has this number.
pub(crate) fn value_of<'a>(
    alloc: Global,
    manifest: &'a Manifest,
    catalogue: &'a Catalogue,
    default: &'a FeatureName,
    vertex: &'a Vertex,
    state: usize,
) -> Result<State, AllocError>
    requires default { default.now ≡ codes "default" }
    ensures { IfOk result (λ s. state_view s
        ≡ state_at (problem_in manifest.entry.now catalogue.entry.now) (vertex_view vertex.entry.now) state) }
{
    let known = KnownProblem::new(alloc, manifest, catalogue, default);
    let vertex = vertex.borrowed();
    let state = state_at(alloc, &known, &vertex, state)?;
    state_of(state)
}

/// The instances of a vertex in a state, by their numbers.
pub(crate) fn pair_axioms<'a, S: States + Drop>(
    alloc: Global,
    manifest: &'a Manifest,
    catalogue: &'a Catalogue,
    default: &'a FeatureName,
    rows: &'a [Row],
    vertex: usize,
    state: usize,
) -> Result<Vec<(Kind, Incompatibility<S>)>, AllocError>
    requires default { default.now ≡ codes "default" }
    requires vertices { AreVertices (problem_in manifest.now catalogue.now) (vertices_of rows.now) }
    requires state { (v : model) → slice_get (vertices_of rows.now) vertex ≡ Some v
        → state < length (space (problem_in manifest.now catalogue.now) v) }
    ensures { IfOk result (λ xs. (v : model) → slice_get (vertices_of rows.entry.now) vertex ≡ Some v → IsGivenAt
        (problem_in manifest.entry.now catalogue.entry.now) (vertices_of rows.entry.now)
        (v, state_at (problem_in manifest.entry.now catalogue.entry.now) v state) (given_views S.tests xs.items)) }
{
    let known = KnownProblem::new(alloc, manifest, catalogue, default);
    let vertices = borrowed(alloc, rows)?;
    let mut table = numbered(alloc, vertices.as_slice())?;
    axioms_at(alloc, &known, &mut table, vertex, state)
}
