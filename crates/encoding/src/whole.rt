//! The encoding of a manifest and a loaded index.

ghost use Rattle.std.specs.Prelude.{◌≡◌, ◌<◌, Some, IfOk, OnOk, is_some, length, slice_get, suc, take};
ghost use Rattle.catalogue.specs.Problems.{problem_in};
ghost use Rattle.model.specs.Vertices.{Vertex as model, space};
ghost use Rattle.numbering.specs.GivenViews.{given_views};
ghost use Rattle.numbering.specs.Numberings.{number_in};
ghost use Rattle.vertices.specs.Views.{state_view};
ghost use Rattle.encoding.specs.Encodings.{AreVertices, IsGivenIf, pair_at};
ghost use Rattle.encoding.specs.Everywhere.{IsGivenAll, IsGivenFor, all_pairs};
ghost use Rattle.encoding.specs.Views.{vertex_view};

use crate::pair::{default_name, pair_axioms, value_of};
use crate::rows::{Row, every_row, place_of};
use crate::vertex::Vertex;
use catalogue::{Catalogue, catalogues_are_well_formed};
use incompatibilities::Incompatibility;
use manifest::Manifest;
use numbering::KnownProblem;
use std::alloc::{AllocError, Global};
use std::marker::Model;
use version_sets::States;
use vertices::{Kind, State};

/// Every vertex by number, its states by number, and the axioms over them.
///
/// State 0 is absent; the versions of a package follow oldest first, the classes of a dependency lowest first.
#[derive(Drop)]
pub struct Encoding<'a> {
    alloc: Global,
    manifest: &'a Manifest,
    catalogue: &'a Catalogue,
    /// At the place of its number, each vertex.
    rows: Vec<Row>,
}

impl<'a> Model for Encoding<'a> {
    ghost use Rattle.catalogue.specs.Problems.{problem_in};
    ghost use Rattle.encoding.specs.Encodings.{EncodingView};
    ghost use Rattle.encoding.specs.inner.Rows.{IsEncoding, vertices_of};

    ghost Value = { EncodingView };

    ghost view = { λ e. record {
      problem = problem_in e.manifest.now e.catalogue.now;
      vertices = vertices_of e.rows.items;
    } };

    ghost invariant = { λ e. IsEncoding (problem_in e.manifest.now e.catalogue.now) e.rows.items };
}

impl<'a> Encoding<'a> {
    /// The encoding of a manifest and a loaded index.
    ///
    /// # Errors
    /// Memory is wanting.
    pub fn new(
        alloc: Global,
        manifest: &'a Manifest,
        catalogue: &'a Catalogue,
    ) -> Result<Encoding<'a>, AllocError>
        ensures { IfOk result (λ e. e.problem ≡ problem_in manifest.entry.now catalogue.entry.now) }
    {
        let default = default_name(alloc)?;
        let known = KnownProblem::new(alloc, manifest, catalogue, &default);
        let rows = every_row(alloc, &known)?;
        Ok(Encoding {
            alloc,
            manifest,
            catalogue,
            rows,
        })
    }

    /// A law, the call does nothing: each vertex has one number, and nothing else has.
    pub fn numbers_every_vertex(&self)
        ensures { AreVertices self.now.problem self.now.vertices }
    {
        let _ = self.rows.len();
    }

    /// How many vertices there are.
    pub fn len(&self) -> usize
        ensures { result ≡ length self.now.vertices }
    {
        self.rows.len()
    }

    /// The number of a vertex.
    pub fn number(&self, vertex: &Vertex) -> Option<usize>
        ensures { result ≡ number_in self.now.vertices (vertex_view vertex.now) }
    {
        let wanted = vertex.borrowed();
        place_of(self.rows.as_slice(), &wanted)
    }

    /// The vertex that has a number.
    pub fn vertex(&self, number: usize) -> &Vertex
        requires { number < length self.now.vertices }
        ensures { slice_get self.now.vertices number ≡ Some (vertex_view result.now) }
    {
        &self.rows[number].vertex
    }

    /// How many states the vertex with a number has, absent among them.
    pub fn space(&self, vertex: usize) -> u32
        requires { vertex < length self.now.vertices }
        ensures { (v : model) → slice_get self.now.vertices vertex ≡ Some v
            → result ≡ length (space self.now.problem v) }
    {
        self.rows[vertex].space
    }

    /// What the state with a number is, of the vertex with a number.
    ///
    /// # Errors
    /// Memory is wanting.
    pub fn value(&self, vertex: usize, state: usize) -> Result<State, AllocError>
        requires vertex { vertex < length self.now.vertices }
        requires state { (v : model) → slice_get self.now.vertices vertex ≡ Some v
            → state < length (space self.now.problem v) }
        ensures { IfOk result (λ s. (v : model) → slice_get self.now.vertices vertex ≡ Some v
            → slice_get (space self.now.problem v) state ≡ Some (state_view s)) }
    {
        let default = default_name(self.alloc)?;
        let vertex = &self.rows[vertex].vertex;
        value_of(
            self.alloc,
            self.manifest,
            self.catalogue,
            &default,
            vertex,
            state,
        )
    }

    /// Whether there is a vertex with a number that has a state with a number.
    fn has(&self, vertex: usize, state: usize) -> bool
        ensures { result ≡ is_some (pair_at self.now vertex state) }
    {
        if vertex < self.len() {
            state < self.space(vertex) as usize
        } else {
            false
        }
    }

    /// The instances whose first term is the vertex with a number, in the state with a number, each once and with its
    /// kind: for the root also that of its absence. There are none where there is no such vertex or state.
    ///
    /// # Errors
    /// Memory is wanting.
    pub fn axioms_at<S: States + Drop>(
        &self,
        vertex: usize,
        state: usize,
    ) -> Result<Vec<(Kind, Incompatibility<S>)>, AllocError>
        ensures { IfOk result (λ xs. IsGivenIf self.now.problem self.now.vertices (pair_at self.now vertex state)
            (given_views S.tests xs.items)) }
    {
        if !self.has(vertex, state) {
            return Ok(Vec::new(self.alloc));
        }
        let default = default_name(self.alloc)?;
        pair_axioms(
            self.alloc,
            self.manifest,
            self.catalogue,
            &default,
            self.rows.as_slice(),
            vertex,
            state,
        )
    }

    /// All instances, each once and with its kind.
    ///
    /// # Errors
    /// Memory is wanting.
    pub fn axioms<S: States + Drop>(&self) -> Result<Vec<(Kind, Incompatibility<S>)>, AllocError>
        ensures { IfOk result
            (λ xs. IsGivenAll self.now.problem self.now.vertices (given_views S.tests xs.items)) }
    {
        self.numbers_every_vertex();
        let mut given = Vec::new(self.alloc);
        'vertices: for vertex in 0..self.len() {
            self.put_axioms(&mut given, vertex)?;
        }
        Ok(given)
    }

    /// Puts those of a vertex behind those of all before it.
    fn put_axioms<S: States + Drop>(
        &self,
        given: &mut Vec<(Kind, Incompatibility<S>)>,
        vertex: usize,
    ) -> Result<(), AllocError>
        requires vertex { vertex < length self.now.vertices }
        requires given { IsGivenFor self.now.problem self.now.vertices
            (all_pairs self.now.problem (take vertex self.now.vertices)) (given_views S.tests given.old.items) }
        ensures given { OnOk result (IsGivenFor self.now.problem self.now.vertices
            (all_pairs self.now.problem (take (suc vertex) self.now.vertices)) (given_views S.tests given.new.items)) }
    {
        catalogues_are_well_formed(self.manifest, self.catalogue);
        self.numbers_every_vertex();
        let space = self.space(vertex) as usize;
        'states: for state in 0..space {
            let mut more = self.axioms_at(vertex, state)?;
            given.append(&mut more)?;
        }
        Ok(())
    }
}
