//! The vertices that are spoken of, spelt once each, and their states, listed once each.

ghost use Rattle.std.specs.Prelude.{◌≡◌, ◌<◌, ℕ, None, OnOk, Some, length, slice_get, slice_index_or, true};
ghost use Rattle.std.specs.List.{All};
ghost use Rattle.model.specs.Content.{Problem};
ghost use Rattle.vertices.specs.inner.RefViews.{vertex_ref_view};
ghost use Rattle.vertices.specs.Texts.{IsReadVertex};
ghost use Rattle.numbering.specs.inner.KnownProblem.{problem};
ghost use Rattle.numbering.specs.Numberings.{Numbering};
ghost use Rattle.solver.specs.Refusing.{AreKept, AreListed, AreReadVertices, AreSpelt, IsListed, IsNamed, is_listed};

use crate::flat::Source;
use derivations::{Derivation, Spelling};
use numbering::{KnownProblem, Table, states_of};
use std::alloc::{AllocError, Global};
use terms::Term;
use version_sets::States;
use vertices::{StateRef, VertexRef};

/// A vertex and its states, in their order.
#[derive(Drop)]
pub(crate) struct Space<'a> {
    pub spelling: Spelling,
    pub states: Vec<StateRef<'a>>,
}

/// Vertices and their states by the vertices' numbers; none at the numbers of those that aren't listed.
#[derive(Drop)]
pub(crate) struct Spaces<'a> {
    listed: Vec<Option<Space<'a>>>,
}

/// Adds places up to this one.
fn add_places<'a>(listed: &mut Vec<Option<Space<'a>>>, number: usize) -> Result<(), AllocError>
    ensures same { (n : ℕ) → slice_index_or listed.new.items n None ≡ slice_index_or listed.old.items n None }
    ensures there { OnOk result (number < length listed.new.items) }
{
    'places: while listed.len() <= number {
        listed.push(None)?;
    }
    Ok(())
}

impl<'a> Spaces<'a> {
    /// None are listed yet.
    pub(crate) fn new(alloc: Global) -> Spaces<'a>
        ensures listed { (q : Problem) (vs : Numbering) → AreListed q vs result }
        ensures spelt { (vs : Numbering) → AreSpelt vs result }
    {
        Spaces {
            listed: Vec::new(alloc),
        }
    }

    /// Lists a vertex and its states.
    fn list_vertex(
        &mut self,
        alloc: Global,
        known: &KnownProblem<'a>,
        table: &Table<'a>,
        steps: &mut Derivation,
        number: usize,
        vertex: VertexRef<'a>,
    ) -> Result<(), AllocError>
        requires listed { AreListed (problem known.now) table.now self.old }
        requires spelt { AreSpelt table.now self.old }
        requires there { slice_get table.now number ≡ Some (vertex_ref_view vertex) }
        requires valid { IsReadVertex (vertex_ref_view vertex) }
        ensures listed { AreListed (problem known.now) table.now self.new }
        ensures spelt { AreSpelt table.now self.new }
        ensures steps { steps.new ≡ steps.old }
        ensures kept { AreKept self.old self.new }
        ensures there { OnOk result (is_listed self.new number ≡ true) }
    {
        let spelling = steps.spell(alloc, vertex)?;
        let states = states_of(alloc, known, &vertex)?;
        add_places(&mut self.listed, number)?;
        self.listed[number] = Some(Space { spelling, states });
        Ok(())
    }

    /// Whether a vertex is listed for a number.
    fn has(&self, number: usize) -> bool
        ensures { result ≡ is_listed self.now number }
    {
        match self.listed.get(number) {
            Some(space) => space.is_some(),
            None => false,
        }
    }

    /// Lists the vertex of a number, if it isn't yet.
    pub(crate) fn list(
        &mut self,
        alloc: Global,
        known: &KnownProblem<'a>,
        table: &Table<'a>,
        steps: &mut Derivation,
        number: usize,
    ) -> Result<(), AllocError>
        requires listed { AreListed (problem known.now) table.now self.old }
        requires spelt { AreSpelt table.now self.old }
        requires valid { AreReadVertices table.now }
        ensures listed { AreListed (problem known.now) table.now self.new }
        ensures spelt { AreSpelt table.now self.new }
        ensures steps { steps.new ≡ steps.old }
        ensures kept { AreKept self.old self.new }
        ensures there { OnOk result (IsListed table.now self.new number) }
    {
        if self.has(number) {
            return Ok(());
        }
        match table.vertex(number) {
            Some(vertex) => self.list_vertex(alloc, known, table, steps, number, vertex),
            None => Ok(()),
        }
    }

    /// Lists the vertices of terms.
    pub(crate) fn list_each<S: States + Drop>(
        &mut self,
        alloc: Global,
        known: &KnownProblem<'a>,
        table: &Table<'a>,
        steps: &mut Derivation,
        terms: &[Term<S>],
    ) -> Result<(), AllocError>
        requires listed { AreListed (problem known.now) table.now self.old }
        requires spelt { AreSpelt table.now self.old }
        requires valid { AreReadVertices table.now }
        ensures listed { AreListed (problem known.now) table.now self.new }
        ensures spelt { AreSpelt table.now self.new }
        ensures steps { steps.new ≡ steps.old }
        ensures kept { AreKept self.old self.new }
        ensures there { OnOk result (All (λ t. IsListed table.now self.new t.vertex) terms.now) }
    {
        'terms: for term in terms.iter() {
            self.list(alloc, known, table, steps, term.vertex)?;
        }
        Ok(())
    }

    /// Lists the vertex at which two are combined.
    pub(crate) fn list_source(
        &mut self,
        alloc: Global,
        known: &KnownProblem<'a>,
        table: &Table<'a>,
        steps: &mut Derivation,
        source: Source,
    ) -> Result<(), AllocError>
        requires listed { AreListed (problem known.now) table.now self.old }
        requires spelt { AreSpelt table.now self.old }
        requires valid { AreReadVertices table.now }
        ensures listed { AreListed (problem known.now) table.now self.new }
        ensures spelt { AreSpelt table.now self.new }
        ensures steps { steps.new ≡ steps.old }
        ensures there { OnOk result (IsNamed table.now self.new source) }
    {
        match source {
            Source::Axiom(_) => Ok(()),
            Source::Combined { vertex, .. } => self.list(alloc, known, table, steps, vertex),
        }
    }

    /// What is listed for a number.
    pub(crate) fn space(&self, number: usize) -> &Space<'a>
        requires { is_listed self.now number ≡ true }
        ensures { slice_index_or self.now.listed.items number None ≡ Some result.now }
    {
        match &self.listed[number] {
            Some(space) => space,
            None => unreachable!(),
        }
    }
}
