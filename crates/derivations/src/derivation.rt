//! Derivations, and building them step by step.

ghost use Rattle.std.specs.Prelude.{◌≡◌, ◌<◌, ◌++◌, ◌∷◌, [], IfOk, OnErr, OnOk, length};
ghost use Rattle.model.specs.Derivation.{given, combine};
ghost use Rattle.vertices.specs.Texts.{kind_view, IsReadVertex};
ghost use Rattle.vertices.specs.inner.RefViews.{vertex_ref_view};
ghost use Rattle.derivations.specs.inner.Building.{AreNewTerms, ordered_terms};
ghost use Rattle.derivations.specs.inner.Derivations.{IsDerivation, IsStepAt};
ghost use Rattle.derivations.specs.inner.Earlier.{IsReading};
ghost use Rattle.derivations.specs.inner.Named.{named_views, named_step_from, set_in_order_views};
ghost use Rattle.derivations.specs.inner.References.{references_at};
ghost use Rattle.derivations.specs.inner.Tables.{AreStepsOf, steps_at};

use crate::keeping_spelt::keep_named;
use crate::named::{NamedTerm, SetInOrder, named_in_order};
use crate::spelt::Spelling;
use crate::step::{Origin, Step};
use crate::tables::Tables;
use std::alloc::{AllocError, Global};
use std::marker::Model;
use vertices::{Kind, VertexRef};

/// Why there is no selection: steps, each by an axiom or from two earlier ones. Terms stand by the bytes of their
/// vertices' texts, states `absent` first and then oldest or lowest first, none of them twice, and each vertex, state
/// and version is what its own text reads as.
///
/// It may have any number of steps. Each vertex, state and set of states is kept once, and steps name them by numbers.
#[derive(Drop)]
pub struct Derivation {
    tables: Tables,
    steps: Vec<Step>,
}

impl Model for Derivation {
    ghost use Rattle.std.specs.Prelude.{List};
    ghost use Rattle.model.specs.Derivation as model;
    ghost use Rattle.derivations.specs.inner.Derivations.{IsDerivation};
    ghost use Rattle.derivations.specs.inner.Tables.{AreStepsOf, steps_at};

    ghost Value = { List model.Step };

    ghost view = { λ d. steps_at d.tables d.steps.items };

    ghost invariant = { λ d. AreStepsOf d.tables d.steps.items × IsDerivation (steps_at d.tables d.steps.items) };
}

impl Derivation {
    /// No steps yet.
    pub fn new(alloc: Global) -> Derivation
        ensures { result ≡ [] }
    {
        Derivation {
            tables: Tables::new(alloc),
            steps: Vec::new(alloc),
        }
    }

    /// The derivation of steps, whose vertices and states tables have.
    pub(crate) fn of(tables: Tables, steps: Vec<Step>) -> Derivation
        requires { IsReading tables steps.items }
        ensures { result ≡ steps_at tables steps.items }
    {
        Derivation { tables, steps }
    }

    /// How many steps it has.
    pub fn len(&self) -> usize
        ensures { result ≡ length self.now }
    {
        self.steps.len()
    }

    /// Its steps, numbered from 0, and the tables that have their vertices and states.
    pub fn parts(&self) -> (&Tables, &[Step])
        ensures steps { steps_at result.0.now result.1.now ≡ self.now }
        ensures within { AreStepsOf result.0.now result.1.now }
        ensures derivation { IsDerivation self.now }
    {
        (&self.tables, self.steps.as_slice())
    }

    /// The numbers of the two steps that the step of this number combines, if it does.
    pub fn references(&self, number: usize) -> Option<(u64, u64)>
        ensures { result ≡ references_at self.now number }
    {
        match self.steps.get(number) {
            Some(step) => step.origin.references(),
            None => None,
        }
    }

    /// A vertex that is spelt and gets its number once, to stand in terms of any number of steps.
    ///
    /// # Errors
    /// Memory is wanting.
    pub fn spell(&mut self, alloc: Global, vertex: VertexRef<'_>) -> Result<Spelling, AllocError>
        requires { IsReadVertex (vertex_ref_view vertex) }
        ensures steps { self.new ≡ self.old }
        ensures vertex { IfOk result (λ s. s ≡ vertex_ref_view vertex.entry) }
    {
        let first = Spelling::new(alloc, vertex, 0)?;
        let number = self.tables.add_spelling(alloc, &first)?;
        Spelling::new(alloc, vertex, number)
    }

    /// Puts an axiom at the end. Its terms, and the states of each, may stand in any order: they are put into the
    /// written one.
    ///
    /// # Errors
    /// Memory is wanting, and then nothing has changed.
    pub fn push_named_axiom(
        &mut self,
        alloc: Global,
        kind: Kind,
        terms: &[NamedTerm<'_, '_, '_>],
    ) -> Result<(), AllocError>
        requires { AreNewTerms (named_views terms.now) }
        ensures ok { OnOk result
            (self.new ≡ self.old ++ given (kind_view kind) (ordered_terms (named_views terms.now)) ∷ []) }
        ensures err { OnErr result (self.new ≡ self.old) }
    {
        let ordered = named_in_order(alloc, terms)?;
        self.push_named(alloc, Origin::Axiom(kind), ordered)
    }

    /// Puts a combination of two earlier steps at a vertex at the end, and its terms into the written order.
    ///
    /// # Errors
    /// Memory is wanting, and then nothing has changed.
    pub fn push_named_combination(
        &mut self,
        alloc: Global,
        first: u64,
        second: u64,
        vertex: &Spelling,
        terms: &[NamedTerm<'_, '_, '_>],
    ) -> Result<(), AllocError>
        requires first { first < length self.old }
        requires second { second < length self.old }
        requires vertex { IsReadVertex vertex.now }
        requires terms { AreNewTerms (named_views terms.now) }
        ensures ok { OnOk result
            (self.new ≡ self.old ++ combine first second vertex.now (ordered_terms (named_views terms.now)) ∷ []) }
        ensures err { OnErr result (self.new ≡ self.old) }
    {
        let ordered = named_in_order(alloc, terms)?;
        self.push_named(alloc, Origin::Combination(first, second, vertex), ordered)
    }

    /// Puts a step at spelt vertices at the end.
    fn push_named(
        &mut self,
        alloc: Global,
        origin: Origin<&Spelling>,
        terms: Vec<SetInOrder<'_, '_, '_>>,
    ) -> Result<(), AllocError>
        requires { IsStepAt (length self.old) (named_step_from origin (set_in_order_views terms.items)) }
        ensures ok { OnOk result
            (self.new ≡ self.old ++ named_step_from origin.entry (set_in_order_views terms.entry.items) ∷ []) }
        ensures err { OnErr result (self.new ≡ self.old) }
    {
        let kept = keep_named(alloc, &mut self.tables, &self.steps, origin, terms)?;
        self.steps.push(kept)?;
        Ok(())
    }
}
