//! Gathering what the numbers of steps stand for.

ghost use Rattle.std.specs.Prelude.{◌≡◌, ◌<◌, ◌≤◌, ℕ, IfOk, None, OnOk, length, map, slice_index_or, string_bytes};
ghost use Rattle.std.specs.List.{AllByRecursion};
ghost use Rattle.std.specs.List.Sorted.{IsStrictlySortedBy};
ghost use Rattle.vertices.specs.Orders.{state_cmp};
ghost use Rattle.vertices.specs.Texts.{vertex_text};
ghost use Rattle.vertices.specs.Views.{vertex_view};
ghost use Rattle.derivations.specs.inner.Tables.{AreStatesOf, set_at};
ghost use Rattle.checker.specs.inner.Names.{AreSets, AreTexts, IsMade, named_set};
ghost use Rattle.checker.specs.inner.Naming.{AreNamed, IsNaming, IsGrown, IsNamed};
ghost use Rattle.checker.specs.inner.Ready.{AreReadySteps, tables_of};
ghost use Rattle.checker.specs.inner.Steps.{AreOrderedSteps, IsOrderedTerm};

use crate::names::Names;
use crate::ranks::ranks_of;
use crate::states::read_states;
use derivations::{Step, Tables, Term};
use lookups::StateSet;
use std::alloc::{AllocError, Global};
use vertices::Vertex;

/// What the steps so far name.
#[derive(Drop)]
pub(crate) struct Naming<'a> {
    tables: &'a Tables,
    /// The texts of vertices, by number.
    texts: Vec<String>,
    /// By number, the sets that terms name.
    sets: Vec<Option<StateSet<'a>>>,
}

/// What the numbers of steps stand for.
///
/// # Errors
/// Want of memory.
pub(crate) fn names_of<'a>(
    alloc: Global,
    tables: &'a Tables,
    steps: &[Step],
) -> Result<Names<'a>, AllocError>
    requires { AreOrderedSteps tables.now steps.now }
    ensures tables { IfOk result (λ d. tables_of d ≡ tables.entry.now) }
    ensures ready { IfOk result (λ d. AreReadySteps d steps.now) }
{
    let mut naming = Naming {
        tables,
        texts: Vec::new(alloc),
        sets: Vec::new(alloc),
    };
    'steps: for step in steps {
        naming.add_terms(alloc, &step.terms)?;
    }
    naming.finish(alloc)
}

impl<'a> Naming<'a> {
    /// Adds what the terms of a step name.
    fn add_terms(&mut self, alloc: Global, terms: &[Term]) -> Result<(), AllocError>
        requires sound { IsNaming self.old.tables.now self.old }
        requires terms { AllByRecursion (IsOrderedTerm self.old.tables.now) terms.now }
        ensures grown { OnOk result (IsGrown self.old.tables.now self.old self.new) }
        ensures named { OnOk result (AreNamed self.old.tables.now self.new terms.now) }
    {
        'terms: for term in terms {
            self.add_term(alloc, term)?;
        }
        Ok(())
    }

    fn add_term(&mut self, alloc: Global, term: &Term) -> Result<(), AllocError>
        requires sound { IsNaming self.old.tables.now self.old }
        requires term { IsOrderedTerm self.old.tables.now term.now }
        ensures grown { OnOk result (IsGrown self.old.tables.now self.old self.new) }
        ensures named { OnOk result (IsNamed self.old.tables.now self.new term.now) }
    {
        add_texts(alloc, self.tables, &mut self.texts, term.vertex)?;
        add_set(alloc, self.tables, &mut self.sets, term.states)
    }

    fn finish(self, alloc: Global) -> Result<Names<'a>, AllocError>
        requires { IsNaming self.tables.now self }
        ensures tables { IfOk result (λ d. tables_of d ≡ self.entry.tables.now) }
        ensures bound { IfOk result (λ d. length d.ranks.items ≡ length self.entry.texts.items) }
        ensures sets { IfOk result (λ d. d.sets.items ≡ self.entry.sets.items) }
    {
        let ranks = ranks_of(alloc, &self.texts)?;
        Ok(Names::new(self.tables, ranks, self.sets))
    }
}

/// Adds the texts of the vertices up to this one.
fn add_texts(
    alloc: Global,
    tables: &Tables,
    texts: &mut Vec<String>,
    vertex: usize,
) -> Result<(), AllocError>
    requires vertex { vertex < length tables.now.vertices }
    requires texts { AreTexts tables.now (map string_bytes texts.old.items) }
    ensures texts { OnOk result (AreTexts tables.now (map string_bytes texts.new.items)) }
    ensures more { OnOk result (length texts.old.items ≤ length texts.new.items) }
    ensures there { OnOk result (vertex < length texts.new.items) }
{
    'vertices: while texts.len() <= vertex {
        let text = text_of(alloc, tables.vertex(texts.len()))?;
        texts.push(text)?;
    }
    Ok(())
}

fn text_of(alloc: Global, vertex: &Vertex) -> Result<String, AllocError>
    ensures { IfOk result (λ t. string_bytes t ≡ vertex_text (vertex_view vertex.now)) }
{
    let mut text = String::new(alloc);
    write!(text, "{vertex}")?;
    Ok(text)
}

/// Makes the set of this number, unless it is made.
fn add_set<'a>(
    alloc: Global,
    tables: &'a Tables,
    sets: &mut Vec<Option<StateSet<'a>>>,
    number: usize,
) -> Result<(), AllocError>
    requires number { number < length tables.now.sets }
    requires within { AreStatesOf tables.now (set_at tables.now number) }
    requires ordered { IsStrictlySortedBy state_cmp (named_set tables.now number) }
    requires sets { AreSets tables.now sets.old.items }
    ensures sets { OnOk result (AreSets tables.entry.now sets.new.items) }
    ensures stay { OnOk result
        ((n : ℕ) → IsMade tables.entry.now sets.old.items n → IsMade tables.entry.now sets.new.items n) }
    ensures made { OnOk result (IsMade tables.entry.now sets.new.items number) }
{
    add_places(sets, number)?;
    if sets[number].is_some() {
        return Ok(());
    }
    sets[number] = Some(read_states(alloc, tables, tables.set(number))?);
    Ok(())
}

/// Adds places up to this one.
fn add_places<'a>(sets: &mut Vec<Option<StateSet<'a>>>, number: usize) -> Result<(), AllocError>
    ensures same { (n : ℕ) → slice_index_or sets.new.items n None ≡ slice_index_or sets.old.items n None }
    ensures more { length sets.old.items ≤ length sets.new.items }
    ensures there { OnOk result (number < length sets.new.items) }
{
    'places: while sets.len() <= number {
        sets.push(None)?;
    }
    Ok(())
}
