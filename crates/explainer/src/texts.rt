//! The texts of what steps name by numbers.

ghost use Rattle.std.specs.Prelude.{◌≡◌, ◌<◌, ◌++◌, IfOk, OnOk, codes, length, map, string_bytes};
ghost use Rattle.std.specs.List.{AllByRecursion};
ghost use Rattle.vertices.specs.Texts.{state_text, vertex_text};
ghost use Rattle.derivations.specs.inner.Tables.{AreStatesOf, set_at, state_at, vertex_at};
ghost use Rattle.explainer.specs.Explanations.{text_if};
ghost use Rattle.explainer.specs.inner.Texts.{set_words, sets_words};

use derivations::Tables;
use std::alloc::{AllocError, Global};
use std::marker::Model;

/// The tables of a derivation, and the text of each set of states: so each is made once, however many terms have it.
#[derive(Drop)]
pub(crate) struct Texts<'a> {
    tables: &'a Tables,
    sets: Vec<String>,
}

impl<'a> Model for Texts<'a> {
    ghost use Rattle.std.specs.Prelude.{◌≡◌, map, string_bytes};
    ghost use Rattle.derivations.specs.inner.Tables.{TablesView};
    ghost use Rattle.explainer.specs.inner.Texts.{sets_words};

    ghost Value = { TablesView };

    ghost view = { λ t. t.tables.now };

    ghost invariant = { λ t. map string_bytes t.sets.items ≡ sets_words t.tables.now t.tables.now.sets };
}

impl<'a> Texts<'a> {
    pub(crate) fn new(alloc: Global, tables: &'a Tables) -> Result<Texts<'a>, AllocError>
        ensures { IfOk result (λ t. t ≡ tables.entry.now) }
    {
        let sets = sets_in(alloc, tables, tables.sets())?;
        Ok(Texts { tables, sets })
    }

    /// The text of the vertex of this number.
    pub(crate) fn vertex(&self, number: usize) -> &str
        requires { number < length self.now.vertices }
        ensures { result.now ≡ vertex_text (vertex_at self.now number) }
    {
        self.tables.vertex_text(number)
    }

    /// The texts of the states in the set of this number, with commas between.
    pub(crate) fn set(&self, number: usize) -> &str
        requires { number < length self.now.sets }
        ensures { result.now ≡ set_words self.now (set_at self.now number) }
    {
        self.sets[number].as_str()
    }
}

fn sets_in(alloc: Global, tables: &Tables, sets: &[Vec<usize>]) -> Result<Vec<String>, AllocError>
    requires { AllByRecursion (AreStatesOf tables.now) (map (λ s. s.items) sets.now) }
    ensures { IfOk result (λ v. map string_bytes v.items ≡ sets_words tables.now (map (λ s. s.items) sets.now)) }
{
    let mut texts = Vec::with_capacity(alloc, sets.len())?;
    'sets: for set in sets {
        texts.push(set_text(alloc, tables, set)?)?;
    }
    Ok(texts)
}

fn set_text(alloc: Global, tables: &Tables, states: &[usize]) -> Result<String, AllocError>
    requires { AreStatesOf tables.now states.now }
    ensures { IfOk result (λ t. string_bytes t ≡ set_words tables.now states.now) }
{
    let mut text = String::new(alloc);
    push_states(&mut text, tables, states)?;
    Ok(text)
}

fn push_states(text: &mut String, tables: &Tables, states: &[usize]) -> Result<(), AllocError>
    requires { AreStatesOf tables.now states.now }
    ensures { OnOk result (string_bytes text.new ≡ string_bytes text.old ++ set_words tables.now states.now) }
{
    let mut later = false;
    'states: for number in states {
        push_state(text, later, tables, *number)?;
        later = true;
    }
    Ok(())
}

/// A state, after a comma if it is a later one.
fn push_state(
    text: &mut String,
    later: bool,
    tables: &Tables,
    number: usize,
) -> Result<(), AllocError>
    requires { number < length tables.now.states }
    ensures { OnOk result (string_bytes text.new
        ≡ string_bytes text.old ++ (text_if later (codes ", ") ++ state_text (state_at tables.now number))) }
{
    push_if(text, later, ", ")?;
    text.push_str(tables.state_text(number))
}

/// A text before a later one.
pub(crate) fn push_if(text: &mut String, later: bool, between: &str) -> Result<(), AllocError>
    ensures { OnOk result (string_bytes text.new ≡ string_bytes text.old ++ text_if later between.now) }
{
    if later {
        text.push_str(between)
    } else {
        Ok(())
    }
}
