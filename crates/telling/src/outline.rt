//! Which steps of a derivation are told, and by which premises.

ghost use Rattle.std.specs.Prelude.{◌≡◌, ◌++◌, ◌∷◌, [], IfOk, OnOk, map, slice_get};
ghost use Rattle.telling.specs.inner.Outlines as outlines;
ghost use Rattle.telling.specs.inner.Outlines.{IsOutline, by_fact, fact_of, has_premise, is_plain, is_told_before};
ghost use Rattle.telling.specs.inner.Outlines.{looked_at};
ghost use Rattle.telling.specs.inner.Outlines.{merged, outline_from, premises_at, same_premise, too_many, with_premise};
ghost use Rattle.telling.specs.inner.Outlines.{with_premises, with_sentence, with_step};
ghost use Rattle.telling.specs.inner.Views.{sentence_views, so_far_view};

use crate::uses::{Uses, is_needed, uses_of};
use derivations::Derivation;
use std::alloc::{AllocError, Global};

/// Why a step holds.
#[derive(Clone, Copy, Debug)]
pub enum Premise {
    /// What axioms say: the number of a fact.
    Fact(usize),
    /// What an earlier sentence says: its place.
    Told(usize),
}

/// What is known of a step by itself.
#[derive(Clone, Copy, Debug)]
pub struct Note {
    /// The number of the fact that it says, if it is an axiom that says one.
    pub fact: Option<usize>,
    /// Whether what it says is plain: of versions of packages alone.
    pub plain: bool,
}

/// A step that is told, and why it holds.
#[derive(Debug, Drop)]
pub struct Sentence {
    /// The number of the step.
    pub step: usize,
    pub premises: Vec<Premise>,
}

/// What is known of the steps so far.
#[derive(Drop)]
struct SoFar {
    sentences: Vec<Sentence>,
    /// For each step what is told where it is combined.
    said: Vec<Vec<Premise>>,
}

/// The sentences that tell a derivation: its needed steps in order, but for those that only restate a premise, and
/// those that one step alone combines and that have few premises: at most two, or five where what they say isn't plain.
/// The notes stand at the numbers of their steps.
pub fn sentences_of(
    alloc: Global,
    derivation: &Derivation,
    notes: &[Note],
) -> Result<Vec<Sentence>, AllocError>
    ensures sentences { IfOk result (λ v. sentence_views v.items ≡ outlines.sentences_of notes.now derivation.now) }
    ensures outline { IfOk result (λ v. IsOutline notes.now derivation.now (sentence_views v.items)) }
{
    let (_, steps) = derivation.parts();
    let mut so_far = SoFar {
        sentences: Vec::new(alloc),
        said: Vec::with_capacity(alloc, steps.len())?,
    };
    look_at_all(alloc, &mut so_far, derivation, notes)?;
    Ok(so_far.sentences)
}

/// Each step once, in their order: so premises are looked at before the steps that use them.
#[tactic(auto, unfolding(crate::specs::inner::Outlines::outline_from))]
fn look_at_all(
    alloc: Global,
    so_far: &mut SoFar,
    derivation: &Derivation,
    notes: &[Note],
) -> Result<(), AllocError>
    ensures { OnOk result (so_far_view so_far.new
        ≡ outline_from notes.now derivation.now 0 (outlines.uses_of derivation.now) (so_far_view so_far.old)) }
{
    let uses = uses_of(alloc, derivation)?;
    'steps: for (number, used) in uses.iter().enumerate() {
        look_at(alloc, so_far, derivation, notes, number, *used)?;
    }
    Ok(())
}

/// Takes the next step into account.
fn look_at(
    alloc: Global,
    so_far: &mut SoFar,
    derivation: &Derivation,
    notes: &[Note],
    number: usize,
    uses: Uses,
) -> Result<(), AllocError>
    ensures { OnOk result
        (so_far_view so_far.new ≡ looked_at notes.now derivation.now uses number (so_far_view so_far.old)) }
{
    if !is_needed(uses) {
        return merge(so_far, Vec::new(alloc));
    }
    let premises = premises_of(alloc, &so_far.said, derivation, notes, number)?;
    add_step(
        alloc,
        so_far,
        number,
        premises,
        uses,
        is_plain(notes, number),
    )
}

/// Adds a needed step, with a sentence or without.
fn add_step(
    alloc: Global,
    so_far: &mut SoFar,
    number: usize,
    premises: Vec<Premise>,
    uses: Uses,
    plain: bool,
) -> Result<(), AllocError>
    ensures { OnOk result
        (so_far_view so_far.new ≡ with_step plain uses number premises.items (so_far_view so_far.old)) }
{
    if is_merged(plain, uses, &premises) {
        merge(so_far, premises)
    } else {
        tell(alloc, so_far, number, premises)
    }
}

/// Whether a step with these premises has no sentence.
fn is_merged(plain: bool, uses: Uses, premises: &[Premise]) -> bool
    ensures { result ≡ outlines.is_merged plain uses premises.now }
{
    match uses {
        Uses::Never => true,
        Uses::Once => premises.len() < too_many(plain),
        Uses::Often => premises.len() < 2,
        Uses::End => is_told_before(premises),
    }
}

/// How many premises are too many for a step to have no sentence.
fn too_many(plain: bool) -> usize
    ensures { result ≡ too_many plain }
{
    if plain { 3 } else { 6 }
}

fn is_plain(notes: &[Note], number: usize) -> bool
    ensures { result ≡ is_plain (slice_get notes.now number) }
{
    match notes.get(number) {
        Some(note) => note.plain,
        None => true,
    }
}

/// Whether a single sentence is the only premise.
fn is_told_before(premises: &[Premise]) -> bool
    ensures { result ≡ is_told_before premises.now }
{
    match premises {
        [Premise::Told(_)] => true,
        _ => false,
    }
}

fn merge(so_far: &mut SoFar, premises: Vec<Premise>) -> Result<(), AllocError>
    ensures { OnOk result (so_far_view so_far.new ≡ merged premises.items (so_far_view so_far.old)) }
{
    so_far.said.push(premises)?;
    Ok(())
}

/// A sentence of its own for a step: those that use the step refer to it.
fn tell(
    alloc: Global,
    so_far: &mut SoFar,
    step: usize,
    premises: Vec<Premise>,
) -> Result<(), AllocError>
    ensures { OnOk result (so_far_view so_far.new ≡ with_sentence step premises.items (so_far_view so_far.old)) }
{
    let mut told = Vec::new(alloc);
    told.push(Premise::Told(so_far.sentences.len()))?;
    so_far.sentences.push(Sentence { step, premises })?;
    so_far.said.push(told)?;
    Ok(())
}

/// Why a step holds: what it says by itself, or the premises of the two that it combines.
fn premises_of(
    alloc: Global,
    said: &[Vec<Premise>],
    derivation: &Derivation,
    notes: &[Note],
    number: usize,
) -> Result<Vec<Premise>, AllocError>
    ensures { IfOk result
        (λ v. v.items ≡ outlines.premises_of notes.now derivation.now (map (λ v. v.items) said.now) number) }
{
    match derivation.references(number) {
        Some((first, second)) => both(alloc, premises_at(said, first), premises_at(said, second)),
        None => own(alloc, notes, number),
    }
}

fn premises_at(said: &[Vec<Premise>], number: u64) -> &[Premise]
    ensures { result.now ≡ premises_at (map (λ v. v.items) said.entry.now) number }
{
    if number >= said.len() as u64 {
        return &[];
    }
    said[number as usize].as_slice()
}

/// What an axiom says by itself.
fn own(alloc: Global, notes: &[Note], number: usize) -> Result<Vec<Premise>, AllocError>
    ensures { IfOk result (λ v. v.items ≡ by_fact (fact_of (slice_get notes.now number))) }
{
    let mut premises = Vec::new(alloc);
    if let Some(fact) = fact_of(notes, number) {
        premises.push(Premise::Fact(fact))?;
    }
    Ok(premises)
}

fn fact_of(notes: &[Note], number: usize) -> Option<usize>
    ensures { result ≡ fact_of (slice_get notes.now number) }
{
    match notes.get(number) {
        Some(note) => note.fact,
        None => None,
    }
}

/// The premises of two steps, each once.
fn both(alloc: Global, first: &[Premise], second: &[Premise]) -> Result<Vec<Premise>, AllocError>
    ensures { IfOk result (λ v. v.items ≡ with_premises first.now second.now) }
{
    let mut premises = Vec::from_slice(alloc, first)?;
    add_premises(&mut premises, second)?;
    Ok(premises)
}

#[tactic(auto, unfolding(crate::specs::inner::Outlines::with_premises))]
fn add_premises(premises: &mut Vec<Premise>, more: &[Premise]) -> Result<(), AllocError>
    ensures { OnOk result (premises.new.items ≡ with_premises premises.old.items more.now) }
{
    'more: for premise in more {
        add_premise(premises, *premise)?;
    }
    Ok(())
}

fn add_premise(premises: &mut Vec<Premise>, premise: Premise) -> Result<(), AllocError>
    ensures { OnOk result (premises.new.items ≡ with_premise premises.old.items premise) }
{
    if !has_premise(premises, premise) {
        premises.push(premise)?;
    }
    Ok(())
}

fn has_premise(premises: &[Premise], premise: Premise) -> bool
    ensures { result ≡ has_premise premises.now premise }
{
    premises.iter().any(|other| is_same(premise, *other))
}

fn is_same(a: Premise, b: Premise) -> bool
    ensures { result ≡ same_premise a b }
{
    match (a, b) {
        (Premise::Fact(a), Premise::Fact(b)) => a == b,
        (Premise::Told(a), Premise::Told(b)) => a == b,
        _ => false,
    }
}
