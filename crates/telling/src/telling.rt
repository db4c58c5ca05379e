//! A derivation in sentences.

use crate::claim::{is_end, needed_alone, push_claim};
use crate::clauses::{Clause, clauses_of, is_told, push_facts};
use crate::facts::{Facts, facts_of};
use crate::outline::{Premise, Sentence, sentences_of};
use crate::terms::terms_of;
use derivations::Derivation;
use lookups::Problem;
use std::alloc::{AllocError, Global};

/// How many lines are told at most, unless all are asked for.
const MOST_LINES: usize = 40;

/// How many clauses one sentence has at most that tells the whole derivation.
const FEW_CLAUSES: usize = 3;

/// Of how many facts it is seen at most whether they are so few clauses.
const FEW_FACTS: usize = 16;

/// What a derivation says, a sentence a line. Of more than 40 the last ones are told, unless `all` are asked for. Where
/// all that axioms say of it is few clauses, one sentence has them all: the steps between would only restate them.
///
/// Whether a step is right is for the checker to say.
pub fn tell(
    alloc: Global,
    problem: Problem<'_>,
    derivation: &Derivation,
    all: bool,
) -> Result<String, AllocError> {
    let facts = facts_of(alloc, problem, derivation)?;
    let sentences = sentences_of(alloc, derivation, facts.notes())?;
    let numbers = numbers_of(alloc, &sentences)?;
    let whole = Whole {
        problem,
        derivation,
        facts: &facts,
        sentences: &sentences,
        numbers: &numbers,
    };
    whole.text(alloc, all)
}

/// All that a sentence may speak of.
#[derive(Clone, Copy)]
struct Whole<'w, 'a> {
    problem: Problem<'a>,
    derivation: &'a Derivation,
    facts: &'w Facts<'a>,
    sentences: &'w [Sentence],
    /// For each sentence its number, if it has one.
    numbers: &'w [Option<usize>],
}

/// For each sentence the number by which others than the next one speak of it, from 1; none where none does.
fn numbers_of(alloc: Global, sentences: &[Sentence]) -> Result<Vec<Option<usize>>, AllocError> {
    let mut marks = vec![in alloc; false; sentences.len()]?;
    for (place, sentence) in sentences.iter().enumerate() {
        mark(&mut marks, place.checked_sub(1), &sentence.premises);
    }
    let mut numbers = Vec::new(alloc);
    let mut last = 0usize;
    for mark in marks.iter() {
        if *mark {
            last = last.saturating_add(1);
        }
        numbers.push(if *mark { Some(last) } else { None })?;
    }
    Ok(numbers)
}

/// Marks the sentences among these premises, but for the one before.
fn mark(marks: &mut [bool], before: Option<usize>, premises: &[Premise]) {
    for premise in premises.iter() {
        if let Premise::Told(told) = premise {
            if !is_told(premise, before) {
                if let Some(mark) = marks.get_mut(*told) {
                    *mark = true;
                }
            }
        }
    }
}

/// The place of the first sentence that is told, so that with the line before it there are no more than may be.
fn first_told(count: usize, all: bool) -> usize {
    if all || count <= MOST_LINES {
        0
    } else {
        count - MOST_LINES + 1
    }
}

impl Whole<'_, '_> {
    /// All sentences, or the last ones; where one says it all, that one alone.
    fn text(&self, alloc: Global, all: bool) -> Result<String, AllocError> {
        let mut text = String::new(alloc);
        if let Some(sentence) = self.whole_sentence(alloc)? {
            self.push_sentence(alloc, &mut text, &sentence, None)?;
            text.push_str("\n")?;
            return Ok(text);
        }
        let from = first_told(self.sentences.len(), all);
        if from > 0 {
            writeln!(
                text,
                "note: pass `--all` to see {from} sentences before these"
            )?;
        }
        let mut before = None;
        for (place, sentence) in self.sentences.iter().enumerate() {
            if place >= from {
                self.push_sentence(alloc, &mut text, sentence, before)?;
                self.push_number(&mut text, place)?;
                text.push_str("\n")?;
                before = Some(place);
            }
        }
        Ok(text)
    }

    /// The sentence that gives all facts as premises of the last step, if these are few clauses.
    fn whole_sentence(&self, alloc: Global) -> Result<Option<Sentence>, AllocError> {
        let Some(last) = self.sentences.last() else {
            return Ok(None);
        };
        let premises = few_facts(alloc, self.sentences)?;
        if premises.is_empty() {
            return Ok(None);
        }
        let clauses = clauses_of(alloc, self.facts, &premises, None)?;
        if clauses.len() > FEW_CLAUSES {
            return Ok(None);
        }
        let step = last.step;
        Ok(Some(Sentence { step, premises }))
    }

    /// `Because .., and .., ...`, after the sentence at a place, if one is told before it.
    fn push_sentence(
        &self,
        alloc: Global,
        text: &mut String,
        sentence: &Sentence,
        before: Option<usize>,
    ) -> Result<(), AllocError> {
        let premises = sentence.premises.as_slice();
        let goes_on = premises.iter().any(|premise| is_told(premise, before));
        let clauses = clauses_of(alloc, self.facts, premises, before)?;
        text.push_str(opening(goes_on, clauses.len()))?;
        for (place, clause) in clauses.iter().enumerate() {
            push_comma(text, place, clauses.len())?;
            self.push_clause(alloc, text, clause)?;
        }
        let restated = if goes_on { before } else { None };
        self.push_joint(alloc, text, sentence.step, restated, clauses.is_empty())?;
        self.push_step(alloc, text, sentence.step)?;
        text.push_str(".")
    }

    /// What stands before what a step says, if reasons do: a comma, and where it is the end of the derivation what
    /// these exclude of what the sentence at a place says, from which it goes on.
    fn push_joint(
        &self,
        alloc: Global,
        text: &mut String,
        step: usize,
        restated: Option<usize>,
        has_none: bool,
    ) -> Result<(), AllocError> {
        if has_none {
            return Ok(());
        }
        let terms = terms_of(alloc, self.derivation, step)?;
        if !is_end(&terms) {
            return text.push_str(", ");
        }
        if let Some(excluded) = self.needed_at(alloc, restated)? {
            write!(text, ", {excluded} can't be used")?;
        }
        text.push_str(": so ")
    }

    /// What the sentence at a place says has to be used, if it says no more.
    fn needed_at(&self, alloc: Global, place: Option<usize>) -> Result<Option<String>, AllocError> {
        let Some(place) = place else {
            return Ok(None);
        };
        let Some(sentence) = self.sentences.get(place) else {
            return Ok(None);
        };
        let terms = terms_of(alloc, self.derivation, sentence.step)?;
        needed_alone(alloc, &self.problem, &terms)
    }

    /// A clause: facts of the manifest and the index, or what another sentence told, with its number.
    fn push_clause(
        &self,
        alloc: Global,
        text: &mut String,
        clause: &Clause,
    ) -> Result<(), AllocError> {
        match clause {
            Clause::Facts(numbers) => push_facts(alloc, text, &self.problem, self.facts, numbers),
            Clause::Told(place) => {
                if let Some(sentence) = self.sentences.get(*place) {
                    self.push_step(alloc, text, sentence.step)?;
                }
                self.push_number(text, *place)
            }
        }
    }

    /// The number of the sentence at a place, if it has one.
    fn push_number(&self, text: &mut String, place: usize) -> Result<(), AllocError> {
        match self.numbers.get(place) {
            Some(Some(number)) => write!(text, " ({number})"),
            _ => Ok(()),
        }
    }

    /// What the step of this number says.
    fn push_step(&self, alloc: Global, text: &mut String, number: usize) -> Result<(), AllocError> {
        let terms = terms_of(alloc, self.derivation, number)?;
        push_claim(alloc, text, &self.problem, &terms)
    }
}

/// The facts among the premises of all sentences, each once; none where they aren't few.
fn few_facts(alloc: Global, sentences: &[Sentence]) -> Result<Vec<Premise>, AllocError> {
    let mut facts = Vec::new(alloc);
    for sentence in sentences.iter() {
        put_facts(&mut facts, &sentence.premises)?;
        if facts.len() > FEW_FACTS {
            return Ok(Vec::new(alloc));
        }
    }
    Ok(facts)
}

/// Adds those of the premises that are facts, unless they are there.
fn put_facts(facts: &mut Vec<Premise>, premises: &[Premise]) -> Result<(), AllocError> {
    for premise in premises.iter() {
        if let Premise::Fact(number) = premise {
            if !has_fact(facts, *number) {
                facts.push(*premise)?;
            }
        }
    }
    Ok(())
}

fn has_fact(facts: &[Premise], number: usize) -> bool {
    facts.iter().any(|fact| matches!(fact, Premise::Fact(other) if *other == number))
}

/// How a sentence begins that goes on from the one before it, or doesn't, and has so many clauses.
fn opening(goes_on: bool, count: usize) -> &'static str {
    match (goes_on, count) {
        (true, 0) => "So ",
        (true, _) => "And because ",
        (false, 0) => "",
        (false, _) => "Because ",
    }
}

/// What stands before one of several clauses.
fn push_comma(text: &mut String, place: usize, count: usize) -> Result<(), AllocError> {
    if place == 0 {
        Ok(())
    } else if place.saturating_add(1) < count {
        text.push_str(", ")
    } else {
        text.push_str(", and ")
    }
}
