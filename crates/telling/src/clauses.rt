//! The clauses of a sentence, by which it gives its premises.

use crate::facts::{Facts, Rank};
use crate::outline::Premise;
use crate::ranges::push_before;
use lookups::Problem;
use std::alloc::{AllocError, Global};

/// What a clause says.
#[derive(Drop)]
pub(crate) enum Clause {
    /// What an earlier sentence says: its place.
    Told(usize),
    /// What the same one does to one thing or several: the numbers of the facts.
    Facts(Vec<usize>),
}

/// The clauses for these premises, but for the sentence before: sentences, then what the root needs, then other facts,
/// name by name, as the derivation comes to them. Of two facts of which one says all that the other does, that one.
pub(crate) fn clauses_of(
    alloc: Global,
    facts: &Facts<'_>,
    premises: &[Premise],
    before: Option<usize>,
) -> Result<Vec<Clause>, AllocError> {
    let mut told = Vec::from_slice(alloc, premises)?;
    told.sort_by(|a, b| rank(facts, a).cmp(&rank(facts, b)))?;
    let mut clauses = Vec::new(alloc);
    for premise in told.iter() {
        if !is_told(premise, before) && !is_covered(facts, premise, premises) {
            add_premise(alloc, &mut clauses, facts, *premise)?;
        }
    }
    Ok(clauses)
}

/// Whether a premise is the sentence at this place.
pub(crate) fn is_told(premise: &Premise, place: Option<usize>) -> bool {
    match (premise, place) {
        (Premise::Told(told), Some(place)) => *told == place,
        _ => false,
    }
}

fn is_covered(facts: &Facts<'_>, premise: &Premise, premises: &[Premise]) -> bool {
    premises.iter().any(|other| match (other, premise) {
        (Premise::Fact(other), Premise::Fact(fact)) => facts.covers(*other, *fact),
        _ => false,
    })
}

fn rank(facts: &Facts<'_>, premise: &Premise) -> (bool, Rank) {
    match premise {
        Premise::Told(place) => (false, (false, *place, 0)),
        Premise::Fact(number) => (true, facts.rank(*number)),
    }
}

/// Adds a premise: a fact to the clause of who does it, if there is one.
fn add_premise(
    alloc: Global,
    clauses: &mut Vec<Clause>,
    facts: &Facts<'_>,
    premise: Premise,
) -> Result<(), AllocError> {
    let number = match premise {
        Premise::Told(place) => {
            clauses.push(Clause::Told(place))?;
            return Ok(());
        }
        Premise::Fact(number) => number,
    };
    let same = clauses
        .iter()
        .position(|clause| takes(clause, facts, number));
    if let Some(same) = same {
        if let Some(Clause::Facts(numbers)) = clauses.get_mut(same) {
            numbers.push(number)?;
        }
        return Ok(());
    }
    let mut numbers = Vec::new(alloc);
    numbers.push(number)?;
    clauses.push(Clause::Facts(numbers))?;
    Ok(())
}

/// Whether a clause is about the one that a fact is about.
fn takes(clause: &Clause, facts: &Facts<'_>, number: usize) -> bool {
    match clause {
        Clause::Told(_) => false,
        Clause::Facts(numbers) => match numbers.first() {
            Some(first) => facts.are_of_one(*first, number),
            None => false,
        },
    }
}

/// Adds `demo needs a ^1, b ^1 and c ^1 with feature f and feature g`.
pub(crate) fn push_facts(
    alloc: Global,
    text: &mut String,
    problem: &Problem<'_>,
    facts: &Facts<'_>,
    numbers: &[usize],
) -> Result<(), AllocError> {
    let mut last = Vec::from_slice(alloc, numbers)?;
    last.sort_by(|a, b| facts.has_feature(*a).cmp(&facts.has_feature(*b)))?;
    if let Some(first) = last.first() {
        facts.push_subject(alloc, text, problem, *first)?;
    }
    push_objects(text, facts, &last)
}

/// What facts need, one after another; a fact that goes on from the one before adds only its feature.
fn push_objects(text: &mut String, facts: &Facts<'_>, numbers: &[usize]) -> Result<(), AllocError> {
    let count = numbers.len().saturating_sub(gone_on(facts, numbers));
    let mut told = 0usize;
    let mut before: Option<usize> = None;
    for number in numbers.iter() {
        if goes_on(facts, before, *number) {
            facts.push_feature(text, *number)?;
        } else if told < count {
            push_before(text, told, count, "and")?;
            facts.push_object(text, *number)?;
            told += 1;
        }
        before = Some(*number);
    }
    Ok(())
}

/// Whether a fact says no more than the one before it but another feature.
fn goes_on(facts: &Facts<'_>, before: Option<usize>, number: usize) -> bool {
    match before {
        Some(before) => facts.goes_on(before, number),
        None => false,
    }
}

/// How many facts say no more than the one before them but another feature.
fn gone_on(facts: &Facts<'_>, numbers: &[usize]) -> usize {
    numbers
        .windows(2)
        .filter(|pair| match pair {
            [first, second] => facts.goes_on(*first, *second),
            _ => false,
        })
        .count()
}
