//! Counts: what an encoding has, what a derivation combines, and what a lock holds.

use crate::problem::Problem;
use derivations::Derivation;
use encoding::Encoding;
use solver::Outcome;
use std::alloc::{AllocError, Global};
use version_sets::ListStates;

/// How many instances of axioms there are.
pub(crate) fn all_axioms(alloc: Global, problem: &Problem) -> Result<usize, AllocError> {
    let encoding = Encoding::new(alloc, &problem.manifest, &problem.catalogue)?;
    Ok(encoding.axioms::<ListStates>()?.len())
}

/// How many states all vertices have together.
pub(crate) fn all_states(alloc: Global, problem: &Problem) -> Result<u64, AllocError> {
    let encoding = Encoding::new(alloc, &problem.manifest, &problem.catalogue)?;
    Ok(states_of(&encoding))
}

fn states_of(encoding: &Encoding<'_>) -> u64 {
    let mut states: u64 = 0;
    for vertex in 0..encoding.len() {
        states = states.saturating_add(u64::from(encoding.space(vertex)));
    }
    states
}

/// How many steps of a derivation combine two earlier ones.
pub(crate) fn combinations(derivation: &Derivation) -> u64 {
    let mut count: u64 = 0;
    for number in 0..derivation.len() {
        count = count.saturating_add(u64::from(derivation.references(number).is_some()));
    }
    count
}

/// How many packages a lock has.
pub(crate) fn packages(outcome: &Outcome) -> u64 {
    match outcome {
        Outcome::Selection(content) => content.packages().len() as u64,
        Outcome::Unsolvable(_) => 0,
    }
}
