//! `search FOLDER WORD`: solves the problem in a folder, and tells in a line what the word asks of the search.
//!
//! `axioms` how many came of all, so that they come as they are needed; `followed` the packages, and that there is a
//! search where a walk is followed, in which no conflict comes; `learned` that what is learned keeps the search from
//! trying all contents; `refused` that a refutation is accepted and has no combination that took no step; `lock` that
//! the search comes to a lock after conflicts.

use crate::counting::{all_axioms, all_states, combinations, packages};
use crate::problem::{Problem, read_problem};
use checker::{Check, check};
use derivations::Derivation;
use lockfile::LockContent;
use selection::{Verdict, verify};
use solver::{Outcome, Solved, solve};
use std::alloc::{AllocError, Global};
use std::io::{self, ErrorKind, Write};
use std::rt::Files;

/// Solves the problem, and tells of the search.
pub(crate) fn search<R: Files + AllocGlobal + Clone + Drop, O: Write>(
    rt: &R,
    words: &[String],
    out: &mut O,
) -> io::Result<u8> {
    let [_, folder, word] = words else {
        return Err(io::Error::from(ErrorKind::InvalidInput));
    };
    let problem = read_problem(rt, folder.as_str())?;
    solve_and_tell(rt.alloc(), &problem, word.as_str(), out)?;
    Ok(0)
}

fn solve_and_tell<O: Write>(
    alloc: Global,
    problem: &Problem,
    word: &str,
    out: &mut O,
) -> io::Result<()> {
    let solved = solve(alloc, &problem.manifest, &problem.catalogue)?;
    tell(alloc, problem, &solved, word, out)
}

// What is large is owned where little can end, as a check goes through it at each end.
fn tell<O: Write>(
    alloc: Global,
    problem: &Problem,
    solved: &Solved,
    word: &str,
    out: &mut O,
) -> io::Result<()> {
    match word {
        "axioms" => tell_axioms(alloc, problem, solved, out),
        "followed" => tell_followed(alloc, problem, solved, out),
        "learned" => tell_learned(solved, out),
        "refused" => tell_refused(alloc, problem, solved, out),
        "lock" => tell_lock(alloc, problem, solved, out),
        _ => Err(io::Error::from(ErrorKind::InvalidInput)),
    }
}

fn tell_axioms<O: Write>(
    alloc: Global,
    problem: &Problem,
    solved: &Solved,
    out: &mut O,
) -> io::Result<()> {
    let all = all_axioms(alloc, problem)?;
    writeln!(out, "{} of {all} axioms", solved.axioms)
}

fn tell_followed<O: Write>(
    alloc: Global,
    problem: &Problem,
    solved: &Solved,
    out: &mut O,
) -> io::Result<()> {
    tell_names(&solved.outcome, out)?;
    let states = all_states(alloc, problem)?;
    let enough = packages(&solved.outcome) <= solved.steps;
    let few = solved.steps <= states;
    writeln!(
        out,
        "a step for each: {enough}; a state for each step: {few}"
    )
}

/// The packages of a lock.
fn tell_names<O: Write>(outcome: &Outcome, out: &mut O) -> io::Result<()> {
    match outcome {
        Outcome::Selection(content) => write_names(content, out),
        Outcome::Unsolvable(_) => write!(out, "unsolvable; "),
    }
}

fn write_names<O: Write>(content: &LockContent, out: &mut O) -> io::Result<()> {
    for package in content.packages() {
        write!(out, "{} {}; ", package.name, package.version)?;
    }
    Ok(())
}

fn tell_learned<O: Write>(solved: &Solved, out: &mut O) -> io::Result<()> {
    let unsolvable = matches!(&solved.outcome, Outcome::Unsolvable(_));
    let few = solved.steps <= 10_000;
    writeln!(out, "unsolvable: {unsolvable}; at most 10,000 steps: {few}")
}

fn tell_refused<O: Write>(
    alloc: Global,
    problem: &Problem,
    solved: &Solved,
    out: &mut O,
) -> io::Result<()> {
    let Outcome::Unsolvable(derivation) = &solved.outcome else {
        return writeln!(out, "a lock");
    };
    let proves = is_accepted(alloc, problem, derivation)?;
    let enough = combinations(derivation) <= solved.steps;
    writeln!(
        out,
        "unsolvable; accepted: {proves}; a step for each combination: {enough}"
    )
}

fn is_accepted(
    alloc: Global,
    problem: &Problem,
    derivation: &Derivation,
) -> Result<bool, AllocError> {
    let judged = check(alloc, &problem.manifest, &problem.catalogue, derivation)?;
    Ok(matches!(judged, Check::Proves))
}

fn tell_lock<O: Write>(
    alloc: Global,
    problem: &Problem,
    solved: &Solved,
    out: &mut O,
) -> io::Result<()> {
    let Outcome::Selection(content) = &solved.outcome else {
        return writeln!(out, "unsolvable");
    };
    let valid = is_valid(alloc, problem, content)?;
    writeln!(out, "{} packages; valid: {valid}", content.packages().len())
}

fn is_valid(alloc: Global, problem: &Problem, content: &LockContent) -> Result<bool, AllocError> {
    let verdict = verify(alloc, &problem.manifest, &problem.catalogue, content)?;
    Ok(matches!(verdict, Verdict::Valid))
}
