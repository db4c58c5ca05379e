//! Reading derivations.

ghost use Rattle.std.specs.Prelude.{◌≡◌, ◌<◌, [], IfOk, OnOk, map};
ghost use Rattle.std.specs.List.{slice_split};
ghost use Rattle.model.specs.Outcome.{Gives};
ghost use Rattle.derivations.specs.inner.Earlier.{IsReading};
ghost use Rattle.derivations.specs.Files.{wants_memory, fault_at, with_line, with_lines, derivation_of_bytes};
ghost use Rattle.trees.specs.Trees.{is_line_end};
ghost use Rattle.derivations.specs.inner.Tables.{steps_at};

use crate::derivation::Derivation;
use crate::fault::{DerivationFault, LineFault};
use crate::line::read_step;
use crate::step::Step;
use crate::tables::Tables;
use std::alloc::{AllocError, Global};
use trees::{Scratch, is_blank};

/// How many steps are read.
const MOST_STEPS: usize = 16_777_216;

/// The derivation that bytes are.
///
/// # Errors
/// The first line with a fault, counted from 1, and the first fault that it has.
pub fn read(alloc: Global, bytes: &[u8]) -> Result<Derivation, DerivationFault>
    ensures { Gives wants_memory (λ d. d) result (derivation_of_bytes bytes.now) }
{
    let lines = lines_in(alloc, bytes)?;
    read_lines(alloc, &lines)
}

/// The texts between the line ends: the last is empty where bytes end with a line.
fn lines_in(alloc: Global, bytes: &[u8]) -> Result<Vec<&[u8]>, AllocError>
    ensures { IfOk result (λ v. map (λ x. x.now) v.items ≡ slice_split is_line_end bytes.now) }
{
    bytes.split(|b| *b == b'\n').collect(alloc)
}

/// The steps that lines are.
fn read_lines(alloc: Global, lines: &[&[u8]]) -> Result<Derivation, DerivationFault>
    ensures { Gives wants_memory (λ d. d) result (with_lines 1 (map (λ x. x.now) lines.now) []) }
{
    let mut tables = Tables::new(alloc);
    let mut steps = Vec::new(alloc);
    push_lines(alloc, lines, &mut tables, &mut steps)?;
    Ok(Derivation::of(tables, steps))
}

/// Puts the steps of lines at the end.
#[tactic(auto, unfolding(crate::specs::Files::with_lines))]
fn push_lines(
    alloc: Global,
    lines: &[&[u8]],
    tables: &mut Tables,
    steps: &mut Vec<Step>,
) -> Result<(), DerivationFault>
    requires { IsReading tables.old steps.old.items }
    ensures sound { OnOk result (IsReading tables.new steps.new.items) }
    ensures steps { Gives wants_memory (λ u. steps_at tables.new steps.new.items) result
        (with_lines 1 (map (λ x. x.now) lines.now) (steps_at tables.old steps.old.items)) }
{
    let mut scratch = Scratch::new(alloc);
    'lines: for (index, line) in lines.iter().enumerate() {
        push_line(alloc, index as u64 + 1, line, tables, steps, &mut scratch)?;
    }
    Ok(())
}

/// Puts the step of one more line at the end, if the line isn't blank.
fn push_line(
    alloc: Global,
    number: u64,
    line: &[u8],
    tables: &mut Tables,
    steps: &mut Vec<Step>,
    scratch: &mut Scratch,
) -> Result<(), DerivationFault>
    requires { IsReading tables.old steps.old.items }
    ensures sound { OnOk result (IsReading tables.new steps.new.items) }
    ensures steps { Gives wants_memory (λ u. steps_at tables.new steps.new.items) result
        (with_line number line.now (steps_at tables.old steps.old.items)) }
{
    if is_blank(line) {
        return Ok(());
    }
    let step = match read_step(alloc, tables, steps.as_slice(), line, scratch) {
        Ok(step) => step,
        Err(fault) => return Err(fault_at(number, fault)),
    };
    if steps.len() >= MOST_STEPS {
        return Err(DerivationFault::TooMany(number));
    }
    steps.push(step)?;
    Ok(())
}

/// A fault of a line, with the line's number.
fn fault_at(number: u64, fault: LineFault) -> DerivationFault
    ensures { result ≡ fault_at number fault }
{
    match fault {
        LineFault::OutOfMemory => DerivationFault::OutOfMemory,
        LineFault::NotALine => DerivationFault::NotALine(number),
        LineFault::Forward => DerivationFault::Forward(number),
    }
}
