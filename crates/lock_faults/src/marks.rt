//! The marks that a merge leaves in a text where both sides changed it.

ghost use Rattle.std.specs.Prelude.{◌≡◌, ◌++◌, IfOk, OnOk, map};
ghost use Rattle.std.specs.List.{slice_split};
ghost use Rattle.lock_faults.specs.inner.Sides.{begins, ends_line, mark_of, part_after, has_part, is_kept, line_of};
ghost use Rattle.lock_faults.specs.inner.Sides.{side_of, side_of_lines};
ghost use Rattle.lock_faults.specs.declared.marks.MergePart.TheVariants.{Both};

use std::alloc::{AllocError, Global};

/// One of the two sides of a merge.
#[derive(Clone, Copy)]
pub(crate) enum Side {
    Ours,
    Theirs,
}

/// Where a line of a text with marks stands.
#[derive(Clone, Copy)]
pub(crate) enum MergePart {
    /// Outside of the marks: both sides have it.
    Both,
    /// After `<<<<<<<`: ours has it.
    First,
    /// After `|||||||`: what both sides came from has it, and neither of them.
    Base,
    /// After `=======`: theirs has it.
    Second,
}

/// What one side has of a text with the marks of a merge.
pub(crate) fn side_of(alloc: Global, bytes: &[u8], side: Side) -> Result<Vec<u8>, AllocError>
    ensures { IfOk result (λ v. v.items ≡ side_of side bytes.now) }
{
    let lines = lines_in(alloc, bytes)?;
    side_of_lines(alloc, &lines, side)
}

/// The number, from 1, of the first line that is a mark of a merge.
pub(crate) fn first_mark(bytes: &[u8]) -> Option<usize> {
    for (number, line) in bytes.split(|byte| *byte == b'\n').enumerate() {
        if mark_of(line).is_some() {
            return Some(number + 1);
        }
    }
    None
}

fn lines_in(alloc: Global, bytes: &[u8]) -> Result<Vec<&[u8]>, AllocError>
    ensures { IfOk result (λ v. map (λ x. x.now) v.items ≡ slice_split ends_line bytes.now) }
{
    bytes.split(|byte| *byte == b'\n').collect(alloc)
}

#[tactic(auto, unfolding(crate::specs::inner::Sides::side_of_lines))]
fn side_of_lines(alloc: Global, lines: &[&[u8]], side: Side) -> Result<Vec<u8>, AllocError>
    ensures { IfOk result (λ v. v.items ≡ side_of_lines side Both (map (λ x. x.now) lines.now)) }
{
    let mut text = Vec::new(alloc);
    let mut part = MergePart::Both;
    'lines: for line in lines.iter() {
        push_line(&mut text, line, side, part)?;
        part = part_after(line, part);
    }
    Ok(text)
}

/// Adds a line with its end, if a side has it.
fn push_line(text: &mut Vec<u8>, line: &[u8], side: Side, part: MergePart) -> Result<(), AllocError>
    ensures { OnOk result (text.new.items ≡ text.old.items ++ line_of side part line.now) }
{
    if is_kept(line, side, part) {
        text.extend_from_slice(line)?;
        text.push(b'\n')?;
    }
    Ok(())
}

/// Whether a side has a line, which no mark is.
fn is_kept(line: &[u8], side: Side, part: MergePart) -> bool
    ensures { result ≡ is_kept side part line.now }
{
    match mark_of(line) {
        Some(_) => false,
        None => has_part(side, part),
    }
}

fn has_part(side: Side, part: MergePart) -> bool
    ensures { result ≡ has_part side part }
{
    match part {
        MergePart::Both => true,
        MergePart::First => matches!(side, Side::Ours),
        MergePart::Base => false,
        MergePart::Second => matches!(side, Side::Theirs),
    }
}

/// The part that the line after this one stands in.
fn part_after(line: &[u8], part: MergePart) -> MergePart
    ensures { result ≡ part_after line.now part }
{
    match mark_of(line) {
        Some(next) => next,
        None => part,
    }
}

/// The part that begins after a line, if that is a mark.
fn mark_of(line: &[u8]) -> Option<MergePart>
    ensures { result ≡ mark_of line.now }
{
    if begins(line, "<<<<<<<") {
        Some(MergePart::First)
    } else if begins(line, "|||||||") {
        Some(MergePart::Base)
    } else if begins(line, "=======") {
        Some(MergePart::Second)
    } else if begins(line, ">>>>>>>") {
        Some(MergePart::Both)
    } else {
        None
    }
}

fn begins(line: &[u8], mark: &str) -> bool
    ensures { result ≡ begins line.now mark.now }
{
    line.starts_with(mark.as_bytes())
}
