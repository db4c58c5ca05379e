//! Reading a line: by its parts where the shortcuts give a record, else as a whole, which also tells why it is none.

ghost use Rattle.model.specs.Outcome.{Gives};
ghost use Rattle.index_lines.specs.Shapes.{wants_memory};
ghost use Rattle.index_lines.specs.Records.{unchecked_of_line};
ghost use Rattle.index_lines.specs.Views.{record_view};

use crate::fault::LineFault;
use crate::known::KnownDependencies;
use crate::record::Record;
use crate::shortcuts::{PartsBefore, record_by_parts};
use crate::whole::read_whole;
use features::PackageName;
use std::alloc::Global;
use trees::Scratch;

/// The line before, as far as the next one goes by it.
#[derive(Drop)]
pub struct LineBefore<'a> {
    /// What its parts said, for a line that is written as a registry's; none are kept where there is no next line.
    parts: Option<PartsBefore<'a>>,
}

impl<'a> LineBefore<'a> {
    /// No line yet of a file of so many lines, the last of which may be empty.
    pub fn none(lines: usize) -> LineBefore<'a> {
        LineBefore {
            parts: if lines > 2 {
                Some(PartsBefore::none())
            } else {
                None
            },
        }
    }
}

/// The record that a line of this package's file is, whatever its checksum is, or why it is none (Cargo book, "Registry
/// Index"), with room and what the line before said, which are kept from line to line.
///
/// # Errors
/// `Skipped` with the first reason that applies.
pub fn read_unchecked<'a>(
    alloc: Global,
    name: &PackageName,
    line: &'a [u8],
    scratch: &mut Scratch,
    known: &mut KnownDependencies,
    before: &mut LineBefore<'a>,
) -> Result<Record, LineFault>
    ensures { Gives wants_memory record_view result (unchecked_of_line name.now line.entry.now) }
{
    if let Some(record) = record_by_parts(alloc, name, line, scratch, known, &mut before.parts)? {
        return Ok(record);
    }
    read_whole(alloc, name, line, scratch, known)
}
