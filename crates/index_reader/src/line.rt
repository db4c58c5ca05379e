//! Reading a line on its own.

ghost use Rattle.model.specs.Outcome.{Gives};
ghost use Rattle.index_lines.specs.Shapes.{wants_memory};
ghost use Rattle.index_lines.specs.Records.{checked, is_checksum, record_of_line, unless};
ghost use Rattle.index_lines.specs.Views.{record_view};

use features::PackageName;
use index_lines::{
    KnownDependencies, LineBefore, LineFault, Record, SkipReason, is_checksum, read_unchecked,
};
use std::alloc::Global;
use trees::Scratch;

/// The record that a line of this package's file is, or why it is none (Cargo book, "Registry Index").
///
/// # Errors
/// `Skipped` with the first reason that applies; an earlier line of equal precedence is `read_file`'s alone.
#[tactic(auto, unfolding(index_lines::specs::Records::record_of_line, index_lines::specs::Records::checked))]
pub fn read_line(alloc: Global, name: &PackageName, line: &[u8]) -> Result<Record, LineFault>
    ensures { Gives wants_memory record_view result (record_of_line name.now line.now) }
{
    let record = read_unchecked(
        alloc,
        name,
        line,
        &mut Scratch::new(alloc),
        &mut KnownDependencies::none(alloc),
        &mut LineBefore::none(1),
    )?;
    check_checksum(record.checksum.as_str())?;
    Ok(record)
}

/// The last reason to skip a line.
fn check_checksum(text: &str) -> Result<(), LineFault>
    ensures { Gives wants_memory (λ u. u) result (unless (is_checksum text.now) SkipReason.BadChecksum) }
{
    if is_checksum(text) {
        Ok(())
    } else {
        Err(LineFault::Skipped(SkipReason::BadChecksum))
    }
}
