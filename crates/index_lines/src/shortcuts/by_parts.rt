//! Reading a line by its parts.
//!
//! Half of the lines have the very bytes of the line before as dependencies, three of four as features. To read their
//! tokens again would take most of the time, so a line that is written as a registry's is cut, and what its parts say
//! is kept for the next one. Each other line gives no record here, and is read as a whole.

ghost use Rattle.std.specs.Prelude.{◌≡◌, IfOk, IfSome, Ok};
ghost use Rattle.index_lines.specs.inner.ByParts.{IsCut, record_of_parts};
ghost use Rattle.index_lines.specs.Records.{unchecked_of_line};
ghost use Rattle.index_lines.specs.Views.{record_view};

use crate::fault::{LineFault, SkipReason};
use crate::known::KnownDependencies;
use crate::record::Record;
use crate::shortcuts::brought::{Brought, brought_after};
use crate::shortcuts::rest::{LineRest, rest_after};
use crate::shortcuts::split::{LineParts, split};
use crate::texts::{check, version};
use features::PackageName;
use std::alloc::{AllocError, Global};
use trees::{MAX_LEN, Scratch};

/// What the parts of the line before said, if it was read so.
#[derive(Drop)]
pub(crate) struct PartsBefore<'a> {
    brought: Option<Brought<'a>>,
    rest: Option<LineRest<'a>>,
}

impl<'a> PartsBefore<'a> {
    pub(crate) fn none() -> PartsBefore<'a> {
        PartsBefore {
            brought: None,
            rest: None,
        }
    }
}

/// The record that a line is by its parts, if it can be read so; nothing is kept of the line before where no other one
/// follows, and then it isn't tried.
pub(crate) fn record_by_parts<'a>(
    alloc: Global,
    name: &PackageName,
    line: &'a [u8],
    scratch: &mut Scratch,
    known: &mut KnownDependencies,
    before: &mut Option<PartsBefore<'a>>,
) -> Result<Option<Record>, AllocError>
    ensures { IfOk result (λ o. IfSome o (λ r. unchecked_of_line name.now line.entry.now ≡ Ok (record_view r))) }
{
    let Some(before) = before.as_mut() else {
        return Ok(None);
    };
    match read_by_parts(alloc, name, line, scratch, known, before) {
        Ok(record) => Ok(Some(record)),
        Err(LineFault::Skipped(_)) => Ok(None),
        Err(LineFault::OutOfMemory) => Err(AllocError),
    }
}

/// The record that a line is by its parts, whatever its checksum is. One that is too long for a tape isn't read so.
///
/// # Errors
/// `Skipped` where it can't be read so: then the reason says nothing of the line as a whole.
fn read_by_parts<'a>(
    alloc: Global,
    name: &PackageName,
    line: &'a [u8],
    scratch: &mut Scratch,
    known: &mut KnownDependencies,
    before: &mut PartsBefore<'a>,
) -> Result<Record, LineFault>
    ensures { IfOk result (λ r. unchecked_of_line name.now line.entry.now ≡ Ok (record_view r)) }
{
    check(line.len() <= MAX_LEN, SkipReason::Shape)?;
    let parts = cut_line(name, line, before)?;
    read_parts(alloc, &parts, scratch, known, before)
}

/// What the parts of a line say together.
#[tactic(auto, unfolding(crate::specs::inner::ByParts::record_of_parts))]
fn read_parts<'a>(
    alloc: Global,
    line: &LineParts<'a>,
    scratch: &mut Scratch,
    known: &mut KnownDependencies,
    before: &mut PartsBefore<'a>,
) -> Result<Record, LineFault>
    ensures { IfOk result (λ r. record_of_parts line.now ≡ Ok (record_view r)) }
{
    let rest = rest_after(alloc, line.rest, before.rest.take(), scratch)?;
    check(
        rest.format == 1 || rest.format == 2,
        SkipReason::NewerFormat,
    )?;
    let version = version(alloc, line.version)?;
    let brought = brought_after(alloc, line, before.brought.take(), scratch, known)?;
    let record = Record {
        version,
        checksum: String::from_str(alloc, line.checksum)?,
        yanked: rest.yanked,
        rust_version: rest.rust_version,
        brings: brought.summary()?,
    };
    before.rest = Some(rest);
    before.brought = Some(brought);
    Ok(record)
}

/// The parts of a line.
fn cut_line<'a>(
    name: &PackageName,
    line: &'a [u8],
    before: &PartsBefore<'a>,
) -> Result<LineParts<'a>, LineFault>
    ensures { IfOk result (λ p. IsCut name.now p line.entry.now) }
{
    let (dependencies, features) = match &before.brought {
        Some(brought) => brought.bytes(),
        None => (b"".as_slice(), b"".as_slice()),
    };
    match split(name, line, dependencies, features) {
        Some(parts) => Ok(parts),
        None => Err(LineFault::Skipped(SkipReason::Shape)),
    }
}
