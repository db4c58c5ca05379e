//! Reading a file of an index.

ghost use Rattle.std.specs.Prelude.{◌≡◌, ◌≤◌, IfOk, count_by, map};
ghost use Rattle.std.specs.List.{slice_split};
ghost use Rattle.index_reader.specs.Files.{line_count, with_skip, with_line, with_lines, no_lines, records_of_file};
ghost use Rattle.index_reader.specs.Files.{file_view, contents_view};
ghost use Rattle.trees.specs.Trees.{is_line_end};

use crate::file_so_far::FileSoFar;
use crate::skip::Skip;
use features::PackageName;
use index_lines::{KnownDependencies, LineBefore, LineFault, Record, read_unchecked};
use memchr::memchr;
use std::alloc::{AllocError, Global};
use trees::{Scratch, is_blank};

/// How many lines a file has at most that is read.
pub const MAX_LINES: usize = 65_535;

/// How many lines bytes have: the number of `\n`, and one more where bytes follow the last of them.
pub fn lines(bytes: &[u8]) -> usize
    ensures { result ≡ line_count bytes.now }
{
    let ended = line_ends(bytes);
    match bytes.last() {
        None => ended,
        Some(b'\n') => ended,
        Some(_) => ended + 1,
    }
}

/// The number of `\n`. `memchr` passes over many bytes at a time, where to count by its iterator looks at each.
fn line_ends(bytes: &[u8]) -> usize
    ensures { result ≡ count_by is_line_end bytes.now }
{
    let mut count = 0;
    let mut rest = bytes;
    'ends: while let Some(end) = memchr(b'\n', rest) {
        count += 1;
        rest = &rest[end + 1..];
    }
    count
}

/// The records of the file of a name, in the order of its lines, and the lines that are skipped (Cargo book, "Registry
/// Index").
pub fn read_file(
    alloc: Global,
    name: &PackageName,
    bytes: &[u8],
) -> Result<(Vec<Record>, Vec<Skip>), AllocError>
    requires { line_count bytes.now ≤ 65535 }
    ensures { IfOk result (λ c. contents_view c ≡ records_of_file name.now bytes.now) }
{
    read_file_in(
        alloc,
        name,
        bytes,
        &mut Scratch::new(alloc),
        &mut KnownDependencies::none(alloc),
    )
}

/// The same in room that is kept from file to file, for to clear it for each would cost more than most files do, and
/// with dependencies that are kept so.
pub fn read_file_in(
    alloc: Global,
    name: &PackageName,
    bytes: &[u8],
    scratch: &mut Scratch,
    known: &mut KnownDependencies,
) -> Result<(Vec<Record>, Vec<Skip>), AllocError>
    requires { line_count bytes.now ≤ 65535 }
    ensures { IfOk result (λ c. contents_view c ≡ records_of_file name.now bytes.now) }
{
    let texts = texts_in(alloc, bytes)?;
    let file = read_texts(alloc, name, &texts, scratch, known)?;
    Ok((file.records, file.skips))
}

/// The texts between the line ends: the last is empty where bytes end with a line.
fn texts_in(alloc: Global, bytes: &[u8]) -> Result<Vec<&[u8]>, AllocError>
    ensures { IfOk result (λ v. map (λ x. x.now) v.items ≡ slice_split is_line_end bytes.now) }
{
    let mut found = Vec::new(alloc);
    let mut rest = bytes;
    'ends: while let Some(end) = memchr(b'\n', rest) {
        found.push(&rest[..end])?;
        rest = &rest[end + 1..];
    }
    found.push(rest)?;
    Ok(found)
}

/// What a file of these lines says.
#[tactic(auto, unfolding(crate::specs::Files::with_lines))]
fn read_texts<'a>(
    alloc: Global,
    name: &PackageName,
    texts: &[&'a [u8]],
    scratch: &mut Scratch,
    known: &mut KnownDependencies,
) -> Result<FileSoFar, AllocError>
    ensures { IfOk result
        (λ f. file_view f.records.items f.skips.items ≡ with_lines name.now 1 (map (λ x. x.now) texts.now) no_lines) }
{
    let mut file = FileSoFar::with_room(alloc, texts.len())?;
    let mut before = LineBefore::none(texts.len());
    'texts: for (index, text) in texts.iter().enumerate() {
        let number = index as u64 + 1;
        file = with_line(alloc, name, number, text, file, scratch, known, &mut before)?;
    }
    Ok(file)
}

/// A file with one more line.
fn with_line<'a>(
    alloc: Global,
    name: &PackageName,
    number: u64,
    text: &'a [u8],
    file: FileSoFar,
    scratch: &mut Scratch,
    known: &mut KnownDependencies,
    before: &mut LineBefore<'a>,
) -> Result<FileSoFar, AllocError>
    ensures { IfOk result (λ f. file_view f.records.items f.skips.items
        ≡ with_line name.now number text.entry.now (file_view file.records.items file.skips.items)) }
{
    if is_blank(text) {
        return Ok(file);
    }
    match read_unchecked(alloc, name, text, scratch, known, before) {
        Ok(record) => file.with_found(name, number, record),
        Err(LineFault::Skipped(reason)) => file.with_skip(name, number, reason),
        Err(LineFault::OutOfMemory) => Err(AllocError),
    }
}
