//! One run of the program: words in, a status and two texts out.

ghost use Rattle.std.specs.Prelude.{◌≡◌, ◌⊎◌, ℕ, Bool, List, true, IfErr, IfOk, Ok, map, option_copied, string_bytes};
ghost use Rattle.std.specs.Io.KnownBytes.{Appends};
ghost use Rattle.index_reader.specs.Opened.{DiskCalls, IsRead};
ghost use Rattle.checker.specs.Texts.{check_text};
ghost use Rattle.selection.specs.Texts.{verdict_text};
ghost use Rattle.words.specs.Views.{text_if, words_view};
ghost use Rattle.commands.specs.Commands.{Answers, IsAnswerTo, IsCheckOf, IsDerivationOf, IsTextOf, IsVerdictOf};
ghost use Rattle.commands.specs.Commands.{LacksAnswer, LacksCheck, LacksText, LacksVerdict, Runs, Endings, preference};
ghost use Rattle.commands.specs.Disks.{bytes_if, writes};
ghost use Rattle.commands.specs.WordsFaults.{IsToldOfWords, told_of_words};
ghost use Rattle.commands.specs.Lines.{Tells, check_status, ending_of, line_of, status_of, verdict_status};
ghost use Rattle.commands.specs.Endings.{cannot_write, has_ended_before, ending_view};
ghost use Rattle.commands.specs.Systems.{IsOpened, IsWritten};

use crate::disk::{Disk, Puts};
use crate::ending::Ending;
use crate::files::{read_lock, read_manifest, read_old, read_proof};
use crate::printing::{Ended, print_answer, print_bytes, print_check, print_verdict};
use crate::sources::{own_source, source_text};
use crate::streams::Stream;
use catalogue::Prefer;
use checker::Check;
use derivations::Derivation;
use explainer::explain;
use index_reader::Opens;
use resolver::{Answer, Fault, check_bytes, resolve_keeping, verify_bytes_keeping};
use selection::Verdict;
use std::io::{self, ErrorKind, Write};
use std::mem;
use words::{Words, WordsFault, read_words};

/// The status of wrong use, of a fault, of a file that can't be read and of output that can't be written.
const FAILED: u8 = 2;

/// Does what the words ask, the program's name first, and answers the exit status: over what opens and writes files, as
/// the system does.
///
/// The answer of a command goes to `out`, help too; every other line goes to `err`. A write to `err` that fails is
/// passed over.
pub fn run<R: Opens + Puts + AllocGlobal + Clone + Drop, O: Stream, E: Stream>(
    rt: &mut R,
    words: &[String],
    out: &mut O,
    err: &mut E,
) -> u8
    ensures { (told : Bool) × Runs (IsRead (R.opens rt.old) R.File.left R.File.fails) (writes (IsWritten R.puts) rt.old
        rt.new) (IsOpened R.is_clone rt.old) (DiskCalls R.opens R.File.left R.File.fails) (λ folder. folder.failures)
        (λ bytes. O.fails out.old bytes out.new) (map string_bytes words.now) (O.contents out.old) (O.contents out.new)
        (λ texts. Tells E.contents E.fails err.old texts told err.new) (out.new ≡ out.old) result }
{
    run_on(rt, words, out, err).0
}

/// The same on any disk; also says whether all that is told on standard error was written.
pub fn run_on<D: Disk, O: Stream, E: Stream>(
    disk: &mut D,
    words: &[String],
    out: &mut O,
    err: &mut E,
) -> (u8, bool)
    ensures { Runs (D.reads disk.old) (writes D.writes disk.old disk.new)
        (D.opens disk.old) D.Index.calls D.Index.failed
        (λ bytes. O.fails out.old bytes out.new) (map string_bytes words.now) (O.contents out.old) (O.contents out.new)
        (λ texts. Tells E.contents E.fails err.old texts result.1 err.new) (out.new ≡ out.old) result.0 }
{
    match read_words(disk.memory(), words) {
        Ok(words) => {
            let Ended { status, told } = answered(disk, &words, out, err);
            let (status, is_told) = finish(status, err);
            (status, told & is_told)
        }
        Err(fault) => without_words(&fault, out, err),
    }
}

/// What a command answers.
fn answered<'a, D: Disk, O: Stream, E: Stream>(
    disk: &mut D,
    words: &Words<'a>,
    out: &mut O,
    err: &mut E,
) -> Ended<'a>
    ensures answers { (told : List (List ℕ)) × IfOk result.status
        (Answers (D.reads disk.old) (writes D.writes disk.old disk.new) (D.opens disk.old) D.Index.calls D.Index.failed
        (words_view words.entry.now) (O.contents out.old) (O.contents out.new) told) × IfErr result.status
        (Endings (D.reads disk.old) (writes D.writes disk.old disk.new) (D.opens disk.old) D.Index.calls D.Index.failed
        (λ bytes. O.fails out.old bytes out.new) (words_view words.entry.now) told)
        × Tells E.contents E.fails err.old told result.told err.new }
    ensures ended_before { has_ended_before result.status ≡ true → out.new ≡ out.old }
{
    match words {
        Words::Verify {
            manifest,
            index,
            lock,
            source,
        } => quiet(verify_at(disk, manifest, index, lock, *source, out)),
        Words::Resolve {
            manifest,
            index,
            lock,
            source,
            proof,
            rust_first,
        } => match answer_at(disk, manifest, index, *lock, *source, *rust_first) {
            Ok(answer) => print_answer(disk, &answer, *proof, out, err),
            Err(ending) => quiet(Err(ending)),
        },
        Words::Check {
            manifest,
            index,
            lock,
            source,
            proof,
        } => quiet(check_at(disk, manifest, index, *lock, *source, proof, out)),
        Words::Explain { proof } => quiet(explain_at(disk, proof, out)),
    }
}

/// A command that has told nothing on standard error.
fn quiet<'a>(status: Result<u8, Ending<'a>>) -> Ended<'a>
    ensures status { result.status ≡ status.entry }
    ensures told { result.told ≡ true }
{
    Ended { status, told: true }
}

fn verify_at<'a, D: Disk, O: Stream>(
    disk: &D,
    manifest: &'a str,
    index: &str,
    lock: &'a str,
    source: Option<&str>,
    out: &mut O,
) -> Result<u8, Ending<'a>>
    ensures answers { IfOk result
        (λ status. (said : Verdict) × IsVerdictOf (D.reads disk.now) (D.opens disk.now) D.Index.calls D.Index.failed
        manifest.entry.now index.now lock.entry.now (text_if source.entry) (Ok said) × (status ≡ verdict_status said)
        × Appends (O.contents out.old) (O.contents out.new) (line_of (verdict_text said))) }
    ensures ends { IfErr result (λ ending. LacksVerdict (D.reads disk.now) (D.opens disk.now) D.Index.calls
        D.Index.failed manifest.entry.now index.now lock.entry.now (text_if source.entry) ending
        ⊎ ((said : Verdict) × IsVerdictOf (D.reads disk.now) (D.opens disk.now) D.Index.calls D.Index.failed
        manifest.entry.now index.now lock.entry.now (text_if source.entry) (Ok said)
        × (ending_view ending ≡ cannot_write) × O.fails out.old (line_of (verdict_text said)) out.new)) }
    ensures ended_before { has_ended_before result ≡ true → out.new ≡ out.old }
{
    let verdict = verdict_at(disk, manifest, index, lock, source)?;
    let status = print_verdict(&verdict, out)?;
    Ok(status)
}

/// The verdict on the lock.
fn verdict_at<'a, D: Disk>(
    disk: &D,
    manifest: &'a str,
    index: &str,
    lock: &'a str,
    source: Option<&str>,
) -> Result<Verdict, Ending<'a>>
    ensures verdict { IfOk result (λ verdict. IsVerdictOf (D.reads disk.now) (D.opens disk.now) D.Index.calls
        D.Index.failed manifest.entry.now index.now lock.entry.now (text_if source.entry) (Ok verdict)) }
    ensures lacks { IfErr result (LacksVerdict (D.reads disk.now) (D.opens disk.now) D.Index.calls D.Index.failed
        manifest.entry.now index.now lock.entry.now (text_if source.entry)) }
{
    let text = source_text(source)?;
    let bytes = read_manifest(disk, manifest)?;
    let locked = read_lock(disk, lock)?;
    let from = own_source(disk.memory(), text)?;
    let mut folder = disk.open(index)?;
    let (verdict, loaded) = verify_bytes_keeping(
        disk.memory(),
        bytes.as_slice(),
        &mut folder,
        locked.as_slice(),
        &from,
    )?;
    // The run ends soon, and the system takes the index back as a whole.
    mem::forget(loaded);
    Ok(verdict)
}

/// The answer to the manifest, and to the old lock if there is one.
fn answer_at<'a, D: Disk>(
    disk: &D,
    manifest: &'a str,
    index: &str,
    lock: Option<&'a str>,
    source: Option<&str>,
    rust_first: bool,
) -> Result<Answer, Ending<'a>>
    ensures answer { IfOk result
        (λ answer. IsAnswerTo (D.reads disk.now) (D.opens disk.now) D.Index.calls D.Index.failed manifest.entry.now
        index.now (text_if lock.entry) (text_if source.entry) rust_first (Ok answer)) }
    ensures lacks { IfErr result (LacksAnswer (D.reads disk.now) (D.opens disk.now) D.Index.calls D.Index.failed
        manifest.entry.now index.now (text_if lock.entry) (text_if source.entry) rust_first) }
{
    let text = source_text(source)?;
    let bytes = read_manifest(disk, manifest)?;
    let old = read_old(disk, lock)?;
    let given = slice_if(&old);
    let from = own_source(disk.memory(), text)?;
    let mut folder = disk.open(index)?;
    let prefer = preference(rust_first);
    let (answer, loaded) = resolve_keeping(
        disk.memory(),
        bytes.as_slice(),
        &mut folder,
        given,
        &from,
        prefer,
    )?;
    // The run ends soon, and the system takes the index back as a whole.
    mem::forget(loaded);
    Ok(answer)
}

fn preference(rust_first: bool) -> Prefer
    ensures { result ≡ preference rust_first }
{
    if rust_first {
        Prefer::RustFirst
    } else {
        Prefer::Newest
    }
}

fn slice_if(bytes: &Option<Vec<u8>>) -> Option<&[u8]>
    ensures { option_copied result ≡ bytes_if bytes.now }
{
    match bytes {
        Some(bytes) => Some(bytes.as_slice()),
        None => None,
    }
}

fn check_at<'a, D: Disk, O: Stream>(
    disk: &D,
    manifest: &'a str,
    index: &str,
    lock: Option<&'a str>,
    source: Option<&str>,
    proof: &'a str,
    out: &mut O,
) -> Result<u8, Ending<'a>>
    ensures answers { IfOk result (λ status. (said : Check)
        × IsCheckOf (D.reads disk.now) (D.opens disk.now) D.Index.calls D.Index.failed manifest.entry.now index.now
        (text_if lock.entry) (text_if source.entry) proof.entry.now (Ok said) × (status ≡ check_status said)
        × Appends (O.contents out.old) (O.contents out.new) (line_of (check_text said))) }
    ensures ends { IfErr result (λ ending. LacksCheck (D.reads disk.now) (D.opens disk.now) D.Index.calls D.Index.failed
        manifest.entry.now index.now (text_if lock.entry) (text_if source.entry) proof.entry.now ending
        ⊎ ((said : Check) × IsCheckOf (D.reads disk.now) (D.opens disk.now) D.Index.calls D.Index.failed
        manifest.entry.now index.now (text_if lock.entry) (text_if source.entry) proof.entry.now (Ok said)
        × (ending_view ending ≡ cannot_write) × O.fails out.old (line_of (check_text said)) out.new)) }
    ensures ended_before { has_ended_before result ≡ true → out.new ≡ out.old }
{
    let checked = checked_at(disk, manifest, index, lock, source, proof)?;
    let status = print_check(&checked, out)?;
    Ok(status)
}

/// What is said of the derivation.
fn checked_at<'a, D: Disk>(
    disk: &D,
    manifest: &'a str,
    index: &str,
    lock: Option<&'a str>,
    source: Option<&str>,
    proof: &'a str,
) -> Result<Check, Ending<'a>>
    ensures check { IfOk result (λ check. IsCheckOf (D.reads disk.now) (D.opens disk.now) D.Index.calls D.Index.failed
        manifest.entry.now index.now (text_if lock.entry) (text_if source.entry) proof.entry.now (Ok check)) }
    ensures lacks { IfErr result (LacksCheck (D.reads disk.now) (D.opens disk.now) D.Index.calls D.Index.failed
        manifest.entry.now index.now (text_if lock.entry) (text_if source.entry) proof.entry.now) }
{
    let text = source_text(source)?;
    let bytes = read_manifest(disk, manifest)?;
    let old = read_old(disk, lock)?;
    let given = slice_if(&old);
    let derivation = read_proof(disk, proof)?;
    let from = own_source(disk.memory(), text)?;
    let mut folder = disk.open(index)?;
    let checked = check_bytes(
        disk.memory(),
        bytes.as_slice(),
        &mut folder,
        given,
        derivation.as_slice(),
        &from,
    )?;
    Ok(checked)
}

fn explain_at<'a, D: Disk, O: Stream>(
    disk: &D,
    proof: &'a str,
    out: &mut O,
) -> Result<u8, Ending<'a>>
    ensures answers { IfOk result (λ status. (text : List ℕ) × IsTextOf (D.reads disk.now) proof.entry.now text
        × (status ≡ 0) × Appends (O.contents out.old) (O.contents out.new) text) }
    ensures ends { IfErr result (λ ending. LacksText (D.reads disk.now) proof.entry.now ending
        ⊎ ((text : List ℕ) × IsTextOf (D.reads disk.now) proof.entry.now text × (ending_view ending ≡ cannot_write)
        × O.fails out.old text out.new)) }
    ensures ended_before { has_ended_before result ≡ true → out.new ≡ out.old }
{
    let text = text_at(disk, proof)?;
    let status = print_bytes(text.as_bytes(), out)?;
    Ok(status)
}

/// The text of the derivation.
fn text_at<'a, D: Disk>(disk: &D, proof: &'a str) -> Result<String, Ending<'a>>
    ensures text { IfOk result (λ text. IsTextOf (D.reads disk.now) proof.entry.now (string_bytes text)) }
    ensures lacks { IfErr result (LacksText (D.reads disk.now) proof.entry.now) }
{
    let derivation = derivation_at(disk, proof)?;
    let text = explain(disk.memory(), &derivation)?;
    Ok(text)
}

/// The derivation of a file, whose bytes are let go.
fn derivation_at<'a, D: Disk>(disk: &D, proof: &'a str) -> Result<Derivation, Ending<'a>>
    ensures derivation { IfOk result (IsDerivationOf (D.reads disk.now) proof.entry.now) }
    ensures lacks { IfErr result (LacksText (D.reads disk.now) proof.entry.now) }
{
    let bytes = read_proof(disk, proof)?;
    let derivation = derivations::read(disk.memory(), bytes.as_slice())?;
    Ok(derivation)
}

/// Prints why there is no answer, where there is none; gives the status, and whether that was told.
fn finish<'a, E: Stream>(status: Result<u8, Ending<'a>>, err: &mut E) -> (u8, bool)
    ensures status { result.0 ≡ status_of status.entry }
    ensures told { Tells E.contents E.fails err.old (ending_of status.entry) result.1 err.new }
{
    match status {
        Ok(status) => (status, true),
        Err(ending) => (FAILED, err.put_line(&ending)),
    }
}

/// Prints why the command line can't be read, to `err`, and answers the exit status.
///
/// That is wrong use, unless memory was wanting.
pub fn without_arguments<E: Write>(error: &io::Error, err: &mut E) -> u8
    ensures { result ≡ 2 }
{
    let _ = if error.kind() == ErrorKind::OutOfMemory {
        writeln!(err, "{}", Fault::OutOfMemory)
    } else {
        writeln!(err, "{error}")
    };
    FAILED
}

/// Help goes to standard output, wrong use to standard error; gives the status, and whether all was told.
fn without_words<O: Stream, E: Stream>(fault: &WordsFault, out: &mut O, err: &mut E) -> (u8, bool)
    ensures printed { IsToldOfWords
        (λ bytes. O.fails out.old bytes out.new) (O.contents out.old) (O.contents out.new) fault.now result.0 }
    ensures told { Tells E.contents E.fails err.old (told_of_words fault.now result.0) result.1 err.new }
{
    match fault {
        WordsFault::Help(text) => {
            if out.put(text.as_bytes()) {
                (0, true)
            } else {
                (FAILED, err.put_line("cannot write"))
            }
        }
        WordsFault::Wrong(text) => (FAILED, err.put(text.as_bytes())),
        WordsFault::OutOfMemory => (FAILED, err.put_line(Fault::OutOfMemory)),
    }
}
