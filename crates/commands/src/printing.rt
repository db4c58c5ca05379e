//! What is printed of each answer, and where.

ghost use Rattle.std.specs.Prelude.{◌≡◌, true, false, map, IfErr, IfOk};
ghost use Rattle.std.specs.Io.KnownBytes.{Appends};
ghost use Rattle.checker.specs.Texts.{check_text};
ghost use Rattle.selection.specs.Texts.{verdict_text};
ghost use Rattle.words.specs.Views.{text_if};
ghost use Rattle.commands.specs.Commands.{IsFiled, IsUnwritten};
ghost use Rattle.commands.specs.Disks.{writes};
ghost use Rattle.commands.specs.Lines.{IsPrinted, Puts, Tells, line_of, verdict_status, check_status, skip_line};
ghost use Rattle.commands.specs.Lines.{skips_of, told_of};
ghost use Rattle.commands.specs.Endings.{cannot_write, has_ended_before, ending_view};

use crate::disk::Disk;
use crate::ending::Ending;
use crate::files::write_proof;
use crate::streams::Stream;
use checker::Check;
use index_reader::Skip;
use resolver::Answer;
use selection::Verdict;

/// The status of a lock that is no valid selection.
const INVALID: u8 = 1;

/// The status of a manifest that has no lock.
const UNSOLVABLE: u8 = 1;

/// The status of a derivation that proves nothing.
const REFUSED: u8 = 1;

/// How a command ended: its status or why it has none, and whether all that it had to tell on standard error was
/// written.
#[derive(Drop)]
pub(crate) struct Ended<'a> {
    pub(crate) status: Result<u8, Ending<'a>>,
    pub(crate) told: bool,
}

pub(crate) fn print_verdict<'a, O: Stream>(verdict: &Verdict, out: &mut O) -> Result<u8, Ending<'a>>
    ensures printed { IfOk result (λ status. (status ≡ verdict_status verdict.now)
        × Appends (O.contents out.old) (O.contents out.new) (line_of (verdict_text verdict.now))) }
    ensures written { has_ended_before result ≡ false }
    ensures unwritten { IfErr result
        (λ ending. (ending_view ending ≡ cannot_write) × O.fails out.old (line_of (verdict_text verdict.now)) out.new) }
{
    let status = match verdict {
        Verdict::Valid => 0,
        Verdict::Invalid { .. } => INVALID,
    };
    after(out.put_line(verdict), status)
}

pub(crate) fn print_check<'a, O: Stream>(checked: &Check, out: &mut O) -> Result<u8, Ending<'a>>
    ensures printed { IfOk result (λ status. (status ≡ check_status checked.now)
        × Appends (O.contents out.old) (O.contents out.new) (line_of (check_text checked.now))) }
    ensures written { has_ended_before result ≡ false }
    ensures unwritten { IfErr result
        (λ ending. (ending_view ending ≡ cannot_write) × O.fails out.old (line_of (check_text checked.now)) out.new) }
{
    let status = match checked {
        Check::Proves => 0,
        Check::Refused { .. } => REFUSED,
    };
    after(out.put_line(checked), status)
}

/// A whole text, with the status 0.
pub(crate) fn print_bytes<'a, O: Stream>(bytes: &[u8], out: &mut O) -> Result<u8, Ending<'a>>
    ensures printed { IfOk result
        (λ status. (status ≡ 0) × Appends (O.contents out.old) (O.contents out.new) bytes.now) }
    ensures written { has_ended_before result ≡ false }
    ensures unwritten { IfErr result
        (λ ending. (ending_view ending ≡ cannot_write) × O.fails out.old bytes.now out.new) }
{
    after(out.put(bytes), 0)
}

/// This status, where the answer could be written.
fn after<'a>(written: bool, status: u8) -> Result<u8, Ending<'a>>
    ensures ok { IfOk result (λ given. (given ≡ status) × (written ≡ true)) }
    ensures written { has_ended_before result ≡ false }
    ensures unwritten { IfErr result (λ ending. (ending_view ending ≡ cannot_write) × (written ≡ false)) }
{
    if written {
        Ok(status)
    } else {
        Err(Ending::CannotWrite)
    }
}

/// The skipped lines go to `err` first. Then a lock goes to `out`; of a refusal the derivation goes to the file for it,
/// and then the text to `err`.
pub(crate) fn print_answer<'a, D: Disk, O: Stream, E: Stream>(
    disk: &mut D,
    answer: &Answer,
    proof: Option<&'a str>,
    out: &mut O,
    err: &mut E,
) -> Ended<'a>
    ensures printed { IfOk result.status (IsPrinted (O.contents out.old) (O.contents out.new) answer.now) }
    ensures filed { IfOk result.status
        (λ _. IsFiled (writes D.writes disk.old disk.new) (text_if proof.entry) answer.now) }
    ensures unwritten { IfErr result.status (IsUnwritten (writes D.writes disk.old disk.new)
        (λ bytes. O.fails out.old bytes out.new) (text_if proof.entry) answer.now) }
    ensures ended_before { has_ended_before result.status ≡ true → out.new ≡ out.old }
    ensures told { Tells E.contents E.fails err.old (told_of answer.now result.status) result.told err.new }
{
    let told = print_skips(skips_of(answer), err);
    match answer {
        Answer::Lock { bytes, .. } => {
            let status = print_bytes(bytes.as_slice(), out);
            Ended { status, told }
        }
        Answer::Unsolvable {
            derivation,
            text,
            ..
        } => match write_proof(disk, proof, derivation) {
            Ok(()) => {
                let is_told = err.put(text.as_bytes());
                Ended {
                    status: Ok(UNSOLVABLE),
                    told: told & is_told,
                }
            }
            Err(ending) => Ended {
                status: Err(ending),
                told,
            },
        },
    }
}

fn skips_of(answer: &Answer) -> &[Skip]
    ensures { result.now ≡ skips_of answer.now }
{
    match answer {
        Answer::Lock { skips, .. } | Answer::Unsolvable { skips, .. } => skips.as_slice(),
    }
}

/// A line for each skipped line, and whether all were written.
fn print_skips<E: Stream>(skips: &[Skip], err: &mut E) -> bool
    ensures { Tells E.contents E.fails err.old (map skip_line skips.now) result err.new }
{
    let mut told = true;
    'skips: for skip in skips {
        told &= print_skip(skip, err);
    }
    told
}

fn print_skip<E: Stream>(skip: &Skip, err: &mut E) -> bool
    ensures { Puts E.contents E.fails err.old (skip_line skip.now) result err.new }
{
    let Skip { name, line, reason } = skip;
    err.put_line(format_args!("skip {name} line {line} {reason}"))
}
