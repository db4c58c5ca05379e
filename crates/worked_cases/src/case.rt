//! Plays a case: the commands of its session one by one, in its folder.

use crate::helping::{cat, cmp, repeat};
use crate::sessions::{SessionStep, steps_of};
use crate::sink::Sink;
use std::alloc::{AllocError, Global};
use std::env::{self, Env};
use std::fs::{self, OpenOptions};
use std::io::{self, ErrorKind, Print, Write};
use std::rt::Files;

/// The programs that the commands of a session run.
pub trait Programs {
    /// Runs the program that the first word names and answers its status, if there is such a one.
    fn run<O: Write, E: Write>(
        &self,
        words: &[String],
        out: &mut O,
        err: &mut E,
    ) -> io::Result<Option<u8>>;
}

/// The folder, in that of a case, of the files that its commands write.
const MADE: &str = "made";

/// Plays the case of a name and prints each command that ends otherwise than told; whether none did.
///
/// A case is a folder in the present one, with a file `session` and the files that its commands read. A session without
/// a command ends otherwise than told.
pub(crate) fn play<R: Env + Files + AllocGlobal + Print + Clone + Drop, P: Programs>(
    rt: &R,
    programs: &P,
    name: &str,
) -> io::Result<bool> {
    env::set_current_dir(rt, name)?;
    clear(rt)?;
    fs::create_dir(rt, MADE)?;
    let session = fs::read_to_string(rt, "session")?;
    let steps = steps_of(rt.alloc(), session.as_str())?;
    let mut as_told = !steps.is_empty();
    for step in steps.iter() {
        as_told &= is_as_told(rt, programs, name, step)?;
    }
    clear(rt)?;
    env::set_current_dir(rt, "..")?;
    Ok(as_told)
}

/// Removes what the commands of an earlier run wrote.
fn clear<R: Files + AllocGlobal>(rt: &R) -> io::Result<()> {
    match fs::remove_dir_all(rt, MADE) {
        Err(error) if error.kind() != ErrorKind::NotFound => Err(error),
        _ => Ok(()),
    }
}

/// Runs a command, and prints how it ended where that isn't as told.
fn is_as_told<R: Files + AllocGlobal + Print, P: Programs>(
    rt: &R,
    programs: &P,
    name: &str,
    step: &SessionStep<'_>,
) -> io::Result<bool> {
    match run_command(rt, programs, step.command) {
        Ok(ended) if ended.is_told_by(step) => return Ok(true),
        Ok(ended) => print_ended(rt, name, step.command, &ended)?,
        Err(error) => println!(rt; "{name}: $ {}\n{error}", step.command)?,
    }
    Ok(false)
}

fn print_ended<R: Print, F>(rt: &R, name: &str, command: &str, ended: &Ended<F>) -> io::Result<()> {
    let status = ended.status.as_str();
    let (err, out) = (ended.err.kept_text(), ended.out.kept_text());
    print!(rt; "{name}: $ {command}\n? {status}\n{err}{out}")
}

/// How a command ended.
#[derive(Drop)]
struct Ended<F> {
    status: String,
    out: Sink<F>,
    err: Sink<F>,
}

impl<F> Ended<F> {
    fn is_told_by(&self, step: &SessionStep<'_>) -> bool {
        let is_status = self.status.as_str() == step.status;
        let is_out = is_like(self.out.kept_text(), step.out.as_str());
        is_status && is_out && is_like(self.err.kept_text(), step.err.as_str())
    }
}

/// Whether a text is what is told of it, where a line `...` stands for any lines; without one, `...` for any text.
fn is_like(text: &str, told: &str) -> bool {
    match told.split_once("...\n").or(told.split_once("...")) {
        Some((front, back)) => text.starts_with(front) && text.ends_with(back),
        None => text == told,
    }
}

/// Runs a program or a helper; `>> PATH` and, after it, `2>> PATH` name files for the two texts.
fn run_command<R: Files + AllocGlobal, P: Programs>(
    rt: &R,
    programs: &P,
    command: &str,
) -> io::Result<Ended<R::File>> {
    let (command, err) = cut_at(command, " 2>> ");
    let (command, out) = cut_at(command, " >> ");
    let mut out = sink(rt, out)?;
    let mut err = sink(rt, err)?;
    let words = words_of(rt.alloc(), command)?;
    let status = match words.first().map(|word| word.as_str()) {
        Some("repeat") => repeat(rt, words.as_slice(), &mut out)?,
        Some("cat") => cat(rt, words.as_slice(), &mut out)?,
        Some("cmp") => cmp(rt, words.as_slice())?,
        _ => run_program(programs, words.as_slice(), &mut out, &mut err)?,
    };
    let status = format!(in rt.alloc(); "{status}")?;
    Ok(Ended { status, out, err })
}

fn run_program<F: Write, P: Programs>(
    programs: &P,
    words: &[String],
    out: &mut Sink<F>,
    err: &mut Sink<F>,
) -> io::Result<u8> {
    match programs.run(words, out, err)? {
        Some(status) => Ok(status),
        None => Err(io::Error::from(ErrorKind::InvalidInput)),
    }
}

/// What stands before a mark and after it.
fn cut_at<'a>(text: &'a str, mark: &str) -> (&'a str, Option<&'a str>) {
    match text.split_once(mark) {
        Some((before, after)) => (before, Some(after)),
        None => (text, None),
    }
}

/// A text is appended to a file that is named.
fn sink<R: Files + AllocGlobal>(rt: &R, path: Option<&str>) -> io::Result<Sink<R::File>> {
    let Some(path) = path else {
        return Ok(Sink::Kept(Vec::new(rt.alloc())));
    };
    if let Some((folder, _)) = path.rsplit_once('/') {
        fs::create_dir_all(rt, folder)?;
    }
    let file = OpenOptions::new().append(true).create(true).open(rt, path)?;
    Ok(Sink::Written(file))
}

/// The words of a command, where `''` is the empty one.
fn words_of(alloc: Global, command: &str) -> Result<Vec<String>, AllocError> {
    let mut words = Vec::new(alloc);
    for word in command.split_whitespace() {
        let word = if word == "''" { "" } else { word };
        words.push(String::from_str(alloc, word)?)?;
    }
    Ok(words)
}
