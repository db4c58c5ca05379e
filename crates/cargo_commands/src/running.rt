//! One run of the program: words in, a status and two texts out.

use crate::asking::{precise_at, resolve_at, skips_at, skips_at_all, update_at, verify_at, why_at};
use crate::failure::Failure;
use crate::manner::MessageFormat;
use crate::painter::Painter;
use crate::places::paths_of;
use crate::reading::{Asked, CargoWords, Changing, own_words, read_words};
use crate::showing::{Shows, Surroundings, painted, shows_of};
use crate::watch::Watch;
use outcomes::{FAILED, Form, Outcome, Paths, Said, Wish, is_missing, replace_lock};
use std::alloc::{AllocError, Global};
use std::io::{self, Eprint, ErrorKind, Write};
use std::rt::Files;
use std::time::Clock;
use words::WordsFault;

/// Does what the words ask, the program's name first, and answers the exit status.
///
/// What was asked for goes to `out`, help too; errors go to `err`. A write to `err` that fails is passed over.
pub fn run<R: Files + Clock + Eprint + AllocGlobal + Clone + Drop, O: Write, E: Write>(
    rt: &R,
    words: &[String],
    around: &Surroundings<'_>,
    out: &mut O,
    err: &mut E,
) -> u8 {
    let Ok(words) = own_words(rt.alloc(), words) else {
        return without_words(&WordsFault::OutOfMemory, out, err);
    };
    match read_words(rt.alloc(), words.as_slice()) {
        Ok(asked) => run_asked(rt, &asked, around, out, err),
        Err(fault) => without_words(&fault, out, &mut painted(rt.alloc(), around, err)),
    }
}

/// Does what is asked, and shows what is told of that as it is asked for.
fn run_asked<'a, R: Files + Clock + Eprint + AllocGlobal + Clone + Drop, O: Write, E: Write>(
    rt: &R,
    asked: &Asked<'a>,
    around: &Surroundings<'a>,
    out: &mut O,
    err: &mut E,
) -> u8 {
    let manner = asked.manner;
    let shows = match shows_of(&manner, around) {
        Ok(shows) => shows,
        Err(failure) => return fail(&failure, err),
    };
    let form = match manner.format {
        MessageFormat::Json => Form::Programs,
        MessageFormat::Human => Form::People,
    };
    let is_shown = around.is_watched && !manner.quiet;
    let watch = Watch::from_now(rt, is_shown, manner.verbose && !manner.quiet);
    let Shows {
        out: show_out,
        err: show_err,
    } = shows;
    let mut out = Painter::new(rt.alloc(), out, show_out);
    let mut err = Painter::new(rt.alloc(), err, show_err);
    let mut said = Said::new(rt.alloc(), form, manner.quiet);
    run_command(
        rt,
        &asked.command,
        around,
        watch,
        &mut said,
        &mut out,
        &mut err,
    )
}

/// Does what a command asks, and answers its status; that it fails is told too.
fn run_command<'a, R: Files + Clock + Eprint + AllocGlobal + Clone + Drop, O: Write, E: Write>(
    rt: &R,
    command: &CargoWords<'a>,
    around: &Surroundings<'a>,
    watch: Watch,
    said: &mut Said,
    out: &mut O,
    err: &mut E,
) -> u8 {
    match paths_of(rt, command.places(), around) {
        Ok(paths) => run_at(rt, command, &paths, watch, said, out, err),
        Err(failure) => failed(rt.alloc(), &failure, said, out, err),
    }
}

/// The same, once it is known where the files are.
fn run_at<'p, R: Files + Clock + Eprint + AllocGlobal + Clone + Drop, O: Write, E: Write>(
    rt: &R,
    command: &CargoWords<'_>,
    paths: &'p Paths<'p>,
    watch: Watch,
    said: &mut Said,
    out: &mut O,
    err: &mut E,
) -> u8 {
    match outcome_of(rt, command, paths, watch, said) {
        Ok(outcome) => finish(rt, paths, &outcome, said, out, err),
        Err(failure) => failed(rt.alloc(), &failure, said, out, err),
    }
}

/// What a command ends with.
fn outcome_of<'p, R: Files + Clock + Eprint + AllocGlobal + Clone + Drop>(
    rt: &R,
    command: &CargoWords<'_>,
    paths: &'p Paths<'p>,
    watch: Watch,
    said: &mut Said,
) -> Result<Outcome, Failure<'p>> {
    match command {
        CargoWords::Resolve {
            changing,
            repair,
            ..
        } => resolve_at(rt, paths, wish_of(changing, *repair), watch, said),
        CargoWords::Update {
            changing,
            packages,
            precise,
            ..
        } => {
            let wish = wish_of(changing, false);
            match precise {
                Some(version) => precise_at(rt, paths, packages, version, wish, watch, said),
                None => update_at(rt, paths, packages, wish, watch, said),
            }
        }
        CargoWords::Verify { .. } => verify_at(rt, paths, watch, said),
        CargoWords::Why { package, all, .. } => why_at(rt, paths, package, *all, watch, said),
        CargoWords::Skips { all, places } => {
            if places.manifest.is_none() && is_missing(rt, paths.manifest) {
                skips_at_all(rt, paths, *all, watch, said)
            } else {
                skips_at(rt, paths, *all, watch, said)
            }
        }
    }
}

fn wish_of(changing: &Changing, repair: bool) -> Wish {
    Wish {
        locked: changing.locked,
        write: changing.write,
        repair,
        all: changing.all,
        ignore_rust_version: changing.ignore_rust_version,
        is_member: false,
    }
}

/// Prints what a command tells and replaces the lock, and answers the status; that one of these fails is told too.
fn finish<'p, R: Files + AllocGlobal, O: Write, E: Write>(
    rt: &R,
    paths: &'p Paths<'p>,
    outcome: &Outcome,
    said: &mut Said,
    out: &mut O,
    err: &mut E,
) -> u8 {
    match ended(rt, paths, outcome, said, out, err) {
        Ok(status) => status,
        Err(failure) => failed(rt.alloc(), &failure, said, out, err),
    }
}

/// Prints what a command tells, and then replaces the lock, if it has another one.
fn ended<'a, R: Files + AllocGlobal, O: Write, E: Write>(
    rt: &R,
    paths: &'a Paths<'a>,
    outcome: &Outcome,
    said: &mut Said,
    out: &mut O,
    err: &mut E,
) -> Result<u8, Failure<'a>> {
    print_said(said, out, err)?;
    if let Some(bytes) = &outcome.new_lock {
        replace_lock(rt, paths.lock.as_str(), bytes)?;
    }
    Ok(outcome.status)
}

/// Prints what was told, once.
fn print_said<'a, O: Write, E: Write>(
    said: &mut Said,
    out: &mut O,
    err: &mut E,
) -> Result<(), Failure<'a>> {
    let printed = print(said.out.as_str(), out);
    let _ = err.write_all(said.err.as_bytes());
    let _ = err.flush();
    said.clear();
    printed
}

fn print<'a, O: Write>(text: &str, out: &mut O) -> Result<(), Failure<'a>> {
    match written(text, out) {
        Ok(()) => Ok(()),
        Err(error) => Err(Failure::CannotWrite(error)),
    }
}

fn written<O: Write>(text: &str, out: &mut O) -> io::Result<()> {
    out.write_all(text.as_bytes())?;
    out.flush()
}

/// The status of a failure, which is told behind what was told before.
fn failed<O: Write, E: Write>(
    alloc: Global,
    failure: &Failure<'_>,
    said: &mut Said,
    out: &mut O,
    err: &mut E,
) -> u8 {
    match tell_failure(alloc, failure, said) {
        Ok(()) => {
            let _ = print_said(said, out, err);
            FAILED
        }
        Err(_) => fail(failure, err),
    }
}

fn tell_failure(alloc: Global, failure: &Failure<'_>, said: &mut Said) -> Result<(), AllocError> {
    let message = format!(in alloc; "{failure}")?;
    said.error(failure.kind(), message.as_str())
}

/// The status of a failure, which is told to people.
fn fail<E: Write>(failure: &Failure<'_>, err: &mut E) -> u8 {
    let _ = writeln!(err, "error: {failure}");
    let _ = err.flush();
    FAILED
}

/// Prints why the command line can't be read, to `err`, and answers the exit status.
pub fn without_arguments<E: Write>(error: &io::Error, err: &mut E) -> u8 {
    let _ = if error.kind() == ErrorKind::OutOfMemory {
        writeln!(err, "error: {}", Failure::OutOfMemory)
    } else {
        writeln!(err, "error: {error}")
    };
    FAILED
}

/// Help goes to standard output, wrong use to standard error.
fn without_words<O: Write, E: Write>(fault: &WordsFault, out: &mut O, err: &mut E) -> u8 {
    match fault {
        WordsFault::Help(text) => match print(text.as_str(), out) {
            Ok(()) => 0,
            Err(failure) => fail(&failure, err),
        },
        WordsFault::Wrong(text) => {
            let _ = err.write_all(text.as_bytes());
            FAILED
        }
        WordsFault::OutOfMemory => fail(&Failure::OutOfMemory, err),
    }
}
