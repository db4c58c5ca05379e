//! Plays cases: each is a folder with a session in it, which has the commands of one or more programs and how each has
//! to end. Which programs there are is said by who plays.
//!
//! A case is a folder with the files that its commands read and a file `session`. A session begins with lines that say
//! what the case is about, up to the first that begins with `$ `. That is a command, and the lines below it, up to the
//! next one, say how it has to end: `? N` the status is N (without it 0), `! LINE` a line of standard error, any other
//! a line of standard output. Both texts have to be exactly these lines, where a line `...` stands for any lines, and
//! where there is no such one `...` for any text.
//!
//! `relock WORD ..` is a run of the program, its words between spaces, `''` for an empty one; files are found from the
//! case's folder. After the words `>> PATH` appends standard output to a file and `2>> PATH`, behind it, standard
//! error; nothing is told of a text that goes there. Files are made in the folder `made` alone, which is empty at
//! first. `cargo-relock WORD ..` is a run of the second program, in whose environment is what stands before it, of
//! `RELOCK_INDEX`, `CARGO_HOME`, `CARGO_TERM_COLOR` and `NO_COLOR`; both texts go to a terminal where `TERM=xterm`
//! does.
//!
//! `search FOLDER WORD` tells of a search what no run prints (`searching.rt`).
//!
//! `repeat COUNT TEXT` writes the text COUNT times, with a space for each `_`, a line end for each `;`, and for `@` the
//! number of the time in five digits; `cat PATH` writes the bytes of a file; `cmp PATH PATH` ends with status 1 where
//! two files differ.
//!
//! The programs run in this process, as functions that write to two sinks, so that a thousand commands take seconds;
//! beside them a session may call the three helpers of `helping`. Each command is held against its status and its text
//! to the byte, and what it writes lies in a folder of its own, which is cleared before and after.
//!
//! What it finds is a test's word, and no contract says anything of it.

use crate::case::{Programs, play};
use std::env::{self, Env};
use std::fs;
use std::io::{self, Eprint, Print};
use std::process::ExitCode;
use std::rt::Files;

/// The status where a case ends otherwise than told, or where there is no case.
const FAILED: u8 = 1;

/// Plays the cases of the folder that the first word names, and says which commands end otherwise than told. The status
/// is 0 if all ended as told; where there is no case, none did.
///
/// Says on standard error how many cases there were, so that another one changes no stored text.
pub fn play_cases<R: Env + Files + AllocGlobal + Print + Eprint + Clone + Drop, P: Programs>(
    rt: &R,
    programs: &P,
) -> io::Result<ExitCode> {
    env::set_current_dir(rt, folder(rt)?.as_str())?;
    let names = names_of_cases(rt)?;
    let mut told = Vec::new(rt.alloc());
    for name in names.iter() {
        told.push(play(rt, programs, name.as_str())?)?;
    }
    let passed = told.iter().filter(|as_told| **as_told).count();
    let failed = told.iter().filter(|as_told| !**as_told).count();
    eprintln!(rt; "{passed} passed, {failed} failed")?;
    let status = if passed > 0 && failed == 0 { 0 } else { FAILED };
    Ok(ExitCode::from(status))
}

/// The folder of the cases, which is the first word.
fn folder<R: Env + AllocGlobal>(rt: &R) -> io::Result<String> {
    let word = env::args(rt)?.nth(1);
    word.ok_or(io::Error::from(io::ErrorKind::InvalidInput))
}

/// The names of the folders in the present one, in order of their bytes.
fn names_of_cases<R: Files + AllocGlobal + Clone + Drop>(rt: &R) -> io::Result<Vec<String>> {
    let mut names = Vec::new(rt.alloc());
    for entry in fs::read_dir(rt, ".")? {
        let entry = entry?;
        if entry.file_type()?.is_dir() {
            names.push(String::from_str(rt.alloc(), entry.file_name())?)?;
        }
    }
    names.sort()?;
    Ok(names)
}
