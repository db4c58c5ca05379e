//! `worked_cases FOLDER`: plays the cases of a folder through runs of `relock` and of `cargo-relock`, and searches
//! whose steps are counted, and says which commands end otherwise than told. One program plays all, since each has to
//! load all that stands below it.
//!
//! What a case is, and what its commands may be, is told in `cases.rt`.
#![tactic(auto)]

mod case;
mod cases;
mod counting;
mod helping;
mod problem;
mod searching;
mod sessions;
mod sink;

use crate::case::Programs;
use crate::cases::play_cases;
use crate::searching::search;
use cargo_commands::{Surroundings, run as tell};
use commands::run;
use std::io::{self, Write};
use std::process::ExitCode;

fn main(rt: HostRuntime) -> io::Result<ExitCode> {
    play_cases(&rt, &Both { rt: &rt })
}

/// `relock`, `search`, and `cargo-relock`, before whose name may stand what is around it.
#[derive(Clone, Copy)]
struct Both<'a> {
    rt: &'a HostRuntime,
}

impl Programs for Both<'_> {
    fn run<O: Write, E: Write>(
        &self,
        words: &[String],
        out: &mut O,
        err: &mut E,
    ) -> io::Result<Option<u8>> {
        let rt = self.rt;
        let (around, words) = around(words);
        let status = match words.first().map(|word| word.as_str()) {
            Some("relock") => run(&mut rt.clone()?, words, out, err),
            Some("cargo-relock") => tell(rt, words, &around, out, err),
            Some("search") => search(rt, words, out)?,
            _ => return Ok(None),
        };
        Ok(Some(status))
    }
}

/// What the first words say of what is around a run, and the words after these.
fn around(words: &[String]) -> (Surroundings<'_>, &[String]) {
    let mut around = Surroundings::bare(None);
    for (place, word) in words.iter().enumerate() {
        let Some(more) = with_word(around, word.as_str()) else {
            return (around, &words[place..]);
        };
        around = more;
    }
    (around, &[])
}

/// What is around a run with what a word `NAME=VALUE` says of it; `None` for any other word.
fn with_word<'a>(around: Surroundings<'a>, word: &'a str) -> Option<Surroundings<'a>> {
    let (name, value) = word.split_once('=')?;
    let mut around = around;
    match name {
        "RELOCK_INDEX" => around.index = Some(value),
        "CARGO_HOME" => around.cargo_home = Some(value),
        "CARGO_TERM_COLOR" => around.color = Some(value),
        "NO_COLOR" => around.no_color = true,
        "TERM" => {
            around.out_is_terminal = true;
            around.err_is_terminal = true;
        }
        _ => return None,
    }
    Some(around)
}
