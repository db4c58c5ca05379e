//! What the words of a command line ask of `cargo relock`, as `clap` reads them.
//!
//! Cargo hands over the name of the program and `relock` before the other words; both are passed over here, so that the
//! program may be called by itself too.
//!
//! It stands beside `words`, whose commands are held to `clap`'s own meaning: here no contract says what words ask for,
//! since nothing that is promised rests on it, and what the program prints is held against texts.

use crate::command::cargo_relock;
use crate::manner::{Manner, manner_of};
use clap::ArgMatches;
use std::alloc::{AllocError, Global};
use words::{WordsFault, fault_of};

/// Where the files of a command are.
#[derive(Clone, Copy)]
pub(crate) struct Places<'a> {
    pub manifest: Option<&'a str>,
    pub lock: Option<&'a str>,
    pub index: Option<&'a str>,
    /// The source of the packages of the index.
    pub source: Option<&'a str>,
}

/// What the commands are to do that may change the lock.
#[derive(Clone, Copy)]
pub(crate) struct Changing {
    pub locked: bool,
    /// Without `--dry-run`.
    pub write: bool,
    /// `-v` asks for this too, as with Cargo.
    pub all: bool,
    pub ignore_rust_version: bool,
}

/// A command, with what its options say.
#[derive(Drop)]
pub(crate) enum CargoWords<'a> {
    Resolve {
        places: Places<'a>,
        changing: Changing,
        repair: bool,
    },
    Update {
        places: Places<'a>,
        changing: Changing,
        /// Each `NAME` or `NAME@VERSION`; none for all.
        packages: Vec<&'a str>,
        /// The version that the one package gets.
        precise: Option<&'a str>,
    },
    Verify {
        places: Places<'a>,
    },
    Why {
        places: Places<'a>,
        /// `NAME` or `NAME@VERSION`.
        package: &'a str,
        all: bool,
    },
    Skips {
        places: Places<'a>,
        all: bool,
    },
}

impl<'a> CargoWords<'a> {
    /// Where its files are.
    pub(crate) fn places(&self) -> Places<'a> {
        match self {
            CargoWords::Resolve { places, .. }
            | CargoWords::Update { places, .. }
            | CargoWords::Verify { places }
            | CargoWords::Why { places, .. }
            | CargoWords::Skips { places, .. } => *places,
        }
    }
}

/// What words ask for.
#[derive(Drop)]
pub(crate) struct Asked<'a> {
    pub command: CargoWords<'a>,
    pub manner: Manner,
}

/// The words of a command line with the name by which the program is to be called. Cargo puts one more before the
/// others, `relock`; where there is no other, they ask for help.
pub(crate) fn own_words<'a>(
    alloc: Global,
    words: &'a [String],
) -> Result<Vec<&'a str>, AllocError> {
    let mut own = Vec::new(alloc);
    own.push("cargo relock")?;
    for word in words.iter().skip(names(words)) {
        own.push(word.as_str())?;
    }
    if own.len() == 1 {
        own.push("--help")?;
    }
    Ok(own)
}

/// How many words only name the program.
fn names(words: &[String]) -> usize {
    match words.get(1) {
        Some(word) => { if word.as_str() == "relock" { 2 } else { 1 } }
        None => 1,
    }
}

/// The command and the options that words give, the program's name first.
pub(crate) fn read_words<'a>(alloc: Global, words: &'a [&'a str]) -> Result<Asked<'a>, WordsFault> {
    match cargo_relock(alloc)?.try_get_matches_from(words) {
        Ok(matches) => match asked_by(alloc, &matches)? {
            Some(asked) => Ok(asked),
            None => Err(WordsFault::Wrong(String::new(alloc))),
        },
        Err(error) => Err(fault_of(alloc, &error)),
    }
}

/// What the words ask; nothing where they name no command.
fn asked_by<'a>(alloc: Global, matches: &ArgMatches<'a>) -> Result<Option<Asked<'a>>, AllocError> {
    let Some((name, found)) = matches.subcommand() else {
        return Ok(None);
    };
    let manner = manner_of(found);
    if name == "update" {
        let command = update_in(alloc, found)?;
        return Ok(Some(Asked { command, manner }));
    }
    match words_of(name, found) {
        Some(command) => Ok(Some(Asked { command, manner })),
        None => Ok(None),
    }
}

/// The words of `update`; with `--workspace` and no package it is what `resolve` does.
fn update_in<'a>(alloc: Global, found: &ArgMatches<'a>) -> Result<CargoWords<'a>, AllocError> {
    let mut packages = Vec::new(alloc);
    for id in ["package", "more-packages"] {
        packages.extend_from_slice(found.get_strs(id).unwrap_or(&[]))?;
    }
    let (places, changing) = (places_of(found), changing_in(found));
    let precise = found.get_str("precise");
    if found.get_flag("workspace") && packages.is_empty() && precise.is_none() {
        return Ok(CargoWords::Resolve {
            places,
            changing,
            repair: false,
        });
    }
    Ok(CargoWords::Update {
        places,
        changing,
        packages,
        precise,
    })
}

/// The words of every other command.
fn words_of<'a>(name: &str, found: &ArgMatches<'a>) -> Option<CargoWords<'a>> {
    let places = places_of(found);
    match name {
        "resolve" => Some(CargoWords::Resolve {
            places,
            changing: changing_in(found),
            repair: found.get_flag("repair"),
        }),
        "verify" => Some(CargoWords::Verify { places }),
        "why" => Some(CargoWords::Why {
            places,
            package: found.get_str("package")?,
            all: found.get_flag("all"),
        }),
        "skips" => Some(CargoWords::Skips {
            places,
            all: found.get_flag("all"),
        }),
        _ => None,
    }
}

fn changing_in(found: &ArgMatches<'_>) -> Changing {
    Changing {
        locked: found.get_flag("locked"),
        write: found.get_flag("write") && !found.get_flag("dry-run"),
        all: found.get_flag("all") || manner_of(found).verbose,
        ignore_rust_version: found.get_flag("ignore-rust-version"),
    }
}

fn places_of<'a>(found: &ArgMatches<'a>) -> Places<'a> {
    Places {
        manifest: found.get_str("manifest-path"),
        lock: found.get_str("lockfile-path"),
        index: found.get_str("index"),
        source: found.get_str("source"),
    }
}
