//! Reading the words of a command line.

ghost use Rattle.std.specs.Prelude.{◌≡◌, IfErr, IfOk, [], Some, map, option_map, option_and_then, string_bytes};
ghost use Rattle.clap.specs.Words.{first_of, found_of, rows_of, subcommand_rows_of};
ghost use Rattle.words.specs.Asked.{asked, command_of, faults, is_set, or_help, parsed, resolve_of, verify_of};
ghost use Rattle.words.specs.Asked.{check_of, explain_of};
ghost use Rattle.words.specs.WordsFaults.{IsWordsFault};
ghost use Rattle.words.specs.Views.{text_if, words_view};

use crate::command::relock;
use crate::fault::{WordsFault, fault_of};
use clap::ArgMatches;
use std::alloc::Global;
use std::convert::AsStr;

/// A command, with the texts of its options.
#[derive(Debug, Drop)]
pub enum Words<'a> {
    Resolve {
        manifest: &'a str,
        index: &'a str,
        lock: Option<&'a str>,
        source: Option<&'a str>,
        proof: Option<&'a str>,
        rust_first: bool,
    },
    Verify {
        manifest: &'a str,
        index: &'a str,
        lock: &'a str,
        source: Option<&'a str>,
    },
    Check {
        manifest: &'a str,
        index: &'a str,
        lock: Option<&'a str>,
        source: Option<&'a str>,
        proof: &'a str,
    },
    Explain {
        proof: &'a str,
    },
}

/// What stands for a bare `relock`.
static HELP: [&str; 2] = ["relock", "--help"];

/// The command and the options that the words give, the program's name first. A bare name asks for help.
pub fn read_words<'a>(alloc: Global, words: &'a [String]) -> Result<Words<'a>, WordsFault>
    ensures asked { IfOk result (λ w. asked (map string_bytes words.entry.now) ≡ Some (words_view w)) }
    ensures taken { IfOk result (λ _. faults (or_help (map string_bytes words.entry.now)) ≡ []) }
    ensures fault { IfErr result (IsWordsFault (or_help (map string_bytes words.entry.now))) }
{
    if words.len() > 1 {
        parsed(alloc, words)
    } else {
        parsed(alloc, HELP.as_slice())
    }
}

fn parsed<'a, S: AsStr>(alloc: Global, words: &'a [S]) -> Result<Words<'a>, WordsFault>
    ensures asked { IfOk result (λ w. parsed (map S.text words.entry.now) ≡ Some (words_view w)) }
    ensures taken { IfOk result (λ _. faults (map S.text words.entry.now) ≡ []) }
    ensures fault { IfErr result (IsWordsFault (map S.text words.entry.now)) }
{
    match relock(alloc)?.try_get_matches_from(words) {
        Ok(matches) => match words_of(&matches) {
            Some(words) => Ok(words),
            None => Err(WordsFault::Wrong(String::new(alloc))),
        },
        Err(error) => Err(fault_of(alloc, &error)),
    }
}

fn words_of<'a>(matches: &ArgMatches<'a>) -> Option<Words<'a>>
    ensures { option_map words_view result ≡ option_and_then command_of (subcommand_rows_of matches.now) }
{
    let (name, found) = matches.subcommand()?;
    match name {
        "resolve" => resolve_of(found),
        "verify" => verify_of(found),
        "check" => check_of(found),
        "explain" => explain_of(found),
        _ => None,
    }
}

fn resolve_of<'a>(found: &ArgMatches<'a>) -> Option<Words<'a>>
    ensures { option_map words_view result ≡ resolve_of (rows_of (found_of found.now)) }
{
    Some(Words::Resolve {
        manifest: value_of(found, "manifest")?,
        index: value_of(found, "index")?,
        lock: value_of(found, "lock"),
        source: value_of(found, "source"),
        proof: value_of(found, "proof"),
        rust_first: is_set(value_of(found, "rust-first")),
    })
}

fn verify_of<'a>(found: &ArgMatches<'a>) -> Option<Words<'a>>
    ensures { option_map words_view result ≡ verify_of (rows_of (found_of found.now)) }
{
    Some(Words::Verify {
        manifest: value_of(found, "manifest")?,
        index: value_of(found, "index")?,
        lock: value_of(found, "lock")?,
        source: value_of(found, "source"),
    })
}

fn check_of<'a>(found: &ArgMatches<'a>) -> Option<Words<'a>>
    ensures { option_map words_view result ≡ check_of (rows_of (found_of found.now)) }
{
    Some(Words::Check {
        manifest: value_of(found, "manifest")?,
        index: value_of(found, "index")?,
        lock: value_of(found, "lock"),
        source: value_of(found, "source"),
        proof: value_of(found, "proof")?,
    })
}

fn explain_of<'a>(found: &ArgMatches<'a>) -> Option<Words<'a>>
    ensures { option_map words_view result ≡ explain_of (rows_of (found_of found.now)) }
{
    let proof = value_of(found, "proof")?;
    Some(Words::Explain { proof })
}

/// The value of an option.
fn value_of<'a>(found: &ArgMatches<'a>, name: &str) -> Option<&'a str>
    ensures { text_if result ≡ first_of name.now (rows_of (found_of found.now)) }
{
    found.get_str(name)
}

/// Whether the value of a flag says that it stands there.
fn is_set(value: Option<&str>) -> bool
    ensures { result ≡ is_set (text_if value.entry) }
{
    match value {
        Some(value) => value == "true",
        None => false,
    }
}
