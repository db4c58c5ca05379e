//! How a command tells what it finds: the options that each command has beside those of its files.

use crate::command::{flag, option, with_option};
use clap::builder::ValueParser;
use clap::{Arg, ArgAction, ArgMatches, Command};
use std::alloc::{AllocError, Global};

/// When colors are shown.
#[derive(Clone, Copy)]
pub(crate) enum Color {
    /// Where a terminal shows what is told.
    Auto,
    Always,
    Never,
}

/// For whom the answer is.
#[derive(Clone, Copy, PartialEq, Eq)]
pub(crate) enum MessageFormat {
    Human,
    Json,
}

/// How a command tells what it finds.
#[derive(Clone, Copy)]
pub(crate) struct Manner {
    /// When colors are shown, if the words say it.
    pub color: Option<Color>,
    /// Whether errors alone are told.
    pub quiet: bool,
    /// Whether it is told too how long a run took, and how much of the index it read.
    pub verbose: bool,
    pub format: MessageFormat,
}

/// Cargo's words for when colors are shown.
static COLORS: [&str; 3] = ["auto", "always", "never"];

/// Cargo's words for the form of what is told.
static FORMATS: [&str; 2] = ["human", "json"];

/// A command with the options that say how it tells what it finds.
pub(crate) fn with_manner<'a>(
    alloc: Global,
    command: Command<'a>,
) -> Result<Command<'a>, AllocError> {
    let command = with_option(command, message_format(alloc))?;
    let command = with_option(command, coloring(alloc))?;
    let command = with_option(command, verbose(alloc))?;
    with_option(command, quiet(alloc))
}

fn message_format<'a>(alloc: Global) -> Arg<'a> {
    option(alloc, "message-format")
        .value_name("FMT")
        .value_parser(ValueParser::Names(FORMATS.as_slice()))
        .global(true)
        .help("The form of what is told [default: human]")
}

fn coloring<'a>(alloc: Global) -> Arg<'a> {
    option(alloc, "color")
        .value_name("WHEN")
        .value_parser(ValueParser::Names(COLORS.as_slice()))
        .global(true)
        .help("When colors are shown [default: what CARGO_TERM_COLOR says, else auto]")
}

fn quiet<'a>(alloc: Global) -> Arg<'a> {
    flag(alloc, "quiet")
        .short('q')
        .global(true)
        .help("Tells errors alone")
}

fn verbose<'a>(alloc: Global) -> Arg<'a> {
    flag(alloc, "verbose")
        .short('v')
        .action(ArgAction::Count)
        .global(true)
        .help("Tells too what stays behind its newest version, the time, and how much was read")
}

/// How the words of a command ask it to tell what it finds.
pub(crate) fn manner_of(found: &ArgMatches<'_>) -> Manner {
    Manner {
        color: color_of(found),
        quiet: found.get_flag("quiet"),
        verbose: found.get_count("verbose") > 0,
        format: format_of(found),
    }
}

fn color_of(found: &ArgMatches<'_>) -> Option<Color> {
    color_in(found.get_str("color")?)
}

fn format_of(found: &ArgMatches<'_>) -> MessageFormat {
    match found.get_str("message-format") {
        Some("json") => MessageFormat::Json,
        _ => MessageFormat::Human,
    }
}

/// When colors are shown by one of Cargo's words.
pub(crate) fn color_in(word: &str) -> Option<Color> {
    match word {
        "auto" => Some(Color::Auto),
        "always" => Some(Color::Always),
        "never" => Some(Color::Never),
        _ => None,
    }
}
