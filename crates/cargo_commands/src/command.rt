//! The commands and options of `cargo relock`.

use crate::manner::with_manner;
use clap::{Arg, ArgAction, Command};
use std::alloc::{AllocError, Global};

/// The version of the program.
const VERSION: &str = "0.1.0";

/// What a first day needs.
const EXAMPLES: &str = "\
Examples:
  cargo relock resolve              what would change in Cargo.lock
  cargo relock resolve --write      the same, and it is written
  cargo relock resolve --locked -q  status 1 if something would change
  cargo relock update serde         what a newer serde would change
  cargo relock why serde            why serde is there
  cargo relock verify               whether Cargo.lock is valid";

/// The whole program: one command is required. How it tells what it finds may be said before the command or after it.
pub(crate) fn cargo_relock<'a>(alloc: Global) -> Result<Command<'a>, AllocError> {
    let program = Command::new(alloc, "cargo-relock")
        .about(
            "Resolves over an index in a folder, with answers that are proved right: what changes in a lock, and why",
        )
        .version(VERSION)
        .after_help(EXAMPLES)
        .subcommand_required(true);
    let program = with_manner(alloc, program)?;
    let program = program.subcommand(resolve(alloc)?)?;
    let program = program.subcommand(update(alloc)?)?;
    let program = program.subcommand(verify(alloc)?)?;
    let program = program.subcommand(why(alloc)?)?;
    program.subcommand(skips(alloc)?)
}

fn resolve<'a>(alloc: Global) -> Result<Command<'a>, AllocError> {
    let command = command(
        alloc,
        "resolve",
        "Tells how the lock would change, or why there is none",
    )?;
    let command = with_option(command, repair(alloc))?;
    changing(alloc, command)
}

fn update<'a>(alloc: Global) -> Result<Command<'a>, AllocError> {
    let command = command(
        alloc,
        "update",
        "Tells how the lock would change were these packages, or all, locked anew",
    )?;
    let command = with_option(command, packages(alloc))?;
    let command = with_option(command, more_packages(alloc))?;
    let command = with_option(command, precise(alloc))?;
    let command = with_option(command, workspace(alloc))?;
    changing(alloc, command)
}

/// A command with the options of those that may change the lock.
fn changing<'a>(alloc: Global, command: Command<'a>) -> Result<Command<'a>, AllocError> {
    let command = with_option(command, locked(alloc))?;
    let command = with_option(command, write(alloc))?;
    let command = with_option(command, dry_run(alloc))?;
    let command = with_option(command, ignore_rust_version(alloc))?;
    let all = all(
        alloc,
        "Tells too what stays behind its newest version, and the whole of a long refusal",
    );
    with_option(command, all)
}

fn verify<'a>(alloc: Global) -> Result<Command<'a>, AllocError> {
    command(
        alloc,
        "verify",
        "Tells whether the lock is valid, and all that is wrong with it",
    )
}

fn why<'a>(alloc: Global) -> Result<Command<'a>, AllocError> {
    let command = command(alloc, "why", "Tells why a package is in the lock")?;
    let command = with_option(command, package(alloc))?;
    let all = all(
        alloc,
        "Tells each dependency that leads there, and not a shortest way alone",
    );
    with_option(command, all)
}

fn skips<'a>(alloc: Global) -> Result<Command<'a>, AllocError> {
    let command = command(alloc, "skips", "Tells which lines of the index aren't used")?;
    with_option(command, all(alloc, "Lists each of these lines"))
}

/// A command with the options that say where its files are.
fn command<'a>(alloc: Global, name: &'a str, about: &'a str) -> Result<Command<'a>, AllocError> {
    let command = Command::new(alloc, name).about(about);
    let command = with_option(command, manifest(alloc))?;
    let command = with_option(command, lock(alloc))?;
    let command = with_option(command, index(alloc))?;
    with_option(command, source(alloc))
}

/// A command with another option.
pub(crate) fn with_option<'a>(
    command: Command<'a>,
    option: Arg<'a>,
) -> Result<Command<'a>, AllocError> {
    command.arg(option)
}

fn manifest<'a>(alloc: Global) -> Arg<'a> {
    option(alloc, "manifest-path")
        .value_name("PATH")
        .help("The Cargo.toml [default: the nearest, here or above]")
}

fn lock<'a>(alloc: Global) -> Arg<'a> {
    option(alloc, "lockfile-path")
        .value_name("PATH")
        .help("The Cargo.lock [default: the one beside the Cargo.toml]")
}

fn index<'a>(alloc: Global) -> Arg<'a> {
    option(alloc, "index").value_name("DIR").help(
        "A folder in the layout of Cargo's registry index [default: what RELOCK_INDEX says, else what Cargo fetched]",
    )
}

fn source<'a>(alloc: Global) -> Arg<'a> {
    option(alloc, "source").value_name("SOURCE").help(
        "The source of the index's packages in a lock, as `sparse+URL` [default: crates.io]",
    )
}

fn package<'a>(alloc: Global) -> Arg<'a> {
    Arg::new(alloc, "package")
        .required(true)
        .value_name("NAME[@VERSION]")
        .help("The package")
}

fn packages<'a>(alloc: Global) -> Arg<'a> {
    Arg::new(alloc, "package")
        .num_args(0..)
        .value_name("NAME[@VERSION]")
        .help("Packages of the lock [default: all]")
}

/// Packages of the lock as Cargo takes them too, though its help doesn't say so.
fn more_packages<'a>(alloc: Global) -> Arg<'a> {
    Arg::new(alloc, "more-packages")
        .long("package")
        .short('p')
        .action(ArgAction::Append)
        .value_name("NAME[@VERSION]")
        .hide(true)
}

fn ignore_rust_version<'a>(alloc: Global) -> Arg<'a> {
    flag(alloc, "ignore-rust-version").help(
        "Prefers the newest versions where edition 2024 or resolver 3 prefers what fits `rust-version`",
    )
}

fn locked<'a>(alloc: Global) -> Arg<'a> {
    flag(alloc, "locked").help("Ends with status 1 if something would change")
}

fn precise<'a>(alloc: Global) -> Arg<'a> {
    option(alloc, "precise").value_name("VERSION").help(
        "Locks the one package at this version, or tells why it can't be",
    )
}

fn workspace<'a>(alloc: Global) -> Arg<'a> {
    flag(alloc, "workspace").short('w').help(
        "Where no package is named, locks none anew, as resolve does",
    )
}

fn dry_run<'a>(alloc: Global) -> Arg<'a> {
    flag(alloc, "dry-run")
        .short('n')
        .help("Writes nothing, as without --write; wins over it")
}

fn write<'a>(alloc: Global) -> Arg<'a> {
    flag(alloc, "write").help("Replaces the Cargo.lock by the new one; else nothing is written")
}

fn repair<'a>(alloc: Global) -> Arg<'a> {
    flag(alloc, "repair").help(
        "Goes on where the Cargo.lock can't be read, or has versions that the index lacks, with what is left",
    )
}

fn all<'a>(alloc: Global, help: &'a str) -> Arg<'a> {
    flag(alloc, "all").help(help)
}

/// An option that takes a value.
pub(crate) fn option<'a>(alloc: Global, name: &'a str) -> Arg<'a> {
    Arg::new(alloc, name).long(name).action(ArgAction::Set)
}

/// An option that takes none.
pub(crate) fn flag<'a>(alloc: Global, name: &'a str) -> Arg<'a> {
    Arg::new(alloc, name).long(name).action(ArgAction::SetTrue)
}
