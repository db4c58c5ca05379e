//! The commands and options of the program.

ghost use Rattle.std.specs.Prelude.{◌≡◌, true, IfOk};
ghost use Rattle.clap.specs.Words.{app_of, rule_of, shape_of, with_rule, with_subcommand};
ghost use Rattle.words.specs.Asked.{option, required, manifest_option, index_option, lock_option, source_option};
ghost use Rattle.words.specs.Asked.{proof_option, rust_first_flag, resolve_app, verify_app, check_app, explain_app};
ghost use Rattle.words.specs.Asked.{relock_app};

use clap::{Arg, ArgAction, Command};
use std::alloc::{AllocError, Global};

/// The version of the program.
const VERSION: &str = "0.1.0";

/// The whole program: one command is required, each option stands at most once, and there are no positional words.
pub(crate) fn relock<'a>(alloc: Global) -> Result<Command<'a>, AllocError>
    ensures { IfOk result (λ c. app_of c ≡ relock_app) }
{
    let program = Command::new(alloc, "relock")
        .about("Resolves Cargo manifests, verifies their locks and checks refusals")
        .version(VERSION)
        .subcommand_required(true);
    let program = with_command(program, resolve(alloc)?)?;
    let program = with_command(program, verify(alloc)?)?;
    let program = with_command(program, check(alloc)?)?;
    with_command(program, explain(alloc)?)
}

fn resolve<'a>(alloc: Global) -> Result<Command<'a>, AllocError>
    ensures { IfOk result (λ c. app_of c ≡ resolve_app) }
{
    let command = Command::new(alloc, "resolve").about("Writes a lock to standard output");
    let command = with_option(command, manifest(alloc))?;
    let command = with_option(command, index(alloc))?;
    let command = with_option(command, lock(alloc))?;
    let command = with_option(command, source(alloc))?;
    let command = with_option(command, proof(alloc))?;
    with_option(command, rust_first(alloc))
}

fn verify<'a>(alloc: Global) -> Result<Command<'a>, AllocError>
    ensures { IfOk result (λ c. app_of c ≡ verify_app) }
{
    let command = Command::new(alloc, "verify").about("Says whether a lock is a valid selection");
    let command = with_option(command, manifest(alloc))?;
    let command = with_option(command, index(alloc))?;
    let command = with_option(command, lock(alloc).required(true))?;
    with_option(command, source(alloc))
}

fn check<'a>(alloc: Global) -> Result<Command<'a>, AllocError>
    ensures { IfOk result (λ c. app_of c ≡ check_app) }
{
    let command = Command::new(alloc, "check").about(
        "Says whether a derivation proves that there is no valid lock",
    );
    let command = with_option(command, manifest(alloc))?;
    let command = with_option(command, index(alloc))?;
    let command = with_option(command, lock(alloc))?;
    let command = with_option(command, derivation(alloc))?;
    with_option(command, source(alloc))
}

fn explain<'a>(alloc: Global) -> Result<Command<'a>, AllocError>
    ensures { IfOk result (λ c. app_of c ≡ explain_app) }
{
    let command = Command::new(alloc, "explain").about("Tells what a derivation says");
    with_option(command, derivation(alloc))
}

/// The program with another command.
fn with_command<'a>(program: Command<'a>, command: Command<'a>) -> Result<Command<'a>, AllocError>
    requires plain { (shape_of command).is_plain ≡ true }
    ensures { IfOk result (λ c. app_of c ≡ with_subcommand (app_of program.entry) (shape_of command.entry)) }
{
    program.subcommand(command)
}

/// A command with another option.
fn with_option<'a>(command: Command<'a>, option: Arg<'a>) -> Result<Command<'a>, AllocError>
    requires simple { (rule_of option).is_simple ≡ true }
    ensures { IfOk result (λ c. app_of c ≡ with_rule (app_of command.entry) (rule_of option.entry)) }
{
    command.arg(option)
}

fn manifest<'a>(alloc: Global) -> Arg<'a>
    ensures { rule_of result ≡ manifest_option }
{
    option(alloc, "manifest")
        .required(true)
        .help("The Cargo.toml")
}

fn index<'a>(alloc: Global) -> Arg<'a>
    ensures { rule_of result ≡ index_option }
{
    option(alloc, "index")
        .required(true)
        .value_name("DIR")
        .help("A folder in the layout of Cargo's registry index")
}

fn lock<'a>(alloc: Global) -> Arg<'a>
    ensures { rule_of result ≡ lock_option }
{
    option(alloc, "lock").help("The Cargo.lock")
}

fn source<'a>(alloc: Global) -> Arg<'a>
    ensures { rule_of result ≡ source_option }
{
    option(alloc, "source")
        .value_name("TEXT")
        .help("The source of the index's packages in a lock")
}

fn proof<'a>(alloc: Global) -> Arg<'a>
    ensures { rule_of result ≡ proof_option }
{
    option(alloc, "proof").help("Where the derivation of a refusal goes")
}

/// The derivation that a command reads.
fn derivation<'a>(alloc: Global) -> Arg<'a>
    ensures { rule_of result ≡ required proof_option }
{
    option(alloc, "proof")
        .required(true)
        .help("The derivation of a refusal")
}

fn rust_first<'a>(alloc: Global) -> Arg<'a>
    ensures { rule_of result ≡ rust_first_flag }
{
    Arg::new(alloc, "rust-first")
        .long("rust-first")
        .action(ArgAction::SetTrue)
        .help("Prefers versions that the manifest's Rust version fits")
}

/// An option that takes a value.
fn option<'a>(alloc: Global, name: &'a str) -> Arg<'a>
    ensures { rule_of result ≡ option name.entry.now }
{
    Arg::new(alloc, name).long(name).action(ArgAction::Set)
}
