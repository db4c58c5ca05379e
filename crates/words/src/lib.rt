//! What the words of a command line ask for, as `clap` reads them.
//!
//! The definition of what words mean is `clap`'s own, for the program's commands as a literal (`specs/Asked`); the code
//! builds the same commands and takes the values out of what `clap` matched. It stands alone in a crate, since `clap`
//! is dear to check and only the words of `cargo relock` (`cargo_commands`) need it too.
//!
//! A bare `relock` asks for help, with status 0 (`or_help`).
//!
//! A layer above may rely on this: where `clap` accepts the words, the command and its values are those that its
//! meaning gives, and no other. Where it doesn't, `Help` and `Wrong` stand for kinds of its error, and their texts are
//! `clap`'s, of which no contract says anything.
#![tactic(auto)]

mod command;
mod fault;
mod reading;

pub use fault::{WordsFault, fault_of};
pub use reading::{Words, read_words};
