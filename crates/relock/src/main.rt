//! `relock`: verifies locks of Cargo manifests, gives valid ones, and checks why there is none.
#![tactic(auto)]

use commands::{run, without_arguments};
use std::process::ExitCode;
use std::{env, io};

fn main(mut rt: HostRuntime) -> io::Result<ExitCode> {
    let mut out = rt.stdout();
    let mut err = rt.stderr();
    let status = match words(&rt) {
        Ok(words) => run(&mut rt, words.as_slice(), &mut out, &mut err),
        Err(error) => without_arguments(&error, &mut err),
    };
    Ok(ExitCode::from(status))
}

/// The words of the command line, the program's name first.
fn words(rt: &HostRuntime) -> io::Result<Vec<String>> {
    let words = env::args(rt)?.collect(rt.alloc())?;
    Ok(words)
}
