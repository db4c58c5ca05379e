//! `cargo relock`: tells people what changes in a lock, why a package is there, and what of an index is skipped.
#![tactic(auto)]

mod asked;

use asked::{Asked, what_is_asked};
use cargo_commands::{Surroundings, run, without_arguments};
use std::io::{self, IsTerminal};
use std::process::ExitCode;

fn main(rt: HostRuntime) -> io::Result<ExitCode> {
    let mut out = rt.stdout();
    let mut err = rt.stderr();
    let status = match what_is_asked(&rt) {
        Ok(asked) => {
            let around = around(&rt, &asked);
            run(&rt, asked.words.as_slice(), &around, &mut out, &mut err)
        }
        Err(error) => without_arguments(&error, &mut err),
    };
    Ok(ExitCode::from(status))
}

/// What is around a run; a terminal that shows text alone counts as none.
fn around<'a>(rt: &HostRuntime, asked: &'a Asked) -> Surroundings<'a> {
    Surroundings {
        index: asked.index(),
        cargo_home: asked.cargo_home(),
        color: asked.color(),
        no_color: asked.no_color,
        out_is_terminal: rt.stdout().is_terminal() && !asked.is_dumb,
        err_is_terminal: rt.stderr().is_terminal() && !asked.is_dumb,
        is_watched: rt.stderr().is_terminal() && !asked.is_dumb,
    }
}
