//! What the session of a case says: commands, each with how it has to end.

use std::alloc::{AllocError, Global};

/// A command and how it has to end.
#[derive(Debug, Drop)]
pub(crate) struct SessionStep<'a> {
    pub(crate) command: &'a str,
    /// The status in decimal.
    pub(crate) status: &'a str,
    /// What goes to standard output.
    pub(crate) out: String,
    /// What goes to standard error.
    pub(crate) err: String,
}

/// The steps of a session: what stands before the first command only tells what the case is about.
pub(crate) fn steps_of<'a>(
    alloc: Global,
    session: &'a str,
) -> Result<Vec<SessionStep<'a>>, AllocError> {
    let mut steps = Vec::new(alloc);
    for text in session.split("\n$ ").skip(1) {
        steps.push(step_of(alloc, text)?)?;
    }
    Ok(steps)
}

/// The step of a text whose first line is the command.
fn step_of<'a>(alloc: Global, text: &'a str) -> Result<SessionStep<'a>, AllocError> {
    let (command, end) = text.split_once('\n').unwrap_or((text, ""));
    let mut step = SessionStep {
        command,
        status: "0",
        out: String::new(alloc),
        err: String::new(alloc),
    };
    for line in end.lines() {
        take(&mut step, line)?;
    }
    Ok(step)
}

/// A line below the command: `? STATUS`, `! ` and a line of standard error, or a line of standard output.
fn take<'a>(step: &mut SessionStep<'a>, line: &'a str) -> Result<(), AllocError> {
    if let Some(status) = line.strip_prefix("? ") {
        step.status = status;
        return Ok(());
    }
    match line.strip_prefix("! ") {
        Some(line) => push_line(&mut step.err, line),
        None => push_line(&mut step.out, line),
    }
}

fn push_line(text: &mut String, line: &str) -> Result<(), AllocError> {
    text.push_str(line)?;
    text.push('\n')
}
