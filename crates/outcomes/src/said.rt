//! What is told of a run, to people or to programs.

use crate::answers::Form;
use crate::faults::Sentence;
use reports::messages::Severity;
use resolver::Fault;
use std::alloc::{AllocError, Global};

/// What is told of a run: for people in two texts, for programs all in the first.
#[derive(Drop)]
pub struct Said {
    alloc: Global,
    form: Form,
    /// Whether errors alone are told.
    quiet: bool,
    /// For standard output.
    pub out: String,
    /// For standard error.
    pub err: String,
}

impl Said {
    pub fn new(alloc: Global, form: Form, quiet: bool) -> Said {
        Said {
            alloc,
            form,
            quiet,
            out: String::new(alloc),
            err: String::new(alloc),
        }
    }

    pub fn form(&self) -> Form {
        self.form
    }

    /// Whether people are told errors alone.
    pub(crate) fn is_quiet(&self) -> bool {
        self.quiet && self.form == Form::People
    }

    /// Forgets what was told, once it is printed.
    pub fn clear(&mut self) {
        self.out.clear();
        self.err.clear();
    }

    /// What was asked for.
    pub(crate) fn answer(&mut self, text: &str) -> Result<(), AllocError> {
        self.out.push_str(text)
    }

    /// What went wrong, or a no, by its kind.
    pub fn error(&mut self, kind: &str, message: &str) -> Result<(), AllocError> {
        self.tell(Severity::Error, kind, message, None)
    }

    /// What the run goes on after; no error.
    pub(crate) fn warning(&mut self, kind: &str, message: &str) -> Result<(), AllocError> {
        self.tell(Severity::Warning, kind, message, None)
    }

    /// What Cargo refuses though it is no error here, to people, with the lines below it; where errors alone are
    /// told too.
    pub(crate) fn refused(&mut self, message: &str, below: &str) -> Result<(), AllocError> {
        write!(self.err, "warning: {message}\n{below}")
    }

    /// A fault, as an error or as what the run goes on after.
    pub(crate) fn fault(&mut self, fault: &Fault, severity: Severity) -> Result<(), AllocError> {
        let sentence = Sentence(fault);
        let message = format!(in self.alloc; "{sentence}")?;
        let code = format!(in self.alloc; "{fault}")?;
        let code = match self.form {
            Form::People => brief(fault, code.as_str()),
            Form::Programs => code.as_str(),
        };
        self.tell(severity, "fault", message.as_str(), Some(code))
    }

    /// An error, or a warning unless errors alone are told; of a fault there is a code too.
    fn tell(
        &mut self,
        severity: Severity,
        kind: &str,
        message: &str,
        code: Option<&str>,
    ) -> Result<(), AllocError> {
        if severity == Severity::Warning && self.is_quiet() {
            return Ok(());
        }
        match self.form {
            Form::People => self.tell_people(severity, message, code),
            Form::Programs => {
                let line = reports::messages::diagnostic(
                    self.alloc, severity, kind, message, code,
                )?;
                self.out.push_str(line.as_str())
            }
        }
    }

    /// The sentence, and behind it the code of a fault.
    fn tell_people(
        &mut self,
        severity: Severity,
        message: &str,
        code: Option<&str>,
    ) -> Result<(), AllocError> {
        let word = match severity {
            Severity::Error => "error",
            Severity::Warning => "warning",
        };
        match code {
            Some(code) => writeln!(self.err, "{word}: {message} ({code})"),
            None => writeln!(self.err, "{word}: {message}"),
        }
    }

    /// What people may want to do about what was asked for.
    pub(crate) fn advice(&mut self, text: &str) -> Result<(), AllocError> {
        if self.is_advised() {
            writeln!(self.out, "note: {text}")
        } else {
            Ok(())
        }
    }

    /// What people may want to do about an error.
    pub fn note(&mut self, text: &str) -> Result<(), AllocError> {
        if self.is_advised() {
            writeln!(self.err, "note: {text}")
        } else {
            Ok(())
        }
    }

    /// Whether more is told than answers and errors.
    fn is_advised(&self) -> bool {
        self.form == Form::People && !self.quiet
    }

    /// What belongs to an error or a warning and stands below it: lines for people, or messages.
    pub(crate) fn below(&mut self, text: &str) -> Result<(), AllocError> {
        match self.form {
            Form::People => self.err.push_str(text),
            Form::Programs => self.out.push_str(text),
        }
    }
}

/// The code of a fault without what its sentence says too.
fn brief<'a>(fault: &Fault, code: &'a str) -> &'a str {
    let cut = match fault {
        Fault::ChecksumChanged(_, _) => code.split_once(" at "),
        Fault::UnsupportedSource(_) => code.rsplit_once(' '),
        _ => None,
    };
    match cut {
        Some((front, _)) => front,
        None => code,
    }
}
