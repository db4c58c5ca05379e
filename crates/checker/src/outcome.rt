//! What a check answers.

use std::fmt;

/// Why a step is refused.
#[derive(Clone, Copy, Debug, PartialEq, Eq)]
pub enum Reason {
    /// C1: the terms aren't those of an instance of the kind.
    NotAnAxiom,
    /// C2: the terms aren't the combination of the two earlier steps.
    BadCombination,
    /// C3: there is no step, or the last one has a term.
    NotFinal,
}

impl fmt::Display for Reason {
    ghost use Rattle.std.specs.Prelude.{Some};
    ghost use Rattle.checker.specs.Texts.{reason_text};

    ghost output = { λ reason. Some (reason_text reason) };

    fn fmt<W: fmt::Write>(&self, f: &mut fmt::Formatter<W>) -> fmt::Result {
        f.write_str(match self {
            Reason::NotAnAxiom => "C1 NotAnAxiom",
            Reason::BadCombination => "C2 BadCombination",
            Reason::NotFinal => "C3 NotFinal",
        })
    }
}

/// What a derivation shows.
#[derive(Clone, Copy, Debug, PartialEq, Eq)]
pub enum Check {
    /// That there is no selection.
    Proves,
    /// Nothing: this step, counted from 0, is the first that is refused.
    Refused { step: u64, reason: Reason },
}

impl fmt::Display for Check {
    ghost use Rattle.std.specs.Prelude.{Some};
    ghost use Rattle.checker.specs.Texts.{check_text};

    ghost output = { λ check. Some (check_text check) };

    fn fmt<W: fmt::Write>(&self, f: &mut fmt::Formatter<W>) -> fmt::Result {
        match self {
            Check::Proves => f.write_str("proves"),
            Check::Refused { step, reason } => write!(f, "refused {step} {reason}"),
        }
    }
}
