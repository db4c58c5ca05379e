//! Why a run ends before its answer.

use derivations::DerivationFault;
use resolver::{CheckFault, Fault};
use std::alloc::AllocError;
use std::fmt;

/// Why a run ends before its answer: its line and the status 2.
#[derive(Debug, Drop)]
pub(crate) enum Ending<'a> {
    Fault(CheckFault),
    BadSource,
    CannotRead(&'a str),
    CannotWrite,
    CannotWriteFile(&'a str),
}

impl fmt::Display for Ending<'_> {
    ghost use Rattle.std.specs.Prelude.{Some};
    ghost use Rattle.commands.specs.Endings.{ending_text, ending_view};

    ghost output = { λ ending. Some (ending_text (ending_view ending)) };

    fn fmt<W: fmt::Write>(&self, f: &mut fmt::Formatter<W>) -> fmt::Result {
        match self {
            Ending::Fault(fault) => write!(f, "{fault}"),
            Ending::BadSource => f.write_str("bad source"),
            Ending::CannotRead(path) => write!(f, "cannot read {path}"),
            Ending::CannotWrite => f.write_str("cannot write"),
            Ending::CannotWriteFile(path) => write!(f, "cannot write {path}"),
        }
    }
}

impl From<AllocError> for Ending<'_> {
    ghost use Rattle.std.specs.Prelude.{◌≡◌};
    ghost use Rattle.commands.specs.Endings.{ending_view, out_of_memory};

    ghost from_gives = { λ _ ending. ending_view ending ≡ out_of_memory };

    fn from(e: AllocError) -> Self {
        Ending::Fault(CheckFault::from(e))
    }
}

impl From<CheckFault> for Ending<'_> {
    ghost use Rattle.std.specs.Prelude.{◌≡◌};
    ghost use Rattle.commands.specs.Endings.{ending_view, fault};

    ghost from_gives = { λ e ending. ending_view ending ≡ fault e };

    fn from(fault: CheckFault) -> Self {
        Ending::Fault(fault)
    }
}

impl From<Fault> for Ending<'_> {
    ghost use Rattle.std.specs.Prelude.{◌≡◌};
    ghost use Rattle.resolver.specs.declared.fault.CheckFault.TheVariants.{Input};
    ghost use Rattle.commands.specs.Endings.{ending_view, fault};

    ghost from_gives = { λ e ending. ending_view ending ≡ fault (Input e) };

    fn from(fault: Fault) -> Self {
        Ending::Fault(CheckFault::from(fault))
    }
}

impl From<DerivationFault> for Ending<'_> {
    ghost use Rattle.std.specs.Prelude.{◌≡◌};
    ghost use Rattle.commands.specs.Endings.{ending_view, fault};
    ghost use Rattle.resolver.specs.Inputs.{of_derivation};

    ghost from_gives = { λ e ending. ending_view ending ≡ fault (of_derivation e) };

    fn from(fault: DerivationFault) -> Self {
        Ending::Fault(CheckFault::from(fault))
    }
}
