//! What is said of a lock.

use features::PackageName;
use semver::Version;
use std::fmt;

/// What is wrong with a package, in the order in which it is looked for.
#[derive(Clone, Copy, Debug, PartialEq, Eq)]
pub enum VerdictFault {
    /// There is no root package.
    Root,
    /// It is not the root, and no candidate of the run with the index's checksum.
    NotCandidate,
    /// It is not the root, and an earlier package other than the root has its name and class.
    TwoInClass,
    /// An enabled dependency has no target.
    Unmet,
    /// A feature that is on here doesn't exist here.
    NoFeature,
    /// Its list isn't the set of targets of its enabled dependencies.
    List,
    /// No lists lead from the root to it.
    Unreached,
}

impl fmt::Display for VerdictFault {
    ghost use Rattle.std.specs.Prelude.{Some};
    ghost use Rattle.selection.specs.Texts.{fault_text};

    ghost output = { λ f. Some (fault_text f) };

    fn fmt<W: fmt::Write>(&self, f: &mut fmt::Formatter<W>) -> fmt::Result {
        f.write_str(match self {
            VerdictFault::Root => "V1 Root",
            VerdictFault::NotCandidate => "V2 NotCandidate",
            VerdictFault::TwoInClass => "V3 TwoInClass",
            VerdictFault::Unmet => "V4 Unmet",
            VerdictFault::NoFeature => "V5 NoFeature",
            VerdictFault::List => "V6 List",
            VerdictFault::Unreached => "V7 Unreached",
        })
    }
}

/// Whether a lock is a valid selection; if not, the first package in package order with its lowest fault.
#[derive(Debug, Drop)]
pub enum Verdict {
    Valid,
    /// Where there is no root package, the manifest's name and version stand here.
    Invalid {
        fault: VerdictFault,
        name: PackageName,
        version: Version,
    },
}

impl fmt::Display for Verdict {
    ghost use Rattle.std.specs.Prelude.{Some};
    ghost use Rattle.selection.specs.Texts.{verdict_text};

    ghost output = { λ verdict. Some (verdict_text verdict) };

    fn fmt<W: fmt::Write>(&self, f: &mut fmt::Formatter<W>) -> fmt::Result {
        match self {
            Verdict::Valid => f.write_str("valid"),
            Verdict::Invalid {
                fault,
                name,
                version,
            } => write!(f, "invalid {fault} at {name} {version}"),
        }
    }
}
