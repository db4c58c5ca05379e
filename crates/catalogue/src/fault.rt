//! Why a run's index can't be loaded.

use features::PackageName;
use semver::Version;
use std::alloc::{AllocError, AllocFailed};
use std::fmt;
use thiserror::Error;

/// A limit that was passed while loading.
#[derive(Debug, Drop)]
pub enum Limit {
    /// 65,536 names were asked for, and another one waits.
    Names,
    /// The file of this name has more than 16,777,216 bytes.
    File(PackageName),
    /// The file of this name has more than 65,535 lines.
    Lines(PackageName),
}

impl fmt::Display for Limit {
    ghost use Rattle.std.specs.Prelude.{Some};
    ghost use Rattle.catalogue.specs.Faults.{limit_text};

    ghost output = { λ limit. Some (limit_text limit) };

    fn fmt<W: fmt::Write>(&self, f: &mut fmt::Formatter<W>) -> fmt::Result {
        match self {
            Limit::Names => f.write_str("names"),
            Limit::File(name) => write!(f, "file {name}"),
            Limit::Lines(name) => write!(f, "lines {name}"),
        }
    }
}

/// Why a run's index can't be loaded.
#[derive(Debug, Drop, Error)]
pub enum LoadFault {
    #[error("out of memory")]
    OutOfMemory,
    /// The folder failed at this path.
    #[error("the folder failed at {0}")]
    FolderFailed(String),
    #[error("too large: {0}")]
    TooLarge(Limit),
    /// A locked package has another checksum than the index.
    #[error("the checksum of {0} {1} changed")]
    ChecksumChanged(PackageName, Version),
}

impl From<AllocError> for LoadFault {
    ghost use Rattle.std.specs.Prelude.{◌≡◌};
    ghost use Rattle.catalogue.specs.declared.fault.LoadFault.TheVariants.{OutOfMemory};

    ghost from_gives = { λ _ e. e ≡ OutOfMemory };

    fn from(_e: AllocError) -> LoadFault {
        LoadFault::OutOfMemory
    }
}

impl<T: Drop> From<AllocFailed<T>> for LoadFault {
    ghost use Rattle.std.specs.Prelude.{◌≡◌};
    ghost use Rattle.catalogue.specs.declared.fault.LoadFault.TheVariants.{OutOfMemory};

    ghost from_gives = { λ _ e. e ≡ OutOfMemory };

    fn from(_e: AllocFailed<T>) -> LoadFault {
        LoadFault::OutOfMemory
    }
}
