//! Why a file can't be read or written, with what the system says.

use std::alloc::AllocError;
use std::fmt;
use std::io::{self, ErrorKind};

/// Why a file or folder can't be read.
#[derive(Drop)]
pub enum ReadFault<'a> {
    OutOfMemory,
    /// The path, and what the system says.
    CannotRead(&'a str, io::Error),
    /// What is there is no folder.
    NoFolder(&'a str),
}

/// Why a lock can't be replaced.
#[derive(Drop)]
pub enum WriteFault<'a> {
    OutOfMemory,
    /// The file that is to become the lock, and what the system says.
    CannotMake(String, io::Error),
    /// The lock, and what the system says.
    CannotReplace(&'a str, io::Error),
}

impl fmt::Display for ReadFault<'_> {
    fn fmt<W: fmt::Write>(&self, f: &mut fmt::Formatter<W>) -> fmt::Result {
        match self {
            ReadFault::OutOfMemory => f.write_str("out of memory"),
            ReadFault::CannotRead(path, error) => {
                if error.kind() == ErrorKind::IsADirectory {
                    write!(f, "{path} is a folder, where a file should be")
                } else {
                    write!(f, "cannot read {path}: {error}")
                }
            }
            ReadFault::NoFolder(path) => write!(f, "{path} is no folder"),
        }
    }
}

impl fmt::Display for WriteFault<'_> {
    fn fmt<W: fmt::Write>(&self, f: &mut fmt::Formatter<W>) -> fmt::Result {
        match self {
            WriteFault::OutOfMemory => f.write_str("out of memory"),
            WriteFault::CannotMake(path, error) => {
                write!(f, "cannot make {path}: {error}")?;
                if error.kind() == ErrorKind::AlreadyExists {
                    f.write_str("; remove it, unless another run is at work")?;
                }
                Ok(())
            }
            WriteFault::CannotReplace(path, error) => write!(f, "cannot replace {path}: {error}"),
        }
    }
}

impl From<AllocError> for WriteFault<'_> {
    ghost use Rattle.std.specs.Prelude.{◌≡◌};
    ghost use Rattle.outcomes.specs.declared.fault.WriteFault.TheVariants.{OutOfMemory};

    ghost from_gives = { λ _ e. e ≡ OutOfMemory };

    fn from(_e: AllocError) -> Self {
        WriteFault::OutOfMemory
    }
}
