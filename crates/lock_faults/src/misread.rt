//! What in a lock breaks a rule of reading.

use std::alloc::{AllocError, AllocFailed};
use std::fmt;

/// The first thing in a lock that breaks a rule.
#[derive(Drop)]
pub(crate) enum Misread<'t> {
    OutOfMemory,
    /// Its `version` is no whole number.
    NoFormat,
    /// Its `version` is this number.
    Format(i64),
    /// `package` isn't an array of tables.
    NoPackages,
    /// A package, by its number from 0.
    Package(usize, Broken<'t>),
}

/// What in a package breaks a rule.
#[derive(Drop)]
pub(crate) enum Broken<'t> {
    OutOfMemory,
    /// There is no text at this key.
    NoText(&'static str),
    /// The text at this key isn't what it has to be.
    BadText(&'static str, &'t str),
    /// Its `dependencies` are no array.
    NoList,
    /// Its list has something that is no text.
    NoListText,
    /// Another package is alike in name, version and source.
    Twice(&'t str, &'t str),
    /// A list names this, which no package is called.
    Unknown(&'t str, &'t str),
    /// A list names this, which several packages are called.
    Several(&'t str, &'t str),
    /// A list names one package twice, the second time by this text.
    ListedTwice(&'t str, &'t str),
}

impl fmt::Display for Broken<'_> {
    fn fmt<W: fmt::Write>(&self, f: &mut fmt::Formatter<W>) -> fmt::Result {
        match self {
            Broken::OutOfMemory => f.write_str("there was no memory to read it"),
            Broken::NoText(key) => write!(f, "a package has no text as its {key}"),
            Broken::BadText(key, text) => write!(f, "`{text}` can't be the {key} of a package"),
            Broken::NoList => f.write_str("the dependencies of a package are no array"),
            Broken::NoListText => f.write_str("a dependency of a package is no text"),
            Broken::Twice(name, version) => write!(f, "{name} {version} is there twice"),
            Broken::Unknown(name, text) => {
                write!(
                    f,
                    "the list of {name} has `{text}`, which no package of the lock is called"
                )
            }
            Broken::Several(name, text) => {
                write!(
                    f,
                    "the list of {name} has `{text}`, which several packages are called"
                )
            }
            Broken::ListedTwice(name, text) => {
                write!(f, "the list of {name} has the package of `{text}` twice")
            }
        }
    }
}

impl From<AllocError> for Misread<'_> {
    ghost use Rattle.std.specs.Prelude.{◌≡◌};
    ghost use Rattle.lock_faults.specs.declared.misread.Misread.TheVariants.{OutOfMemory};

    ghost from_gives = { λ _ e. e ≡ OutOfMemory };

    fn from(_e: AllocError) -> Self {
        Misread::OutOfMemory
    }
}

impl<T: Drop> From<AllocFailed<T>> for Misread<'_> {
    ghost use Rattle.std.specs.Prelude.{◌≡◌};
    ghost use Rattle.lock_faults.specs.declared.misread.Misread.TheVariants.{OutOfMemory};

    ghost from_gives = { λ _ e. e ≡ OutOfMemory };

    fn from(_e: AllocFailed<T>) -> Self {
        Misread::OutOfMemory
    }
}
