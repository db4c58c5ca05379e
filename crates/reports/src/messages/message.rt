//! Messages of what a command finds out, and the lines that all messages are written as.

ghost use Rattle.std.specs.Prelude.{◌≡◌, ◌++◌, ◌∷◌, ℕ, List, [], OnOk, string_bytes};
ghost use Rattle.json.specs.Lex.{tokens};
ghost use Rattle.json.specs.Print.{print};

use crate::messages::shown::Shown;
use changes::NeededRust;
use features::Requirement;
use index_reader::SkipReason;
use semver::Version;
use serde::Serialize;
use std::alloc::{AllocError, Global};

/// What is told; `reason` says which of these it is. What has many keys is a struct of its own, since what is proved
/// of a message takes the time of all keys in one.
#[derive(Drop, Serialize)]
#[serde(tag = "reason", rename_all = "kebab-case")]
pub(crate) enum Message<'a> {
    /// What became of a package of the lock.
    PackageChange(PackageChange<'a>),
    /// A lock, after what became of its packages.
    Lock {
        path: &'a str,
        /// Whether it is another one than the old lock.
        changed: bool,
        /// How many packages are locked anew.
        locked: usize,
        /// How many that stay have a newer version.
        behind: usize,
    },
    /// A dependency of the manifest for which nothing fits.
    Lack(LackOf<'a>),
    /// Why nothing fits all dependencies together: the lines of the explanation.
    Refusal {
        lines: Vec<&'a str>,
    },
    /// A way to a package from that of the manifest.
    Way {
        steps: Vec<ToldStep<'a>>,
    },
    /// How many lines of the index are skipped for a reason.
    SkippedLines {
        code: Shown<'a, SkipReason>,
        meaning: &'static str,
        count: usize,
    },
    /// A line of the index that is skipped.
    SkippedLine {
        code: Shown<'a, SkipReason>,
        name: &'a str,
        line: u64,
    },
    /// A dependency that leads on to a package.
    Dependency(ToldStep<'a>),
}

/// What became of a package, and where it is from.
#[derive(Drop, Serialize)]
pub(crate) struct PackageChange<'a> {
    pub(crate) change: Change,
    pub(crate) name: &'a str,
    pub(crate) version: Shown<'a, Version>,
    /// The version that it had before, where it changed.
    pub(crate) old_version: Option<Shown<'a, Version>>,
    pub(crate) source: Option<&'a str>,
    /// A newer version that it could have.
    pub(crate) available: Option<Shown<'a, Version>>,
    /// The Rust version that this needs, or without it the package itself, where that of the manifest doesn't do.
    pub(crate) requires_rust: Option<Shown<'a, NeededRust>>,
}

/// What became of a package.
#[derive(Clone, Copy, Serialize)]
#[serde(rename_all = "kebab-case")]
pub(crate) enum Change {
    Added,
    Removed,
    Updated,
    Downgraded,
    Unchanged,
}

/// A dependency for which nothing fits, and what is there in its place.
#[derive(Drop, Serialize)]
pub(crate) struct LackOf<'a> {
    pub(crate) package: &'a str,
    pub(crate) dependency: &'a str,
    pub(crate) requirement: Shown<'a, Requirement>,
    pub(crate) lack: LackKind,
    pub(crate) newest: Option<Shown<'a, Version>>,
    pub(crate) feature: Option<&'a str>,
    pub(crate) other: Option<&'a str>,
    pub(crate) similar: Option<&'a str>,
}

/// Why nothing fits a dependency.
#[derive(Clone, Copy, Serialize)]
#[serde(rename_all = "kebab-case")]
pub(crate) enum LackKind {
    NoPackage,
    NoLine,
    Yanked,
    PreReleases,
    NoVersion,
    NoFeature,
}

/// A step of a way.
#[derive(Drop, Serialize)]
pub(crate) struct ToldStep<'a> {
    pub(crate) from: PackageId<'a>,
    /// What the one needs of the other; none where its list alone says so.
    pub(crate) requirement: Option<Shown<'a, Requirement>>,
    /// What the dependency is called, where that is another name.
    pub(crate) renamed: Option<&'a str>,
    pub(crate) features: Vec<&'a str>,
    pub(crate) to: PackageId<'a>,
}

#[derive(Drop, Serialize)]
pub(crate) struct PackageId<'a> {
    pub(crate) name: &'a str,
    pub(crate) version: Shown<'a, Version>,
}

/// Adds a message and a line end.
pub(crate) fn push_message<M: Serialize>(
    text: &mut String,
    alloc: Global,
    message: &M,
) -> Result<(), AllocError>
    ensures { OnOk result ((line : List ℕ) × (line ≡ print (tokens line))
        × (string_bytes text.new ≡ string_bytes text.old ++ line ++ 10 ∷ [])) }
{
    let line = serde_json::to_string(alloc, message).map_err(|_| AllocError)?;
    text.push_str(line.as_str())?;
    text.push('\n')
}

/// The message of a refusal, by the text of its explanation.
pub fn refusal(alloc: Global, explanation: &str) -> Result<String, AllocError> {
    let mut text = String::new(alloc);
    let lines = explanation.lines().collect(alloc)?;
    push_message(&mut text, alloc, &Message::Refusal { lines })?;
    Ok(text)
}
