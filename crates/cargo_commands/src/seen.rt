//! How much of an index a run has seen.

use index_reader::{FolderFault, lines};
use std::alloc::{AllocError, Global};
use std::collections::BTreeSet;

/// How much of an index a run has seen; a file that is read twice counts once.
#[derive(Drop)]
pub(crate) struct Seen {
    alloc: Global,
    /// The paths that were asked for.
    paths: BTreeSet<String>,
    /// At how many of them there was a file.
    pub files: u64,
    /// How many lines these have.
    pub lines: u64,
}

impl Seen {
    pub(crate) fn nothing(alloc: Global) -> Seen {
        Seen {
            alloc,
            paths: BTreeSet::new(alloc),
            files: 0,
            lines: 0,
        }
    }

    /// How many names were asked for.
    pub(crate) fn asked(&self) -> u64 {
        self.paths.len() as u64
    }

    /// Counts what a folder answers to a path that it wasn't asked for before; without memory for the path nothing.
    pub(crate) fn count(&mut self, path: &str, answer: &Result<Option<Vec<u8>>, FolderFault>) {
        if let (Ok(Some(bytes)), Ok(true)) = (answer, self.put(path)) {
            self.files = self.files.saturating_add(1);
            self.lines = self.lines.saturating_add(lines(bytes) as u64);
        }
    }

    /// Adds a path that is asked for; whether it wasn't before.
    fn put(&mut self, path: &str) -> Result<bool, AllocError> {
        Ok(self.paths.insert(String::from_str(self.alloc, path)?)?)
    }
}
