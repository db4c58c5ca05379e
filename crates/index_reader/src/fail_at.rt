//! A folder that fails.

use crate::folder::{Folder, FolderFault, MemoryFolder};
use std::marker::Model;

/// A folder in memory that fails at one of its calls and at every later one, for tests of what stands on a folder.
/// Contracts see its files, the number of the call at which it fails first, its calls and its failures so far.
#[derive(Drop)]
pub struct FailAt {
    folder: MemoryFolder,
    k: u64,
    calls: u64,
    failures: u64,
}

impl Model for FailAt {
    ghost use Rattle.index_reader.specs.Folders.{Failing};

    ghost Value = { Failing };

    ghost view = { λ f. record { files = f.folder; k = f.k; calls = f.calls; failures = f.failures } };
}

impl FailAt {
    ghost use Rattle.std.specs.Prelude.{◌≡◌};

    /// A folder that fails from its call of this number on, counted from 1.
    pub fn new(folder: MemoryFolder, k: u64) -> FailAt
        ensures { result ≡ record { files = folder; k = k; calls = 0; failures = 0 } }
    {
        FailAt {
            folder,
            k,
            calls: 0,
            failures: 0,
        }
    }
}

impl Folder for FailAt {
    ghost use Rattle.index_reader.specs.Folders.{FailingCalls};

    ghost calls = { FailingCalls };

    ghost failed = { λ f. f.failures };

    fn file(&mut self, path: &str) -> Result<Option<Vec<u8>>, FolderFault> {
        self.calls = self.calls.saturating_add(1);
        if self.calls < self.k {
            return self.folder.file(path);
        }
        self.failures = self.failures.saturating_add(1);
        Err(FolderFault::Failed)
    }

    fn failures(&self) -> u64 {
        self.failures
    }
}
