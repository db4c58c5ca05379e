//! Folders of files.

use std::alloc::Global;
use std::collections::BTreeMap;
use std::marker::Model;
use thiserror::Error;

/// Why a folder gave no answer.
#[derive(Clone, Copy, Debug, PartialEq, Eq, Error)]
pub enum FolderFault {
    #[error("out of memory")]
    OutOfMemory,
    #[error("the folder failed")]
    Failed,
}

/// Files by their paths.
pub trait Folder {
    ghost use Rattle.std.specs.Prelude.{◌≡◌, ℕ, List, IsErrOf};
    ghost use Rattle.index_reader.specs.declared.folder.FolderFault.{FolderFault};
    ghost use Rattle.index_reader.specs.Folders.{Answer, answer_view, IsRisen};

    /// The folder before a call, the path, what the call answered, and the folder after it.
    ghost calls: { Self → List ℕ → Answer → Self → Type 0 };

    /// How often a call failed, up to the greatest number.
    ghost failed: { Self → ℕ };

    /// The bytes of the file at a path, if there is one.
    ///
    /// # Errors
    /// `Failed` only where `failures` rose in this call; a count at `u64::MAX` stays and is taken as risen.
    fn file(&mut self, path: &str) -> Result<Option<Vec<u8>>, FolderFault>
        ensures answer { calls self.old path.now (answer_view result) self.new }
        ensures rises { IsErrOf result FolderFault.Failed → IsRisen (failed self.old) (failed self.new) };

    /// How often a call failed.
    fn failures(&self) -> u64
        ensures { result ≡ failed self.now };
}

/// A folder in memory. Contracts see its files.
#[derive(Drop)]
pub struct MemoryFolder {
    files: BTreeMap<String, Vec<u8>>,
    alloc: Global,
}

impl Model for MemoryFolder {
    ghost use Rattle.index_reader.specs.Folders.{Files};

    ghost Value = { Files };

    ghost view = { λ f. f.files.entries };
}

impl MemoryFolder {
    ghost use Rattle.std.specs.Prelude.{◌≡◌};

    /// A folder of these files.
    pub fn new(alloc: Global, files: BTreeMap<String, Vec<u8>>) -> MemoryFolder
        ensures { result ≡ files.entries }
    {
        MemoryFolder { files, alloc }
    }
}

impl Folder for MemoryFolder {
    ghost use Rattle.index_reader.specs.Folders.{MemoryCalls};

    ghost calls = { MemoryCalls };

    ghost failed = { λ _. 0 };

    fn file(&mut self, path: &str) -> Result<Option<Vec<u8>>, FolderFault> {
        let Some(bytes) = self.files.get(path) else {
            return Ok(None);
        };
        match Vec::from_slice(self.alloc, bytes.as_slice()) {
            Ok(copy) => Ok(Some(copy)),
            Err(_) => Err(FolderFault::OutOfMemory),
        }
    }

    fn failures(&self) -> u64 {
        0
    }
}
