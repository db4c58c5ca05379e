//! A folder on a disk.

use crate::folder::{Folder, FolderFault};
use crate::opened::{FileFault, Opens, path_below, read_at_in};
use std::alloc::AllocError;
use std::marker::Model;

/// The most bytes of a file that are read: 16 MiB, and one more by which a larger file is told.
const MOST_READ: u64 = 16_777_217;

/// A folder on a disk, which is read file by file as it is asked. What the system calls not found is no file; every
/// other fault is a failure. Contracts see what opens its files, its path and the count of its failures.
#[derive(Drop)]
pub struct DiskFolder<O: Opens + AllocGlobal + Clone + Drop> {
    opener: O,
    path: String,
    failures: u64,
    /// What files are read into.
    room: Vec<u8>,
}

impl<O: Opens + AllocGlobal + Clone + Drop> Model for DiskFolder<O> {
    ghost use Rattle.std.specs.Prelude.{string_bytes};
    ghost use Rattle.index_reader.specs.Opened.{OnDisk};

    ghost Value = { OnDisk O };

    ghost view = { λ f. record { opener = f.opener; path = string_bytes f.path; failures = f.failures } };
}

impl<O: Opens + AllocGlobal + Clone + Drop> DiskFolder<O> {
    ghost use Rattle.std.specs.Prelude.{◌≡◌, IfOk};
    ghost use Rattle.index_reader.specs.Folders.{answer_view};
    ghost use Rattle.index_reader.specs.Opened.{answer_of, failures_after};

    /// The folder at a path; an empty path is the present folder. Nothing is touched: where the folder isn't there, it
    /// has no files.
    pub fn open(opener: &O, path: &str) -> Result<DiskFolder<O>, AllocError>
        ensures { IfOk result (λ f. O.is_clone opener.now f.opener × (f.path ≡ path.now) × (f.failures ≡ 0)) }
    {
        Ok(DiskFolder {
            opener: opener.clone()?,
            path: String::from_str(opener.alloc(), path)?,
            failures: 0,
            room: Vec::new(opener.alloc()),
        })
    }

    /// The answer where reading a file gave this; a failure is counted.
    fn answer(&mut self, given: Result<Vec<u8>, FileFault>) -> Result<Option<Vec<u8>>, FolderFault>
        ensures answer { answer_view result ≡ answer_of given }
        ensures counted { self.new ≡ record {
          opener = self.old.opener;
          path = self.old.path;
          failures =
              failures_after self.old.failures (answer_view result);
        } }
    {
        match given {
            Ok(bytes) => Ok(Some(bytes)),
            Err(FileFault::NotFound) => Ok(None),
            Err(FileFault::OutOfMemory) => Err(FolderFault::OutOfMemory),
            Err(FileFault::Unreadable) => {
                self.failures = self.failures.saturating_add(1);
                Err(FolderFault::Failed)
            }
        }
    }
}

impl<O: Opens + AllocGlobal + Clone + Drop> Folder for DiskFolder<O> {
    ghost use Rattle.index_reader.specs.Opened.{DiskCalls};

    ghost calls = { DiskCalls O.opens O.File.left O.File.fails };

    ghost failed = { λ f. f.failures };

    fn file(&mut self, path: &str) -> Result<Option<Vec<u8>>, FolderFault> {
        let alloc = self.opener.alloc();
        let Ok(whole) = path_below(alloc, self.path.as_str(), path) else {
            return Err(FolderFault::OutOfMemory);
        };
        let room = &mut self.room;
        let given = read_at_in(&self.opener, alloc, room, whole.as_str(), MOST_READ);
        self.answer(given)
    }

    fn failures(&self) -> u64 {
        self.failures
    }
}
