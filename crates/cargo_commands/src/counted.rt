//! A folder that counts what it is asked for and what is read of it.

use crate::seen::Seen;
use crate::teller::Teller;
use crate::watch::Watch;
use index_reader::{Folder, FolderFault};
use std::alloc::Global;
use std::io::Eprint;
use std::time::Clock;

/// A folder that counts what it is asked for and what is read of it, and tells that to who watches.
#[derive(Drop)]
pub(crate) struct Counted<'a, F: Folder + Drop, R: Clock + Eprint> {
    folder: F,
    seen: Seen,
    teller: Teller<'a, R>,
}

impl<'a, F: Folder + Drop, R: Clock + Eprint> Counted<'a, F, R> {
    pub(crate) fn new(alloc: Global, folder: F, rt: &'a R, watch: Watch) -> Counted<'a, F, R> {
        Counted {
            folder,
            seen: Seen::nothing(alloc),
            teller: Teller::new(rt, watch),
        }
    }

    /// What was asked for and read until now.
    pub(crate) fn seen(&self) -> &Seen {
        &self.seen
    }

    /// The folder itself.
    pub(crate) fn folder(&self) -> &F {
        &self.folder
    }
}

impl<F: Folder + Drop, R: Clock + Eprint> Folder for Counted<'_, F, R> {
    ghost calls = { λ old path answer new. F.calls old.folder path answer new.folder };

    ghost failed = { λ counted. F.failed counted.folder };

    fn file(&mut self, path: &str) -> Result<Option<Vec<u8>>, FolderFault> {
        self.teller.tell(&self.seen);
        let answer = self.folder.file(path);
        self.seen.count(path, &answer);
        answer
    }

    fn failures(&self) -> u64 {
        self.folder.failures()
    }
}
