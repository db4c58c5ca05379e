//! The disk of a run: what it reads and writes there, and the system's calls, of which alone nothing is promised.

use index_reader::{DiskFolder, FileFault, Folder, Opens, read_at};
use std::alloc::{AllocError, Global};
use std::rt::Files;
use std::{fs, io};

/// Files by their paths, which a run reads and writes.
pub trait Disk {
    /// A folder of the disk.
    type Index: Folder + Drop;

    ghost use Rattle.std.specs.Prelude.{ℕ, Bool, IfOk, List, Result, Vec};
    ghost use Rattle.std.specs.declared.alloc.Global.{Global};
    ghost use Rattle.index_reader.specs.declared.opened.FileFault.{FileFault};

    /// The disk, a path, how many bytes are wanted at most, and what reading them gave.
    ghost reads: { Self → List ℕ → ℕ → Result (Vec ℕ Global) FileFault → Type 0 };

    /// The disk before, a path, bytes, whether they became the file there, and the disk after.
    ghost writes: { Self → List ℕ → List ℕ → Bool → Self → Type 0 };

    /// The disk, a path, and the folder there.
    ghost opens: { Self → List ℕ → Self.Index → Type 0 };

    /// The bytes of a file, but at most this many of them.
    fn read(&self, path: &str, most: u64) -> Result<Vec<u8>, FileFault>
        ensures { reads self.now path.now most result };

    /// Makes these bytes the file at a path, and says whether that could be done.
    fn write(&mut self, path: &str, bytes: &[u8]) -> bool
        ensures { writes self.old path.now bytes.now result self.new };

    /// What memory comes from.
    fn memory(&self) -> Global;

    /// The folder at a path.
    fn open(&self, path: &str) -> Result<Self::Index, AllocError>
        ensures { IfOk result (λ folder. opens self.now path.now folder) };
}

/// What makes bytes the file at a path.
pub trait Puts {
    ghost use Rattle.std.specs.Prelude.{ℕ, List, Result};
    ghost use Rattle.std.specs.declared.io.Error.{Error};

    /// Who puts, before, a path, bytes, what writing them there gave, and who puts, after.
    ghost puts: { Self → List ℕ → List ℕ → Result (Unit {0}) Error → Self → Type 0 };

    /// Makes these bytes the file at a path.
    fn put_at(&mut self, path: &str, bytes: &[u8]) -> io::Result<()>
        ensures { puts self.old path.now bytes.now result self.new };
}

/// The system's call. That the bytes come to be the file there the toolchain's files don't promise, and so nothing
/// above does.
impl<R: Files> Puts for R {
    ghost puts = { λ _ _ _ _ _. Unit {0} };

    fn put_at(&mut self, path: &str, bytes: &[u8]) -> io::Result<()> {
        fs::write(self, path, bytes)
    }
}

/// What opens and puts files is a disk.
impl<R: Opens + Puts + AllocGlobal + Clone + Drop> Disk for R {
    type Index = DiskFolder<R>;

    ghost use Rattle.index_reader.specs.Opened.{IsRead};
    ghost use Rattle.commands.specs.Systems.{IsOpened, IsWritten};

    ghost reads = { λ disk. IsRead (R.opens disk) R.File.left R.File.fails };

    ghost writes = { IsWritten R.puts };

    ghost opens = { λ disk. IsOpened R.is_clone disk };

    fn read(&self, path: &str, most: u64) -> Result<Vec<u8>, FileFault> {
        read_at(self, self.alloc(), path, most)
    }

    fn write(&mut self, path: &str, bytes: &[u8]) -> bool {
        self.put_at(path, bytes).is_ok()
    }

    fn memory(&self) -> Global {
        self.alloc()
    }

    fn open(&self, path: &str) -> Result<DiskFolder<R>, AllocError> {
        DiskFolder::open(self, path)
    }
}
