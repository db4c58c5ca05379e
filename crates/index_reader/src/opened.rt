//! Files by their paths: opened by the system's call, read up to a limit, and told apart where that fails.

ghost use Rattle.std.specs.Prelude.{◌≡◌, ◌<◌, ◌++◌, IfOk, IfSome, codes, length, string_bytes};
ghost use Rattle.std.specs.Io.{ReadsAtMost};
ghost use Rattle.std.specs.Io.KnownBytes.{ReadConsumes};
ghost use Rattle.index_reader.specs.Opened.{IsFaultOf, IsFront, IsRead, or_present, path_below};

use std::alloc::{AllocError, Global};
use std::fs;
use std::io::{self, ErrorKind, Read};
use std::rt::Files;

/// The length of a room that files are read into. Almost every file of an index is shorter: of these one call reads the
/// whole, and another finds the end. A room is cleared once, for all the files that are read into it.
const ROOM: usize = 65_536;

/// Why a file gives no bytes.
#[derive(Clone, Copy, Debug, PartialEq, Eq)]
pub enum FileFault {
    OutOfMemory,
    /// The system calls it not found.
    NotFound,
    Unreadable,
}

/// What opens files by their paths.
pub trait Opens {
    /// A file that is open.
    type File: Fronted + Drop;

    ghost use Rattle.std.specs.Prelude.{ℕ, List, Result};
    ghost use Rattle.std.specs.declared.io.Error.{Error};

    /// The opener, a path, and what opening gave.
    ghost opens: { Self → List ℕ → Result Self.File Error → Type 0 };

    /// The file at a path.
    fn open_at(&self, path: &str) -> io::Result<Self::File>
        ensures { opens self.now path.now result };
}

/// What has bytes to read.
pub trait Fronted {
    ghost use Rattle.std.specs.Prelude.{◌≡◌, ℕ, List, Option, IfErr, IfOk, IfSome, take};
    ghost use Rattle.std.specs.declared.io.Error.{Error};

    /// The bytes that are left, where they are known.
    ghost left: { Self → Option (List ℕ) };

    /// An error that reading them ended with.
    ghost fails: { Self → Error → Type 0 };

    /// The first bytes that are left, but at most this many.
    fn front(self, alloc: Global, most: u64) -> io::Result<Vec<u8>>
        ensures bytes { IfOk result (λ bytes. IfSome (left self) (λ whole. bytes.items ≡ take most whole)) }
        ensures failed { IfErr result (fails self) };

    /// The same. They may be read by way of the room, which grows if it is empty; what it holds means nothing, so that
    /// one room does for many files.
    fn front_in(self, alloc: Global, room: &mut Vec<u8>, most: u64) -> io::Result<Vec<u8>>
        ensures bytes { IfOk result (λ bytes. IfSome (left self) (λ whole. bytes.items ≡ take most whole)) }
        ensures failed { IfErr result (fails self) };
}

/// The system's call, of which the toolchain promises nothing: that the file is the one at the path.
impl<R: Files> Opens for R {
    type File = R::File;

    ghost opens = { λ _ _ _. Unit {0} };

    fn open_at(&self, path: &str) -> io::Result<R::File> {
        fs::open(self, path)
    }
}

/// Of a read that failed the toolchain's readers promise nothing.
impl<F: Read + Drop> Fronted for F {
    ghost left = { F.remaining };

    ghost fails = { λ _ _. Unit {0} };

    fn front(self, alloc: Global, most: u64) -> io::Result<Vec<u8>> {
        self.front_in(alloc, &mut Vec::new(alloc), most)
    }

    fn front_in(self, alloc: Global, room: &mut Vec<u8>, most: u64) -> io::Result<Vec<u8>> {
        if room.is_empty() {
            room.resize(ROOM, 0)?;
        }
        rest_of(&mut self.take(most), alloc, room.as_mut_slice())
    }
}

/// What is left of a reader. The bytes of a file that is shorter than the room get no more memory than they take.
/// Nothing says that a reader ends, so the calls are counted, as the toolchain counts its own.
fn rest_of<R: Read>(reader: &mut R, alloc: Global, room: &mut [u8]) -> io::Result<Vec<u8>>
    requires { 0 < length room.old }
    ensures { IfOk result (λ bytes. IfSome (R.remaining reader.old) (λ rest. bytes.items ≡ rest)) }
{
    let mut bytes = Vec::new(alloc);
    'reads: for _ in 0..u64::MAX {
        let count = read_once(reader, room)?;
        if count == 0 {
            return Ok(bytes);
        }
        bytes.extend_from_slice(&room[..count])?;
    }
    Err(io::Error::from(ErrorKind::TimedOut))
}

/// One read, again where a signal interrupts it.
fn read_once<R: Read>(reader: &mut R, room: &mut [u8]) -> io::Result<usize>
    ensures bound { ReadsAtMost result room.new }
    ensures bytes { ReadConsumes (R.remaining reader.old) (R.remaining reader.new) result room.new }
{
    'tries: for _ in 0..u64::MAX {
        match reader.read(room) {
            Ok(n) => return Ok(n),
            Err(error) => {
                if error.kind() != ErrorKind::Interrupted {
                    return Err(error);
                }
            }
        }
    }
    Err(io::Error::from(ErrorKind::TimedOut))
}

/// The first bytes of the file at a path, but at most this many.
pub fn read_at<O: Opens>(
    opener: &O,
    alloc: Global,
    path: &str,
    most: u64,
) -> Result<Vec<u8>, FileFault>
    ensures { IsRead (O.opens opener.now) O.File.left O.File.fails path.now most result }
{
    read_at_in(opener, alloc, &mut Vec::new(alloc), path, most)
}

/// The same by way of a room that is kept from file to file.
pub(crate) fn read_at_in<O: Opens>(
    opener: &O,
    alloc: Global,
    room: &mut Vec<u8>,
    path: &str,
    most: u64,
) -> Result<Vec<u8>, FileFault>
    ensures { IsRead (O.opens opener.now) O.File.left O.File.fails path.now most result }
{
    match front_at(opener, alloc, room, path, most) {
        Ok(bytes) => Ok(bytes),
        Err(error) => Err(fault_of(&error)),
    }
}

fn front_at<O: Opens>(
    opener: &O,
    alloc: Global,
    room: &mut Vec<u8>,
    path: &str,
    most: u64,
) -> io::Result<Vec<u8>>
    ensures { IsFront (O.opens opener.now) O.File.left O.File.fails path.now most result }
{
    let file = opener.open_at(path)?;
    file.front_in(alloc, room, most)
}

/// Only a growth that failed here is want of memory: what the system lacks makes the file unreadable.
fn fault_of(error: &io::Error) -> FileFault
    ensures { IsFaultOf error.now result }
{
    match error.kind() {
        ErrorKind::OutOfMemory if error.raw_os_error().is_none() => FileFault::OutOfMemory,
        ErrorKind::NotFound => FileFault::NotFound,
        _ => FileFault::Unreadable,
    }
}

/// The path of a file below a folder.
pub(crate) fn path_below(alloc: Global, folder: &str, path: &str) -> Result<String, AllocError>
    ensures { IfOk result (λ whole. string_bytes whole ≡ path_below folder.now path.now) }
{
    joined(alloc, or_present(folder), path)
}

fn joined(alloc: Global, folder: &str, path: &str) -> Result<String, AllocError>
    ensures { IfOk result (λ whole. string_bytes whole ≡ folder.now ++ codes "/" ++ path.now) }
{
    format!(in alloc; "{folder}/{path}")
}

/// Put before `/1/a` an empty path would name the system's root: it is the present folder.
fn or_present(folder: &str) -> &str
    ensures { result.now ≡ or_present folder.entry.now }
{
    if folder.is_empty() { "." } else { folder }
}
