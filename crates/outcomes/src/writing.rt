//! Replacing the lock.
//!
//! A run may be cut off at any moment, and two may run at once. So a new lock is written to a file beside the old one,
//! which has to be new itself, is synced, and gets the lock's name last: who reads finds the old lock or the new one,
//! whole. Else it is as if the lock were written in place: links to it stay links, it keeps its rights and, where the
//! system lets us, its group and owner, and one that can't be written is refused. What a rename can't keep is a second
//! name of the same file, which keeps the old text.
//!
//! Of what the system's calls write nothing is promised; what is stated is which path a fault names.

use crate::fault::WriteFault;
use std::alloc::{AllocError, Global};
use std::fs::{self, File, Metadata, OpenFile, OpenOptions, Permissions};
use std::io::{self, ErrorKind, Write};
use std::os::unix::fs::{MetadataExt, OpenOptionsExt, PermissionsExt, lchown};
use std::path::PathBuf;
use std::rt::Files;

/// How many links the system follows from one path.
const LINKS: usize = 40;

/// Where a lock is, behind links, and what the system tells of the file that is there, if one is.
#[derive(Drop)]
struct Place {
    path: String,
    old: Option<Metadata>,
}

/// Writes the new lock to a file beside the old one, and renames it. A file of that name that is already there is
/// another run's, and stays.
pub fn replace_lock<'a, R: Files + AllocGlobal>(
    rt: &R,
    lock: &'a str,
    bytes: &[u8],
) -> Result<(), WriteFault<'a>> {
    let place = match place_of(rt, lock) {
        Ok(place) => place,
        Err(error) => return Err(fault_at(lock, error)),
    };
    let beside = path_beside(rt.alloc(), place.path.as_str())?;
    let file = match make(rt, beside.as_str(), &place) {
        Ok(file) => file,
        Err(error) => return Err(WriteFault::CannotMake(beside, error)),
    };
    match put_in_place(rt, file, beside.as_str(), &place, bytes) {
        Ok(()) => Ok(()),
        Err(error) => {
            let _ = fs::remove_file(rt, beside.as_str());
            Err(WriteFault::CannotReplace(lock, error))
        }
    }
}

/// Only a path that found no room here is want of memory.
fn fault_at<'a>(lock: &'a str, error: io::Error) -> WriteFault<'a> {
    if error.kind() == ErrorKind::OutOfMemory && error.raw_os_error().is_none() {
        WriteFault::OutOfMemory
    } else {
        WriteFault::CannotReplace(lock, error)
    }
}

/// Follows the links of a lock to where its file is or, behind a link to nothing, will be.
fn place_of<R: Files + AllocGlobal>(rt: &R, lock: &str) -> io::Result<Place> {
    let mut path = PathBuf::from_str(rt.alloc(), lock)?;
    for _ in 0..=LINKS {
        match fs::symlink_metadata(rt, path.as_path()) {
            Ok(found) if found.is_symlink() => {
                let behind = fs::read_link(rt, path.as_path())?;
                path.set_file_name(behind.as_str())?;
            }
            Ok(found) => {
                check_writable(rt, path.as_str(), &found)?;
                return Ok(Place {
                    path: path.into_string(),
                    old: Some(found),
                });
            }
            Err(error) if error.kind() == ErrorKind::NotFound => {
                return Ok(Place {
                    path: path.into_string(),
                    old: None,
                });
            }
            Err(error) => return Err(error),
        }
    }
    Err(io::Error::from(ErrorKind::FilesystemLoop))
}

/// Opens the old lock for writing, which a rename wouldn't need. A pipe would wait here for its reader, and a device
/// isn't to become a file.
fn check_writable<R: Files>(rt: &R, path: &str, found: &Metadata) -> io::Result<()> {
    if !found.is_file() {
        return Err(io::Error::new(ErrorKind::InvalidInput, "it is no regular file"));
    }
    OpenOptions::new().write(true).open(rt, path)?;
    Ok(())
}

fn path_beside(alloc: Global, path: &str) -> Result<String, AllocError> {
    format!(in alloc; "{path}.new")
}

/// Makes the file beside the lock. Where there is an old lock, nobody else may open this one before it has that one's
/// rights.
fn make<R: Files>(rt: &R, beside: &str, place: &Place) -> io::Result<R::File> {
    if place.old.is_some() {
        OpenOptions::new()
            .write(true)
            .create_new(true)
            .mode(0o600)
            .open(rt, beside)
    } else {
        File::create_new(rt, beside)
    }
}

/// The bytes are on the disk before the file has the lock's name.
fn put_in_place<R: Files>(
    rt: &R,
    mut file: R::File,
    beside: &str,
    place: &Place,
    bytes: &[u8],
) -> io::Result<()> {
    if let Some(old) = &place.old {
        take_over(rt, &file, beside, old)?;
    }
    file.write_all(bytes)?;
    file.sync_all()?;
    fs::rename(rt, beside, place.path.as_str())
}

/// Gives the new file the group, the rights and the owner of the old one. Who isn't root may give a file to no other
/// owner, and only to a group of its own.
fn take_over<R: Files>(rt: &R, file: &R::File, beside: &str, old: &Metadata) -> io::Result<()> {
    let _ = lchown(rt, beside, None, Some(old.gid()));
    let is_in_group = file.metadata()?.gid() == old.gid();
    file.set_permissions(Permissions::from_mode(rights(old.mode(), is_in_group)))?;
    let _ = lchown(rt, beside, Some(old.uid()), None);
    Ok(())
}

/// The bits of a mode that say who may read, write and run a file. Another group may what all others may.
fn rights(mode: u32, is_in_group: bool) -> u32 {
    let others = mode & 0o007;
    let group = if is_in_group {
        mode & 0o070
    } else {
        others << 3
    };
    mode & 0o700 | group | others
}
