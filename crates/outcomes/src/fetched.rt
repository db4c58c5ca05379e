//! What Cargo keeps of the index that it fetched.

ghost use Rattle.std.specs.Prelude.{◌≡◌};

use crate::listing::list_names;
use index_reader::{Folder, FolderFault};
use std::alloc::{AllocError, Global};
use std::collections::BTreeSet;
use std::fs;
use std::io::{self, ErrorKind};
use std::rt::Files;
use std::time::SystemTime;

/// How the folder of an index that Cargo fetched is called: from an index that is served file by file, or by git.
const SERVED: &str = "index.crates.io-";

const BY_GIT: &str = "github.com-";

/// The format of the cached files, their first byte.
const FORMAT: u8 = 3;

/// What stands before the revision: the format, and four bytes for that of the lines.
const FORMATS: usize = 5;

/// The folder of what Cargo fetched of crates.io's index, under its home; of several the one into which a file came
/// last. What can't be read there isn't there.
pub fn fetched_index<R: Files + AllocGlobal + Clone + Drop>(
    rt: &R,
    home: &str,
) -> Result<Option<String>, AllocError> {
    let indexes = format!(in rt.alloc(); "{home}/registry/index")?;
    let found = match newest_cache(rt, indexes.as_str(), SERVED) {
        Ok(None) => newest_cache(rt, indexes.as_str(), BY_GIT),
        found => found,
    };
    match found {
        Ok(found) => Ok(found),
        Err(error) if error.kind() == ErrorKind::OutOfMemory => Err(AllocError),
        Err(_) => Ok(None),
    }
}

/// The folder of an index called so into which a file came last.
fn newest_cache<R: Files + AllocGlobal + Clone + Drop>(
    rt: &R,
    indexes: &str,
    prefix: &str,
) -> io::Result<Option<String>> {
    let mut newest = None;
    for name in list_names(rt, indexes)?.iter() {
        if name.starts_with(prefix) {
            let path = format!(in rt.alloc(); "{indexes}/{name}/.cache")?;
            if let Some(changed) = changed_at(rt, path.as_str()) {
                newest = later(newest, (changed, path));
            }
        }
    }
    match newest {
        Some((_, path)) => Ok(Some(path)),
        None => Ok(None),
    }
}

/// When something came into a folder last, if it is one.
fn changed_at<R: Files>(rt: &R, path: &str) -> Option<SystemTime> {
    let data = fs::metadata(rt, path).ok()?;
    if data.is_dir() {
        data.modified().ok()
    } else {
        None
    }
}

/// The one that was changed later; the first of two alike.
fn later(
    one: Option<(SystemTime, String)>,
    other: (SystemTime, String),
) -> Option<(SystemTime, String)> {
    match one {
        Some(one) => if one.0 < other.0 {
            Some(other)
        } else {
            Some(one)
        },
        None => Some(other),
    }
}

/// A folder of an index, whose files are Cargo's cached ones where Cargo fetched it.
#[derive(Drop)]
pub struct IndexFolder<F: Folder + Drop> {
    folder: F,
    alloc: Global,
    is_fetched: bool,
    /// Of what Cargo fetched, the paths of the files that were asked for and aren't there.
    missing: BTreeSet<String>,
}

impl<F: Folder + Drop> IndexFolder<F> {
    pub fn new(alloc: Global, folder: F, is_fetched: bool) -> IndexFolder<F> {
        IndexFolder {
            folder,
            alloc,
            is_fetched,
            missing: BTreeSet::new(alloc),
        }
    }

    /// How many names were asked for of which Cargo fetched nothing.
    pub fn missing(&self) -> usize {
        self.missing.len()
    }

    /// The lines of a file that Cargo keeps, if it is there.
    fn fetched(&mut self, path: &str, file: Option<Vec<u8>>) -> Result<Option<Vec<u8>>, AllocError>
        ensures { self.new.folder ≡ self.old.folder }
    {
        let lines = match &file {
            Some(bytes) => lines_of(self.alloc, bytes)?,
            None => None,
        };
        if lines.is_none() {
            self.missing.insert(String::from_str(self.alloc, path)?)?;
        }
        Ok(lines)
    }
}

impl<F: Folder + Drop> Folder for IndexFolder<F> {
    ghost use Rattle.std.specs.Prelude.{◌≡◌, ◌⊎◌, true};

    ghost calls = { λ old path answer new. (old.is_fetched ≡ true) ⊎ F.calls old.folder path answer new.folder };

    ghost failed = { λ index. F.failed index.folder };

    fn file(&mut self, path: &str) -> Result<Option<Vec<u8>>, FolderFault> {
        if !self.is_fetched {
            return self.folder.file(path);
        }
        let file = self.folder.file(path)?;
        match self.fetched(path, file) {
            Ok(lines) => Ok(lines),
            Err(_) => Err(FolderFault::OutOfMemory),
        }
    }

    fn failures(&self) -> u64 {
        self.folder.failures()
    }
}

/// The lines of a file that Cargo keeps: behind the formats stand a revision and then, for each version, its text and
/// its line, each of these with a NUL behind it. Of another format Cargo uses none.
fn lines_of(alloc: Global, bytes: &[u8]) -> Result<Option<Vec<u8>>, AllocError> {
    if bytes.first() != Some(&FORMAT) {
        return Ok(None);
    }
    let mut lines = Vec::new(alloc);
    let parts = bytes.get(FORMATS..).unwrap_or(&[]);
    for (place, part) in parts.split(|byte| *byte == 0).enumerate() {
        if place > 0 && place % 2 == 0 {
            lines.extend_from_slice(part)?;
            lines.push(b'\n')?;
        }
    }
    Ok(Some(lines))
}
