//! What an index file says of the versions of a package, and folders of such files (Cargo book, "Registry Index").
//!
//! An index is not one's own: each line may be anything, and a bad line is to be skipped with a reason and to spoil no
//! other one. So the definition of a file (`specs/Files`) gives for any bytes the records and the skips, each with the
//! first reason of a stated order; what one line says is `index_lines`' matter, and it is held here against the lines
//! before it (`file_so_far.rt`). Line ends are found by `memchr`.
//!
//! A folder is a trait (`Folder`) with a relation of its own, so that what stands on it is proved over every folder;
//! `DiskFolder` is exact over anything that opens files (`Opens`), and of the system's call alone nothing is promised.
//! Not found is what the system calls so: a folder in the place of a file is a failure of the folder, so that a disk
//! that fails isn't taken for an empty index. `read_line` knows one line and answers S11, where `read_file` looks for
//! an earlier version first, since the lowest number is answered.
//!
//! A layer above may rely on this: `read_line` and `read_file` give what the definitions give for the bytes, unless
//! memory was wanting. No two records of a file have equal precedence, and each feature table knows its features.
#![tactic(auto)]

mod disk;
mod fail_at;
mod file;
mod file_so_far;
mod folder;
mod laws;
mod line;
mod opened;
mod path;
mod skip;

pub use disk::DiskFolder;
pub use fail_at::FailAt;
pub use file::{MAX_LINES, lines, read_file, read_file_in};
pub use folder::{Folder, FolderFault, MemoryFolder};
pub use index_lines::{KnownDependencies, LineFault, Record, SkipReason, are_hexadecimal};
pub use laws::{records_are_apart, records_bring_valid_parts, records_know_their_features};
pub use line::read_line;
pub use opened::{FileFault, Fronted, Opens, read_at};
pub use path::index_path;
pub use skip::Skip;
