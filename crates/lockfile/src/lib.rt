//! What a Cargo.lock says.
//!
//! A lock names packages by the shortest text that tells them apart: the name, the name and the version, or these and
//! the source. So what a dependency text means depends on all packages. Reading puts the packages into package order
//! first; then those of a name stand next to one another, and each text is looked up by search, but for a name that
//! has one package, which is found where the name was put down last (`meaning.rt`). Writing keeps for each package its
//! version's text and the text by which lists name it: the two packages beside it decide which form that is
//! (`written_package.rt`), and each list is put in order by a stable sort. Both are n log n, with no search through all
//! packages for one text.
//!
//! What is hard is that what is written is read as the same again. The laws (`laws.rt`) say so: the table that a
//! content is spelled as says that content, and where TOML reads the spelling as this table, `read` gives the content
//! back. TOML itself is beyond them; so who hands out a new lock reads it first.
//!
//! Of a lock's faults its size comes first, then TOML, then `version`, then every other rule as one fault, so that a
//! lock of a format to come is told as that. A content's sources and checksums are any texts, so that a caller may
//! build any content; the laws say which of them a lock can have (`IsWritable`).
//!
//! A layer above may rely on this: `read` gives what the bytes mean or the first fault, `write` the one spelling. A
//! `LockContent` is always in package order, no two packages of it alike in name, version and source, and its lists
//! rise and stay within it.
#![tactic(auto)]

mod content;
mod fault;
mod laws;
mod listed;
mod meaning;
mod order;
mod package;
mod packages;
mod reader;
mod table;
mod writer;
mod written_package;

pub use content::LockContent;
pub use fault::LockFault;
pub use laws::{locks_say_contents, spellings_read_back, tables_say_their_contents};
pub use order::{package_order, source_order};
pub use package::Package;
pub use reader::read;
pub use writer::write;
