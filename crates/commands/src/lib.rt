//! `commands`: one run of `relock`: words in, files read, a status and two texts out.
//!
//! What a run reads and writes is a matter of the system, of which contracts know nothing. So all goes through traits:
//! `Disk` for files, behind it `Opens` and `Puts` for what opens and writes them, and `Stream` for what is printed to.
//! Runs are proved over any bodies of these; in the program these are the system's own calls, of which alone nothing is
//! promised.
//!
//! What is hard is that a write may fail and want of memory may come at any call, and still nothing wrong may be said.
//! A run's statement (`Runs`, `specs/Commands`) has an outcome for each way to end: an answer, with what was written
//! where and the status, or the first of what is read that can't be had. What is told on standard error stands there or
//! its write failed, text by text.
//!
//! The derivation is written before the explanation is told, so that who sees an explanation has the whole derivation
//! in the file; a file that can't be written is a failure of its own and no refusal without its proof. `resolve` prints
//! the lock alone to standard output, so that a shell can send it to a file. Only a growth that was refused in this
//! process is want of memory; the system's "cannot allocate memory" for a file is a failure of the folder.
//!
//! A layer above may rely on `Runs` alone: for the words that `clap` takes, a run reads what lies where they say, asks
//! the call of that name with just this, and prints its answer.
#![tactic(auto)]

mod disk;
mod ending;
mod files;
mod limits;
mod printing;
mod running;
mod sources;
mod streams;

pub use disk::{Disk, Puts};
pub use index_reader::FileFault;
pub use limits::what_is_not_read_cannot_matter;
pub use running::{run, run_on, without_arguments};
pub use streams::Stream;
