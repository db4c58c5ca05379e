//! One run of `cargo relock`: words in, files read, a status and two texts out.
//!
//! Each command reads its files first (`places`), so that one that isn't there is told before anything else, and hands
//! their bytes and a folder to `outcomes`, which says how it ends (`asking`). The folder counts what it is asked for,
//! which a terminal shows meanwhile; it is given up before anything is printed. Then what is told is printed, painted
//! or not (`showing`), and last the lock is replaced (`running`).
//!
//! With `-q` errors alone are told, of `why` and `skips` too: then the status is the answer.
//!
//! Nothing is stated of it: what is proved is what the calls promise, and `worked_cases` plays whole runs.
//!
//! What words ask for is read by clap (`reading.rt`), lines are painted as Cargo paints them (`painter.rt`), and how
//! far a run has come is told while it asks (`watch.rt`).
#![tactic(auto)]

mod asking;
mod command;
mod counted;
mod failure;
mod manner;
mod paint;
mod painter;
mod parts;
mod places;
mod reading;
mod running;
mod seen;
mod showing;
mod shown;
mod teller;
mod watch;

pub use running::{run, without_arguments};
pub use showing::Surroundings;
