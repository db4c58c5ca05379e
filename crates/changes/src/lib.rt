//! What a lock tells people: what changed since another one, why a package is there, and which lines of the index were
//! not used.
//!
//! Locks are in package order, so whether one has a package is found by halves, and what came, went and stayed costs n
//! log n (`changing`). Why a package is there is a shortest way over the lists of the lock: a search visits each
//! package once, the nearest first (`searching`). What is hard is that no way is shorter, and that there is none where
//! none is found: the proof goes by what the search keeps (`specs/inner/Searches`), that what visited packages list is
//! visited too, and no visit is more than one list farther than the next that is followed.
//!
//! What is told is there as values too (`told_lines`, `steps_of`, `meaning`), for who tells it otherwise than in lines.
//!
//! A layer above may rely on this: what changed is exact, a way is a shortest one, and where it is said that there is
//! no package or no way there is none. Whose list changed, which version is told as available, and all texts are shown
//! by cases and not stated.
#![tactic(auto)]

mod available;
mod changing;
mod on_ways;
mod printing;
mod relisting;
mod searching;
mod skips;
mod steps;
mod ways;

pub use available::NeededRust;
pub use changing::{Changes, changes_between};
pub use on_ways::dependencies_to;
pub use printing::{Line, ToldLine, is_yanked, named, tell_changes, told_lines};
pub use relisting::Relisting;
pub use skips::{REASONS, meaning, tell_skips};
pub use steps::{WayStep, dependencies_between, steps_of, tell_steps};
pub use ways::{Why, reason_for};
