//! A valid selection for a manifest and a loaded index, or why there is none.
//!
//! `solve` asks for the preferred walk first (`selection`). Where there is one, complete and valid, the search is told
//! to follow it: it meets no conflict then, and the walk is the answer. Else the search goes its own way. Either way
//! one search decides: what it selects is gathered (`selected.rt`), and where the walk was followed the walk itself is
//! handed out; an entry without terms goes to `refuting.rt`.
//!
//! What is hard is that both answers are to be right with no condition on the inputs. The laws ask that versions rise
//! and feature tables know their features, and that whatever a derivation names reads back from its text, which every
//! `Manifest` and `Catalogue` has by its type (`catalogue`).
//!
//! The walk is handed out as it is, and not what the root reaches in the end: a walk that is valid may have packages
//! that hold one another in a ring. Where the walk isn't valid, no clause prefers one selection to another: to say "as
//! near the walk as can be" one has to choose what counts as near.
//!
//! `selected.rt` has the content of what was selected. A refutation becomes a derivation in three steps: a store's
//! entry as a row of axioms and combinations (`unrolling.rt`), numbers as the vertices and states that they stand for
//! (`rows.rt`), and texts (`refuting.rt`).
//!
//! A layer above may rely on this: of any manifest and any loaded index the outcome is a valid selection whose root has
//! no checksum, the preferred walk wherever that is complete and valid, else one of which the root alone brings all; or
//! a derivation that is accepted, and then no content at all is a valid selection. The one error is want of memory. It
//! ends; no more is said of its time.
#![tactic(auto)]

mod counting;
mod flat;
mod laws;
mod leading;
mod listing;
mod marking;
mod meeting;
mod refuting;
mod rows;
mod selected;
mod solving;
mod spaces;
mod speaking;
mod states;
mod stepping;
mod targets;
mod unrolling;
mod values;

pub use flat::{Flat, Source};
pub use laws::instances_have_their_kinds;
pub use refuting::refusal;
pub use rows::rows_are_accepted;
pub use selected::content;
pub use solving::{Outcome, Solved, solve};
pub use unrolling::unroll;
pub use values::chosen;
