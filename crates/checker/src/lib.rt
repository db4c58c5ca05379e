//! Whether a derivation refutes: each step looked up in a manifest and a loaded index, and in the steps before it.
//!
//! A refusal is believed for its check, not for the search that found it. So the checker uses nothing of the search,
//! and its contract is the definition of an accepted derivation (`model/specs/Derivation`), whatever made the
//! derivation.
//!
//! What is hard is to check very many steps soon. Steps name vertices and sets of states by numbers, and what these
//! stand for is gathered once for all of them (`Names`): the rank of each vertex, how many texts of vertices are less
//! than its own, and each set of states. Terms stand in the order of ranks, so a term is found by search, and two sets
//! of one number are one set. So the decision of a combination looks at the numbers of three steps, and at the vertices
//! of the earlier two only where the step itself says nothing (`combination.rt`). Deciding a combination wants no
//! memory; what may want it is made before, and an axiom is decided then (`preparing.rt`).
//!
//! A layer above may rely on this: `check` says `Proves` exactly where the derivation is accepted, and then no content
//! at all is a valid selection; else it gives the first refused step with its reason. Its one error is want of memory.
#![tactic(auto)]

mod checking;
mod combination;
mod names;
mod naming;
mod outcome;
mod preparing;
mod ranks;
mod space;
mod states;

pub use checking::check;
pub use outcome::{Check, Reason};
