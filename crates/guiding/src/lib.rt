//! What a search asks of a manifest and a loaded index, and the search over them.
//!
//! What is hard is that a large index has far more vertices and axioms than a run may look at. So `search_over` begins
//! with the root alone on the trail, and in the store the instance that the root can't be absent. Where a vertex has
//! one state left, not absent, that wasn't asked for, the instances of that pair go into the store and the vertices
//! that they speak of onto the trail. That misses none, for where a pair doesn't hold none of its instances is broken
//! (`numbering`). How many states are still to come, and how many pairs weren't asked for, by which the loop ends, is
//! counted over the finite list of all vertices (`specs/inner/Everything`), by the proof alone.
//!
//! What is decided is, of the vertices that can't be absent and have several states left, that whose conflicts weigh
//! most, the first by number (`order.rt`). It takes its state in the valid selection that is followed, if one is; else
//! that of the most preferred candidate that is left (`preferring.rt`), or of a vertex without candidates the greatest.
//! The instances of that pair, and those of the vertices with one state beside `absent` that it needs, are asked for
//! before (`leads.rt`), so that a version which they leave out at once opens no level; and those of every pair once the
//! search is a hard one. The contract asks only for a state that is left, so another preference changes no proof.
//!
//! Where an owner has several dependencies on one package, one that leads to a class may overtake another in any of its
//! classes. So a pair of such a one is begun with the instances that name no other (`begin_with`). The rest comes once
//! these are propagated and the class is still left, and of it what names a class of another one that was asked for
//! too: 64 dependencies over 120 classes that lack a feature take 3 % of the time and 6 % of the memory.
//!
//! The loop, which takes turns and ends without a budget, is `turns.rt`; it knows nothing of Cargo, and what it
//! searches comes from a `Guide` (`guidance.rt`). What a lock says to a search that follows it is `states.rt`.
//!
//! A layer above may rely on this: the search ends where each vertex, taken `absent` if that is left, else in its one
//! state, breaks no instance of an axiom; or with an entry without terms, from entries that are instances of their
//! kinds. One that follows a valid selection ends with a selection, in which the states of the given one are left.
#![tactic(auto)]

mod choosing;
mod coming;
mod given;
mod guidance;
mod guide;
mod in_content;
mod laws;
mod leads;
mod numbers;
mod opening;
mod order;
mod preferring;
mod searched;
mod states;
mod states_left;
mod turns;

pub use guidance::Guide;
pub use guide::Encoded;
pub use laws::{assignments_fall, jumps_fall};
pub use searched::{Searched, search_over};
pub use states::state_in;
pub use states_left::least;
pub use turns::{Answer, Found, search};
