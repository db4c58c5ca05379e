//! PubGrub's incompatibilities over any set of states, and a store that remembers where each came from.
//!
//! An incompatibility is a list of terms that don't all hold: one term a vertex, by rising vertex, and none with all
//! states of its vertex, since such a term says nothing. So two are combined by one merge, and of those that say the
//! same of each vertex there is one form.
//!
//! `combine` is the one rule by which anything follows: the union of the two at one vertex, the intersection at each
//! other one. What breaks the combination breaks one of the two. A `Store` keeps for each entry that it is an axiom, or
//! the chain of combinations of earlier entries (`Chain`) that it came out of, and so it is the type itself that says:
//! an assignment that breaks an entry breaks an axiom of the store (`Follows`). A refusal is made of nothing else. What
//! comes out within a chain is no entry: no store keeps it, and who needs it combines again.
//!
//! Entries are only added, and an `Id` means one entry for good, so what was said of a store holds of the grown one.
//! The store lists all entries by the vertices of their terms (`at`), with the states of the terms (`states_at`)
//! beside. What who resolves conflicts wants to find again stands there too (`Notes`); nothing rests on it.
//!
//! A layer above may rely on this: the contracts of `combine` and `add` are exact, and where memory is wanting `add`
//! leaves all entries as they were.
#![tactic(auto)]

mod chain;
mod combining;
mod incompatibility;
mod notes;
mod origin;
mod rows;
mod store;

pub use chain::{Chain, Link};
pub use combining::combine;
pub use incompatibility::Incompatibility;
pub use notes::Notes;
pub use origin::{Id, Origin};
pub use store::Store;
