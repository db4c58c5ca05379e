//! PubGrub's terms, over any set of states.
//!
//! A term says that a vertex has one of some states. In Dart pub's `solver.md` a term is positive or negative, since a
//! package that isn't selected has no version there. Here not to be selected is a state like the others, so the
//! negation of a term is the term of all other states, and one form is enough.
//!
//! What is left to a vertex stands to a term in one of three ways (`Relation`): each state that is left makes it hold,
//! none does, or some do and some don't. `solver.md` calls these satisfied, contradicted and inconclusive. A vertex
//! without a state contradicts each term, so a set with nothing left never counts as satisfied.
//!
//! A layer above may rely on this: `relation` is exact and takes no memory, and `negate` is the exact complement.
#![tactic(auto)]

mod relating;
mod term;

pub use relating::relation;
pub use term::{Relation, Term};
