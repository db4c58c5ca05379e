//! Why there is no lock, told in sentences.
//!
//! A derivation has a step for each thing that was combined, and most of these say little. So a step gets a sentence of
//! its own only where several need it, or where its premises have become too many for one sentence; else its premises
//! stand for it (`outline.rt`, with `uses.rt`). What is hard is to be sure that nothing is lost by that. Which steps
//! are told is a definition, and a law says of it that each sentence follows from its premises, down to what axioms
//! say.
//!
//! What an axiom says is told by the cause that its terms can have, which `lookups` finds (`axiom.rt`). What is said of
//! several versions of a name is one fact (`facts.rt`), so that thirty versions that need the same are told at once.
//! Versions stand as ranges over the candidates of their name (`spans.rt`, `ranges.rt`), from marks that say which of
//! them a term means (`marks.rt`).
//!
//! So a step that restates one premise has no sentence; one that a single step combines has none either, if its
//! premises are two, or five where it speaks of a dependency's target or of what is asked for. What one package needs
//! is one clause, the root's first, then name by name, older versions first.
//!
//! A layer above may rely on this: `sentences_of` loses no premise, and a range has exactly the versions that it is to
//! have. Which dependencies no version fits is there for who knows why (`unmatched_in`). Whether the derivation is
//! right is for the checker to say: ask it first.
#![tactic(auto)]

mod axiom;
mod claim;
mod clauses;
mod facts;
mod marks;
mod naming;
mod outline;
mod ranges;
mod spans;
mod telling;
mod terms;
mod unmatched;
mod uses;

pub use outline::{Note, Premise, Sentence, sentences_of};
pub use spans::{Span, spans_of};
pub use telling::tell;
pub use unmatched::unmatched_in;
pub use uses::Uses;
