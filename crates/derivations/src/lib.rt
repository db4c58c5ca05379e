//! Why there is no selection: derivations, step by step, and the lines that they are written as.
//!
//! A derivation may have very many steps, which name the same vertices and states again and again. So each vertex, each
//! state and each set of states stands once in its tables, vertices and states with their texts, and the steps name
//! them by numbers (`Tables`, `Step`).
//!
//! What is hard is to read lines into such numbers fast, and to prove it. Most terms of a combination stand in one of
//! the two steps that it combines, so a term is looked for there first, by its texts (`earlier.rt`): one that is found
//! is neither parsed nor looked up. Any other is read as vertices and states of its own (`WholeTerm`), put into the
//! tables and let go. That the tables only grow, and that each number keeps what it stands for, is a separate proof; so
//! steps stay what they are where there is no memory for one more.
//!
//! A derivation grows by `read`, or by steps over spelt vertices and borrowed states (`spell`, `push_named_axiom`,
//! `push_named_combination`), which are put into the written order. What these ask of a caller, that each vertex and
//! state is what its own text reads as and none stands twice, `vertices` proves of all valid ones. `write` copies the
//! texts in the tables, and that such a line reads as its step again is what makes it right.
//!
//! A layer above may rely on this: `read` gives exactly the derivation that the bytes are, or the first line with a
//! fault. Each `Derivation` is in the written order and refers backwards alone. It may have any number of steps. What
//! `write` makes of one reads as it again, if it has at most 16,777,216, which is a limit of `read` alone.
#![tactic(auto)]

mod derivation;
mod earlier;
mod fault;
mod keeping_read;
mod keeping_spelt;
mod line;
mod named;
mod owning;
mod reading;
mod spelt;
mod states;
mod step;
mod tables;
mod texts;
mod values;
mod writing;

pub use derivation::Derivation;
pub use fault::DerivationFault;
pub use named::NamedTerm;
pub use reading::read;
pub use spelt::Spelling;
pub use states::states_in;
pub use step::{Origin, Step, Term};
pub use tables::Tables;
pub use writing::write;
