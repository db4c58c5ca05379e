//! Which packages are here, which dependencies are enabled and which features are on.
//!
//! A lock, a walk and what a search selected have the same rules of features, so this crate finds the facts of all
//! three: packages are places of a list, each with what it brings, where its dependencies lead, and whether it is here
//! from the start (`Node`).
//!
//! What is hard is that all depends on all: a package is here if an enabled dependency leads to it, a dependency may be
//! enabled by a feature, a feature may be asked for by a dependency, and `d?/g` asks only where something else enables
//! d. So each fact that can be (a package is here, a dependency is enabled, a row of a feature table is on, a feature
//! is on that the table lacks) has a number (`numbering.rt`), each rule of features becomes rules over numbers with one
//! premise, `d?/g` with two (`rules.rt`), and `close` marks what they give. That is linear in the rules but for
//! the look-up of names, in constant stack.
//!
//! What chains of rules over numbers give is found in `closing.rt`. By the laws of `reaching.rt` what is found here is
//! what the root reaches in an assignment of the search, and the content built of it a valid selection.
//!
//! A layer above may rely on this: the flags of `facts_of` are exactly what the rules of the model
//! (`model/specs/Selection`) give.
#![tactic(auto)]

mod closing;
mod fact_numbers;
mod facts;
mod flagged;
mod lists;
mod node;
mod numbering;
mod reaching;
mod rule;
mod rules;

pub use closing::close;
pub use facts::{Facts, facts_of};
pub use flagged::{flag, flags};
pub use node::Node;
pub use numbering::dependencies_of;
pub use reaching::{
    built_contents_select, built_roots_have_no_checksum, found_owners_are_kept,
    packages_are_a_graph,
};
pub use rule::Rule;
