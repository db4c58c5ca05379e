//! Why there is no selection, as a text that a person reads.
//!
//! The text has a line for each step that is needed: the last one, and each that a needed one combines. One pass from
//! the last step to the first finds them, since steps refer backwards (`needed.rt`), and they are numbered anew, in
//! their order. Many terms have one set of states, so the text of each set is made once (`texts.rt`).
//!
//! A layer above may rely on this: the text is exactly what the definition makes of the derivation (`explanation_of`).
//! It looks at nothing else, and tells a wrong derivation too: whether a step is right is for the checker to say, which
//! has the manifest and the index that this crate does without.
#![tactic(auto)]

mod explanation;
mod needed;
mod texts;

pub use explanation::explain;
