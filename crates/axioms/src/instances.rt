//! The terms of the instance that a cause gives rise to.
//!
//! Each kind has its terms, vertex by vertex with their states: a version that is chosen, a feature that is off, a
//! class with no version that a requirement matches. The sets of versions are taken from the versions of one class
//! alone, and stand in the written order. A term with all states of its vertex says nothing and is left out; whether a
//! set is full is told by going over what its vertex may be, which ends at the first state that is missing.
//!
//! What the terms of each kind say is given by `lookups` (`SymbolicTerm`); `kinds.rt` makes states of that.
//!
//! Steps of few bytes may each ask what a large class has: which versions a requirement matches, or which lack a
//! feature. So what was found of a class with more than a few versions is kept (`kept.rt`) by the name, the requirement
//! or the feature, and the class, and only where the step itself isn't as long as the class. And each step may have
//! another requirement that matches all of a class: where it is kept that the class has no pre-release, only those that
//! aren't matched are gone over.
//!
//! A layer above may rely on this: `instance_terms` gives exactly the terms of the definition (`terms_of_cause`),
//! without the full ones, whether or not what the cause names is there.

mod features_had;
mod full_terms;
mod instance;
mod kept;
mod kinds;
mod lacking;
mod matched;
mod matched_classes;
mod terms;
mod unmatched;

pub(crate) use instance::instance_terms;
pub(crate) use kept::Kept;
