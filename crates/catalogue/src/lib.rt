//! The index of a run: which names were asked for, which candidates each has, and which of them is preferred.
//!
//! What is hard is that nobody knows beforehand which names a run needs. `load` asks the folder for what the root's
//! dependencies mean, then, name after name, for what the dependencies of the candidates found so far mean, each name
//! once. A candidate is a record that isn't yanked, or that the old lock has. So the names that were asked for are
//! closed under dependencies, and a valid selection has no others. Contracts tell a load by the chain of the folder's
//! calls (`Loads`), for any folder.
//!
//! Candidates stand oldest first, so a version, a class, or the ends between which a requirement can match
//! (`bounds.rt`) are found by search. How each is preferred is kept beside it as a rank, since the locked come first,
//! and then, if that is asked for, those that the manifest's Rust version fits.
//!
//! At most 65,536 names are asked for. The fault comes when one more would be, before the folder is called, so that a
//! run which needs just as many passes. Names lie in a list with a map of `std` and not in one of `indexmap`, since
//! each crate above would read all that is stated of `indexmap`.
//!
//! Why a refusal is right, of every manifest and every loaded index, is said by laws too (`refusals.rt`).
//!
//! A layer above may rely on this: each reader of a `Catalogue` is exact; names stand once, versions rise, at most
//! 65,535 a name, and feature tables know their features, so that the laws of `model` hold with no premise
//! (`catalogues_are_well_formed`); names and versions are valid ones, and dependencies have numbers of 32 bits, for no
//! file that is read has room for more of them. Over a fixed index a valid selection is one with itself as the old
//! lock, and that run asks for no other names (`laws.rt`).
#![tactic(auto)]

mod bounds;
mod candidate;
mod candidates;
mod checksum;
mod choosing;
mod fault;
mod file;
mod laws;
mod loading;
mod names;
mod old_lock;
mod places;
mod refusals;
mod source;
mod store;

pub use bounds::{is_beyond, is_short};
pub use candidate::Candidate;
pub use checksum::Checksum;
pub use fault::{Limit, LoadFault};
pub use file::check_file;
pub use laws::{
    catalogues_are_well_formed, memory_folders_have_one_index, runs_make_catalogues,
    selected_names_are_asked_for, selections_ask_for_no_more, selections_have_their_checksums,
    selections_hold_with_other_locks, selections_hold_with_themselves, selections_run_again,
};
pub use loading::load;
pub use old_lock::is_locked;
pub use places::place_of;
pub use refusals::{
    accepted_derivations_refute, axioms_are_sound, parts_are_valid,
    unbroken_assignments_have_selections, unbroken_assignments_select,
};
pub use source::{Source, SourceFault, is_source};
pub use store::{Catalogue, Prefer};
