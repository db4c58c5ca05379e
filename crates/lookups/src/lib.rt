//! What is looked up in the manifest and in the loaded index, and the terms and causes that steps are read as.
//!
//! An owner is the root or a version of a package: what the one brings stands in the manifest, what the other brings in
//! the loaded index. The versions of a class stand in one piece among those of a name, and are found by two searches,
//! so that who asks about a class looks at these alone. So are the ends between which a requirement can match
//! (`within`), and whether it matches some version is known at the first that it matches; so are the classes in which
//! it matches one (`classes_matched`). Where a class has no pre-release, those that it matches stand in one piece too
//! (`matched_range`), and the others at the ends (`unmatched_ends`). Where a name has none, the classes in which it
//! matches some stand in one piece among all that the name has (`class_range`, `all_classes`).
//!
//! Terms whose names lie in a derivation, in the manifest or in the index are `Term` (`term.rt`), and the one cause
//! that the terms of a step can have is read off them (`kinds.rt`). The other way, a cause gives the terms of its
//! instance by what they say (`symbolic.rt`).
//!
//! A layer above may rely on this: each look-up gives exactly what the model says (`owner_brings` and the like),
//! borrowed from the manifest or the index, and takes no memory but for a list of classes; an owner that is no
//! candidate brings nothing. If terms are those of an instance of the kind at all, it is that of the cause found;
//! and the terms that a cause gives are just those of its instance.
#![tactic(auto)]

mod cause;
mod classes_in;
mod compare;
mod feature_on_dependency;
mod first_enabled;
mod first_enabling;
mod kinds;
mod matching;
mod named_by_terms;
mod narrowing;
mod needed;
mod new_names;
mod newest_listed;
mod numbers;
mod owners;
mod problem;
mod ranges;
mod states;
mod symbolic;
mod term;
mod wants_feature;

pub use cause::Cause;
pub use classes_in::{all_classes, class_range, classes_matched};
pub use compare::same_terms;
pub use first_enabling::enables;
pub use kinds::cause_in;
pub use matching::{has_class, is_lacking, is_left, is_unmatched};
pub use narrowing::{are_releases, matched_range, unmatched_ends, within};
pub use numbers::Numbers;
pub use owners::{brings, dependencies_of, dependency_at, entries_of, is_needed};
pub use problem::Problem;
pub use ranges::{above, below, class_candidates, class_versions, of_class};
pub use states::StateSet;
pub use symbolic::{SymbolicTerm, symbolic_terms};
pub use term::Term;
