//! Whether terms are those of an instance of an axiom: each cause is looked up in the manifest and in the loaded index.
//!
//! Terms are an instance of a kind exactly where the one cause that they can have (`lookups`) is there and they say
//! what its instance says (`instances.rt`). `kinds.rt` says for each kind whether all is there that its cause names: an
//! entry in a feature, a requirement that matches some version of a class, a feature that is known of a name. A kind
//! that takes more than a function has a file of its name; tests of entries, which several have, stand in `entries.rt`.
//!
//! What all owners ask for is gathered once for a whole check (`Gathered`), and what requirements match and which
//! versions lack a feature is kept there for the steps to come. So are long lists that steps name entries of, as sets
//! (`listed.rt`).
//!
//! Which features of a package are known is found in one pass over all owners (`gathering.rt`).
//!
//! A layer above may rely on this: `is_instance` says exactly whether terms are an instance of a kind, all ten kinds. A
//! step that is one costs in the order of its terms and their states, times the logarithm of these. Beside that, some
//! things are gone over once: the versions of a name for each requirement on it, or feature, that steps name; a list of
//! entries, or of a dependency's features, that they name one of; and all entries of a version that asks a dependency
//! for a feature. A step that isn't one may go over such a list too.
#![tactic(auto)]

mod entries;
mod feature_on_dependency;
mod gathered;
mod gathering;
mod has_feature;
mod instance;
mod instances;
mod kinds;
mod listed;
mod newest_listed;
mod pairs;
mod wants_feature;
mod weak_feature;

pub use gathered::Gathered;
pub use gathering::known_features;
pub use instance::is_instance;
pub use pairs::Pairs;
