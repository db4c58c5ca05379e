//! What is wrong with each package of a lock, and the sentences that tell it.
//!
//! `selection` says which package is at fault first; what it found of all packages on its way (`Findings`) says as well
//! which others are. Here each condition of a valid selection is looked at, at each package, and where it fails it is
//! kept why: which dependencies no package of a list serves, which packages of a list nothing leads to (`Flawed`).
//!
//! A lock whose checksums aren't those of the index has no verdict, and no index is loaded beside it. So that all else
//! is told of such a lock too, an index is loaded beside its content without the checksums (`unsummed`).
//!
//! What is told is there as values too (`flaws_of`, `lacking_features`, `why_missing`), for who tells it otherwise than
//! in sentences.
//!
//! Of a package that is no candidate only why it is none is told, for nobody knows what it needs. So nobody knows
//! either whether what its list has is needed: such packages are counted. That a package at fault is yanked is told
//! too, though that is no fault.
//!
//! Why nothing fits a dependency of a manifest is found beside it (`lack.rt`).
//!
//! A layer above may rely on this: `flaws_of` gives just the packages at which a condition fails, in the order of the
//! lock, each with just what is wrong there; none of them exactly where the lock is a valid selection. Of the sentences
//! nothing is stated.
#![tactic(auto)]

mod feature_sentences;
mod flawed;
mod index_file;
mod judging;
mod lack;
mod lack_sentences;
mod list_sentences;
mod lists;
mod missing;
mod missing_version;
mod naming;
mod no_candidate;
mod package_file;
mod reason;
mod sentences;
mod similar;
mod slips;
mod unsummed;
mod versions;

pub use feature_sentences::{Lacking, lacking_features};
pub use flawed::Flawed;
pub use judging::{Judged, flaws_of};
pub use lack::{Lack, lack_of};
pub use lack_sentences::{LackTold, note_lack, tell_lacks};
pub use list_sentences::dependency_at;
pub use missing::{Missing, look_for};
pub use missing_version::{MissingTold, MissingVersion, listed_in, why_lost, why_missing};
pub use naming::last_serving;
pub use no_candidate::NoCandidate;
pub use package_file::{IndexFile, file_of, out_of_memory};
pub use reason::{NothingFits, nothing_fits};
pub use sentences::{has_metadata, tell_flaws};
pub use similar::nearest;
pub use unsummed::without_checksums;
