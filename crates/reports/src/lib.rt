//! What people are told of a manifest, a lock and an index, as text.
//!
//! Nothing here reads words, looks where files are or prints: a report is asked for by what was read, and by what was
//! loaded of any folder, or by the folder itself. So a report is tested without a disk.
//!
//! The same is told to programs, as JSON, by its module `messages`.
//!
//! A layer above may rely on this: what is said of why a package is there is what `changes` promises
//! (`specs/inner/WhyThere`), and a text `NAME` or `NAME@VERSION` asks for just the package that `specs/inner/Asked`
//! says.
#![tactic(auto)]

mod by_cargo;
mod checksums;
mod lost;
pub mod messages;
mod part;
mod refused;
mod refusing;
mod reporting;
mod verifying;
mod wanted;
mod ways;
mod whole_index;

pub use by_cargo::refused_by_cargo;
pub use checksums::{Checksums, checksums_of};
pub use flaws::LackTold;
pub use lost::{lacks_version, lost_between, lost_version};
pub use part::{Meant, PartialId, meant_by, part_in, similar_name};
pub use refused::{Beside, Refused, refused_kind, refused_lines, refused_sentence};
pub use refusing::{lacks_told, refusal_of};
pub use reporting::{Inputs, changes_to, loaded, unless_failed};
pub use verifying::{flaws_of_lock, loaded_beside, yanked_in};
pub use wanted::{Wanted, package_in};
pub use ways::{Way, WhyThere, why_there};
pub use whole_index::skips_at;
