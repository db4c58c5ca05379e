//! The candidates of a name.

ghost use Rattle.std.specs.Prelude.{◌≡◌, ◌≤◌, length};
ghost use Rattle.catalogue.specs.Stores.{records, ranked_view, AreRising, AreRead, AreKnown, BringValid};
ghost use Rattle.catalogue.specs.Stores.{bring-valid-prop, most_candidates};

use crate::candidate::Candidate;
use semver::Version;

/// The candidates of a name, oldest first: their versions, and at the same places what the index says of each.
#[derive(Drop)]
pub(crate) struct Candidates {
    pub(crate) versions: Vec<Version>,
    pub(crate) candidates: Vec<Candidate>,
    ghost beside: { length versions.items ≡ length candidates.items },
    ghost rising: { AreRising (ranked_view versions.items candidates.items) },
    ghost read: { AreRead versions.items },
    ghost few: { length candidates.items ≤ most_candidates },
    ghost known: { AreKnown (ranked_view versions.items candidates.items) },
    ghost valid: { BringValid (records (ranked_view versions.items candidates.items)) } by { bring-valid-prop (records (ranked_view versions.items candidates.items)) },
}
