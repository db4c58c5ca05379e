//! A candidate: what the index says of a version that may be locked.

ghost use Rattle.std.specs.Prelude.{◌≡◌};
ghost use Rattle.catalogue.specs.Stores.{same_rank};

use crate::checksum::Checksum;
use classes::RustVersion;
use features::Summary;

/// Where a candidate stands in the order of preference; within a rank the newest comes first.
#[derive(Clone, Copy, Debug)]
pub(crate) enum Rank {
    Locked,
    Fits,
    Rest,
}

impl Rank {
    /// Whether two ranks are the same.
    pub(crate) fn is(self, other: Rank) -> bool
        ensures { result ≡ same_rank self other }
    {
        match (self, other) {
            (Rank::Locked, Rank::Locked) => true,
            (Rank::Fits, Rank::Fits) => true,
            (Rank::Rest, Rank::Rest) => true,
            _ => false,
        }
    }
}

/// What the index says of a candidate, beside its version.
#[derive(Drop)]
pub struct Candidate {
    pub checksum: Checksum,
    /// The Rust version that it needs, if it names one.
    pub rust_version: Option<RustVersion>,
    pub brings: Summary,
    // Side by side, so that they take eight bytes together.
    /// A yanked candidate is there because it is locked.
    pub yanked: bool,
    pub(crate) rank: Rank,
}
