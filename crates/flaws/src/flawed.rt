//! What is wrong with one package of a lock.

ghost use Rattle.std.specs.Prelude.{◌≡◌};
ghost use Rattle.flaws.specs.inner.Flaws.{is_flawless};

use crate::no_candidate::NoCandidate;

/// What is wrong with a package of a lock: of each condition of a valid selection, where it fails there, why.
#[derive(Drop)]
pub struct Flawed {
    /// The place of the package.
    pub place: usize,
    /// Why it is no candidate, if it is neither that nor the root.
    pub no_candidate: Option<NoCandidate>,
    /// The place of an earlier package of its name and class, where neither of them is the root.
    pub twin: Option<usize>,
    /// The numbers of its enabled dependencies that no package of its list serves, lowest first.
    pub unmet: Vec<usize>,
    /// Whether a feature is on here that doesn't exist here.
    pub lacks_feature: bool,
    /// The places of its list to which none of its enabled dependencies leads, lowest first.
    pub surplus: Vec<usize>,
    /// Whether no lists lead to it from the root.
    pub unreached: bool,
}

/// Whether nothing is wrong with a package.
pub(crate) fn is_flawless(flawed: &Flawed) -> bool
    ensures { result ≡ is_flawless flawed.now }
{
    flawed.no_candidate.is_none()
        && flawed.twin.is_none()
        && flawed.unmet.is_empty()
        && !flawed.lacks_feature
        && flawed.surplus.is_empty()
        && !flawed.unreached
}
