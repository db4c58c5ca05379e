//! The places of versions among those of a name.

ghost use Rattle.std.specs.Prelude.{◌≡◌, Some, false, map, slice_get};
ghost use Rattle.std.specs.List.{All, AllPairs};
ghost use Rattle.std.specs.Option.{MatchOption};
ghost use Rattle.std.specs.declared.cmp.Ordering.TheVariants.{Less};
ghost use Rattle.semver.specs.Eval.{precedence_cmp};
ghost use Rattle.semver.specs.Identifiers.{parts_of};
ghost use Rattle.model.specs.Content.{same_version};

use classes::same_version;
use semver::Version;
use std::cmp::Ordering;

/// The order of precedence, as `cmp_precedence` says: most versions differ in a number, and their pre-releases aren't
/// read.
pub(crate) fn by_precedence(a: &Version, b: &Version) -> Ordering
    ensures { result ≡ precedence_cmp a.now b.now }
{
    let minor = a.minor.cmp(&b.minor);
    let numbers = a
        .major
        .cmp(&b.major)
        .then(minor)
        .then(a.patch.cmp(&b.patch));
    match numbers {
        Ordering::Equal => a.pre.cmp(&b.pre),
        Ordering::Less => Ordering::Less,
        Ordering::Greater => Ordering::Greater,
    }
}

/// The place of a version, by its whole text, among versions that rise by precedence.
pub fn place_of(versions: &[Version], version: &Version) -> Option<usize>
    requires { AllPairs (λ v w. precedence_cmp v w ≡ Less) versions.now }
    ensures { MatchOption result (All (λ v. same_version (parts_of version.now) (parts_of v) ≡ false) versions.now)
        (λ i. slice_get (map parts_of versions.now) i ≡ Some (parts_of version.now)) }
{
    match versions.binary_search_by(|v| by_precedence(v, version)) {
        Ok(place) => {
            if same_version(version, &versions[place]) {
                Some(place)
            } else {
                None
            }
        }
        Err(_) => None,
    }
}
