//! What vertices and axioms are looked up in.

ghost use Rattle.std.specs.Prelude.{◌≡◌, codes};
ghost use Rattle.lookups.specs.inner.Views.{problem_view};
ghost use Rattle.numbering.specs.inner.MatchedViews.{problem_of};

use crate::matched::Matched;
use catalogue::Catalogue;
use features::FeatureName;
use lookups::Problem;
use manifest::Manifest;
use std::alloc::Global;

/// A problem beside what a search over it has at hand: the name of the feature `default`, which a dependency may ask
/// for without spelling it, and what is known of what requirements match there. Look-ups take a `Problem` alone.
#[derive(Drop)]
pub struct KnownProblem<'a> {
    pub problem: Problem<'a>,
    pub default: &'a FeatureName,
    pub matched: Matched<'a>,
    ghost matched_there: { problem_of matched ≡ problem_view problem },
}

impl<'a> KnownProblem<'a> {
    ghost use Rattle.catalogue.specs.Problems.{problem_in};
    ghost use Rattle.numbering.specs.inner.KnownProblem.{KnowsDefault, problem};

    /// With nothing matched yet.
    pub fn new(
        alloc: Global,
        manifest: &'a Manifest,
        catalogue: &'a Catalogue,
        default: &'a FeatureName,
    ) -> KnownProblem<'a>
        requires default { default.now ≡ codes "default" }
        ensures default { KnowsDefault result }
        ensures problem { problem result ≡ problem_in manifest.entry.now catalogue.entry.now }
    {
        let problem = Problem {
            manifest,
            catalogue,
        };
        KnownProblem {
            problem,
            default,
            matched: Matched::new(alloc, problem),
        }
    }
}
