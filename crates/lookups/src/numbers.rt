//! What was looked for before, kept for the steps to come.

ghost use Rattle.std.specs.Prelude.{◌≡◌};
ghost use Rattle.lookups.specs.inner.Numbers.{AreEnabled, AreFirsts, AreNeeded, AreUnmatched};
ghost use Rattle.lookups.specs.inner.Views.{problem_view};

use crate::problem::Problem;
use features::{Entry, FeatureName};
use std::alloc::Global;
use std::collections::HashMap;
use vertices::OwnerRef;

/// The manifest and the loaded index, with what was looked for before.
///
/// Nothing but time rests on what is kept: what isn't is found where it is asked for.
#[derive(Drop)]
pub struct Numbers<'a> {
    pub(crate) problem: Problem<'a>,
    /// By owner, the number of the first dependency that it needs and no candidate serves.
    pub(crate) needed: HashMap<OwnerRef<'a>, usize>,
    /// By owner and name, the number of the first dependency that is called so and no candidate serves.
    pub(crate) unmatched: HashMap<OwnerRef<'a>, HashMap<&'a str, usize>>,
    /// By version and feature, the number of the first dependency that entries enable and no candidate serves.
    pub(crate) enabled: HashMap<(OwnerRef<'a>, &'a FeatureName), usize>,
    /// By version, feature and name, the first entry that enables a dependency called so.
    pub(crate) firsts: HashMap<(OwnerRef<'a>, &'a FeatureName), HashMap<&'a str, &'a Entry>>,
    ghost needed_are: { AreNeeded (problem_view problem) needed },
    ghost unmatched_are: { AreUnmatched (problem_view problem) unmatched },
    ghost enabled_are: { AreEnabled (problem_view problem) enabled },
    ghost firsts_are: { AreFirsts (problem_view problem) firsts },
}

impl<'a> Numbers<'a> {
    ghost use Rattle.lookups.specs.inner.NumbersViews.{problem_of};

    /// None yet.
    pub fn new(alloc: Global, problem: Problem<'a>) -> Numbers<'a>
        ensures { problem_of result ≡ problem_view problem.entry }
    {
        Numbers {
            problem,
            needed: HashMap::new(alloc),
            unmatched: HashMap::new(alloc),
            enabled: HashMap::new(alloc),
            firsts: HashMap::new(alloc),
        }
    }
}
