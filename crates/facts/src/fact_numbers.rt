//! The numbers of a package's facts.

ghost use Rattle.std.specs.Prelude.{◌+◌, ◌<◌, ◌^◌, length};
ghost use Rattle.features.specs.Views.{brings_view};
ghost use Rattle.facts.specs.inner.ByName.{AreByName};

use features::{Dependency, Summary};

/// A dependency, with the number of the fact that it is enabled and the place to which it leads.
#[derive(Clone, Copy)]
pub(crate) struct Link<'a> {
    pub(crate) dependency: &'a Dependency,
    pub(crate) enabled: usize,
    pub(crate) target: Option<usize>,
}

/// A package with the numbers of its facts.
#[derive(Drop)]
pub(crate) struct FactNumbers<'a> {
    pub(crate) brings: Option<&'a Summary>,
    /// That it is here.
    pub(crate) here: usize,
    /// That a feature is on which it lacks.
    pub(crate) lacks: usize,
    /// That its first feature is on. Those of the others follow, by their places in the table.
    pub(crate) features: usize,
    /// Its dependencies by number, and in the order of the names that they are called by.
    pub(crate) links: Vec<Link<'a>>,
    pub(crate) called: Vec<Link<'a>>,
    ghost within: { features + length (brings_view brings).features < 2 ^ 64 },
    ghost order: { AreByName called.items },
}
