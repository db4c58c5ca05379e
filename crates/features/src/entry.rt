//! An entry of a feature.

ghost use Rattle.std.specs.Prelude.{◌≡◌, codes, option_copied, option_map};
ghost use Rattle.std.specs.Option.{ok_or};
ghost use Rattle.model.specs.Outcome.{Gives};
ghost use Rattle.features.specs.Names.{after_text, around, asking_of, before_text, entry_of};
ghost use Rattle.features.specs.EntryViews.{entry_view};
ghost use Rattle.features.specs.Views.{wants_memory};

use crate::feature_name::FeatureName;
use crate::name::{NameFault, PackageName};
use std::alloc::{AllocError, Global};
use thiserror::Error;

/// What a feature puts on (Cargo book, "Features").
#[derive(Debug, Drop, PartialEq, Eq, Hash)]
pub enum Entry {
    /// `g`: another feature of the same package.
    Feature(FeatureName),
    /// `dep:d`: the dependency called d.
    Dependency(PackageName),
    /// `d/g`: the dependency called d, and a feature of its target.
    DependencyFeature(PackageName, FeatureName),
    /// `d?/g`: a feature of the target of the dependency called d, where something else enables that one.
    WeakFeature(PackageName, FeatureName),
}

impl Clone for Entry {
    ghost is_clone = { λ entry copy. entry_view copy ≡ entry_view entry };

    fn clone(&self) -> Result<Entry, AllocError> {
        match self {
            Entry::Feature(feature) => Ok(Entry::Feature(feature.clone()?)),
            Entry::Dependency(name) => Ok(Entry::Dependency(name.clone()?)),
            Entry::DependencyFeature(name, feature) => {
                Ok(Entry::DependencyFeature(name.clone()?, feature.clone()?))
            }
            Entry::WeakFeature(name, feature) => {
                Ok(Entry::WeakFeature(name.clone()?, feature.clone()?))
            }
        }
    }
}

/// Why a text is no entry.
#[derive(Clone, Copy, Debug, PartialEq, Eq, Error)]
pub enum EntryFault {
    #[error("out of memory")]
    OutOfMemory,
    #[error("not an entry of a feature")]
    NotAnEntry,
}

impl From<NameFault> for EntryFault {
    ghost use Rattle.std.specs.Prelude.{◌≡◌};
    ghost use Rattle.features.specs.Views.{entry_fault_of};

    ghost from_gives = { λ fault e. e ≡ entry_fault_of fault };

    fn from(fault: NameFault) -> EntryFault {
        match fault {
            NameFault::OutOfMemory => EntryFault::OutOfMemory,
            NameFault::NotAName => EntryFault::NotAnEntry,
        }
    }
}

impl Entry {
    /// The entry that a text is.
    pub fn parse(alloc: Global, text: &str) -> Result<Entry, EntryFault>
        ensures { Gives wants_memory entry_view result (ok_or (entry_of text.now) EntryFault.NotAnEntry) }
    {
        if let Some(name) = after_dep(text) {
            return Ok(Entry::Dependency(PackageName::parse(alloc, name)?));
        }
        match around_slash(text) {
            Some((left, feature)) => asking(alloc, left, feature),
            None => Ok(Entry::Feature(FeatureName::parse(alloc, text)?)),
        }
    }
}

/// `left/feature`, where a `?` at the end of the left is the weak form.
fn asking(alloc: Global, left: &str, feature: &str) -> Result<Entry, EntryFault>
    ensures { Gives wants_memory entry_view result (ok_or (asking_of left.now feature.now) EntryFault.NotAnEntry) }
{
    match before_mark(left) {
        Some(name) => Ok(Entry::WeakFeature(
            PackageName::parse(alloc, name)?,
            FeatureName::parse(alloc, feature)?,
        )),
        None => Ok(Entry::DependencyFeature(
            PackageName::parse(alloc, left)?,
            FeatureName::parse(alloc, feature)?,
        )),
    }
}

fn after_dep(text: &str) -> Option<&str>
    ensures { option_copied result ≡ after_text (codes "dep:") text.now }
{
    text.strip_prefix("dep:")
}

fn before_mark(text: &str) -> Option<&str>
    ensures { option_copied result ≡ before_text (codes "?") text.now }
{
    text.strip_suffix("?")
}

fn around_slash(text: &str) -> Option<(&str, &str)>
    ensures { option_map (λ p. (p.0.now, p.1.now)) result ≡ around 47 text.now }
{
    text.split_once('/')
}
