//! Why a package is in a lock.

ghost use Rattle.std.specs.Prelude.{IfOk};
ghost use Rattle.changes.specs.inner.Ways.{is_own};
ghost use Rattle.reports.specs.inner.WhyThere.{IsWhyThere, asks_for};
ghost use Rattle.model.specs.Content.{packages_if};

use crate::reporting::{Inputs, loaded};
use crate::wanted::Wanted;
use catalogue::{Catalogue, LoadFault};
use changes::{WayStep, Why, dependencies_between, dependencies_to, reason_for, steps_of};
use index_reader::Folder;
use lockfile::LockContent;
use manifest::Manifest;
use std::alloc::{AllocError, Global};

/// Why a package is in the lock.
#[derive(Drop)]
pub enum WhyThere<'a> {
    /// A shortest way to it.
    Way(Way<'a>),
    /// There is no such package in the lock, or no lock.
    Absent,
    /// No list leads there.
    Unreached,
}

/// A shortest way to a package that is asked for, and what its steps are found by.
#[derive(Drop)]
pub struct Way<'a> {
    pub manifest: &'a Manifest,
    pub lock: &'a LockContent,
    pub wanted: &'a Wanted,
    /// What is loaded of the index.
    pub catalogue: Box<Catalogue>,
    /// The places of its packages, that of the root first.
    pub places: Vec<usize>,
}

impl Way<'_> {
    /// Its steps; of the root there is none.
    pub fn steps(&self, alloc: Global) -> Result<Vec<WayStep<'_>>, AllocError> {
        steps_of(
            alloc,
            self.manifest,
            &self.catalogue,
            self.lock,
            &self.places,
        )
    }

    /// Each dependency on any way there.
    pub fn all_steps(&self, alloc: Global) -> Result<Vec<WayStep<'_>>, AllocError> {
        let Wanted { name, .. } = self.wanted;
        let version = self.wanted.version();
        let pairs = dependencies_to(alloc, self.manifest, self.lock, name, version)?;
        dependencies_between(
            alloc,
            self.manifest,
            &self.catalogue,
            self.lock,
            &pairs,
            true,
        )
    }
}

/// Why a package is in the lock. The index is loaded only where there is a way to tell.
pub fn why_there<'a, F: Folder>(
    alloc: Global,
    folder: &mut F,
    inputs: &'a Inputs,
    wanted: &'a Wanted,
) -> Result<WhyThere<'a>, LoadFault>
    ensures { IfOk result (IsWhyThere (packages_if inputs.entry.now.lock) (is_own inputs.entry.now.manifest)
        (asks_for wanted.entry.now)) }
{
    let Some(lock) = &inputs.lock else {
        return Ok(WhyThere::Absent);
    };
    let manifest = &inputs.manifest;
    match reason_for(alloc, manifest, lock, &wanted.name, wanted.version())? {
        Why::Absent => Ok(WhyThere::Absent),
        Why::Unreached => Ok(WhyThere::Unreached),
        Why::Way(places) => {
            let catalogue = loaded(alloc, folder, inputs)?;
            Ok(WhyThere::Way(Way {
                manifest,
                lock,
                wanted,
                catalogue,
                places,
            }))
        }
    }
}
