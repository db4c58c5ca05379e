//! Whether two versions are here that one lock can't have.

ghost use Rattle.std.specs.Prelude.{◌≡◌, true, IfOk};
ghost use Rattle.selection.specs.inner.Contents.{AreMetVersions, IsThere, met_owner, owners_of};
ghost use Rattle.selection.specs.inner.Taking.{IsOfClass, Taken, TakesTwice, Takes};

use crate::met::MetVersion;
use catalogue::Catalogue;
use classes::Class;
use facts::flag;
use features::PackageName;
use indexmap::IndexSet;
use std::alloc::{AllocError, Global};

/// A class of a name.
#[derive(Debug, Drop, PartialEq, Eq, Hash)]
pub(crate) struct TakenClass {
    name: PackageName,
    class: Class,
}

/// Whether two of the versions that are here are of one name and class; the root is none of them.
pub(crate) fn takes_twice(
    alloc: Global,
    catalogue: &Catalogue,
    versions: &[MetVersion],
    here: &[bool],
) -> Result<bool, AllocError>
    requires { AreMetVersions catalogue.now versions.now }
    ensures { IfOk result (λ b. b ≡ true → TakesTwice (owners_of catalogue.now versions.now) here.now) }
{
    let mut taken = IndexSet::new(alloc);
    'versions: for at in 0..versions.len() {
        let is_here = flag(here, at + 1);
        if is_here && is_taken(catalogue, &mut taken, &versions[at])? {
            return Ok(true);
        }
    }
    Ok(false)
}

/// Takes the class of a version, and says whether it was taken.
fn is_taken(
    catalogue: &Catalogue,
    taken: &mut IndexSet<TakenClass>,
    met: &MetVersion,
) -> Result<bool, AllocError>
    requires { IsThere catalogue.now met.now }
    ensures { IfOk result (λ b. (k : Taken) × IsOfClass (met_owner catalogue.now met.now) k
        × Takes taken.old.keys taken.new.keys k b) }
{
    let Some(version) = catalogue.versions(&met.name).get(met.place) else {
        unreachable!();
    };
    let class = Class::of(version);
    let name = met.name.clone()?;
    let (_, is_new) = taken.insert_full(TakenClass { name, class })?;
    Ok(!is_new)
}
