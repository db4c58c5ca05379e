//! Versions that are met, each once.

ghost use Rattle.std.specs.Prelude.{◌≡◌, ◌<◌, ◌^◌, IfOk, OnOk, Some, length, slice_get};
ghost use Rattle.selection.specs.inner.Contents.{Grows, IsCandidate, candidate_owner, owners_of};

use crate::met::MetVersion;
use catalogue::Catalogue;
use features::PackageName;
use indexmap::IndexSet;
use std::alloc::AllocError;

/// Where the candidate at a place of a name's versions stands among those that were met; if it is new it goes last.
pub fn put_met(
    catalogue: &Catalogue,
    versions: &mut IndexSet<MetVersion>,
    name: &PackageName,
    place: usize,
) -> Result<usize, AllocError>
    requires { IsCandidate catalogue.now name.now place }
    ensures grows { OnOk result (Grows catalogue.now versions.old.keys versions.new.keys) }
    ensures at { IfOk result (λ n. slice_get (owners_of catalogue.now versions.new.keys) n
        ≡ Some (candidate_owner catalogue.now name.now place)) }
{
    // The contract speaks of the catalogue.
    let _ = catalogue;
    let met = MetVersion {
        name: name.clone()?,
        place,
    };
    let (index, _) = versions.insert_full(met)?;
    versions_are_few(versions);
    Ok(index + 1)
}

/// A set holds far fewer keys than a number can count.
fn versions_are_few(versions: &IndexSet<MetVersion>)
    ensures { length versions.now.keys < 2 ^ 63 }
{
    let _ = versions.len();
}
