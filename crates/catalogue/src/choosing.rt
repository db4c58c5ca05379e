//! Which records of a name are candidates, and where each stands in the order of preference.

ghost use Rattle.std.specs.Prelude.{◌≡◌, ◌≤◌, ◌||◌, not, length, option_map, filter, if◌then◌else◌, IfOk};
ghost use Rattle.std.specs.List.{AllPairs};
ghost use Rattle.classes.specs.Classes.{rust_version_view};
ghost use Rattle.model.specs.Candidates.{IsApart, IsOlder, is_locked, may_be_locked};
ghost use Rattle.catalogue.specs.Loads.{packages_of_old, records_view, with_ranks, ranked_among};
ghost use Rattle.catalogue.specs.Stores.{fits_given, BringValid, KnowFeatures};
ghost use Rattle.catalogue.specs.inner.Views.{candidates_view};
ghost use Rattle.catalogue.specs.Stores.{most_candidates};

use crate::candidate::{Candidate, Rank};
use crate::candidates::Candidates;
use crate::checksum::Checksum;
use crate::old_lock::is_locked;
use crate::places::by_precedence;
use crate::source::Source;
use classes::RustVersion;
use features::PackageName;
use index_reader::Record;
use lockfile::LockContent;
use std::alloc::{AllocError, Global};

/// What a run is loaded for: all but the folder.
#[derive(Drop)]
pub(crate) struct Run<'a> {
    pub(crate) old: Option<&'a LockContent>,
    pub(crate) source: &'a Source,
    /// The Rust version that candidates are to fit, where that counts.
    pub(crate) rust_version: Option<RustVersion>,
}

/// The candidates among the records of a name, oldest first.
pub(crate) fn candidates_of(
    alloc: Global,
    name: &PackageName,
    mut records: Vec<Record>,
    run: &Run<'_>,
) -> Result<Candidates, AllocError>
    requires apart { AllPairs IsApart (records_view records.items) }
    requires known { KnowFeatures (records_view records.items) }
    requires valid { BringValid (records_view records.items) }
    requires few { length records.items ≤ most_candidates }
    ensures { IfOk result
        (λ c. candidates_view c ≡ ranked_among (is_locked (packages_of_old run.now.old) run.now.source.now name.now)
        (option_map rust_version_view run.now.rust_version) (records_view records.items)) }
{
    records.sort_by(|a, b| by_precedence(&a.version, &b.version))?;
    kept(alloc, name, records, run)
}

/// The candidates among records that stand oldest first.
fn kept(
    alloc: Global,
    name: &PackageName,
    records: Vec<Record>,
    run: &Run<'_>,
) -> Result<Candidates, AllocError>
    requires rising { AllPairs IsOlder (records_view records.items) }
    requires known { KnowFeatures (records_view records.items) }
    requires valid { BringValid (records_view records.items) }
    requires few { length records.items ≤ most_candidates }
    ensures { IfOk result (λ c. candidates_view c ≡ with_ranks (is_locked (packages_of_old run.now.old)
        run.now.source.now name.now) (option_map rust_version_view run.now.rust_version) (filter (may_be_locked
        (is_locked (packages_of_old run.now.old) run.now.source.now name.now)) (records_view records.items))) }
{
    let mut versions = Vec::with_capacity(alloc, records.len())?;
    let mut kept = Vec::with_capacity(alloc, records.len())?;
    'records: for record in records {
        let locked = is_locked(run.old, name, &record.version, run.source.as_str());
        if may_be_locked(record.yanked, locked) {
            let rank = rank_of(locked, record.rust_version, run.rust_version);
            let Record {
                version,
                checksum,
                yanked,
                rust_version,
                brings,
            } = record;
            versions.push(version)?;
            kept.push(Candidate {
                checksum: Checksum::of(checksum),
                yanked,
                rust_version,
                brings,
                rank,
            })?;
        }
    }
    Ok(Candidates {
        versions,
        candidates: kept,
    })
}

/// Whether a record is a candidate: it isn't yanked, or is locked.
fn may_be_locked(yanked: bool, locked: bool) -> bool
    ensures { result ≡ (not yanked || locked) }
{
    !yanked || locked
}

/// The rank of a candidate.
fn rank_of(locked: bool, needed: Option<RustVersion>, given: Option<RustVersion>) -> Rank
    ensures { result ≡ (if locked then Rank.Locked else if fits_given (option_map rust_version_view given)
        (option_map rust_version_view needed) then Rank.Fits else Rank.Rest) }
{
    if locked {
        Rank::Locked
    } else if fits(needed, given) {
        Rank::Fits
    } else {
        Rank::Rest
    }
}

/// Whether what a record needs fits the Rust version to go by: one that names none fits each, and without one to go by
/// each fits.
fn fits(needed: Option<RustVersion>, given: Option<RustVersion>) -> bool
    ensures { result ≡ fits_given (option_map rust_version_view given) (option_map rust_version_view needed) }
{
    let Some(given) = given else {
        return true;
    };
    match needed {
        Some(needed) => needed <= given,
        None => true,
    }
}
