//! What is told of a dependency for which nothing fits.

use crate::lack::{Lack, has_feature, is_held_back, is_yanked, missing_feature};
use crate::missing::Missing;
use crate::similar::{newest_table, similar_feature};
use catalogue::Catalogue;
use features::{DependencyParts, FeatureName, FeatureTable, PackageName};
use index_reader::{Record, Skip};
use semver::{Version, VersionReq};
use std::alloc::{AllocError, Global};
use std::cmp::Ordering;

/// Why nothing fits a dependency, and what else is told of it.
#[derive(Clone, Copy)]
pub struct NothingFits<'a> {
    pub lack: Lack,
    /// The newest of the versions that are yanked, or pre-releases, or don't fit, or have the feature.
    pub newest: Option<&'a Version>,
    /// The feature that is lacking.
    pub feature: Option<&'a FeatureName>,
    /// A name that there is, where nothing of the dependency's name can be used.
    pub other: Option<&'a PackageName>,
    /// A feature of nearly the same name, where no version has the one that is lacking.
    pub similar: Option<&'a str>,
    /// Where there is none of nearly the same name, all features of the newest version that fits.
    pub offered: Option<&'a FeatureTable>,
    /// How many versions are yanked and would fit.
    pub yanked: usize,
    /// The newest version that isn't yanked, and of those that is a release the newest.
    pub usable: Option<&'a Version>,
    pub release: Option<&'a Version>,
    /// The lines of its file that can't be used.
    pub skips: &'a [Skip],
}

/// What is told of a dependency for which nothing fits, by what the index has of it.
pub fn nothing_fits<'a>(
    alloc: Global,
    catalogue: &'a Catalogue,
    dependency: &'a DependencyParts,
    missing: &'a Missing,
) -> Result<NothingFits<'a>, AllocError> {
    let name = &dependency.real_name;
    let requirement = &dependency.requirement;
    let lack = missing.lack;
    let feature = match lack {
        Lack::NoFeature => missing_feature(dependency, catalogue),
        _ => None,
    };
    let version = match lack {
        Lack::Yanked => newest(requirement, missing.records(), true),
        Lack::PreReleases => newest(requirement, missing.records(), false),
        Lack::NoVersion => catalogue.versions(name).last(),
        Lack::NoFeature => newest_with(catalogue, name, feature),
        Lack::NoPackage | Lack::NoLine => None,
    };
    let similar = match (version, feature) {
        (None, Some(feature)) => similar_feature(alloc, catalogue, dependency, feature)?,
        _ => None,
    };
    let offered = match (version, similar) {
        (None, None) => newest_table(catalogue, dependency),
        _ => None,
    };
    Ok(NothingFits {
        lack,
        newest: version,
        feature,
        other: missing.other.as_ref(),
        similar,
        offered,
        yanked: yanked_in(requirement, missing.records()),
        usable: newest_usable(catalogue, name, false),
        release: newest_usable(catalogue, name, true),
        skips: missing.skips(),
    })
}

/// The newest of the yanked versions that a requirement matches, or of the pre-releases that it would match.
fn newest<'a>(
    requirement: &VersionReq,
    records: &'a [Record],
    yanked: bool,
) -> Option<&'a Version> {
    let mut newest: Option<&'a Version> = None;
    for record in records.iter() {
        if is_meant(requirement, record, yanked) && is_newer(&record.version, newest) {
            newest = Some(&record.version);
        }
    }
    newest
}

fn is_meant(requirement: &VersionReq, record: &Record, yanked: bool) -> bool {
    if yanked {
        is_yanked(requirement, record)
    } else {
        is_held_back(requirement, &record.version)
    }
}

/// How many lines are yanked and a requirement matches them.
fn yanked_in(requirement: &VersionReq, records: &[Record]) -> usize {
    records
        .iter()
        .filter(|record| is_yanked(requirement, *record))
        .count()
}

/// The newest candidate of a name that isn't yanked, and is a release if that is asked.
fn newest_usable<'a>(
    catalogue: &'a Catalogue,
    name: &PackageName,
    is_release: bool,
) -> Option<&'a Version> {
    let mut newest = None;
    for (place, version) in catalogue.versions(name).iter().enumerate() {
        if is_usable(catalogue, name, place) && (!is_release || version.pre.is_empty()) {
            newest = Some(version);
        }
    }
    newest
}

/// Whether the candidate at a place isn't yanked, as one that is locked may be.
fn is_usable(catalogue: &Catalogue, name: &PackageName, place: usize) -> bool {
    match catalogue.candidates(name).get(place) {
        Some(candidate) => !candidate.yanked,
        None => false,
    }
}

fn is_newer(version: &Version, than: Option<&Version>) -> bool {
    match than {
        Some(other) => version.cmp_precedence(other) == Ordering::Greater,
        None => true,
    }
}

/// The newest candidate of a name that has a feature.
fn newest_with<'a>(
    catalogue: &'a Catalogue,
    name: &PackageName,
    feature: Option<&FeatureName>,
) -> Option<&'a Version> {
    let feature = feature?;
    let mut newest = None;
    for (place, version) in catalogue.versions(name).iter().enumerate() {
        if has_feature(catalogue, name, place, feature) {
            newest = Some(version);
        }
    }
    newest
}
