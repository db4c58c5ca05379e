//! A name that is nearly that of what is lacking.

use catalogue::Catalogue;
use classes::is_matched;
use features::{DependencyParts, FeatureName, FeatureTable};
use std::alloc::{AllocError, Global};
use strsim::levenshtein;

/// The feature with the nearest name, of the newest candidate that a dependency matches, if one is near.
pub(crate) fn similar_feature<'a>(
    alloc: Global,
    catalogue: &'a Catalogue,
    dependency: &DependencyParts,
    feature: &FeatureName,
) -> Result<Option<&'a str>, AllocError> {
    let mut names = Vec::new(alloc);
    if let Some(table) = newest_table(catalogue, dependency) {
        for (name, _) in table.iter() {
            names.push(name.as_str())?;
        }
    }
    nearest(alloc, &names, feature.as_str())
}

/// The features of the newest candidate that a dependency matches.
pub(crate) fn newest_table<'a>(
    catalogue: &'a Catalogue,
    dependency: &DependencyParts,
) -> Option<&'a FeatureTable> {
    let name = &dependency.real_name;
    let mut newest = None;
    for (place, version) in catalogue.versions(name).iter().enumerate() {
        if is_matched(&dependency.requirement, version) {
            newest = Some(place);
        }
    }
    match catalogue.candidates(name).get(newest?) {
        Some(candidate) => Some(&candidate.brings.features),
        None => None,
    }
}

/// The nearest of some names: one for which no more than a third of the letters have to change, as rustc has it.
pub fn nearest<'a>(
    alloc: Global,
    names: &[&'a str],
    text: &str,
) -> Result<Option<&'a str>, AllocError> {
    let mut least = text.len().max(3) / 3;
    let mut nearest = None;
    for name in names.iter() {
        let edits = levenshtein(alloc, text, *name)?;
        if edits < least || edits == least && nearest.is_none() {
            least = edits;
            nearest = Some(*name);
        }
    }
    Ok(nearest)
}
