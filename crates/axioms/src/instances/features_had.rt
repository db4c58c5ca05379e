//! The features that some candidate has.

ghost use Rattle.std.specs.Prelude.{◌≡◌, ◌||◌, IfOk, List, OnOk, ℕ};
ghost use Rattle.std.specs.List.{list_any};
ghost use Rattle.catalogue.specs.Stores.{said_by};
ghost use Rattle.features.specs.inner.Texts.{HasThose, has_text};
ghost use Rattle.model.specs.Summary.{has_feature, same_text};

use catalogue::Candidate;
use features::FeatureTable;
use std::alloc::{AllocError, Global};
use std::collections::BTreeSet;

/// The features that some of these candidates have.
pub(crate) fn features_had<'a>(
    alloc: Global,
    candidates: &'a [Candidate],
) -> Result<BTreeSet<&'a str>, AllocError>
    ensures { IfOk result (λ had. HasThose had.keys
        (λ f. list_any (λ c. has_feature (said_by c).brings.features f) candidates.entry.now)) }
{
    let mut had = BTreeSet::new(alloc);
    'candidates: for candidate in candidates.iter() {
        put_features(&mut had, &candidate.brings.features)?;
    }
    Ok(had)
}

fn put_features<'a>(had: &mut BTreeSet<&'a str>, table: &'a FeatureTable) -> Result<(), AllocError>
    ensures { OnOk result
        ((f : List ℕ) → has_text had.new.keys f ≡ (has_text had.old.keys f || has_feature table.now f)) }
{
    'rows: for (feature, _) in table.iter() {
        put_feature(had, feature.as_str())?;
    }
    Ok(())
}

fn put_feature<'a>(had: &mut BTreeSet<&'a str>, feature: &'a str) -> Result<(), AllocError>
    ensures { OnOk result
        ((f : List ℕ) → has_text had.new.keys f ≡ (has_text had.old.keys f || same_text f feature.now)) }
{
    had.insert(feature)?;
    Ok(())
}
