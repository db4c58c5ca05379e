//! What a selection is held against, as a value.

use catalogue::Catalogue;
use manifest::Manifest;

/// What a selection is held against: the manifest and the loaded index. Contracts say the model's problem of it
/// (`problem_view`). The search has a `KnownProblem` of `numbering`, which keeps besides what it found in them.
#[derive(Clone, Copy)]
pub struct Problem<'a> {
    pub manifest: &'a Manifest,
    pub catalogue: &'a Catalogue,
}
