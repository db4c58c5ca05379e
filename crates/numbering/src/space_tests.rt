//! Sets of a vertex's states, as tests of its space: absent first, then the versions or classes in their order.

ghost use Rattle.std.specs.Prelude.{◌≡◌, ◌∷◌, ◌++◌, ◌+◌, ◌-◌, ◌<◌, ◌≤◌, ◌^◌, true, false, if◌then◌else◌, length, not};
ghost use Rattle.std.specs.Prelude.{map, position, replicate, IfOk, IfSome};
ghost use Rattle.std.specs.List.{AllPairs, list_all};
ghost use Rattle.std.specs.List.Sorted.{IsPartitionPoint};
ghost use Rattle.std.specs.Ordering.{is_lt};
ghost use Rattle.semver.specs.Identifiers.{parts_of};
ghost use Rattle.classes.specs.Classes.{class_view};
ghost use Rattle.features.specs.Views.{requirement_view};
ghost use Rattle.catalogue.specs.Stores.{said_by};
ghost use Rattle.model.specs.Axioms.{is_lower};
ghost use Rattle.model.specs.Order.{precedence};
ghost use Rattle.model.specs.Summary.{has_feature};
ghost use Rattle.numbering.specs.inner.TestedTerms.{is_chosen, is_class, lone_view, states_view};
ghost use Rattle.lookups.specs.inner.Matching.{is_left, is_release, tests_of_range};
ghost use Rattle.lookups.specs.inner.Ranges.{AreRising};
ghost use Rattle.semver.specs.EvalViews.{matches_views};
ghost use Rattle.version_sets.specs.Sets.{has, none, only};

use catalogue::Candidate;
use classes::{Class, is_matched};
use features::FeatureName;
use lookups::{is_left, matched_range};
use semver::{Version, VersionReq};
use std::alloc::{AllocError, Global};

/// Which states of a vertex a term has. Most terms name one state, or a range, and a vertex has as many such terms as
/// states: none of these is to cost as much as all tests.
#[derive(Drop)]
pub(crate) enum Tests {
    /// For each state, in their order, whether the term has it.
    Each(Vec<bool>),
    /// One alone.
    One(Lone),
    /// Those in a range, or the others.
    Range(Range),
}

/// One of so many states, or none if it lies past them.
#[derive(Drop)]
pub(crate) struct Lone {
    pub(crate) states: usize,
    pub(crate) state: usize,
}

/// So many states lie before a range, in it and after it; it is those inside that count, or the others.
#[derive(Drop)]
pub(crate) struct Range {
    pub(crate) before: usize,
    pub(crate) within: usize,
    pub(crate) after: usize,
    pub(crate) inside: bool,
}

#[tactic(auto, unfolding(crate::specs::inner::TestedTerms::is_chosen))]
fn is_chosen(version: &Version, other: &Version) -> bool
    ensures { result ≡ is_chosen (parts_of version.now) (parts_of other.now) }
{
    other == version
}

#[tactic(auto, unfolding(crate::specs::inner::TestedTerms::is_class))]
fn is_class(class: Class, other: Class) -> bool
    ensures { result ≡ is_class (class_view class) (class_view other) }
{
    other == class
}

/// Absent, and the versions that aren't matched.
pub(crate) fn left_tests(
    alloc: Global,
    requirement: &VersionReq,
    versions: &[Version],
    are_releases: bool,
) -> Result<Tests, AllocError>
    requires rising { AreRising versions.now }
    requires releases { are_releases ≡ true → list_all (λ w. is_release (parts_of w)) versions.now ≡ true }
    ensures { IfOk result (λ t. states_view t
        ≡ true ∷ map (λ w. is_left (requirement_view requirement.now) (parts_of w)) versions.now) }
{
    match range_among(requirement, versions, are_releases) {
        Some((from, to)) => Ok(range_tests(false, from, to, versions.len())),
        None => Ok(Tests::Each(each_left(alloc, requirement, versions)?)),
    }
}

/// The versions that are matched.
pub(crate) fn taken_tests(
    alloc: Global,
    requirement: &VersionReq,
    versions: &[Version],
    are_releases: bool,
) -> Result<Tests, AllocError>
    requires rising { AreRising versions.now }
    requires releases { are_releases ≡ true → list_all (λ w. is_release (parts_of w)) versions.now ≡ true }
    ensures { IfOk result (λ t. states_view t
        ≡ false ∷ map (λ w. matches_views (requirement_view requirement.now) (parts_of w)) versions.now) }
{
    match range_among(requirement, versions, are_releases) {
        Some((from, to)) => Ok(range_tests(true, from, to, versions.len())),
        None => Ok(Tests::Each(each_taken(alloc, requirement, versions)?)),
    }
}

/// From which place on and up to which versions are matched, where these are all that are: where no version is a
/// pre-release. A class may have thousands of versions and be asked about by as many requirements, so to match each of
/// them would be slow.
fn range_among(
    requirement: &VersionReq,
    versions: &[Version],
    are_releases: bool,
) -> Option<(usize, usize)>
    requires rising { AreRising versions.now }
    requires releases { are_releases ≡ true → list_all (λ w. is_release (parts_of w)) versions.now ≡ true }
    ensures { IfSome result (λ r. (r.0 ≤ r.1) × ((r.1 ≤ length versions.now)
        × (map (λ w. matches_views (requirement_view requirement.now) (parts_of w)) versions.now
        ≡ tests_of_range r.0 r.1 (length versions.now)))) }
{
    if are_releases {
        matched_range(requirement, versions)
    } else {
        None
    }
}

/// Of a state before so many places, and these: whether each lies from one place on and up to another, or whether it
/// doesn't.
fn range_tests(inside: bool, from: usize, to: usize, count: usize) -> Tests
    requires begins { from ≤ to }
    requires ends { to ≤ count }
    requires few { count < 2 ^ 63 }
    ensures { states_view result
        ≡ not inside ∷ (replicate from (not inside)
        ++ (replicate (to - from) inside ++ replicate (count - to) (not inside))) }
{
    Tests::Range(Range {
        before: from + 1,
        within: to - from,
        after: count - to,
        inside,
    })
}

/// What `left_tests` gives, by a look at each version.
fn each_left(
    alloc: Global,
    requirement: &VersionReq,
    versions: &[Version],
) -> Result<Vec<bool>, AllocError>
    ensures { IfOk result
        (λ v. v.items ≡ true ∷ map (λ w. is_left (requirement_view requirement.now) (parts_of w)) versions.now) }
{
    let mut tests = Vec::with_capacity(alloc, versions.len().saturating_add(1))?;
    tests.push(true)?;
    'versions: for version in versions.iter() {
        tests.push(is_left(requirement, version))?;
    }
    Ok(tests)
}

/// What `taken_tests` gives, by a look at each version.
fn each_taken(
    alloc: Global,
    requirement: &VersionReq,
    versions: &[Version],
) -> Result<Vec<bool>, AllocError>
    ensures { IfOk result
        (λ v. v.items ≡ false ∷ map (λ w. matches_views (requirement_view requirement.now) (parts_of w)) versions.now) }
{
    let mut tests = Vec::with_capacity(alloc, versions.len().saturating_add(1))?;
    tests.push(false)?;
    'versions: for version in versions.iter() {
        tests.push(is_matched(requirement, version))?;
    }
    Ok(tests)
}

/// Absent, and the candidates that lack the feature. It is looked for where the one before has it.
pub(crate) fn lacking_tests(
    alloc: Global,
    feature: &FeatureName,
    candidates: &[Candidate],
) -> Result<Vec<bool>, AllocError>
    ensures { IfOk result (λ v. v.items
        ≡ true ∷ map (λ c. not (has_feature (said_by c).brings.features feature.now)) candidates.now) }
{
    let mut tests = Vec::with_capacity(alloc, candidates.len().saturating_add(1))?;
    tests.push(true)?;
    let mut near = 0;
    'candidates: for candidate in candidates.iter() {
        let place = candidate.brings.features.place_near(feature, near);
        tests.push(place.is_none())?;
        near = place.unwrap_or(near);
    }
    Ok(tests)
}

/// The state that stands alone.
pub(crate) fn state_of(lone: &Lone) -> Option<usize>
    ensures { result ≡ position (λ b. b) (lone_view lone.now) }
{
    if lone.state < lone.states {
        Some(lone.state)
    } else {
        None
    }
}

/// Absent alone.
pub(crate) fn no_class(classes: &[Class]) -> Lone
    ensures { lone_view result ≡ true ∷ map (λ k. false) classes.now }
{
    Lone {
        states: classes.len() + 1,
        state: 0,
    }
}

/// One class alone.
pub(crate) fn class_tests(class: Class, classes: &[Class]) -> Lone
    requires { AllPairs (λ j k. is_lower (class_view j) (class_view k) ≡ true) classes.now }
    ensures { lone_view result ≡ false ∷ map (λ k. is_class (class_view class) (class_view k)) classes.now }
{
    let place = lower_classes(class, classes);
    alone(classes.len(), place, is_class_at(class, classes, place))
}

/// How many classes are lower.
fn lower_classes(class: Class, classes: &[Class]) -> usize
    requires { AllPairs (λ j k. is_lower (class_view j) (class_view k) ≡ true) classes.now }
    ensures few { result ≤ length classes.now }
    ensures place { IsPartitionPoint (λ k. is_lower (class_view k) (class_view class) ≡ true)
        (λ k. is_lower (class_view k) (class_view class) ≡ false) classes.now result }
{
    classes.partition_point(|other| other.is_lower(class))
}

fn is_class_at(class: Class, classes: &[Class], place: usize) -> bool
    ensures { result ≡ has (map (λ k. is_class (class_view class) (class_view k)) classes.now) place }
{
    match classes.get(place) {
        Some(other) => is_class(class, *other),
        None => false,
    }
}

/// One version alone.
pub(crate) fn chosen_tests(chosen: &Version, versions: &[Version]) -> Lone
    requires { AreRising versions.now }
    ensures { lone_view result ≡ false ∷ map (λ w. is_chosen (parts_of chosen.now) (parts_of w)) versions.now }
{
    let place = older_versions(chosen, versions);
    alone(versions.len(), place, is_chosen_at(chosen, versions, place))
}

/// How many versions are older.
fn older_versions(chosen: &Version, versions: &[Version]) -> usize
    requires { AreRising versions.now }
    ensures few { result ≤ length versions.now }
    ensures place { IsPartitionPoint (λ w. is_lt (precedence (parts_of w) (parts_of chosen.now)) ≡ true)
        (λ w. is_lt (precedence (parts_of w) (parts_of chosen.now)) ≡ false) versions.now result }
{
    versions.partition_point(|other| is_older(other, chosen))
}

fn is_older(version: &Version, other: &Version) -> bool
    ensures { result ≡ is_lt (precedence (parts_of version.now) (parts_of other.now)) }
{
    version.cmp_precedence(other).is_lt()
}

fn is_chosen_at(chosen: &Version, versions: &[Version], place: usize) -> bool
    ensures { result ≡ has (map (λ w. is_chosen (parts_of chosen.now) (parts_of w)) versions.now) place }
{
    match versions.get(place) {
        Some(other) => is_chosen(chosen, other),
        None => false,
    }
}

/// The state at a place after absent alone, if what is sought stands there, else no state.
fn alone(places: usize, place: usize, is_there: bool) -> Lone
    requires many { places < 2 ^ 63 }
    requires few { place ≤ places }
    ensures { lone_view result ≡ (if is_there then only (places + 1) (place + 1) else none (places + 1)) }
{
    let states = places + 1;
    let state = if is_there { place + 1 } else { states };
    Lone { states, state }
}
