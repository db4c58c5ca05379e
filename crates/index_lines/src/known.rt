//! The dependencies that were read, so that those that lines write alike are read and kept once.

ghost use Rattle.std.specs.Prelude.{◌≡◌, IfOk, IfSome, IsTrue, map, unwrap_or};
ghost use Rattle.features.specs.inner.NameTexts.{text_bytes};
ghost use Rattle.model.specs.Summary.{same_text};
ghost use Rattle.features.specs.Views.{text_views};
ghost use Rattle.index_lines.specs.inner.Known.{IsMadeOf, IsRequirement, IsSaid, same_flags, same_names, same_parts};
ghost use Rattle.index_lines.specs.inner.ShapeViews.{part_view};

use crate::known_requirements::KnownRequirements;
use crate::shape::PartShape;
use crate::texts::{are_texts, kept_texts};
use features::{Dependency, NameText, PackageName, Requirement};
use std::alloc::{AllocError, Global};
use std::hash::{FoldHasher, Hash, Hasher};
use std::mem;

/// How many places there are at first. Each is written when the first dependency is kept, also in a small run.
const FIRST_SLOTS: usize = 1_024;

/// How many places there are at most, since an index has no end of dependencies that differ.
const MOST_SLOTS: usize = 65_536;

/// A dependency, with the texts that were read for it, so that they outlive their line.
#[derive(Drop)]
struct MadeDependency {
    /// The whole hash that it has its place by: another dependency in this place is told from it by this alone.
    hash: u64,
    requirement: NameText,
    features: Vec<NameText>,
    dependency: Dependency,
    ghost made: { IsMadeOf (text_bytes requirement) (map text_bytes features.items) dependency },
}

/// A part of a line, with the requirement that its text is.
#[derive(Drop)]
pub(crate) struct RequirementRead<'p, 'a> {
    pub part: &'p PartShape<'a>,
    pub requirement: Requirement,
    ghost read: { IsRequirement part.now.requirement.now requirement },
}

/// A part of a line that says just what was read before.
#[derive(Drop)]
pub(crate) struct PartAgain<'p, 'a> {
    pub part: &'p PartShape<'a>,
    pub dependency: Dependency,
    ghost says: { IsSaid (part_view part.now) dependency },
}

/// Dependencies that were read. Each has a place by its name and its requirement, and the next one that has this place
/// takes it. There are more places as more are kept, so that few are dropped that come up again.
#[derive(Drop)]
pub struct KnownDependencies {
    /// What is compared first stands in the place itself: a look-up that finds another dependency reads nothing else.
    slots: Vec<Option<MadeDependency>>,
    /// How many were kept, with those that had their place taken.
    kept: usize,
    requirements: KnownRequirements,
}

impl KnownDependencies {
    /// None yet.
    pub fn none(alloc: Global) -> KnownDependencies {
        KnownDependencies {
            slots: Vec::new(alloc),
            kept: 0,
            requirements: KnownRequirements::none(alloc),
        }
    }

    /// The dependency that says what this part says, if it is kept.
    pub(crate) fn find<'p, 'a>(
        &self,
        part: &'p PartShape<'a>,
    ) -> Result<Option<PartAgain<'p, 'a>>, AllocError>
        ensures { IfOk result (λ o. IfSome o (λ a. part_view a.part.now ≡ part_view part.entry.now)) }
    {
        let hash = hash_of(part);
        let Some(slot) = self.slots.get(slot_of(hash, self.slots.len())) else {
            return Ok(None);
        };
        let Some(made) = slot else {
            return Ok(None);
        };
        if !made.is_of(hash, part) {
            return Ok(None);
        }
        let again = PartAgain {
            part,
            dependency: made.dependency.clone()?,
        };
        Ok(Some(again))
    }

    /// The requirement that this text is, if it is kept.
    pub(crate) fn requirement(&self, text: &str) -> Result<Option<Requirement>, AllocError>
        ensures { IfOk result (λ o. IfSome o (λ r. IsRequirement text.now r)) }
    {
        self.requirements.find(text)
    }

    /// Keeps a dependency that was made of this part, and its requirement.
    pub(crate) fn keep(
        &mut self,
        alloc: Global,
        part: &PartShape<'_>,
        dependency: &Dependency,
    ) -> Result<(), AllocError>
        requires { IsMadeOf part.now.requirement.now (text_views part.now.features.items) dependency.now }
    {
        if self.kept >= self.slots.len() {
            self.grow(alloc)?;
        }
        self.requirements
            .keep(alloc, part.requirement, &dependency.requirement)?;
        let hash = hash_of(part);
        let made = MadeDependency {
            hash,
            requirement: NameText::of(alloc, part.requirement)?,
            features: kept_texts(alloc, &part.features)?,
            dependency: dependency.clone()?,
        };
        place_dependency(&mut self.slots, made);
        self.kept = self.kept.saturating_add(1);
        Ok(())
    }

    /// Makes twice as many places, if there may be more, and moves each dependency to its place there.
    fn grow(&mut self, alloc: Global) -> Result<(), AllocError> {
        let places = more_places(self.slots.len());
        if places <= self.slots.len() {
            return Ok(());
        }
        let fewer = mem::replace(&mut self.slots, no_dependencies(alloc, places)?);
        'fewer: for slot in fewer {
            if let Some(made) = slot {
                place_dependency(&mut self.slots, made);
            }
        }
        Ok(())
    }
}

/// How many places come after so many.
fn more_places(places: usize) -> usize {
    if places == 0 {
        FIRST_SLOTS
    } else {
        places.saturating_mul(2).min(MOST_SLOTS)
    }
}

/// So many places, all of them empty.
fn no_dependencies(
    alloc: Global,
    places: usize,
) -> Result<Vec<Option<MadeDependency>>, AllocError> {
    let mut slots = Vec::with_capacity(alloc, places)?;
    'slots: for _ in 0..places {
        slots.push(None)?;
    }
    Ok(slots)
}

/// Puts a dependency into its place.
fn place_dependency(slots: &mut [Option<MadeDependency>], made: MadeDependency) {
    let place = slot_of(made.hash, slots.len());
    if let Some(slot) = slots.get_mut(place) {
        *slot = Some(made);
    }
}

/// The hash that a dependency has its place by.
fn hash_of(part: &PartShape<'_>) -> u64 {
    let mut hasher = FoldHasher::default();
    part.name.hash(&mut hasher);
    part.requirement.hash(&mut hasher);
    hasher.finish()
}

/// The place of a dependency of this hash among so many, whose number is a power of two. Among none it has none.
fn slot_of(hash: u64, places: usize) -> usize {
    hash as usize & places.wrapping_sub(1)
}

impl MadeDependency {
    /// Whether a part of this hash says just this.
    fn is_of(&self, hash: u64, part: &PartShape<'_>) -> bool
        ensures { IsTrue result → IsSaid (part_view part.now) self.now.dependency }
    {
        if self.hash != hash {
            return false;
        }
        if !is_text(self.requirement.as_str(), part.requirement) {
            return false;
        }
        if !are_texts(&self.features, &part.features) {
            return false;
        }
        has_parts(&self.dependency, part)
    }
}

fn is_text(own: &str, text: &str) -> bool
    ensures { result ≡ same_text own.now text.now }
{
    own == text
}

/// Whether a dependency has what a part says, but for its requirement and its features.
fn has_parts(dependency: &Dependency, part: &PartShape<'_>) -> bool
    ensures { result ≡ same_parts dependency.now (part_view part.now) }
{
    is_called(dependency, part) && has_flags(dependency, part)
}

fn is_called(dependency: &Dependency, part: &PartShape<'_>) -> bool
    ensures { result ≡ same_names dependency.now (part_view part.now) }
{
    dependency.name == part.name && is_real_name(&dependency.real_name, part)
}

/// Whether a part means the package of this name.
fn is_real_name(name: &PackageName, part: &PartShape<'_>) -> bool
    ensures { result ≡ same_text name.now (unwrap_or part.now.real_name part.now.name) }
{
    match &part.real_name {
        Some(real_name) => name == real_name,
        None => *name == part.name,
    }
}

fn has_flags(dependency: &Dependency, part: &PartShape<'_>) -> bool
    ensures { result ≡ same_flags dependency.now (part_view part.now) }
{
    dependency.optional == part.optional && dependency.default_features == part.default_features
}
