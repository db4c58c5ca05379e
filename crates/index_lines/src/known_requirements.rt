//! The requirements that were read, so that each text is read once and dependencies share what it is.

ghost use Rattle.std.specs.Prelude.{◌≡◌, IfOk, IfSome};
ghost use Rattle.features.specs.inner.NameTexts.{text_bytes};
ghost use Rattle.model.specs.Summary.{same_text};
ghost use Rattle.index_lines.specs.inner.Known.{IsRequirement};

use features::{NameText, Requirement};
use std::alloc::{AllocError, Global};
use std::hash::{FoldHasher, Hash, Hasher};

/// How many requirements are kept at once. Each place is written when the first one is kept, also in a small run.
const SLOTS: usize = 4_096;

/// A requirement, with the text that was read as it.
#[derive(Drop)]
struct KnownRequirement {
    text: NameText,
    requirement: Requirement,
    ghost read: { IsRequirement (text_bytes text) requirement },
}

/// Requirements that were read. Each has a place by its text, and the next one that has this place takes it.
#[derive(Drop)]
pub(crate) struct KnownRequirements {
    slots: Vec<Option<KnownRequirement>>,
}

impl KnownRequirements {
    /// None yet.
    pub(crate) fn none(alloc: Global) -> KnownRequirements {
        KnownRequirements {
            slots: Vec::new(alloc),
        }
    }

    /// The requirement that this text is, if it is kept.
    pub(crate) fn find(&self, text: &str) -> Result<Option<Requirement>, AllocError>
        ensures { IfOk result (λ o. IfSome o (λ r. IsRequirement text.now r)) }
    {
        match self.at(text) {
            Some(known) => Ok(Some(known.requirement.clone()?)),
            None => Ok(None),
        }
    }

    /// Keeps the requirement that a text is.
    pub(crate) fn keep(
        &mut self,
        alloc: Global,
        text: &str,
        requirement: &Requirement,
    ) -> Result<(), AllocError>
        requires { IsRequirement text.now requirement.now }
    {
        if self.at(text).is_some() {
            return Ok(());
        }
        if self.slots.is_empty() {
            self.slots = no_requirements(alloc)?;
        }
        let known = KnownRequirement {
            text: NameText::of(alloc, text)?,
            requirement: requirement.clone()?,
        };
        if let Some(slot) = self.slots.get_mut(slot_of(text)) {
            *slot = Some(known);
        }
        Ok(())
    }

    fn at(&self, text: &str) -> Option<&KnownRequirement>
        ensures { IfSome result (λ k. IsRequirement text.now k.now.requirement) }
    {
        let slot = self.slots.get(slot_of(text))?;
        let known = slot.as_ref()?;
        if known.is_of(text) { Some(known) } else { None }
    }
}

impl KnownRequirement {
    fn is_of(&self, text: &str) -> bool
        ensures { result ≡ same_text (text_bytes self.now.text) text.now }
    {
        self.text.as_str() == text
    }
}

/// As many places as there are, all of them empty.
fn no_requirements(alloc: Global) -> Result<Vec<Option<KnownRequirement>>, AllocError> {
    let mut slots = Vec::with_capacity(alloc, SLOTS)?;
    'slots: for _ in 0..SLOTS {
        slots.push(None)?;
    }
    Ok(slots)
}

/// The place of a requirement of this text.
fn slot_of(text: &str) -> usize {
    let mut hasher = FoldHasher::default();
    text.hash(&mut hasher);
    (hasher.finish() % SLOTS as u64) as usize
}
