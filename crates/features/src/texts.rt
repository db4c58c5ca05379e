//! Texts to be looked up, the first few of which lie in a row.

ghost use Rattle.std.specs.Prelude.{◌≡◌, ◌||◌, [], ℕ, List, OnOk};
ghost use Rattle.model.specs.Summary.{same_text};
ghost use Rattle.features.specs.inner.Texts.{has_text, texts_in};

use std::alloc::{AllocError, Global};
use std::collections::BTreeSet;

/// How many texts lie in the row. Most packages have no more dependencies, and a few are found faster one after another
/// than in a tree.
const FEW: usize = 16;

/// Texts to be looked up.
#[derive(Drop)]
pub(crate) struct Texts<'a> {
    few: Vec<&'a str>,
    more: BTreeSet<&'a str>,
}

impl<'a> Texts<'a> {
    pub(crate) fn new(alloc: Global) -> Texts<'a>
        ensures { texts_in result ≡ [] }
    {
        Texts {
            few: Vec::new(alloc),
            more: BTreeSet::new(alloc),
        }
    }

    pub(crate) fn has(&self, text: &str) -> bool
        ensures { result ≡ has_text (texts_in self.now) text.now }
    {
        is_among(&self.few, text) || self.more.contains(text)
    }

    pub(crate) fn put(&mut self, text: &'a str) -> Result<(), AllocError>
        ensures { OnOk result
            ((d : List ℕ) → has_text (texts_in self.new) d ≡ (has_text (texts_in self.old) d || same_text d text.now)) }
    {
        if self.few.len() < FEW {
            self.few.push(text)?;
        } else {
            self.more.insert(text)?;
        }
        Ok(())
    }
}

fn is_among(few: &[&str], text: &str) -> bool
    ensures { result ≡ has_text few.now text.now }
{
    few.iter().any(|one| text == *one)
}
