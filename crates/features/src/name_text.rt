//! The text of a name, which lies in the name itself where it is short.

ghost use Rattle.std.specs.Prelude.{◌≡◌, ◌≤◌, IfOk, IsOk, length};
ghost use Rattle.features.specs.inner.NameTexts.{text_bytes};

use arrayvec::ArrayString;
use std::alloc::{AllocError, Global};

/// A text of names and the like: most have at most 16 bytes, and ask for no memory.
#[derive(Drop)]
pub enum NameText {
    Short(ArrayString<16>),
    Long(String),
}

impl NameText {
    /// The text, in memory of its own.
    pub fn of(alloc: Global, text: &str) -> Result<NameText, AllocError>
        ensures text { IfOk result (λ t. text_bytes t ≡ text.now) }
        ensures short { length text.now ≤ 16 → IsOk result }
    {
        match ArrayString::from(text) {
            Ok(short) => Ok(NameText::Short(short)),
            Err(_) => Ok(NameText::Long(String::from_str(alloc, text)?)),
        }
    }

    pub fn as_str(&self) -> &str
        ensures { result.now ≡ text_bytes self.now }
    {
        match self {
            NameText::Short(short) => short.as_str(),
            NameText::Long(long) => long.as_str(),
        }
    }
}

impl Clone for NameText {
    ghost is_clone = { λ text copy. text_bytes copy ≡ text_bytes text };

    fn clone(&self) -> Result<NameText, AllocError> {
        match self {
            NameText::Short(short) => Ok(NameText::Short(*short)),
            NameText::Long(long) => Ok(NameText::Long(long.clone()?)),
        }
    }
}
