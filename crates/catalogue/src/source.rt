//! The source of a run: the registry that its packages come from.

ghost use Rattle.std.specs.Prelude.{◌≡◌, ◌↔◌, true, false, IfOk, IsErrOf};
ghost use Rattle.std.specs.List.{list_all};
ghost use Rattle.catalogue.specs.Sources.{is_source, is_source_byte};

use std::alloc::Global;
use std::marker::Model;
use thiserror::Error;

/// Why a text is no source.
#[derive(Clone, Copy, Debug, PartialEq, Eq, Error)]
pub enum SourceFault {
    #[error("out of memory")]
    OutOfMemory,
    #[error("not a source")]
    NotASource,
}

/// The text that stands for a registry in a lock: 1 to 512 bytes 0x21 to 0x7E without `"`, `\`, `(` and `)`.
#[derive(Drop)]
pub struct Source {
    text: String,
}

impl Model for Source {
    ghost use Rattle.std.specs.Prelude.{◌≡◌, true, ℕ, List, string_bytes};
    ghost use Rattle.catalogue.specs.Sources.{is_source};

    ghost Value = { List ℕ };

    ghost view = { λ s. string_bytes s.text };

    ghost invariant = { λ s. is_source (string_bytes s.text) ≡ true };
}

impl Source {
    /// The source that a text is.
    pub fn parse(alloc: Global, text: &str) -> Result<Source, SourceFault>
        ensures ok { IfOk result (λ s. (s ≡ text.now) × (is_source text.now ≡ true)) }
        ensures no_source { IsErrOf result SourceFault.NotASource ↔ (is_source text.now ≡ false) }
    {
        if !is_source(text) {
            return Err(SourceFault::NotASource);
        }
        match String::from_str(alloc, text) {
            Ok(text) => Ok(Source { text }),
            Err(_) => Err(SourceFault::OutOfMemory),
        }
    }

    /// The text of the source.
    pub fn as_str(&self) -> &str
        ensures text { result.now ≡ self.now }
        ensures source { is_source self.now ≡ true }
    {
        self.text.as_str()
    }
}

/// Whether a text is a source, which can be told without memory.
pub fn is_source(text: &str) -> bool
    ensures { result ≡ is_source text.now }
{
    is_source_text(text.as_bytes())
}

fn is_source_text(text: &[u8]) -> bool
    ensures { result ≡ is_source text.now }
{
    !text.is_empty() && text.len() <= 512 && has_source_bytes(text)
}

fn has_source_bytes(text: &[u8]) -> bool
    ensures { result ≡ list_all is_source_byte text.now }
{
    text.iter().all(|b| is_source_byte(*b))
}

fn is_source_byte(byte: u8) -> bool
    ensures { result ≡ is_source_byte byte }
{
    byte.is_ascii_graphic() && !(byte == b'"' || byte == b'\\' || byte == b'(' || byte == b')')
}
