//! The source of a run.

ghost use Rattle.std.specs.Prelude.{◌≡◌, IfErr, IfOk, true};
ghost use Rattle.catalogue.specs.Sources.{is_source};
ghost use Rattle.words.specs.Views.{text_if};
ghost use Rattle.commands.specs.Sources.{IsBadSource, IsSource};

use crate::ending::Ending;
use catalogue::{Source, SourceFault, is_source};
use std::alloc::{AllocError, Global};

/// The source of packages where the words name none.
const CRATES_IO: &str = "registry+https://github.com/rust-lang/crates.io-index";

/// The text of the source, before any file is read: no memory can be wanting for it.
pub(crate) fn source_text<'a, 's>(text: Option<&'s str>) -> Result<&'s str, Ending<'a>>
    ensures source { IfOk result (λ source. IsSource (text_if text.entry) source.now) }
    ensures bad { IfErr result (IsBadSource (text_if text.entry)) }
{
    let source = text.unwrap_or(CRATES_IO);
    if is_source(source) {
        Ok(source)
    } else {
        Err(Ending::BadSource)
    }
}

/// The source that this text is.
pub(crate) fn own_source(alloc: Global, text: &str) -> Result<Source, AllocError>
    requires { is_source text.now ≡ true }
    ensures { IfOk result (λ source. source ≡ text.now) }
{
    match Source::parse(alloc, text) {
        Ok(source) => Ok(source),
        Err(SourceFault::OutOfMemory) => Err(AllocError),
        Err(SourceFault::NotASource) => unreachable!(),
    }
}
