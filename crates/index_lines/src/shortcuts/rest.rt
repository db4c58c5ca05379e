//! The rest of a line, behind its features.

ghost use Rattle.std.specs.Prelude.{◌≡◌, ◌∷◌, IfOk, Ok, option_map};
ghost use Rattle.classes.specs.Classes.{rust_version_view};
ghost use Rattle.trees.specs.Trees.{tree_view};
ghost use Rattle.index_lines.specs.inner.ByParts.{lacks, lacks_parts, rest_of, rest_of_bytes};
ghost use Rattle.index_lines.specs.Shapes.{data_of_bytes, value_at};

use crate::fault::{LineFault, SkipReason};
use crate::parts::unless_null;
use crate::shape::rust_version;
use crate::texts::check;
use crate::values::{flag, read_json, whole};
use classes::RustVersion;
use std::alloc::Global;
use trees::{Scratch, Tree, member, root};

/// What a line says behind its features, and the bytes that this was read off.
#[derive(Drop)]
pub(crate) struct LineRest<'a> {
    bytes: &'a [u8],
    pub yanked: bool,
    pub format: u64,
    pub rust_version: Option<RustVersion>,
    ghost read: { rest_of_bytes bytes.now
        ≡ Ok (record { yanked = yanked; format = format; rust_version = option_map rust_version_view rust_version }) },
}

/// What these bytes say: what those of the line before said, where they are the same.
///
/// # Errors
/// `Skipped` where they can't be read on their own, or say again what stands before them.
pub(crate) fn rest_after<'a>(
    alloc: Global,
    bytes: &'a [u8],
    before: Option<LineRest<'a>>,
    scratch: &mut Scratch,
) -> Result<LineRest<'a>, LineFault>
    ensures { IfOk result (λ r. r.bytes.now ≡ bytes.entry.now) }
{
    if let Some(rest) = before {
        if rest.bytes == bytes {
            return Ok(rest);
        }
    }
    read_rest(alloc, bytes, scratch)
}

/// Bytes lack the bracket that they begin with as an object.
fn read_rest<'a>(
    alloc: Global,
    bytes: &'a [u8],
    scratch: &mut Scratch,
) -> Result<LineRest<'a>, LineFault>
    ensures { IfOk result (λ r. r.bytes.now ≡ bytes.entry.now) }
{
    let mut text = Vec::new(alloc);
    text.push(b'{')?;
    text.extend_from_slice(bytes)?;
    let tape = read_json(alloc, text.as_slice(), scratch)?;
    rest_in(bytes, &root(&tape))
}

#[tactic(auto, unfolding(crate::specs::inner::ByParts::rest_of))]
fn rest_in<'a>(bytes: &'a [u8], rest: &Tree<'_, '_>) -> Result<LineRest<'a>, LineFault>
    requires { data_of_bytes (123 ∷ bytes.now) ≡ Ok (tree_view rest.now) }
    ensures { IfOk result (λ r. r.bytes.now ≡ bytes.entry.now) }
{
    check(!lacks(rest, "yanked"), SkipReason::Shape)?;
    check(lacks_parts(rest), SkipReason::Shape)?;
    Ok(LineRest {
        bytes,
        yanked: flag(&value(rest, "yanked"), false)?,
        format: whole(&value(rest, "v"), 1)?,
        rust_version: rust_version(&value(rest, "rust_version")),
    })
}

/// The value at a key: null counts as absent.
fn value<'t, 'a>(rest: &Tree<'t, 'a>, key: &str) -> Option<Tree<'t, 'a>>
    ensures { option_map tree_view result ≡ value_at key.now (tree_view rest.now) }
{
    match member(rest, key) {
        Some(value) => unless_null(value),
        None => None,
    }
}

/// Whether none of the keys that stand before the rest comes again, where the last of a key would count.
fn lacks_parts(rest: &Tree<'_, '_>) -> bool
    ensures { result ≡ lacks_parts (tree_view rest.now) }
{
    lacks(rest, "name")
        && lacks(rest, "vers")
        && lacks(rest, "deps")
        && lacks(rest, "cksum")
        && lacks(rest, "features")
        && lacks(rest, "features2")
}

fn lacks(rest: &Tree<'_, '_>, key: &str) -> bool
    ensures { result ≡ lacks key.now (tree_view rest.now) }
{
    member(rest, key).is_none()
}
