//! Items of a line, as a registry spells them.
//!
//! A registry writes each dependency with the same keys in one order, with no blanks, and hardly ever a text that is
//! escaped. Such an item is read straight from its bytes, for a tape of its tokens would take a piece of memory each
//! time; whatever is spelt in another way is left to the tape.

ghost use Rattle.std.specs.Prelude.{◌≡◌, ◌++◌, IfOk, IfSome, Ok, true, option_map};
ghost use Rattle.serde_json.specs.Data.{string};
ghost use Rattle.features.specs.Views.{text_views};
ghost use Rattle.trees.specs.inner.Parts.{is_plain};
ghost use Rattle.index_lines.specs.inner.Plain.{IsPlainItem, are_plain, flag_text, is_plain_or_null, item_end, quoted};
ghost use Rattle.index_lines.specs.inner.Plain.{quoted_list, shape_of_item, text_or_null};
ghost use Rattle.index_lines.specs.Shapes.{package_name_of, package_name_or_none};
ghost use Rattle.index_lines.specs.inner.ShapeViews.{line_dependency_view};

use crate::shape::{DependencyShape, PartShape, kind_of_text};
use crate::shortcuts::split::{behind, plain_text};
use features::{DependencyKind, NameFault, PackageName};
use memchr::memchr;
use std::alloc::{AllocError, Global};

/// The members of an item, with the list of its features as it stands.
#[derive(Drop)]
pub(crate) struct PlainItem<'a> {
    pub name: &'a str,
    pub requirement: &'a str,
    pub features: &'a [u8],
    pub optional: bool,
    pub default_features: bool,
    pub target: Option<&'a str>,
    pub kind: &'a str,
    /// The package that a renamed dependency means.
    pub real_name: Option<&'a str>,
}

/// The dependency that an item is, if it is spelt so and is one.
pub(crate) fn plain_dependency<'a>(
    alloc: Global,
    bytes: &'a [u8],
) -> Result<Option<DependencyShape<'a>>, AllocError>
    ensures { IfOk result (λ o. IfSome o (λ s. shape_of_item bytes.entry.now ≡ Ok (line_dependency_view s))) }
{
    let Some(item) = plain_item(bytes) else {
        return Ok(None);
    };
    let Some(kind) = kind_of_text(item.kind) else {
        return Ok(None);
    };
    let Some(name) = package_name(alloc, item.name)? else {
        return Ok(None);
    };
    let Some(features) = plain_texts(alloc, item.features)? else {
        return Ok(None);
    };
    match kind {
        DependencyKind::Dev => Ok(Some(DependencyShape::Dev(name))),
        DependencyKind::Normal | DependencyKind::Build => {
            let Some(real_name) = name_if_any(alloc, item.real_name)? else {
                return Ok(None);
            };
            Ok(Some(DependencyShape::Part(PartShape {
                name,
                real_name,
                requirement: item.requirement,
                optional: item.optional,
                default_features: item.default_features,
                features,
                registry: None,
            })))
        }
    }
}

/// The package name that a text is, if it is one.
fn package_name(alloc: Global, text: &str) -> Result<Option<PackageName>, AllocError>
    ensures { IfOk result (λ o. IfSome o (λ n. package_name_of (string text.now) ≡ Ok n)) }
{
    match PackageName::parse(alloc, text) {
        Ok(name) => Ok(Some(name)),
        Err(NameFault::OutOfMemory) => Err(AllocError),
        Err(NameFault::NotAName) => Ok(None),
    }
}

/// The same of a text that may be absent.
fn name_if_any(alloc: Global, text: Option<&str>) -> Result<Option<Option<PackageName>>, AllocError>
    ensures { IfOk result (λ o. IfSome o (λ n.
        package_name_or_none (option_map (λ t. string t.now) text.entry) ≡ Ok n)) }
{
    let Some(text) = text else {
        return Ok(Some(None));
    };
    match package_name(alloc, text)? {
        Some(name) => Ok(Some(Some(name))),
        None => Ok(None),
    }
}

/// The texts of a list.
pub(crate) fn plain_texts<'a>(
    alloc: Global,
    bytes: &'a [u8],
) -> Result<Option<Vec<&'a str>>, AllocError>
    ensures { IfOk result (λ o. IfSome o (λ v.
        (bytes.entry.now ≡ quoted_list (text_views v.items)) × (are_plain (text_views v.items) ≡ true))) }
{
    let mut found = Vec::new(alloc);
    if bytes == b"[]".as_slice() {
        return Ok(Some(found));
    }
    let Some((first, mut left)) = text_at(bytes, b"[") else {
        return Ok(None);
    };
    found.push(first)?;
    'texts: while let Some((text, rest)) = text_at(left, b",") {
        left = rest;
        found.push(text)?;
    }
    if left != b"]".as_slice() {
        return Ok(None);
    }
    Ok(Some(found))
}

/// The members of an item, if it is spelt so.
fn plain_item<'a>(bytes: &'a [u8]) -> Option<PlainItem<'a>>
    ensures { IfSome result (λ p. IsPlainItem p bytes.entry.now) }
{
    let (name, left) = text_at(bytes, b"{\"name\":")?;
    let (requirement, left) = text_at(left, b",\"req\":")?;
    let (features, left) = list_at(left, b",\"features\":")?;
    let (optional, left) = flag_at(left, b",\"optional\":")?;
    let (default_features, left) = flag_at(left, b",\"default_features\":")?;
    let (target, left) = text_or_null_at(left, b",\"target\":")?;
    let (kind, left) = text_at(left, b",\"kind\":")?;
    let real_name = real_name(left)?;
    Some(PlainItem {
        name,
        requirement,
        features,
        optional,
        default_features,
        target,
        kind,
        real_name,
    })
}

/// The text between quotes that stands behind what the bytes begin with, and what is left.
fn text_at<'a>(bytes: &'a [u8], front: &[u8]) -> Option<(&'a str, &'a [u8])>
    ensures { IfSome result (λ p. (bytes.entry.now ≡ front.now ++ (quoted p.0.now ++ p.1.now))
        × (is_plain p.0.now ≡ true)) }
{
    let left = behind(bytes, front)?;
    let left = behind(left, b"\"")?;
    let (text, left) = plain_text(left)?;
    let left = behind(left, b"\"")?;
    Some((text, left))
}

/// The same of a text or null.
fn text_or_null_at<'a>(bytes: &'a [u8], front: &[u8]) -> Option<(Option<&'a str>, &'a [u8])>
    ensures { IfSome result (λ p.
        (bytes.entry.now ≡ front.now ++ (text_or_null (option_map (λ t. t.now) p.0) ++ p.1.now))
        × (is_plain_or_null (option_map (λ t. t.now) p.0) ≡ true)) }
{
    let left = behind(bytes, front)?;
    if let Some(left) = behind(left, b"null") {
        return Some((None, left));
    }
    let (text, left) = text_at(left, b"")?;
    Some((Some(text), left))
}

/// The same of a flag.
fn flag_at<'a>(bytes: &'a [u8], front: &[u8]) -> Option<(bool, &'a [u8])>
    ensures { IfSome result (λ p. bytes.entry.now ≡ front.now ++ (flag_text p.0 ++ p.1.now)) }
{
    let left = behind(bytes, front)?;
    if let Some(left) = behind(left, b"true") {
        return Some((true, left));
    }
    let left = behind(left, b"false")?;
    Some((false, left))
}

/// The same of what seems to be a list: up to the first bracket that closes one.
fn list_at<'a>(bytes: &'a [u8], front: &[u8]) -> Option<(&'a [u8], &'a [u8])>
    ensures { IfSome result (λ p. bytes.entry.now ≡ front.now ++ (p.0.now ++ p.1.now)) }
{
    let left = behind(bytes, front)?;
    let bracket = memchr(b']', left)?;
    Some(left.split_at(bracket + 1))
}

/// The package that a renamed dependency means: what stands behind the kind, up to the end.
fn real_name<'a>(bytes: &'a [u8]) -> Option<Option<&'a str>>
    ensures { IfSome result (λ o. (bytes.entry.now ≡ item_end (option_map (λ t. t.now) o))
        × (is_plain_or_null (option_map (λ t. t.now) o) ≡ true)) }
{
    if bytes == b"}".as_slice() {
        return Some(None);
    }
    let (name, left) = text_at(bytes, b",\"package\":")?;
    if left != b"}".as_slice() {
        return None;
    }
    Some(Some(name))
}
