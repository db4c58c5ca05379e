//! Looking into a value.

ghost use Rattle.std.specs.Prelude.{◌≡◌, [], IfOk, option_map, option_and_then};
ghost use Rattle.std.specs.Cmp.Lexicographic.{slice_cmp};
ghost use Rattle.std.specs.Ordering.{is_lt, nat_cmp};
ghost use Rattle.serde_json.specs.Find.{get, at, as_str, as_bool, as_array, as_object, as_number, as_u64};
ghost use Rattle.trees.specs.Trees.{is_null, num_of, tree_view, trees_view, entries_view, rise_after, sorted_view};

use crate::listing::{elements, entries, next_element, next_entry};
use crate::number::number_of;
use crate::tree::{Tree, TreeTokens};
use std::alloc::{AllocError, Global};
use std::collections::BTreeMap;

/// The members of an object, in the order in which `entries` gives them.
pub type Members<'t, 'a> = Vec<(&'a str, Tree<'t, 'a>)>;

/// The value at a key, if the tree is an object that has one.
pub fn member<'t, 'a>(tree: &Tree<'t, 'a>, key: &str) -> Option<Tree<'t, 'a>>
    ensures { option_map tree_view result ≡ get key.now (tree_view tree.now) }
{
    match tree {
        Tree::Tokens(tokens) => match tokens.element.get(key) {
            Some(element) => Some(Tree::Tokens(TreeTokens { element })),
            None => None,
        },
        Tree::Value(value) => match value.get(key) {
            Some(value) => Some(Tree::Value(value)),
            None => None,
        },
    }
}

/// The item of this number, if the tree is an array that has one.
pub fn item<'t, 'a>(tree: &Tree<'t, 'a>, index: usize) -> Option<Tree<'t, 'a>>
    ensures { option_map tree_view result ≡ at index (tree_view tree.now) }
{
    match tree {
        Tree::Tokens(tokens) => match tokens.element.at(index) {
            Some(element) => Some(Tree::Tokens(TreeTokens { element })),
            None => None,
        },
        Tree::Value(value) => match value.get(index) {
            Some(value) => Some(Tree::Value(value)),
            None => None,
        },
    }
}

/// Whether the tree is null.
pub fn is_null(tree: &Tree<'_, '_>) -> bool
    ensures { result ≡ is_null (tree_view tree.now) }
{
    match tree {
        Tree::Tokens(tokens) => tokens.element.is_null(),
        Tree::Value(value) => value.is_null(),
    }
}

/// The text that a tree is, if it is one.
pub fn as_text<'a>(tree: &Tree<'_, 'a>) -> Option<&'a str>
    ensures { option_map (λ s. s.now) result ≡ as_str (tree_view tree.now) }
{
    match tree {
        Tree::Tokens(tokens) => tokens.element.as_str(),
        Tree::Value(value) => value.as_str(),
    }
}

/// The flag that a tree is, if it is one.
pub fn as_flag(tree: &Tree<'_, '_>) -> Option<bool>
    ensures { result ≡ as_bool (tree_view tree.now) }
{
    match tree {
        Tree::Tokens(tokens) => tokens.element.as_bool(),
        Tree::Value(value) => value.as_bool(),
    }
}

/// The whole number that a tree is, if it is one.
pub fn as_whole(tree: &Tree<'_, '_>) -> Option<u64>
    ensures { result ≡ option_and_then as_u64 (as_number (tree_view tree.now)) }
{
    match tree {
        Tree::Tokens(tokens) => match tokens.element.as_number() {
            Some(text) => whole_of(text),
            None => None,
        },
        Tree::Value(value) => value.as_u64(),
    }
}

fn whole_of(text: &str) -> Option<u64>
    ensures { result ≡ as_u64 (num_of text.now) }
{
    match number_of(text) {
        Some(number) => number.as_u64(),
        None => None,
    }
}

/// The items of a tree that is an array.
pub fn as_list<'t, 'a>(
    alloc: Global,
    tree: &Tree<'t, 'a>,
) -> Result<Option<Vec<Tree<'t, 'a>>>, AllocError>
    ensures { IfOk result (λ o. option_map (λ v. trees_view v.items) o ≡ as_array (tree_view tree.now)) }
{
    let Some(mut elements) = elements(tree) else {
        return Ok(None);
    };
    let mut found = Vec::new(alloc);
    'items: while let Some(item) = next_element(&mut elements) {
        found.push(item)?;
    }
    Ok(Some(found))
}

/// The members of a tree that is an object.
pub fn as_members<'t, 'a>(
    alloc: Global,
    tree: &Tree<'t, 'a>,
) -> Result<Option<Members<'t, 'a>>, AllocError>
    ensures { IfOk result (λ o. option_map (λ v. entries_view v.items) o ≡ as_object (tree_view tree.now)) }
{
    let Some(mut entries) = entries(tree) else {
        return Ok(None);
    };
    let mut found = Vec::new(alloc);
    'members: while let Some(entry) = next_entry(&mut entries) {
        found.push(entry)?;
    }
    Ok(Some(found))
}

/// Whether each key comes after the one before it, as those of a registry do: then the members are sorted, and no key
/// comes twice.
pub fn are_rising(members: &Members<'_, '_>) -> bool
    ensures { result ≡ rise_after [] members.now.items }
{
    let mut before = "";
    'members: for member in members {
        if !comes_before(before, member.0) {
            return false;
        }
        before = member.0;
    }
    true
}

fn comes_before(key: &str, next: &str) -> bool
    ensures { result ≡ is_lt (slice_cmp nat_cmp key.now next.now) }
{
    key < next
}

/// The members by their keys: of a key that comes twice the last stays.
pub fn by_key<'v, 't, 'a>(
    alloc: Global,
    members: &'v Members<'t, 'a>,
) -> Result<BTreeMap<&'a str, &'v Tree<'t, 'a>>, AllocError>
    ensures { IfOk result (λ m. sorted_view m.entries ≡ entries_view members.entry.now.items) }
{
    let mut sorted = BTreeMap::new(alloc);
    'members: for member in members {
        sorted.insert(member.0, &member.1)?;
    }
    Ok(sorted)
}
