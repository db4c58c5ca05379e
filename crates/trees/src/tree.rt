//! A value in a text of JSON, and the items and members of one.
//!
//! It lies among the tokens of a tape; where the text is too long for one, in a value of `serde_json`'s.

ghost use Rattle.std.specs.Prelude.{◌≡◌, true};
ghost use Rattle.trees.specs.inner.Tokens.{begins, has_items, has_members};

use json::{Element, Items, Members};
use serde_json::Value;
use std::collections::btree_map;
use std::slice;

/// A value in a text that was read, which is looked into with no further reading. Contracts see the value that
/// `serde_json` reads there.
#[derive(Drop)]
pub enum Tree<'t, 'a> {
    Tokens(TreeTokens<'t, 'a>),
    Value(&'a Value),
}

/// The tokens that a value begins.
#[derive(Drop)]
pub struct TreeTokens<'t, 'a> {
    pub(crate) element: Element<'t, 'a>,
    ghost begins: { begins element ≡ true },
}

/// The items of an array that are left.
#[derive(Drop)]
pub enum Elements<'t, 'a> {
    Tokens(ItemTokens<'t, 'a>),
    Values(slice::Iter<'a, Value>),
}

/// The tokens that such items begin.
#[derive(Drop)]
pub struct ItemTokens<'t, 'a> {
    pub(crate) items: Items<'t, 'a>,
    ghost has_items: { has_items items ≡ true },
}

/// The members of an object that are left: in the order of the text, or of their keys.
#[derive(Drop)]
pub enum Entries<'t, 'a> {
    Tokens(MemberTokens<'t, 'a>),
    Values(btree_map::Iter<'a, String, Value>),
}

/// The tokens that such members begin.
#[derive(Drop)]
pub struct MemberTokens<'t, 'a> {
    pub(crate) members: Members<'t, 'a>,
    ghost has_members: { has_members members ≡ true },
}
