//! The items of an array and the members of an object, one after another.

ghost use Rattle.std.specs.Prelude.{◌≡◌, option_map};
ghost use Rattle.serde_json.specs.Data.{no_members};
ghost use Rattle.serde_json.specs.Find.{as_array, as_object};
ghost use Rattle.trees.specs.inner.Parts.{members_put};
ghost use Rattle.trees.specs.Trees.{IsNext, IsNextItem, left, left_items, tree_view};

use crate::tree::{Elements, Entries, ItemTokens, MemberTokens, Tree, TreeTokens};

/// The items of a tree that is an array.
pub fn elements<'t, 'a>(tree: &Tree<'t, 'a>) -> Option<Elements<'t, 'a>>
    ensures { option_map left_items result ≡ as_array (tree_view tree.now) }
{
    match tree {
        Tree::Tokens(tokens) => match tokens.element.items() {
            Some(items) => Some(Elements::Tokens(ItemTokens { items })),
            None => None,
        },
        Tree::Value(value) => match value.as_array() {
            Some(items) => Some(Elements::Values(items.iter())),
            None => None,
        },
    }
}

/// The first item that is left, which then isn't any more.
pub fn next_element<'t, 'a>(elements: &mut Elements<'t, 'a>) -> Option<Tree<'t, 'a>>
    ensures { IsNextItem (left_items elements.old) (option_map tree_view result) (left_items elements.new) }
{
    match elements {
        Elements::Tokens(tokens) => match tokens.items.next() {
            Some(element) => Some(Tree::Tokens(TreeTokens { element })),
            None => None,
        },
        Elements::Values(items) => match items.next() {
            Some(value) => Some(Tree::Value(value)),
            None => None,
        },
    }
}

/// The members of a tree that is an object.
pub fn entries<'t, 'a>(tree: &Tree<'t, 'a>) -> Option<Entries<'t, 'a>>
    ensures { option_map (λ e. members_put (left e) no_members) result ≡ as_object (tree_view tree.now) }
{
    match tree {
        Tree::Tokens(tokens) => match tokens.element.members() {
            Some(members) => Some(Entries::Tokens(MemberTokens { members })),
            None => None,
        },
        Tree::Value(value) => match value.as_object() {
            Some(members) => Some(Entries::Values(members.iter())),
            None => None,
        },
    }
}

/// The first member that is left, which then isn't any more.
pub fn next_entry<'t, 'a>(entries: &mut Entries<'t, 'a>) -> Option<(&'a str, Tree<'t, 'a>)>
    ensures { IsNext (left entries.old) (option_map (λ m. (m.0.now, tree_view m.1)) result) (left entries.new) }
{
    match entries {
        Entries::Tokens(tokens) => match tokens.members.next() {
            Some((key, element)) => Some((key, Tree::Tokens(TreeTokens { element }))),
            None => None,
        },
        Entries::Values(members) => match members.next() {
            Some((key, value)) => Some((key.as_str(), Tree::Value(value))),
            None => None,
        },
    }
}
