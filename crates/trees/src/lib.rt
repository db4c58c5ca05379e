//! JSON whose texts are borrowed, which stands for the values that `serde_json` reads.
//!
//! An index has many lines with many texts, and so has a long derivation. The definition of a line goes by the value
//! that `serde_json` reads; to make that value would copy each text and sort each object's keys. So `read_text` gives
//! the tokens of a line in a row, by the crate `json`, whose texts are borrowed from the line; a `Tree` is a value
//! among them, which is looked into where it lies, and members stand as in the text. A tape's places have 32 bits: a
//! text of 4 GiB is read by `serde_json`, and a `Tree` is then a part of its value.
//!
//! What is hard is that both mean the same: how deep a text may nest, which numbers fit, and that of a key which comes
//! twice the last one counts. That is proved here once (`tree_view`), and readers go on to speak of `serde_json`'s
//! value alone.
//!
//! A layer above may rely on this: what is read stands for exactly that value, or there is none (`NotJson`) just where
//! `serde_json` reads none; `member`, `item` and the like give what that value has there.
#![tactic(auto)]

mod blank;
mod fault;
mod listing;
mod looking;
mod number;
mod parts;
mod reading;
mod tree;

pub use blank::is_blank;
pub use fault::TreeFault;
pub use listing::{elements, entries, next_element, next_entry};
pub use looking::{
    Members, are_rising, as_flag, as_list, as_members, as_text, as_whole, by_key, is_null, item,
    member,
};
pub use parts::{
    lines_are_read_by_parts, lines_have_what_parts_have, lists_are_read_by_items,
    objects_are_read_by_members, plain_texts_are_read_as_they_stand, rising_members_stay,
    words_are_read_as_they_stand,
};
pub use reading::{MAX_LEN, Scratch, TextRead, read_short, read_text, root};
pub use tree::{Elements, Entries, ItemTokens, MemberTokens, Tree, TreeTokens};
