//! Reading a text of JSON: into a flat list of its tokens, or, where it is too long for that, into a value.

ghost use Rattle.std.specs.Prelude.{◌≡◌, ◌≤◌, ℕ, List, map, is_some, IsSome};
ghost use Rattle.std.specs.Option.{ok_or};
ghost use Rattle.json.specs.Json.{document, max_depth};
ghost use Rattle.json.specs.Lex.{tokens};
ghost use Rattle.json.specs.Tape.{node_token};
ghost use Rattle.model.specs.Outcome.{Gives};
ghost use Rattle.trees.specs.inner.Parts.{data_within, read_within};
ghost use Rattle.trees.specs.Trees.{wants_memory, data_of_bytes, text_view, tree_view};

use crate::fault::TreeFault;
use crate::number::number_of;
use crate::tree::{Tree, TreeTokens};
use json::{Error, Node, Tape};
use serde_json::Value;
use simdutf8::basic::from_utf8;
use std::alloc::Global;

/// How long a text is at most that is read as a tape, whose places have 32 bits.
pub const MAX_LEN: usize = json::MAX_LEN;

/// How deep arrays and objects nest at most in a text that `serde_json` reads.
const MAX_DEPTH: usize = 127;

/// The room that reading takes, which is kept from text to text.
#[derive(Drop)]
pub struct Scratch {
    tape: json::Scratch,
    /// What a text is that is too long for a tape.
    long: Value,
}

impl Scratch {
    pub fn new(alloc: Global) -> Scratch {
        Scratch {
            tape: json::Scratch::new(alloc),
            long: Value::Null,
        }
    }
}

/// A text that was read. Contracts see the value that `serde_json` reads off it.
#[derive(Drop)]
pub enum TextRead<'a> {
    Tape(Tape<'a>),
    Long(&'a Value),
}

/// The JSON value that bytes are: as their tokens, unless they are too long for a tape.
///
/// # Errors
/// `NotJson` just where `serde_json` reads no value off them.
pub fn read_text<'a>(
    alloc: Global,
    bytes: &'a [u8],
    scratch: &'a mut Scratch,
) -> Result<TextRead<'a>, TreeFault>
    ensures { Gives wants_memory text_view result (ok_or (data_of_bytes bytes.entry.now) TreeFault.NotJson) }
{
    if bytes.len() > MAX_LEN {
        return read_long(alloc, bytes, &mut scratch.long);
    }
    read_short(alloc, bytes, scratch, MAX_DEPTH)
}

/// The same of bytes in which arrays and objects may nest so deep alone, as in what is to be a part of a text.
///
/// # Errors
/// `NotJson` also where they nest deeper. More than `MAX_LEN` bytes aren't read: the answer is then `OutOfMemory`.
pub fn read_short<'a>(
    alloc: Global,
    bytes: &'a [u8],
    scratch: &'a mut Scratch,
    depth: usize,
) -> Result<TextRead<'a>, TreeFault>
    requires { depth ≤ max_depth }
    ensures { Gives wants_memory text_view result (ok_or (data_within depth bytes.entry.now) TreeFault.NotJson) }
{
    let Ok(text) = from_utf8(bytes) else {
        return Err(TreeFault::NotJson);
    };
    let tape = match Tape::parse(text, &mut scratch.tape, Vec::new(alloc)) {
        Ok(tape) => tape,
        Err(Error::Invalid) => return Err(TreeFault::NotJson),
        Err(_) => return Err(TreeFault::OutOfMemory),
    };
    if !are_read(tape.nodes(), depth) {
        return Err(TreeFault::NotJson);
    }
    Ok(TextRead::Tape(tape))
}

/// The same of bytes of any length, as a value that is kept here.
fn read_long<'a>(
    alloc: Global,
    bytes: &[u8],
    kept: &'a mut Value,
) -> Result<TextRead<'a>, TreeFault>
    ensures { Gives wants_memory text_view result (ok_or (data_of_bytes bytes.now) TreeFault.NotJson) }
{
    match Value::from_slice(alloc, bytes) {
        Ok(value) => {
            *kept = value;
            Ok(TextRead::Long(kept))
        }
        Err(e) => {
            if e.is_memory() {
                Err(TreeFault::OutOfMemory)
            } else {
                Err(TreeFault::NotJson)
            }
        }
    }
}

/// The value that a text is.
pub fn root<'t, 'a>(text: &'t TextRead<'a>) -> Tree<'t, 'a>
    ensures { tree_view result ≡ text_view text.entry.now }
{
    match text {
        TextRead::Tape(tape) => Tree::Tokens(TreeTokens {
            element: tape.root(),
        }),
        TextRead::Long(value) => Tree::Value(value),
    }
}

/// Whether `serde_json` reads a text with these tokens, which `json` reads, if no more than `depth` arrays and objects
/// may be open at once: no more are, and each number is one that can be kept.
#[tactic(auto, unfolding(crate::proofs::TokenLemmas::fit_within))]
fn are_read(nodes: &[Node<'_>], depth: usize) -> bool
    requires { depth ≤ max_depth }
    ensures { (text : List ℕ) → map node_token nodes.now ≡ tokens text → IsSome (document text)
        → result ≡ is_some (read_within depth text) }
{
    let mut left = depth;
    'nodes: for node in nodes {
        match node {
            Node::Object(_) | Node::Array(_) => {
                if left == 0 {
                    return false;
                }
                left -= 1;
            }
            Node::EndObject | Node::EndArray => left += 1,
            Node::Number(text) => {
                if number_of(text).is_none() {
                    return false;
                }
            }
            Node::Key(_) | Node::String(_) | Node::Bool(_) | Node::Null => {}
        }
    }
    true
}
