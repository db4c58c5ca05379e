//! How large what a search keeps is, where sets are words.

use std::mem::size_of;
use terms::Term;
use version_sets::WordStates;

// An entry of n terms of one word takes 24 bytes for each, and 24 for its place and the states in the index.
const _: () = prove!(size_of::<Term<WordStates>>() == 24);
