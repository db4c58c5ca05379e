//! Sets of numbers below a universe: the trait that the search stands on, and two bodies of it.
//!
//! PubGrub speaks of a package by a range of versions. Here a vertex has finitely many states with numbers, so what it
//! may be is a set of numbers, and each question of the search is one of set algebra: does this lie inside that, do the
//! two meet, what is left. The trait `States` is this algebra. Its contracts say each call as one operation on the list
//! of a set's tests (`specs/Sets`), whatever the body, so the crates above are proved once, for any body.
//!
//! What is hard is that a search makes and compares very many sets. So a set of `WordStates`, the body of the runs, is
//! bits in words: a universe of at most 64 numbers takes one word in place, 16 bytes, no heap and no loop.
//! `ListStates`, a rising list, is the plain body that tests hold it against.
//!
//! The words of a larger universe lie behind a pointer: the first one, and of the others only a window (`window.rt`).
//! The words before it are all empty or all full, and so are those behind it. For nearly all sets of a search are one
//! version, all but one, all from one on or all below one. With every word kept, n versions that fall away one by one
//! would be n sets of n bits; so they are n sets of a word or two each. The first word lies apart (`wide.rt`) since
//! number 0 of a vertex is "absent": what a needed package may be lacks it, and has as a rule all numbers up to one.
//! `windows.rt` makes and reads windows, `combining.rt` combines and compares two; where both have words, these are
//! combined and compared eight at a time (`kernels.rt`).
//!
//! A set of words takes 16 bytes, also where its words lie elsewhere: a struct in a `Box`. `of_tests` is there for
//! axioms, which name sets of many states, since a union of single ones costs the whole set each time; `of_range` for
//! sets of neighbours, of which it makes no words but those that the set keeps.
//!
//! A layer above may rely on this: both bodies give equal answers, since both meet the one contract; a call that makes
//! no set takes no memory; and all that it has to see to is that two sets which meet in a call have one universe, of at
//! most 65,536 numbers.
#![tactic(auto)]

mod combining;
mod kernels;
mod list;
mod states;
mod wide;
mod window;
mod windows;
mod word;
mod words;

pub use list::ListStates;
pub use states::States;
pub use words::WordStates;
