//! The words of two sets over one large universe.

ghost use Rattle.std.specs.Prelude.{◌≡◌, ◌↔◌, IfOk, IsTrue, bit_and, bit_or, length};
ghost use Rattle.std.specs.Simd.Lanes.{zip2};
ghost use Rattle.version_sets.specs.inner.Forms.{HasWords, IsHull, IsHullAndEnds, IsNothingAt, IsOverlap, all_words};
ghost use Rattle.version_sets.specs.inner.Words.{all_zero, and_not};

use crate::kernels::{self, add_bits, keep_common};
use crate::window::Window;
use crate::word::words_for;
use std::alloc::{AllocError, Global};

/// The places between which the words of either set may be unlike those at its ends.
fn hull(a: &Window, b: &Window) -> (u32, u32)
    requires { a.now.universe ≡ b.now.universe }
    ensures { IsHull a.now b.now result.0 result.1 }
{
    if a.is_even() {
        return (b.first, b.end());
    }
    if b.is_even() {
        return (a.first, a.end());
    }
    (a.first.min(b.first), a.end().max(b.end()))
}

/// The same with one place more at either end, whose word is like all beyond it.
fn hull_and_ends(a: &Window, b: &Window) -> (u32, u32)
    requires { a.now.universe ≡ b.now.universe }
    ensures { IsHullAndEnds a.now b.now result.0 result.1 }
{
    let (first, last) = hull(a, b);
    (first.saturating_sub(1), words_for(a.universe).min(last + 1))
}

/// Words, with the bits of others added.
fn words_joined(mut words: Vec<u64>, others: &[u64]) -> Vec<u64>
    requires { length words.items ≡ length others.now }
    ensures { result.items ≡ zip2 bit_or words.items others.now }
{
    add_bits(&mut words, others);
    words
}

/// Words, without the bits that others lack.
fn words_common(mut words: Vec<u64>, others: &[u64]) -> Vec<u64>
    requires { length words.items ≡ length others.now }
    ensures { result.items ≡ zip2 bit_and words.items others.now }
{
    keep_common(&mut words, others);
    words
}

/// The bits that the words of either set have.
pub(crate) fn joined(alloc: Global, a: &Window, b: &Window) -> Result<Window, AllocError>
    requires { a.now.universe ≡ b.now.universe }
    ensures { IfOk result (HasWords a.now.universe (zip2 bit_or (all_words a.now) (all_words b.now))) }
{
    let (from, to) = hull(a, b);
    let words = a.between(alloc, from, to)?;
    let others = b.between(alloc, from, to)?;
    let whole = Window {
        universe: a.universe,
        low: a.low | b.low,
        first: from,
        words: words_joined(words, &others),
        high: a.high | b.high,
    };
    whole.narrowed(alloc)
}

/// The bits that the words of both sets have.
pub(crate) fn common(alloc: Global, a: &Window, b: &Window) -> Result<Window, AllocError>
    requires { a.now.universe ≡ b.now.universe }
    ensures { IfOk result (HasWords a.now.universe (zip2 bit_and (all_words a.now) (all_words b.now))) }
{
    let (from, to) = hull(a, b);
    let words = a.between(alloc, from, to)?;
    let others = b.between(alloc, from, to)?;
    let whole = Window {
        universe: a.universe,
        low: a.low & b.low,
        first: from,
        words: words_common(words, &others),
        high: a.high & b.high,
    };
    whole.narrowed(alloc)
}

/// The places from one on and below another that both windows keep, as many as there are.
fn overlap(a: &Window, b: &Window, from: u32, to: u32) -> (u32, u32)
    ensures { IsOverlap a.now b.now from to result.0 result.1 }
{
    let first = a.first.max(b.first).max(from).min(to);
    let end = a.end().min(b.end()).min(to);
    (first, end.max(first))
}

/// Whether the words of the second set have each bit of the first one's, from one place on and below another.
fn are_within_by_word(a: &Window, b: &Window, from: u32, to: u32) -> bool
    ensures { IsTrue result ↔ IsNothingAt and_not a.now b.now from to }
{
    'places: for place in from..to {
        if a.at(place) & !b.at(place) != 0 {
            return false;
        }
    }
    true
}

/// The same, with those words that both windows keep taken eight at a time.
fn are_within_at(a: &Window, b: &Window, from: u32, to: u32) -> bool
    ensures { IsTrue result ↔ IsNothingAt and_not a.now b.now from to }
{
    let (first, end) = overlap(a, b, from, to);
    if !are_within_by_word(a, b, from, first) {
        return false;
    }
    if !are_within_by_word(a, b, end, to) {
        return false;
    }
    kernels::are_within(a.own(first, end), b.own(first, end))
}

/// Whether the words of the second set have each bit of the first one's.
pub(crate) fn are_within(a: &Window, b: &Window) -> bool
    requires { a.now.universe ≡ b.now.universe }
    ensures { result ≡ all_zero (zip2 and_not (all_words a.now) (all_words b.now)) }
{
    let (from, to) = hull_and_ends(a, b);
    are_within_at(a, b, a.first_bits(from), a.last_bits(to))
}

/// Whether no bit is in the words of both, from one place on and below another.
fn are_disjoint_by_word(a: &Window, b: &Window, from: u32, to: u32) -> bool
    ensures { IsTrue result ↔ IsNothingAt bit_and a.now b.now from to }
{
    'places: for place in from..to {
        if a.at(place) & b.at(place) != 0 {
            return false;
        }
    }
    true
}

/// The same, with those words that both windows keep taken eight at a time.
fn are_disjoint_at(a: &Window, b: &Window, from: u32, to: u32) -> bool
    ensures { IsTrue result ↔ IsNothingAt bit_and a.now b.now from to }
{
    let (first, end) = overlap(a, b, from, to);
    if !are_disjoint_by_word(a, b, from, first) {
        return false;
    }
    if !are_disjoint_by_word(a, b, end, to) {
        return false;
    }
    kernels::are_disjoint(a.own(first, end), b.own(first, end))
}

/// Whether no bit is in the words of both.
pub(crate) fn are_disjoint(a: &Window, b: &Window) -> bool
    requires { a.now.universe ≡ b.now.universe }
    ensures { result ≡ all_zero (zip2 bit_and (all_words a.now) (all_words b.now)) }
{
    let (from, to) = hull_and_ends(a, b);
    are_disjoint_at(
        a,
        b,
        b.first_bits(a.first_bits(from)),
        b.last_bits(a.last_bits(to)),
    )
}
