//! Words of bits, eight at a time and the rest one by one.

ghost use Rattle.std.specs.Int.{bit_not, w64};
ghost use Rattle.std.specs.Prelude.{◌≡◌, ◌<◌, ◌≤◌, ◌+◌, ◌^◌, bit_and, bit_or, length, map};
ghost use Rattle.std.specs.Simd.Lanes.{chunk, put_chunk, zip2};
ghost use Rattle.version_sets.specs.inner.Words.{all_zero, and_not, ones_in};

use std::simd::prelude::*;

/// Keeps the bits that the other words have too.
pub(crate) fn keep_common(words: &mut [u64], other: &[u64])
    requires { length words.old ≡ length other.now }
    ensures { words.new ≡ zip2 bit_and words.old other.now }
{
    let blocks = words.len() / 8;
    'vectors: for block in 0..blocks {
        keep_common_block(words, other, block * 8);
    }
    'rest: for i in blocks * 8..words.len() {
        words[i] &= other[i];
    }
}

fn keep_common_block(words: &mut [u64], other: &[u64], at: usize)
    requires words { at + 8 ≤ length words.old }
    requires other { at + 8 ≤ length other.now }
    ensures { words.new ≡ put_chunk at words.old (zip2 bit_and (chunk at 8 words.old) (chunk at 8 other.now)) }
{
    let both = u64x8::from_slice(&words[at..]) & u64x8::from_slice(&other[at..]);
    both.copy_to_slice(&mut words[at..]);
}

/// Adds the bits that the other words have.
pub(crate) fn add_bits(words: &mut [u64], other: &[u64])
    requires { length words.old ≡ length other.now }
    ensures { words.new ≡ zip2 bit_or words.old other.now }
{
    let blocks = words.len() / 8;
    'vectors: for block in 0..blocks {
        add_bits_block(words, other, block * 8);
    }
    'rest: for i in blocks * 8..words.len() {
        words[i] |= other[i];
    }
}

fn add_bits_block(words: &mut [u64], other: &[u64], at: usize)
    requires words { at + 8 ≤ length words.old }
    requires other { at + 8 ≤ length other.now }
    ensures { words.new ≡ put_chunk at words.old (zip2 bit_or (chunk at 8 words.old) (chunk at 8 other.now)) }
{
    let either = u64x8::from_slice(&words[at..]) | u64x8::from_slice(&other[at..]);
    either.copy_to_slice(&mut words[at..]);
}

/// Turns every bit.
pub(crate) fn turn_bits(words: &mut [u64])
    ensures { words.new ≡ map (bit_not w64) words.old }
{
    let blocks = words.len() / 8;
    'vectors: for block in 0..blocks {
        turn_bits_block(words, block * 8);
    }
    'rest: for i in blocks * 8..words.len() {
        words[i] = !words[i];
    }
}

fn turn_bits_block(words: &mut [u64], at: usize)
    requires { at + 8 ≤ length words.old }
    ensures { words.new ≡ put_chunk at words.old (map (bit_not w64) (chunk at 8 words.old)) }
{
    let turned = !u64x8::from_slice(&words[at..]);
    turned.copy_to_slice(&mut words[at..]);
}

/// Whether the other words have each bit of these.
pub(crate) fn are_within(words: &[u64], other: &[u64]) -> bool
    requires { length words.now ≡ length other.now }
    ensures { result ≡ all_zero (zip2 and_not words.now other.now) }
{
    let blocks = words.len() / 8;
    'vectors: for block in 0..blocks {
        if !are_within_block(words, other, block * 8) {
            return false;
        }
    }
    'rest: for i in blocks * 8..words.len() {
        if words[i] & !other[i] != 0 {
            return false;
        }
    }
    true
}

fn are_within_block(words: &[u64], other: &[u64], at: usize) -> bool
    requires words { at + 8 ≤ length words.now }
    requires other { at + 8 ≤ length other.now }
    ensures { result ≡ all_zero (zip2 and_not (chunk at 8 words.now) (chunk at 8 other.now)) }
{
    let left = u64x8::from_slice(&words[at..]) & !u64x8::from_slice(&other[at..]);
    left.reduce_or() == 0
}

/// Whether no bit is in both.
pub(crate) fn are_disjoint(words: &[u64], other: &[u64]) -> bool
    requires { length words.now ≡ length other.now }
    ensures { result ≡ all_zero (zip2 bit_and words.now other.now) }
{
    let blocks = words.len() / 8;
    'vectors: for block in 0..blocks {
        if !are_disjoint_block(words, other, block * 8) {
            return false;
        }
    }
    'rest: for i in blocks * 8..words.len() {
        if words[i] & other[i] != 0 {
            return false;
        }
    }
    true
}

fn are_disjoint_block(words: &[u64], other: &[u64], at: usize) -> bool
    requires words { at + 8 ≤ length words.now }
    requires other { at + 8 ≤ length other.now }
    ensures { result ≡ all_zero (zip2 bit_and (chunk at 8 words.now) (chunk at 8 other.now)) }
{
    let both = u64x8::from_slice(&words[at..]) & u64x8::from_slice(&other[at..]);
    both.reduce_or() == 0
}

/// How many bits are set, word by word.
pub(crate) fn count_bits(words: &[u64]) -> u32
    requires { ones_in words.now < 2 ^ 32 }
    ensures { result ≡ ones_in words.now }
{
    let mut total = 0;
    'words: for word in words {
        total += word.count_ones();
    }
    total
}
