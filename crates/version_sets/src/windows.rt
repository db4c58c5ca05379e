//! What a window of words stands for, and how one is made.

ghost use Rattle.std.specs.Int.{bit_not, w64};
ghost use Rattle.std.specs.List.{range_with_len};
ghost use Rattle.std.specs.Prelude.{◌≡◌, ◌≤◌, ◌<◌, ◌+◌, ◌-◌, ◌^◌, IfOk, IsTrue, ℕ};
ghost use Rattle.std.specs.Prelude.{bit_and, drop, false, length, map, slice_index, take, true};
ghost use Rattle.std.specs.Simd.Lanes.{chunk, zip2};
ghost use Rattle.version_sets.specs.inner.Forms.{HasWords, IsWindow, Keeps, all_words};
ghost use Rattle.version_sets.specs.inner.Windows.{AreEnds, IsFlanked, flank, flank_word, full_word, words_for};
ghost use Rattle.version_sets.specs.inner.Words.{and_not, ones_in};
ghost use Rattle.version_sets.specs.Sets.{between};

use crate::kernels::{count_bits, turn_bits};
use crate::window::Window;
use crate::word::{flank_word, full_word, range_word, words_for};
use std::alloc::{AllocError, Global};

/// The words from one place on and below another, of the numbers from one on and below another.
fn range_words(
    alloc: Global,
    from: u32,
    to: u32,
    first: u32,
    end: u32,
) -> Result<Vec<u64>, AllocError>
    requires { first ≤ end }
    ensures { IfOk result (λ v.
        v.items ≡ map (λ k. and_not (full_word to k) (full_word from k)) (range_with_len first (end - first))) }
{
    let mut words = Vec::with_capacity(alloc, (end - first) as usize)?;
    'places: for place in first..end {
        words.push(range_word(from, to, place))?;
    }
    Ok(words)
}

/// The places from one on and below another whose words the numbers from one on and below another need.
fn range_places(universe: u32, from: u32, to: u32) -> (u32, u32)
    requires rising { from < to }
    requires within { to ≤ universe }
    ensures { AreEnds universe from to result.0 result.1 }
{
    if to == universe {
        return (from / 64, from / 64 + 1);
    }
    if from == 0 {
        return (to / 64, to / 64 + 1);
    }
    (from / 64, to / 64 + 1)
}

impl Window {
    /// All words, none of which has a neighbour that stands for it yet.
    pub(crate) fn of_words(
        alloc: Global,
        universe: u32,
        words: Vec<u64>,
    ) -> Result<Window, AllocError>
        requires large { 0 < universe }
        requires small { universe ≤ 65536 }
        requires long { length words.items ≡ words_for universe }
        ensures { IfOk result (HasWords universe words.items) }
    {
        let whole = Window {
            universe,
            low: false,
            first: 0,
            words,
            high: false,
        };
        whole.narrowed(alloc)
    }

    /// The numbers from one on and below another, in one word where they begin or end with the universe.
    pub(crate) fn of_range(
        alloc: Global,
        universe: u32,
        from: u32,
        to: u32,
    ) -> Result<Window, AllocError>
        requires large { 0 < universe }
        requires small { universe ≤ 65536 }
        requires rising { from < to }
        requires within { to ≤ universe }
        ensures { IfOk result (IsWindow universe (between universe from to)) }
    {
        let (first, end) = range_places(universe, from, to);
        Ok(Window {
            universe,
            low: from == 0,
            first,
            words: range_words(alloc, from, to, first, end)?,
            high: to == universe,
        })
    }

    /// No number or every one.
    pub(crate) fn even(alloc: Global, universe: u32, is_full: bool) -> Window
        requires large { 0 < universe }
        requires small { universe ≤ 65536 }
        ensures { HasWords universe (flank universe is_full) result }
    {
        Window {
            universe,
            low: is_full,
            first: 0,
            words: Vec::new(alloc),
            high: is_full,
        }
    }

    /// The place behind the window.
    pub(crate) fn end(&self) -> u32
        ensures { result ≡ self.now.first + length self.now.words.items }
    {
        self.first + self.words.len() as u32
    }

    /// One of the words, 0 past the last.
    pub(crate) fn at(&self, place: u32) -> u64
        ensures { result ≡ slice_index (all_words self.now) place }
    {
        if place < self.first {
            return flank_word(self.universe, self.low, place);
        }
        let inside = (place - self.first) as usize;
        if inside < self.words.len() {
            return self.words[inside];
        }
        flank_word(self.universe, self.high, place)
    }

    /// The words from one place on and below another.
    pub(crate) fn between(&self, alloc: Global, from: u32, to: u32) -> Result<Vec<u64>, AllocError>
        requires rising { from ≤ to }
        requires within { to ≤ words_for self.now.universe }
        ensures { IfOk result (λ v. v.items ≡ chunk from (to - from) (all_words self.now)) }
    {
        let mut words = Vec::with_capacity(alloc, (to - from) as usize)?;
        'places: for place in from..to {
            words.push(self.at(place))?;
        }
        Ok(words)
    }

    /// The window's own words from one place on and below another.
    pub(crate) fn own(&self, first: u32, end: u32) -> &[u64]
        requires { Keeps self.now first end }
        ensures { result.now ≡ chunk first (end - first) (all_words self.now) }
    {
        if end <= first {
            return &self.words[..0];
        }
        &self.words[(first - self.first) as usize..(end - self.first) as usize]
    }

    /// The first place of the window whose word is unlike those before it, or the window's end.
    fn unlike_from(&self) -> u32
        ensures first { self.now.first ≤ result }
        ensures end { result ≤ self.now.first + length self.now.words.items }
        ensures before { (k : ℕ) → k < result
            → slice_index (all_words self.now) k ≡ flank_word self.now.universe self.now.low k }
    {
        'places: for place in self.first..self.end() {
            if self.at(place) != flank_word(self.universe, self.low, place) {
                return place;
            }
        }
        self.end()
    }

    /// The place behind the last word of the window, from a place on, that is unlike those behind it.
    fn unlike_to(&self, from: u32) -> u32
        requires { from ≤ self.now.first + length self.now.words.items }
        ensures from { from ≤ result }
        ensures end { result ≤ self.now.first + length self.now.words.items }
        ensures behind { (k : ℕ) → result ≤ k
            → slice_index (all_words self.now) k ≡ flank_word self.now.universe self.now.high k }
    {
        let end = self.end();
        'places: for back in 0..end - from {
            let place = end - 1 - back;
            if self.at(place) != flank_word(self.universe, self.high, place) {
                return place + 1;
            }
        }
        from
    }

    /// The same words, the fewest in the window.
    pub(crate) fn narrowed(self, alloc: Global) -> Result<Window, AllocError>
        ensures { IfOk result (HasWords self.universe (all_words self)) }
    {
        let whole = self.settled();
        let from = whole.unlike_from();
        let to = whole.unlike_to(from);
        if to - from == whole.words.len() as u32 {
            return Ok(whole);
        }
        Ok(Window {
            universe: whole.universe,
            low: whole.low,
            first: from,
            words: whole.between(alloc, from, to)?,
            high: whole.high,
        })
    }

    /// The same words: an end that the window reaches has none beyond, so it may be as the window's word there is.
    fn settled(self) -> Window
        ensures { HasWords self.universe (all_words self) result }
    {
        let low = self.low_end();
        let high = self.high_end();
        Window {
            universe: self.universe,
            low,
            first: self.first,
            words: self.words,
            high,
        }
    }

    /// Whether the words before the window may be said to be full.
    fn low_end(&self) -> bool
        ensures { 0 < self.now.first → result ≡ self.now.low }
    {
        if self.first > 0 {
            return self.low;
        }
        self.at(0) == full_word(self.universe, 0)
    }

    /// Whether the words behind the window may be said to be full.
    fn high_end(&self) -> bool
        ensures { self.now.first + length self.now.words.items < words_for self.now.universe → result ≡ self.now.high }
    {
        let last = words_for(self.universe) - 1;
        if self.end() <= last {
            return self.high;
        }
        self.at(last) == full_word(self.universe, last)
    }

    /// A place before which, from another on, the words have no bit.
    pub(crate) fn first_bits(&self, from: u32) -> u32
        ensures { (k : ℕ) → from ≤ k → k < result → slice_index (all_words self.now) k ≡ 0 }
    {
        if self.low {
            return from;
        }
        from.max(self.first)
    }

    /// A place from which on, below another, the words have no bit.
    pub(crate) fn last_bits(&self, to: u32) -> u32
        ensures within { result ≤ to }
        ensures none { (k : ℕ) → result ≤ k → k < to → slice_index (all_words self.now) k ≡ 0 }
    {
        if self.high {
            return to;
        }
        to.min(self.end())
    }

    /// Whether all words are alike.
    pub(crate) fn is_even(&self) -> bool
        ensures { IsTrue result → (from to : ℕ)
            → IsFlanked self.now.universe self.now.low self.now.high (all_words self.now) from to }
    {
        if !self.words.is_empty() {
            return false;
        }
        self.low == self.high
    }

    /// The same again.
    pub(crate) fn copy(&self, alloc: Global) -> Result<Window, AllocError>
        ensures { IfOk result (HasWords self.now.universe (all_words self.now)) }
    {
        Ok(Window {
            universe: self.universe,
            low: self.low,
            first: self.first,
            words: Vec::from_slice(alloc, &self.words)?,
            high: self.high,
        })
    }

    /// The words of the numbers that these lack.
    pub(crate) fn turned(&self, alloc: Global) -> Result<Window, AllocError>
        ensures { IfOk result (HasWords self.now.universe
            (zip2 bit_and (map (bit_not w64) (all_words self.now)) (flank self.now.universe true))) }
    {
        Ok(Window {
            universe: self.universe,
            low: !self.low,
            first: self.first,
            words: turned_words(alloc, &self.words, self.universe, self.first)?,
            high: !self.high,
        })
    }

    /// How many numbers the words before the window have.
    fn count_before(&self) -> u32
        ensures { result ≡ ones_in (take self.now.first (flank self.now.universe self.now.low)) }
    {
        if !self.low {
            return 0;
        }
        self.universe.min(64 * self.first)
    }

    /// How many numbers the words behind the window have.
    fn count_behind(&self) -> u32
        ensures { result ≡ ones_in
            (drop (self.now.first + length self.now.words.items) (flank self.now.universe self.now.high)) }
    {
        if !self.high {
            return 0;
        }
        self.universe.saturating_sub(64 * self.end())
    }

    /// How many numbers all words have.
    pub(crate) fn count(&self) -> u32
        requires { ones_in (all_words self.now) < 2 ^ 32 }
        ensures { result ≡ ones_in (all_words self.now) }
    {
        self.count_before() + count_bits(&self.words) + self.count_behind()
    }
}

/// The words from a place on, with each bit below the universe turned.
fn turned_words(
    alloc: Global,
    words: &[u64],
    universe: u32,
    first: u32,
) -> Result<Vec<u64>, AllocError>
    requires { first + length words.now ≤ words_for universe }
    ensures { IfOk result (λ v. v.items
        ≡ zip2 bit_and (map (bit_not w64) words.now) (chunk first (length words.now) (flank universe true))) }
{
    let mut turned = Vec::from_slice(alloc, words)?;
    turn_below(&mut turned, universe, first);
    Ok(turned)
}

/// Turns each bit below the universe of the words from a place on.
fn turn_below(words: &mut [u64], universe: u32, first: u32)
    requires { first + length words.old ≤ words_for universe }
    ensures { words.new
        ≡ zip2 bit_and (map (bit_not w64) words.old) (chunk first (length words.old) (flank universe true)) }
{
    turn_bits(words);
    cut_last(words, universe, first);
}

/// Clears the bits at and past the universe, where the words from a place on reach its last word.
fn cut_last(words: &mut [u64], universe: u32, first: u32)
    requires ends { first + length words.old ≤ words_for universe }
    requires fits { (k : ℕ) → slice_index words.old k < 2 ^ 64 }
    ensures { words.new ≡ zip2 bit_and words.old (chunk first (length words.old) (flank universe true)) }
{
    let count = words.len();
    if count == 0 {
        return;
    }
    let place = count - 1;
    let last = words_for(universe) - 1;
    // A bit that is no member's would be counted.
    if first + place as u32 == last {
        words[place] &= full_word(universe, last);
    }
}
