//! The words of a set over a large universe: the first one apart, and a window of the others.

ghost use Rattle.std.specs.Int.{bit_not, w64};
ghost use Rattle.std.specs.Prelude.{◌≡◌, ◌≤◌, ◌<◌, ◌^◌, IfOk, bit_and, bit_or, length, map, slice_index, true};
ghost use Rattle.std.specs.Simd.Lanes.{zip2};
ghost use Rattle.version_sets.specs.inner.Forms.{HasWideWords, IsWide, IsWindow, universe_of, wide_words};
ghost use Rattle.version_sets.specs.inner.Windows.{flank, words_for};
ghost use Rattle.version_sets.specs.inner.Words.{all_zero, and_not, ones_in};
ghost use Rattle.version_sets.specs.Sets.{between};

use crate::combining::{are_disjoint, are_within, common, joined};
use crate::window::Window;
use crate::word::{flank_word, range_word};
use std::alloc::{AllocError, Global};

/// The words of a set whose universe has more than one: that of the numbers below 64, and those of the others.
///
/// A vertex has "absent" as its number 0. So what is left to a package that is needed is as a rule every version up to
/// one, but not that number, and with the first word in it the window would go over all of these.
#[derive(Drop)]
pub(crate) struct Wide {
    head: u64,
    rest: Window,
}

/// The numbers from one on and below another, where there may be none.
fn rest_of_range(alloc: Global, universe: u32, from: u32, to: u32) -> Result<Window, AllocError>
    requires large { 0 < universe }
    requires small { universe ≤ 65536 }
    requires rising { from ≤ to }
    requires within { to ≤ universe }
    ensures { IfOk result (IsWindow universe (between universe from to)) }
{
    if from == to {
        return Ok(Window::even(alloc, universe, false));
    }
    Window::of_range(alloc, universe, from, to)
}

impl Wide {
    /// All words.
    pub(crate) fn of_words(alloc: Global, universe: u32, words: &[u64]) -> Result<Wide, AllocError>
        requires large { 64 < universe }
        requires small { universe ≤ 65536 }
        requires long { length words.now ≡ words_for universe }
        ensures { IfOk result (HasWideWords universe words.now) }
    {
        let others = Vec::from_slice(alloc, &words[1..])?;
        Ok(Wide {
            head: words[0],
            rest: Window::of_words(alloc, universe - 64, others)?,
        })
    }

    /// The numbers from one on and below another.
    pub(crate) fn of_range(
        alloc: Global,
        universe: u32,
        from: u32,
        to: u32,
    ) -> Result<Wide, AllocError>
        requires large { 64 < universe }
        requires small { universe ≤ 65536 }
        requires rising { from ≤ to }
        requires within { to ≤ universe }
        ensures { IfOk result (IsWide universe (between universe from to)) }
    {
        let rest = rest_of_range(
            alloc,
            universe - 64,
            from.saturating_sub(64),
            to.saturating_sub(64),
        )?;
        Ok(Wide {
            head: range_word(from, to, 0),
            rest,
        })
    }

    /// No number or every one.
    pub(crate) fn even(alloc: Global, universe: u32, is_full: bool) -> Wide
        requires large { 64 < universe }
        requires small { universe ≤ 65536 }
        ensures { HasWideWords universe (flank universe is_full) result }
    {
        Wide {
            head: flank_word(universe, is_full, 0),
            rest: Window::even(alloc, universe - 64, is_full),
        }
    }

    /// The universe of the set.
    pub(crate) fn universe(&self) -> u32
        ensures { result ≡ universe_of self.now }
    {
        64 + self.rest.universe
    }

    /// One of the words, 0 past the last.
    pub(crate) fn at(&self, place: u32) -> u64
        ensures { result ≡ slice_index (wide_words self.now) place }
    {
        if place == 0 {
            return self.head;
        }
        self.rest.at(place - 1)
    }

    /// The same again.
    pub(crate) fn copy(&self, alloc: Global) -> Result<Wide, AllocError>
        ensures { IfOk result (HasWideWords (universe_of self.now) (wide_words self.now)) }
    {
        Ok(Wide {
            head: self.head,
            rest: self.rest.copy(alloc)?,
        })
    }

    /// The bits that the words of either set have.
    pub(crate) fn joined(&self, alloc: Global, other: &Wide) -> Result<Wide, AllocError>
        requires { universe_of self.now ≡ universe_of other.now }
        ensures { IfOk result
            (HasWideWords (universe_of self.now) (zip2 bit_or (wide_words self.now) (wide_words other.now))) }
    {
        Ok(Wide {
            head: self.head | other.head,
            rest: joined(alloc, &self.rest, &other.rest)?,
        })
    }

    /// The bits that the words of both sets have.
    pub(crate) fn common(&self, alloc: Global, other: &Wide) -> Result<Wide, AllocError>
        requires { universe_of self.now ≡ universe_of other.now }
        ensures { IfOk result
            (HasWideWords (universe_of self.now) (zip2 bit_and (wide_words self.now) (wide_words other.now))) }
    {
        Ok(Wide {
            head: self.head & other.head,
            rest: common(alloc, &self.rest, &other.rest)?,
        })
    }

    /// The words of the numbers that these lack.
    pub(crate) fn turned(&self, alloc: Global) -> Result<Wide, AllocError>
        ensures { IfOk result (HasWideWords (universe_of self.now)
            (zip2 bit_and (map (bit_not w64) (wide_words self.now)) (flank (universe_of self.now) true))) }
    {
        Ok(Wide {
            head: !self.head,
            rest: self.rest.turned(alloc)?,
        })
    }

    /// Whether the other words have each bit of these.
    pub(crate) fn is_within(&self, other: &Wide) -> bool
        requires { universe_of self.now ≡ universe_of other.now }
        ensures { result ≡ all_zero (zip2 and_not (wide_words self.now) (wide_words other.now)) }
    {
        if self.head & !other.head != 0 {
            return false;
        }
        are_within(&self.rest, &other.rest)
    }

    /// Whether no bit is in the words of both.
    pub(crate) fn is_disjoint(&self, other: &Wide) -> bool
        requires { universe_of self.now ≡ universe_of other.now }
        ensures { result ≡ all_zero (zip2 bit_and (wide_words self.now) (wide_words other.now)) }
    {
        if self.head & other.head != 0 {
            return false;
        }
        are_disjoint(&self.rest, &other.rest)
    }

    /// How many numbers all words have.
    pub(crate) fn count(&self) -> u32
        requires { ones_in (wide_words self.now) < 2 ^ 32 }
        ensures { result ≡ ones_in (wide_words self.now) }
    {
        self.head.count_ones() + self.rest.count()
    }
}
