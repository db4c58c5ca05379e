//! Words of 64 bits, one by one.

ghost use Rattle.std.specs.Int.{bit_at};
ghost use Rattle.std.specs.Prelude.{◌≡◌, ◌≤◌, ◌<◌, ◌-◌, ◌*◌, ◌^◌, ◌==◌, if◌then◌else◌, bit_or, min};
ghost use Rattle.version_sets.specs.inner.Windows.{flank_word, full_word, words_for};
ghost use Rattle.version_sets.specs.inner.Words.{and_not};

/// How many words a universe needs: an empty one has a word too, so that there always is a last one.
pub(crate) fn words_for(universe: u32) -> u32
    ensures { result ≡ words_for universe }
{
    universe.saturating_sub(1) / 64 + 1
}

/// A word with its lowest bits set.
pub(crate) fn low_bits(count: u32) -> u64
    requires { count ≤ 64 }
    ensures { result ≡ 2 ^ count - 1 }
{
    if count == 64 {
        u64::MAX
    } else {
        (1 << count) - 1
    }
}

/// A word with one bit set.
pub(crate) fn one_bit(place: u32) -> u64
    requires { place < 64 }
    ensures { result ≡ 2 ^ place }
{
    1 << place
}

/// Whether a word has a bit.
pub(crate) fn has_place(word: u64, place: u32) -> bool
    requires { place < 64 }
    ensures { result ≡ (bit_at word place == 1) }
{
    (word >> place) & 1 == 1
}

/// A word with one more bit, if it is to be set.
pub(crate) fn with_bit(word: u64, place: u32, is_set: bool) -> u64
    requires { place < 64 }
    ensures { result ≡ (if is_set then bit_or word (2 ^ place) else word) }
{
    if is_set { word | one_bit(place) } else { word }
}

/// How many of the numbers of a word lie below a number.
fn places_below(number: u32, word: u32) -> u32
    ensures { result ≡ min (number - 64 * word) 64 }
{
    u64::from(number)
        .saturating_sub(64 * u64::from(word))
        .min(64) as u32
}

/// A word of the numbers below one.
#[tactic(auto, unfolding(crate::specs::inner::Windows::full_word))]
pub(crate) fn full_word(below: u32, word: u32) -> u64
    ensures { result ≡ full_word below word }
{
    low_bits(places_below(below, word))
}

/// A word of the empty set or of the full one.
pub(crate) fn flank_word(universe: u32, is_full: bool, word: u32) -> u64
    ensures { result ≡ flank_word universe is_full word }
{
    if is_full {
        full_word(universe, word)
    } else {
        0
    }
}

/// A word of the numbers from one on and below another.
pub(crate) fn range_word(from: u32, to: u32, word: u32) -> u64
    ensures { result ≡ and_not (full_word to word) (full_word from word) }
{
    full_word(to, word) & !full_word(from, word)
}
