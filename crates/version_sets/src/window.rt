//! The words of a set over a large universe but its first, without those at both ends that are alike.

ghost use Rattle.std.specs.Prelude.{◌≤◌, ◌<◌, ◌+◌, length};
ghost use Rattle.version_sets.specs.inner.Windows.{words_for};

/// The words of a set. Those before the window are all empty, or all full if `low` is true, and those behind it
/// likewise by `high`. Full is a word of each number of the universe, so the last one may have fewer bits than the
/// others.
///
/// A set's first word lies apart (`wide.rt`), so the universe here is what is left from its number 64 on.
#[derive(Drop)]
pub(crate) struct Window {
    pub(crate) universe: u32,
    pub(crate) low: bool,
    pub(crate) first: u32,
    pub(crate) words: Vec<u64>,
    pub(crate) high: bool,
    ghost large: { 0 < universe },
    ghost small: { universe ≤ 65536 },
    ghost ends: { first + length words.items ≤ words_for universe },
}
