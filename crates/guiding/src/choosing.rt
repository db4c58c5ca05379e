//! A state that is left to a vertex, and whether it is to be decided.

ghost use Rattle.std.specs.Prelude.{◌≡◌, ◌<◌, ◌≤◌, true, false};
ghost use Rattle.std.specs.Bool.{OnFalse, OnTrue};
ghost use Rattle.version_sets.specs.Sets.{has, size};

use version_sets::States;

/// The greatest number of a set that isn't empty.
pub(crate) fn greatest<S: States>(set: &S) -> u32
    requires { 0 < size (S.tests set.now) }
    ensures { has (S.tests set.now) result ≡ true }
{
    let mut above = set.universe();
    'numbers: while above > 0 {
        above -= 1;
        if set.member(above) {
            return above;
        }
    }
    0
}

/// A number of a set that isn't empty: 0, else the greatest. Where one state is left, it mostly is absent or the
/// newest.
pub(crate) fn any_of<S: States>(set: &S) -> u32
    requires { 0 < size (S.tests set.now) }
    ensures { has (S.tests set.now) result ≡ true }
{
    if set.member(0) {
        return 0;
    }
    greatest(set)
}

/// Whether a vertex with these states is to be decided: it can't be absent, and has several.
pub(crate) fn is_undecided<S: States>(left: &S) -> bool
    ensures yes { OnTrue result (1 < size (S.tests left.now)) }
    ensures lost { OnTrue result (has (S.tests left.now) 0 ≡ false) }
    ensures no { OnFalse result (has (S.tests left.now) 0 ≡ false → size (S.tests left.now) ≤ 1) }
{
    if left.member(0) {
        return false;
    }
    left.count() > 1
}
