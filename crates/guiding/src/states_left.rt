//! The least state that is left to a vertex, for guides.

ghost use Rattle.std.specs.Prelude.{◌≡◌, ◌<◌, true};
ghost use Rattle.version_sets.specs.Sets.{has, size};

use version_sets::States;

/// The least number of a set that isn't empty.
pub fn least<S: States>(set: &S) -> u32
    requires { 0 < size (S.tests set.now) }
    ensures { has (S.tests set.now) result ≡ true }
{
    'numbers: for number in 0..set.universe() {
        if set.member(number) {
            return number;
        }
    }
    0
}
