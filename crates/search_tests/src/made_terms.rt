//! Terms made of vertices and bits.

ghost use Rattle.search_tests.specs.inner.Meeting.{AreFit, AreSmall, universe_at};
ghost use Rattle.std.specs.Option.{IfSome};
ghost use Rattle.std.specs.Prelude.{◌≡◌, ◌≤◌, IfOk, length};
ghost use Rattle.terms.specs.Terms.{terms_view};

use std::alloc::{AllocError, Global};
use terms::Term;
use version_sets::States;

/// A set with one number more, if that lies below the universe.
pub fn with_number<S: States + Drop>(
    alloc: Global,
    set: S,
    universe: u32,
    number: u32,
) -> Result<S, AllocError>
    requires small { universe ≤ 65536 }
    requires universe { length (S.tests set) ≡ universe }
    ensures { IfOk result (λ s. length (S.tests s) ≡ universe) }
{
    if number >= universe {
        return Ok(set);
    }
    let one = S::single(alloc, universe, number)?;
    set.union(alloc, &one)
}

/// The set of the numbers below a universe whose bits are set, counted modulo 64.
fn of_bits<S: States + Drop>(alloc: Global, universe: u32, bits: u64) -> Result<S, AllocError>
    requires { universe ≤ 65536 }
    ensures { IfOk result (λ s. length (S.tests s) ≡ universe) }
{
    let mut set = S::empty(alloc, universe)?;
    'states: for state in 0..universe {
        if (bits >> (state % 64)) & 1 == 1 {
            set = with_number(alloc, set, universe, state)?;
        }
    }
    Ok(set)
}

/// The terms of these vertices and bits; none if the vertices don't rise or one isn't there.
pub fn terms_of<S: States + Drop>(
    alloc: Global,
    spaces: &[u32],
    said: &[(usize, u64)],
) -> Result<Option<Vec<Term<S>>>, AllocError>
    requires { AreSmall spaces.now }
    ensures { IfOk result (λ o. IfSome o (λ v. AreFit (universe_at spaces.now) (terms_view S.tests v.items))) }
{
    let mut terms = Vec::new(alloc);
    let mut low = 0;
    'said: for (vertex, bits) in said {
        if *vertex < low {
            return Ok(None);
        }
        if *vertex >= spaces.len() {
            return Ok(None);
        }
        let states = of_bits(alloc, spaces[*vertex], *bits)?;
        terms.push(Term {
            vertex: *vertex,
            states,
        })?;
        low = *vertex + 1;
    }
    Ok(Some(terms))
}
