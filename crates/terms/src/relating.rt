//! How a set of states stands to a term.

ghost use Rattle.std.specs.Prelude.{◌≡◌, length};
ghost use Rattle.terms.specs.Terms.{relation_of};

use crate::term::{Relation, Term};
use version_sets::States;

/// How a set of a vertex's states stands to a term on it; both have one universe.
#[tactic(auto, using(crate::proofs::Relations::relations))]
pub fn relation<S: States>(set: &S, term: &Term<S>) -> Relation
    requires { length (S.tests set.now) ≡ length (S.tests term.now.states) }
    ensures { result ≡ relation_of (S.tests set.now) (S.tests term.now.states) }
{
    // First, for a set with no state left is disjoint from all and within all: it satisfies nothing.
    if set.disjoint(&term.states) {
        Relation::Contradicted
    } else if set.subset(&term.states) {
        Relation::Satisfied
    } else {
        Relation::Open
    }
}
