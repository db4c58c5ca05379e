//! Incompatibilities over numbers, made of the terms of instances.

ghost use Rattle.std.specs.Prelude.{List};
ghost use Rattle.incompatibilities.specs.Incompatibilities.{OneEach};
ghost use Rattle.terms.specs.Terms.{terms_view};
ghost use Rattle.model.specs.Content.{Problem};
ghost use Rattle.model.specs.Axioms.{Term as ModelTerm};
ghost use Rattle.numbering.specs.Numberings.{IsNumbering, Numbering, Says};
ghost use Rattle.numbering.specs.inner.Numbered.{AreNumbered};

use incompatibilities::Incompatibility;
use terms::Term;
use version_sets::States;

/// The incompatibility of the terms of an instance.
#[tactic(auto, using(crate::proofs::Saying::made_says))]
pub(crate) fn made_of<S: States + Drop>(terms: Vec<Term<S>>) -> Incompatibility<S>
    requires { OneEach (terms_view S.tests terms.items) }
    ensures says { (q : Problem) (vs : Numbering) (ms : List ModelTerm) → IsNumbering q vs
        → AreNumbered q vs (terms_view S.tests terms.items) ms → Says q vs (terms_view S.tests result) ms }
{
    Incompatibility::new(terms)
}
