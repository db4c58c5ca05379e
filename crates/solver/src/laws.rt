//! What a search says of its axioms is what a refusal asks of them.
//!
//! A law is a function that does nothing: its contract is the statement.

ghost use Rattle.std.specs.Prelude.{◌<◌, ℕ, List, length};
ghost use Rattle.incompatibilities.specs.Stores.{EntryView, IsAxiom, entry};
ghost use Rattle.model.specs.Content.{Problem};
ghost use Rattle.numbering.specs.Numberings.{Numbering};
ghost use Rattle.solver.specs.inner.Steps.{AreGiven};
ghost use Rattle.guiding.specs.inner.Guides.{IsOfInstance};

/// Axioms that are instances of their kinds are so by the numbers of the kinds.
pub fn instances_have_their_kinds()
    ensures { (q : Problem) (vs : Numbering) (es : List EntryView)
        → ((id : ℕ) → id < length es → IsAxiom (entry es id).origin → IsOfInstance q vs (entry es id))
        → AreGiven q vs es }
{}
