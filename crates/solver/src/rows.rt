//! Incompatibilities over numbers, and how they came about, as steps of a derivation.
//!
//! A search leaves a store of entries over numbers, each with its chain; a derivation has steps over vertices and
//! states, which somebody checks who knows no numbers. An entry is unrolled first (`unrolling.rt`), into a row of
//! axioms and combinations. The vertex of a combination has to have a number, which it has as one at which the first of
//! the two entries has a term.
//!
//! A layer above may rely on this: a row, each of it as the step that it is decoded to, is an accepted derivation, if
//! its last one has no term and the axioms of the store are instances.

ghost use Rattle.std.specs.Prelude.{◌≡◌, ℕ, [], List};
ghost use Rattle.model.specs.Content.{Problem};
ghost use Rattle.model.specs.Derivation.{IsAccepted, Step};
ghost use Rattle.model.specs.Order.{IsCatalogue};
ghost use Rattle.incompatibilities.specs.Stores.{EntryView, entry};
ghost use Rattle.solver.specs.inner.Flats.{FlatView, IsUnrolled};
ghost use Rattle.numbering.specs.Numberings.{IsNumbering, Numbering};
ghost use Rattle.solver.specs.inner.Steps.{AreGiven, AreStepsOf};

/// Steps that say what a row says, by the same kinds and of the same two at the same places, are an accepted
/// derivation, if the row ends with an entry without terms.
pub fn rows_are_accepted()
    ensures { (q : Problem) (vs : Numbering) (es : List EntryView) (last : ℕ) (fs : List FlatView) (steps : List Step)
        → IsCatalogue q → IsNumbering q vs → AreGiven q vs es → IsUnrolled es last fs → AreStepsOf q vs fs steps
        → (entry es last).terms ≡ [] → IsAccepted q steps }
{}
