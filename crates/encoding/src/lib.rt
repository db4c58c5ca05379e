//! All vertices of the search by number, and all axioms over them.
//!
//! `numbering` gives numbers and axioms as they are asked for, and a search goes by it. Here stands the plain encoding,
//! which has every vertex from the start; tests and laws speak of it. It looks each thing up anew, however long that
//! takes.
//!
//! What is hard is that none is missing: a feature has a vertex in each class of its name, whoever asks for it, and a
//! dependency has one that no instance speaks of. So `naming.rt` goes over all that owners bring.
//!
//! A layer above may rely on this: `number` and `vertex` are inverse to one another, just the vertices have numbers;
//! `axioms` gives just all instances, each once, and `axioms_at` each for one pair.
#![tactic(auto)]

mod naming;
mod pair;
mod rows;
mod vertex;
mod whole;

ghost use Rattle.std.specs.Prelude.{◌≡◌, ◌↔◌, ℕ, Some, slice_get, true};
ghost use Rattle.model.specs.Content.{Problem};
ghost use Rattle.model.specs.Vertices as model;
ghost use Rattle.model.specs.Causes.{Cause, is_cause};
ghost use Rattle.numbering.specs.Numberings.{IsNumbering, Numbering, number_in};
ghost use Rattle.encoding.specs.Everywhere.{ComesOnce};

pub use vertex::Vertex;
pub use vertices::Kind;
pub use whole::Encoding;

/// A vertex has a number exactly where the number is that vertex's.
pub fn numbers_are_places()
    ensures { (q : Problem) (vs : Numbering) (v : model.Vertex) (n : ℕ) → IsNumbering q vs
        → (number_in vs v ≡ Some n) ↔ (slice_get vs n ≡ Some v) }
{}

/// Over all pairs of a vertex and a state, each instance comes for just one.
pub fn instances_come_once()
    ensures { (q : Problem) (c : Cause) → is_cause q c ≡ true → ComesOnce q c }
{}
