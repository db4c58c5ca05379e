//! The vertices of the search by numbers, and the axioms as incompatibilities over them.
//!
//! The search speaks of vertices and states by number. A `Table` gives a vertex its number when it is first spoken of,
//! since a run comes to few of all vertices; the states of a vertex are `absent`, which is 0, and the others in the
//! order of the model's `space`. What an entry over numbers says is stated against the model's terms (`Says`,
//! `specs/Numberings`), and stays so as more vertices get numbers.
//!
//! What is hard is to bring few axioms and to miss none. Each instance has a first term with just one state
//! (`first_pair`, `specs/Pairs`), and belongs to that pair of a vertex and a state: while the vertex doesn't have the
//! state, the instance isn't broken. So `axioms_at` gives the instances of one pair, and only those of pairs that stand
//! alone are ever needed. An instance that says which of two dependencies in classes overtakes the other has two such
//! terms; so a search, which asks for one pair after another, needs it only once both were asked for (`pairs_of`,
//! `next_axioms_at`). Two dependencies with n classes have n · n of these, and a search comes to few.
//!
//! What is given is found from what the pair's vertex names, with no pass over all owners. What requirements match is
//! kept by name and requirement (`matched.rt`), so that none is matched twice against one name, and what owners bring
//! is found by name (`called.rt`, `indexed.rt`) where a pass over it would be made for each of its parts; nothing that
//! is stated here rests on what is kept.
//!
//! To number all vertices first costs a fifth of loading. Which versions of a class match isn't kept, as the terms over
//! them cost as much; what owners bring is found by name only for an owner with more than 32 dependencies, or with two
//! on one package.
//!
//! A layer above may rely on the laws at the end of this file. An assignment that breaks none of the entries for the
//! pairs that hold in it breaks no instance at all; a valid selection breaks no instance over numbers. At most one term
//! of an instance has `absent` among its states, so where propagation is at rest, taking `absent` wherever it is left
//! breaks none either. No number changes, also where memory is wanting.
#![tactic(auto)]

mod asked;
mod called;
mod causes;
mod indexed;
mod instances;
mod known_problem;
mod leading;
mod lists;
mod making;
mod matched;
mod newest;
mod noted;
mod on_package;
mod pair_axioms;
mod pair_causes;
mod possible_classes;
mod space_tests;
mod spaces;
mod states;
mod table;
mod tested_terms;

ghost use Rattle.std.specs.Prelude.{◌≡◌, ◌≢◌, ℕ, List, Some, map};
ghost use Rattle.incompatibilities.specs.Incompatibilities.{Assignment, Breaks, Terms};
ghost use Rattle.incompatibilities.specs.Incompatibilities as numbered;
ghost use Rattle.incompatibilities.specs.Stores.{EntryView};
ghost use Rattle.terms.specs.Terms.{TermView};
ghost use Rattle.model.specs.Content.{Content, Problem, candidates_of};
ghost use Rattle.model.specs.Order.{precedence, IsCatalogue};
ghost use Rattle.model.specs.Summary.{Dependency};
ghost use Rattle.std.specs.List.{AllPairs};
ghost use Rattle.std.specs.declared.cmp.Ordering.TheVariants.{Less};
ghost use Rattle.classes.specs.Groups.{classes_matched};
ghost use Rattle.model.specs.Selection.{IsValidSelection};
ghost use Rattle.model.specs.inner.Search.{IsUnbroken};
ghost use Rattle.model.specs.Vertices.{dep_classes, space};
ghost use Rattle.model.specs.Vertices as model;
ghost use Rattle.model.specs.Axioms.{IsInstance, Kind, Term};
ghost use Rattle.version_sets.specs.Sets.{Members};
ghost use Rattle.numbering.specs.inner.Finals.{IsAtRest, IsFinal};
ghost use Rattle.numbering.specs.Numberings.{IsNumbering, Numbering, Says};
ghost use Rattle.numbering.specs.inner.Absences.{OneZero};
ghost use Rattle.numbering.specs.inner.Assignments.{IsOf, IsSettled, state_of};

pub use called::{ByName, Numbered};
pub use instances::instance;
pub use known_problem::KnownProblem;
pub use noted::Noted;
pub use pair_axioms::{axioms_at, first_axioms_at, next_axioms_at};
pub use possible_classes::{class_number, classes_of};
pub use spaces::{space_at, space_of, spaces_are_small};
pub use states::{state_at, states_of};
pub use table::Table;

/// An assignment over numbers that breaks no entry of a store, where each pair that holds in it has been added, breaks
/// no instance at all.
pub fn settled_assignments_are_unbroken()
    ensures { (q : Problem) (vs : Numbering) (es : List EntryView) (x : Assignment) → IsNumbering q vs
        → IsSettled q vs es x → IsUnbroken q (state_of q vs x) }
{}

/// A valid selection breaks no instance over numbers.
pub fn selections_break_none()
    ensures { (q : Problem) (vs : Numbering) (content : Content) (x : Assignment) (k : Kind)
        (ts : List Term) (made : List TermView)
        → IsCatalogue q → IsNumbering q vs → IsValidSelection q content → IsOf q vs content x
        → IsInstance q k ts → Says q vs made ts
        → Breaks x (numbered.states_at made) → ⊥ }
{}

/// Nothing speaks against an assignment that gives each numbered vertex the state that it has in a valid selection.
pub fn selections_have_assignments()
    ensures { (q : Problem) (vs : Numbering) (content : Content) → IsValidSelection q content
        → ((x : Assignment) → IsOf q vs content x → ⊥) → ⊥ }
{}

/// At most one vertex of an instance over numbers has the state 0 among its term's.
pub fn instances_have_one_absent()
    ensures { (q : Problem) (vs : Numbering) (k : Kind) (ts : List Term) (made : List TermView) → IsNumbering q vs
        → IsInstance q k ts → Says q vs made ts
        → OneZero (numbered.states_at made) }
{}

/// Where propagation has nothing to do with an instance, the assignment that is taken at the end doesn't break it.
pub fn final_assignments_break_none()
    ensures { (sets : ℕ → Members) (f : Terms) (x : Assignment)
        → ((u : ℕ) (s : Members) → f u ≡ Some s → IsFinal (sets u) (x u)) → OneZero f → IsAtRest sets f
        → Breaks x f → ⊥ }
{}

/// The classes of the versions that a requirement matches, as `classes::matching` groups them, are the states of the
/// dependency's vertex after absent, in their order.
pub fn matched_classes_are_states()
    ensures { (q : Problem) (d : Dependency)
        → AllPairs (λ c e. precedence c.version e.version ≡ Less) (candidates_of q.candidates d.real_name)
        → classes_matched d.requirement (map (λ c. c.version) (candidates_of q.candidates d.real_name))
        ≡ dep_classes q d }
{}

/// No vertex has a state twice in its space.
pub fn spaces_have_states_once()
    ensures { (q : Problem) (v : model.Vertex) → IsCatalogue q → AllPairs (λ s r. s ≢ r) (space q v) }
{}
