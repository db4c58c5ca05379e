//! Which terms combine, which are instances of an axiom and which step of a derivation is refused, as functions over
//! lists, and the laws that tie them to the definitions of a derivation.
//!
//! Those say of all vertices and all instances when a step is right; a checker has nothing but the step's terms. So
//! a cause (`specs/Causes`) names what an instance comes from: an owner, the number of a dependency, a class, a
//! feature, an entry. From the terms of a step the one cause of its kind that they can have is read (`cause_in`), it is
//! looked up, and its terms are compared with those of the step.
//!
//! What is hard is that a full term isn't written: where no candidate serves a dependency, the step doesn't say which
//! one it is about. Then it is the first such dependency of the owner, for any other would give the same terms.
//!
//! A layer above may rely on the laws below: each test says just what its definition says, nothing is refused of a
//! derivation exactly where it is accepted, and then no content at all is a valid selection.
//!
//! A law is a function that does nothing: its contract is the statement, and its body shows that the statement needs no
//! code.

ghost use Rattle.std.specs.Prelude.{◌≡◌, ◌≢◌, ◌↔◌, true, Contains, List, None};
ghost use Rattle.std.specs.List.{AllByRecursion, AllPairs};
ghost use Rattle.std.specs.List.Sorted.{IsPermutation};
ghost use Rattle.std.specs.Ordering.{ordering_reverse};
ghost use Rattle.std.specs.declared.cmp.Ordering.{Ordering};
ghost use Rattle.model.specs.Content.{Content, Problem};
ghost use Rattle.model.specs.Selection.{IsValidSelection};
ghost use Rattle.model.specs.Order.{IsCatalogue};
ghost use Rattle.model.specs.Vertices.{State, Vertex};
ghost use Rattle.model.specs.Axioms.{AreApart, IsInstance, Kind, Term, without_full};
ghost use Rattle.model.specs.Derivation.{AreSteps, IsAccepted, IsCombined, SameTerms, Step, combined_at, states_at};
ghost use Rattle.model.specs.Derivation.{terms_of};
ghost use Rattle.model.specs.inner.Terms.{IsInOrder, combination, is_combination, same_terms};
ghost use Rattle.model.specs.Causes.{Cause, is_cause, kind_of, terms_of_cause};
ghost use Rattle.model.specs.inner.Instances.{is_instance};
ghost use Rattle.model.specs.inner.Checks.{ArePlain, HasNoFull, refused_step};
ghost use Rattle.model.specs.inner.Listed.{causes};

/// Two lists of terms pass the comparison exactly where they say the same of every vertex.
pub fn comparisons_decide()
    ensures { (a b : List Term) → same_terms a b ≡ true ↔ SameTerms a b }
{}

/// Terms in an order, each with its states in an order, are one list where they say the same.
pub fn ordered_terms_are_one()
    ensures { (by_vertex : Vertex → Vertex → Ordering) (by_state : State → State → Ordering)
        → ((v w : Vertex) → by_vertex v w ≡ ordering_reverse (by_vertex w v))
        → ((s r : State) → by_state s r ≡ ordering_reverse (by_state r s))
        → (a b : List Term) → IsInOrder by_vertex by_state a → IsInOrder by_vertex by_state b → SameTerms a b → a ≡ b }
{}

/// Terms of which no two speak of one vertex say the same in any order.
pub fn sorted_terms_say_the_same()
    ensures { (a b : List Term) → IsPermutation a b → AreApart a → SameTerms a b }
{}

/// In a combination no two terms speak of one vertex, if none do in either list.
pub fn combinations_are_plain()
    ensures { (q : Problem) (v : Vertex) (a b : List Term) → AreApart a → AreApart b → AreApart (combination q v a b) }
{}

/// Of every vertex the combination of two lists says what is defined: the union at the one vertex, the intersection at
/// each other.
pub fn combinations_say()
    ensures { (q : Problem) (v w : Vertex) (a b : List Term)
        → states_at (combination q v a b) w ≡ combined_at q a b v w }
{}

/// Terms are the combination of two lists exactly where they pass the comparison with it.
pub fn combinations_decide()
    ensures { (q : Problem) (v : Vertex) (a b ts : List Term)
        → is_combination q v a b ts ≡ true ↔ IsCombined q v a b ts }
{}

/// A cause that is there gives rise to an instance of its kind.
pub fn causes_give_instances()
    ensures { (q : Problem) (c : Cause) → is_cause q c ≡ true → IsInstance q (kind_of c) (terms_of_cause q c) }
{}

/// Each instance has a cause.
pub fn instances_have_causes()
    ensures { (q : Problem) (k : Kind) (ts : List Term) → IsInstance q k ts
        → (c : Cause) × (is_cause q c ≡ true) × (kind_of c ≡ k) × (terms_of_cause q c ≡ ts) }
{}

/// A cause is listed exactly where it is there, and none is listed twice.
pub fn causes_are_listed()
    ensures listed { (q : Problem) (c : Cause) → Contains (causes q) c ↔ (is_cause q c ≡ true) }
    ensures once { (q : Problem) → AllPairs (λ a b. a ≢ b) (causes q) }
{}

/// Terms of which no two speak of one vertex pass the test of a kind exactly where they are those of an instance of it,
/// without full ones.
pub fn instances_decide()
    ensures { (q : Problem) (k : Kind) (ts : List Term) → AreApart ts
        → is_instance q k ts ≡ true ↔ ((us : List Term) × IsInstance q k us × SameTerms ts (without_full q us)) }
{}

/// Nothing is refused of a derivation exactly where it is accepted.
pub fn refusals_decide()
    ensures { (q : Problem) (steps : List Step) → ArePlain steps → refused_step q steps ≡ None ↔ IsAccepted q steps }
{}

/// No step that is accepted has a term with all states of its vertex, so that none is ever left to be dropped.
pub fn accepted_steps_have_no_full_term()
    ensures { (q : Problem) (steps : List Step) → AreSteps q steps
        → AllByRecursion (λ s. HasNoFull q (terms_of s)) steps }
{}

/// Where nothing is refused of a derivation no content at all is a valid selection.
pub fn unrefused_derivations_refute()
    ensures { (q : Problem) (c : Content) (steps : List Step) → IsCatalogue q → ArePlain steps
        → refused_step q steps ≡ None → IsValidSelection q c → ⊥ }
{}
