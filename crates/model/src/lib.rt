//! What is to be answered about a lock, as definitions that the contracts of the other crates cite, and the laws that
//! hold of them.
//!
//! The definitions (`specs`) speak of plain lists, numbers and texts, in the words of the Cargo book, and of no code:
//! what a package brings (`Summary`), what a lock says and what it is held against (`Content`), when that is a valid
//! selection (`Selection`), what is wrong with it first (`Verdict`), which walk is preferred (`Walk`). Beside them
//! stand those of the search: vertices and their states (`Vertices`), the ten kinds of axioms (`Axioms`), when a
//! derivation is accepted (`Derivation`).
//!
//! What is hard is to bring the two together, so that nobody has to believe the axioms who believes what a valid
//! selection is. The laws below do it both ways. A valid selection breaks no instance of an axiom, and what breaks a
//! combination breaks one of the two, so where a derivation is accepted there is no valid selection. And of an
//! assignment that breaks no instance, what the root reaches is a valid selection.
//!
//! A layer above may rely on these laws of every problem that is a catalogue (`IsCatalogue`): each name once, its
//! versions rising by precedence, each feature table knowing its features.
//!
//! `refutations` has the laws of what a checker does with the terms of a step.
//!
//! A law is a function that does nothing: its contract is the statement, and its body shows that the statement needs no
//! code.
#![tactic(auto)]

pub mod refutations;

ghost use Rattle.std.specs.Prelude.{◌≡◌, ◌≢◌, ◌↔◌, ◌⊎◌, Bool, true, false, ℕ, List, Option, Ok, Contains};
ghost use Rattle.std.specs.List.{All, AllPairs};
ghost use Rattle.std.specs.List.Sorted.{IsPermutation};
ghost use Rattle.std.specs.Ordering.{is_gt};
ghost use Rattle.semver.specs.Parse.{Parts};
ghost use Rattle.semver.specs.EvalViews.{matches_views};
ghost use Rattle.model.specs.Summary.{Dependency, KnowsFeatures, Table, entries_at, has_feature};
ghost use Rattle.model.specs.Tables.{DepName, IsInOrder, Written, entries_meant, table_of};
ghost use Rattle.model.specs.Selection.{Brings, Fact, enabled, on, Class, IsOther, IsValidSelection};
ghost use Rattle.model.specs.Content.{Candidate, Content, Package, Problem, candidate_of, candidates_of};
ghost use Rattle.model.specs.Content.{with_candidates};
ghost use Rattle.model.specs.Order.{precedence, IsCatalogue, IsContent};
ghost use Rattle.model.specs.Candidates.{IsApart, IsOlder, Record, RustVersion, by_preference, oldest_first};
ghost use Rattle.model.specs.Verdict.{IsVerdict, Verdict, valid};
ghost use Rattle.model.specs.Vertices.{Owner, State, Vertex, dep, has_state, in_class, owner_brings, pkg, space};
ghost use Rattle.model.specs.Vertices.{version};
ghost use Rattle.model.specs.Axioms.{AreApart, IsInstance, IsOwner, IsVertex, Kind, Term, is_lower, without_full};
ghost use Rattle.model.specs.Walk.{StandsFor, IsWalk, Picks};
ghost use Rattle.model.specs.inner.ContentOf.{AreKept, Kept, content_of, in_package_order, kept_cmp};
ghost use Rattle.model.specs.inner.Search.{AssignsReached, IsPresent, IsReachedFact, IsUnbroken, LeadsTo, SaysOfFact};
ghost use Rattle.model.specs.inner.Assignment.{Assigns, Breaks};
ghost use Rattle.model.specs.Derivation.{IsAccepted, IsCombined, Step};

/// In a feature table that is built, a feature has the entries that are written; else, where it is implicit, the one
/// entry that enables its dependency; else, where it is `default`, none; else it isn't there.
pub fn tables_have_their_features()
    ensures { (ds : List DepName) (written : Written) (table : Table) (f : List ℕ) → table_of ds written ≡ Ok table
        → entries_at f table ≡ entries_meant ds written f }
{}

/// In a feature table that is built, an entry that names a feature names one of the same table.
pub fn tables_know_their_features()
    ensures { (ds : List DepName) (written : Written) (table : Table)
        → table_of ds written ≡ Ok table → KnowsFeatures table }
{}

/// A feature table that is built has each feature once, in the order of their bytes, where that is so of what is
/// written.
pub fn tables_stay_in_order()
    ensures { (ds : List DepName) (written : Written) (table : Table) → IsInOrder written
        → table_of ds written ≡ Ok table → IsInOrder table }
{}

/// Putting records in the order of their age drops none and adds none.
pub fn ages_keep_records()
    ensures { (records : List Record) → IsPermutation records (oldest_first records) }
{}

/// Where no two records are of equal precedence, each one is older than those that follow it in the order of their age.
pub fn ages_rise()
    ensures { (records : List Record) → AllPairs IsApart records → AllPairs IsOlder (oldest_first records) }
{}

/// Where no two records are of equal precedence, records that are sorted by precedence are the records in the order of
/// their age.
pub fn sorted_records_stand_by_age()
    ensures { (records sorted : List Record) → AllPairs IsApart records → IsPermutation records sorted
        → AllPairs (λ a b. is_gt (precedence a.version b.version) ≡ false) sorted → sorted ≡ oldest_first records }
{}

/// The order of preference has each candidate as often as it is there.
pub fn preferences_keep_candidates()
    ensures { (locked : Parts → Bool) (rust : Option RustVersion) (candidates : List Record)
        → IsPermutation candidates (by_preference locked rust candidates) }
{}

/// The verdict on a content says that it is valid exactly where it is a valid selection.
pub fn valid_verdicts_select()
    ensures { (q : Problem) (c : Content) → IsContent c → IsVerdict q c valid ↔ IsValidSelection q c }
{}

/// A content has at most one verdict.
pub fn verdicts_are_unique()
    ensures { (q : Problem) (c : Content) (v w : Verdict) → IsVerdict q c v → IsVerdict q c w → v ≡ w }
{}

/// A valid selection stays one where other candidates come or go, if each of its own packages is the same candidate as
/// before.
pub fn selections_outlive_candidates()
    ensures { (q : Problem) (candidates : List (List ℕ × List Candidate)) (c : Content)
        → ((n : ℕ) (p : Package) → IsOther q c n p → candidate_of q p ≡ candidate_of (with_candidates q candidates) p)
        → IsValidSelection q c → IsValidSelection (with_candidates q candidates) c }
{}

/// A valid selection breaks no instance of an axiom: in the assignment that it is, some term of each instance fails.
pub fn axioms_are_sound()
    ensures { (q : Problem) (c : Content) (k : Kind) (ts : List Term) → IsCatalogue q → IsValidSelection q c
        → IsInstance q k ts → Breaks q c ts → ⊥ }
{}

/// No two terms of an instance speak of one vertex.
pub fn instances_are_sets()
    ensures { (q : Problem) (k : Kind) (ts : List Term) → IsInstance q k ts → AreApart ts }
{}

/// Each term of an instance speaks of a vertex that is there.
pub fn instances_have_vertices()
    ensures { (q : Problem) (k : Kind) (ts : List Term) → IsCatalogue q → IsInstance q k ts
        → All (λ t. IsVertex q t.vertex) ts }
{}

/// In a valid selection each vertex has a state, which is one of those that it can have.
pub fn vertices_have_states()
    ensures { (q : Problem) (c : Content) (v : Vertex) → IsValidSelection q c
        → ((s : State) → Assigns q c v s → has_state (space q v) s ≡ true → ⊥) → ⊥ }
{}

/// In a valid selection no vertex has two states.
pub fn vertices_have_one_state()
    ensures { (q : Problem) (c : Content) (v : Vertex) (s r : State) → IsValidSelection q c → Assigns q c v s
        → Assigns q c v r → s ≡ r }
{}

/// A term with all states of its vertex may be left out: what breaks the other terms breaks all.
pub fn full_terms_say_nothing()
    ensures { (q : Problem) (c : Content) (ts : List Term) → IsValidSelection q c → Breaks q c (without_full q ts)
        → (Breaks q c ts → ⊥) → ⊥ }
{}

/// A combination follows from the two that it is made of: what breaks it breaks one of them.
pub fn combinations_follow()
    ensures { (q : Problem) (c : Content) (v : Vertex) (a b ts : List Term) → IsValidSelection q c
        → IsCombined q v a b ts → AreApart a → AreApart b
        → Breaks q c ts → (Breaks q c a ⊎ Breaks q c b → ⊥) → ⊥ }
{}

/// Where a derivation is accepted no content at all is a valid selection.
pub fn accepted_derivations_refute()
    ensures { (q : Problem) (c : Content) (steps : List Step) → IsCatalogue q → IsValidSelection q c
        → IsAccepted q steps → ⊥ }
{}

/// An assignment that breaks no instance says so itself of each package, feature and dependency that the root reaches
/// in it.
pub fn reached_facts_hold()
    ensures { (q : Problem) (state : Vertex → State) (f : Fact Owner) → IsUnbroken q state
        → IsReachedFact q state f → SaysOfFact q state f }
{}

/// In an assignment that breaks no instance, each enabled dependency that the root reaches leads to a version that it
/// matches.
pub fn reached_dependencies_are_met()
    ensures { (q : Problem) (state : Vertex → State) (n : Owner) (i : ℕ) (d : Dependency) → IsUnbroken q state
        → IsReachedFact q state (enabled n i)
        → Brings (owner_brings q) n i d
        → (t : Owner) × (l : LeadsTo q state n i d t) × (matches_views d.requirement l.v ≡ true) }
{}

/// In an assignment that breaks no instance, each feature that the root reaches exists where it is on.
pub fn reached_features_exist()
    ensures { (q : Problem) (state : Vertex → State) (n : Owner) (f : List ℕ) → IsCatalogue q → IsUnbroken q state
        → IsReachedFact q state (on n f)
        → has_feature (owner_brings q n).features f ≡ true }
{}

/// In an assignment that breaks no instance, a dependency doesn't lead to a lower class than another dependency of the
/// same package does, if it matches the version there too.
pub fn newest_is_chosen()
    ensures { (q : Problem) (state : Vertex → State) (n : Owner) (i j : ℕ) (d e : Dependency) (k m : Class) (v : Parts)
        → IsUnbroken q state → IsPresent q state n
        → Brings (owner_brings q) n i d → Brings (owner_brings q) n j e → d.real_name ≡ e.real_name
        → state (dep n i) ≡ in_class k → state (dep n j) ≡ in_class m
        → state (pkg d.real_name m) ≡ version v → matches_views d.requirement v ≡ true → is_lower k m ≡ true → ⊥ }
{}

/// The content of what the root reaches in an assignment that breaks no instance is a valid selection.
pub fn unbroken_assignments_select()
    ensures { (q : Problem) (state : Vertex → State) (c : Content) → IsCatalogue q → IsUnbroken q state
        → StandsFor q (LeadsTo q state) c → IsValidSelection q c }
{}

/// In the content of what the root reaches in an assignment that breaks no instance, each vertex has the state that it
/// has in the assignment cut down to what the root reaches.
pub fn reached_states_stay()
    ensures { (q : Problem) (state : Vertex → State) (c : Content) (v : Vertex) (s : State) → IsCatalogue q
        → IsUnbroken q state → StandsFor q (LeadsTo q state) c
        → Assigns q c v s ↔ AssignsReached q state v s }
{}

/// Owners that are each there once, in an order in which none is to come before an earlier one, stand in package order.
pub fn package_order_is_unique()
    ensures { (q : Problem) (kept sorted : List Kept) → IsCatalogue q → All (λ k. IsOwner q k.owner) kept
        → AllPairs (λ a b. a.owner ≢ b.owner) kept
        → IsPermutation kept sorted → AllPairs (λ a b. is_gt (kept_cmp q a b) ≡ false) sorted
        → sorted ≡ in_package_order q kept }
{}

/// The content of the owners that the root reaches by the picks of dependencies is the preferred walk.
pub fn gathered_picks_walk()
    ensures { (q : Problem) (preferred : List (List ℕ × List Candidate)) (kept : List Kept) → IsCatalogue q
        → AreKept q (Picks q preferred) kept
        → IsWalk q preferred (content_of q kept) }
{}

/// What the root reaches in an assignment that breaks no instance is a valid selection, in which each vertex has just
/// the state that it has in the assignment cut down to what the root reaches: so there is a valid selection wherever an
/// assignment breaks no instance.
pub fn unbroken_assignments_have_selections()
    ensures { (q : Problem) (state : Vertex → State) → IsCatalogue q → IsUnbroken q state
        → (c : Content) × IsValidSelection q c
        × ((v : Vertex) (s : State) → Assigns q c v s ↔ AssignsReached q state v s) }
{}

/// What the root reaches in an assignment that breaks no instance can be kept: a finite list has each owner once, with
/// its targets.
pub fn reached_owners_are_kept()
    ensures { (q : Problem) (state : Vertex → State) → IsUnbroken q state
        → (kept : List Kept) × AreKept q (LeadsTo q state) kept }
{}

/// There is a preferred walk, where what is preferred are candidates.
pub fn walks_exist()
    ensures { (q : Problem) (preferred : List (List ℕ × List Candidate)) → IsCatalogue q
        → ((name : List ℕ) (c : Candidate) → Contains (candidates_of preferred name) c
        → Contains (candidates_of q.candidates name) c)
        → (c : Content) × IsWalk q preferred c }
{}

/// There is one preferred walk at most.
pub fn walks_are_unique()
    ensures { (q : Problem) (preferred : List (List ℕ × List Candidate)) (a b : Content) → IsWalk q preferred a
        → IsWalk q preferred b → a ≡ b }
{}

/// The content of the owners that the root reaches in an assignment that breaks no instance is a valid selection.
pub fn gathered_contents_select()
    ensures { (q : Problem) (state : Vertex → State) (kept : List Kept) → IsCatalogue q → IsUnbroken q state
        → AreKept q (LeadsTo q state) kept
        → IsValidSelection q (content_of q kept) }
{}
