//! That there is one preferred walk, that it goes by the model's order of preference, and that it is found where only
//! enabled dependencies are followed.
//!
//! A law is a function that does nothing: its contract is the statement, and its body calls what its proof rests on.

ghost use Rattle.std.specs.Prelude.{◌≡◌, ◌↔◌, ℕ, Bool, List, Option};
ghost use Rattle.model.specs.Summary.{Dependency};
ghost use Rattle.model.specs.Selection.{Fact};
ghost use Rattle.model.specs.Content.{Candidate, Content, Problem};
ghost use Rattle.model.specs.Candidates.{RustVersion, is_locked};
ghost use Rattle.model.specs.Walk.{IsReachedFact, StandsFor, IsWalk, Picks};
ghost use Rattle.model.specs.Vertices.{Owner};
ghost use Rattle.catalogue.specs.Loads.{store_of};
ghost use Rattle.catalogue.specs.Problems.{preferred_in, problem_in};
ghost use Rattle.catalogue.specs.Stores.{AreRanked, CatalogueView, ranked_at};
ghost use Rattle.catalogue.specs.Runs.{Asked};
ghost use Rattle.selection.specs.inner.Followed.{AreFollowed, PicksFollowed};
ghost use Rattle.selection.specs.Preferred.{preferred_by};

use catalogue::{Catalogue, catalogues_are_well_formed};
use manifest::Manifest;

/// There is one preferred walk and no other, whether or not it is complete and valid.
pub fn there_is_one_walk(manifest: &Manifest, catalogue: &Catalogue)
    ensures { (content : Content) × IsWalk (problem_in manifest.now catalogue.now) (preferred_in catalogue.now) content
        × ((other : Content)
        → IsWalk (problem_in manifest.now catalogue.now) (preferred_in catalogue.now) other → other ≡ content) }
{
    catalogues_are_well_formed(manifest, catalogue);
    model::walks_exist();
    model::walks_are_unique();
}

/// In an index that a run loads, each candidate has the rank that the run's old lock and Rust version give it, and the
/// candidates by rank are those in the model's order of preference.
pub fn ranks_are_preferences()
    ensures ranked { (old : Content) (source : List ℕ) (rust : Option RustVersion) (root : List Dependency)
        (asked : List Asked) (index : CatalogueView)
        → index ≡ store_of old source rust root asked → (name : List ℕ)
        → AreRanked (is_locked old source name) rust (ranked_at index name) }
    ensures preferred { (old : Content) (source : List ℕ) (rust : Option RustVersion) (root : List Dependency)
        (asked : List Asked) (index : CatalogueView)
        → index ≡ store_of old source rust root asked → preferred_in index ≡ preferred_by old rust index }
{}

/// Where each enabled dependency is followed, those that aren't make no difference: what the root reaches is the same
/// as where each one leads to its pick, and so is the walk.
pub fn enabled_dependencies_are_enough()
    ensures facts { (q : Problem) (preferred : List (List ℕ × List Candidate)) (all : Bool) (asked : List (List Bool))
        (owners : List Owner) → AreFollowed all asked owners q preferred → (x : Fact Owner)
        → IsReachedFact q (PicksFollowed all asked owners q preferred) x ↔ IsReachedFact q (Picks q preferred) x }
    ensures walk { (q : Problem) (preferred : List (List ℕ × List Candidate)) (all : Bool) (asked : List (List Bool))
        (owners : List Owner) (content : Content) → AreFollowed all asked owners q preferred
        → StandsFor q (PicksFollowed all asked owners q preferred) content → IsWalk q preferred content }
{}
