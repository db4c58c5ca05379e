//! What the facts find over packages is what the root reaches in an assignment of the search, and the content built of
//! it is a valid selection.
//!
//! The laws of `model` speak of an assignment of all vertices and of owners that the root reaches in it; a program has
//! a list of packages that were met, flags of facts, and a content that was built of these. The laws here lead from the
//! one to the other, whatever the assignment is: if it breaks no instance of an axiom, the content is a valid
//! selection.
//!
//! A law is a function that does nothing: its contract is the statement, and its body shows that the statement needs no
//! code.

ghost use Rattle.std.specs.Prelude.{◌≡◌, ℕ, Bool, List};
ghost use Rattle.model.specs.Content.{Content, Problem};
ghost use Rattle.model.specs.inner.ContentOf.{AreKept, Kept};
ghost use Rattle.model.specs.inner.Search.{IsUnbroken, LeadsTo};
ghost use Rattle.model.specs.Selection.{IsValidSelection};
ghost use Rattle.model.specs.Vertices.{Owner, State, Vertex};
ghost use Rattle.model.specs.Order.{IsCatalogue};
ghost use Rattle.manifest.specs.Manifests.{root_asks};
ghost use Rattle.facts.specs.inner.Graphs.{IsGraph, NodeView};
ghost use Rattle.facts.specs.inner.Built.{AreFound, IsBuilt};
ghost use Rattle.model.specs.Selected.{HasBareRoot};
ghost use Rattle.facts.specs.inner.Nodes.{AreFlags, AreMet};

/// Packages with where their dependencies lead in an assignment are a graph: the facts can be found over them.
pub fn packages_are_a_graph()
    ensures { (q : Problem) (state : Vertex → State) (owners : List Owner) (nodes : List NodeView)
        → q.root_asks ≡ root_asks q.brings.features
        → AreMet q (LeadsTo q state) owners nodes → IsGraph nodes }
{}

/// The owners that are found to be here, each with where its enabled dependencies lead, are those that the root
/// reaches, with their targets.
pub fn found_owners_are_kept()
    ensures { (q : Problem) (state : Vertex → State) (owners : List Owner) (nodes : List NodeView) (is_here : List Bool)
        (are_enabled : List (List Bool)) (kept : List Kept)
        → q.root_asks ≡ root_asks q.brings.features → IsUnbroken q state → AreMet q (LeadsTo q state) owners nodes
        → AreFlags nodes is_here are_enabled
        → AreFound owners nodes are_enabled is_here kept → AreKept q (LeadsTo q state) kept }
{}

/// The content that is built of the packages that are found to be here is a valid selection, if the assignment breaks
/// no instance.
pub fn built_contents_select()
    ensures { (q : Problem) (state : Vertex → State) (owners : List Owner) (nodes : List NodeView) (is_here : List Bool)
        (are_enabled : List (List Bool)) (content : Content)
        → IsCatalogue q → q.root_asks ≡ root_asks q.brings.features → IsUnbroken q state
        → AreMet q (LeadsTo q state) owners nodes → AreFlags nodes is_here are_enabled
        → IsBuilt owners nodes are_enabled q is_here content → IsValidSelection q content }
{}

/// The root of a content that is built has no checksum.
pub fn built_roots_have_no_checksum()
    ensures { (q : Problem) (owners : List Owner) (nodes : List NodeView) (is_here : List Bool)
        (are_enabled : List (List Bool)) (content : Content)
        → IsBuilt owners nodes are_enabled q is_here content → HasBareRoot q content }
{}
