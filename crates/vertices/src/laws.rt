//! The laws of texts: a vertex of valid names, versions and numbers is what its own text reads as, and so is a state.
//!
//! A law is a function that does nothing: its contract is the statement.

ghost use Rattle.std.specs.Prelude.{◌≡◌, Contains, List, Ok, ℕ};
ghost use Rattle.semver.specs.Grammar.{IsValid};
ghost use Rattle.semver.specs.Parse.{Parts};
ghost use Rattle.model.specs.Axioms.{IsVertex};
ghost use Rattle.model.specs.Content.{Problem};
ghost use Rattle.model.specs.Selection.{class_of};
ghost use Rattle.model.specs.Vertices.{State, Vertex, space};
ghost use Rattle.vertices.specs.Texts.{IsReadState, IsReadVertex, vertex_of_text, vertex_text};
ghost use Rattle.vertices.specs.inner.Valid.{HasValidParts, IsValidClass, IsValidState, IsValidVertex};

/// A valid vertex is what its own text reads as.
pub fn valid_vertices_are_read()
    ensures { (v : Vertex) → IsValidVertex v → IsReadVertex v }
{}

/// So is a valid state of any vertex that may have it.
pub fn valid_states_are_read()
    ensures { (v : Vertex) (s : State) → IsValidState v s → IsReadState v s }
{}

/// The class of a valid version is valid.
pub fn classes_of_versions_are_valid()
    ensures { (v : Parts) → IsValid v → IsValidClass (class_of v) }
{}

/// Valid vertices with the same text are the same.
pub fn texts_tell_vertices_apart()
    ensures { (v w : Vertex) → IsValidVertex v → IsValidVertex w → vertex_text v ≡ vertex_text w → v ≡ w }
{}

/// What a text reads as is a valid vertex: so no vertex but a valid one is what its own text reads as.
pub fn read_vertices_are_valid()
    ensures { (text : List ℕ) (v : Vertex) → vertex_of_text text ≡ Ok v → IsValidVertex v }
{}

/// The vertices of a problem of valid parts are valid.
pub fn vertices_of_problems_are_valid()
    ensures { (q : Problem) (v : Vertex) → HasValidParts q → IsVertex q v → IsValidVertex v }
{}

/// So are the states that they may have.
pub fn spaces_have_valid_states()
    ensures { (q : Problem) (v : Vertex) (s : State) → HasValidParts q → Contains (space q v) s → IsValidState v s }
{}
