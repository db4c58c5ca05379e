//! Why a refusal is right: the laws of refusals, of every manifest and every loaded index.
//!
//! The laws of `model` ask that a problem be a catalogue, with each name once, its versions rising and its feature
//! tables whole. What a `Catalogue` holds always is one, by its type, and so these laws ask nothing of their arguments:
//! a valid selection breaks no instance of an axiom; an accepted derivation leaves no valid selection; what the root
//! reaches in an assignment that breaks no instance is one, and there is one wherever an assignment breaks none.
//!
//! A derivation is a text too, so all that it can name has to read back: names, versions, and the numbers of
//! dependencies, of which it has 4,294,967,296. No file that is read is long enough for more of them.
//!
//! A law is a function that does nothing: its contract is the statement.

ghost use Rattle.std.specs.Prelude.{◌↔◌, List};
ghost use Rattle.model.specs.inner.Assignment.{Assigns, Breaks};
ghost use Rattle.model.specs.Axioms.{IsInstance, Kind, Term};
ghost use Rattle.model.specs.Content.{Content};
ghost use Rattle.model.specs.inner.ContentOf.{AreKept, Kept, content_of};
ghost use Rattle.model.specs.Derivation.{IsAccepted, Step};
ghost use Rattle.model.specs.inner.Search.{AssignsReached, IsUnbroken, LeadsTo};
ghost use Rattle.model.specs.Selection.{IsValidSelection};
ghost use Rattle.model.specs.Vertices.{State, Vertex};
ghost use Rattle.vertices.specs.inner.Valid.{HasValidParts};
ghost use Rattle.catalogue.specs.Problems.{problem_in};

use crate::laws::catalogues_are_well_formed;
use crate::store::Catalogue;
use manifest::{Manifest, manifests_bring_valid_parts};

/// A valid selection breaks no instance of an axiom.
pub fn axioms_are_sound(manifest: &Manifest, catalogue: &Catalogue)
    ensures { (content : Content) (kind : Kind) (terms : List Term)
        → IsInstance (problem_in manifest.now catalogue.now) kind terms
        → IsValidSelection (problem_in manifest.now catalogue.now) content
        → Breaks (problem_in manifest.now catalogue.now) content terms → ⊥ }
{
    catalogues_are_well_formed(manifest, catalogue);
    model::axioms_are_sound();
}

/// Where a derivation is accepted, no content at all is a valid selection.
pub fn accepted_derivations_refute(manifest: &Manifest, catalogue: &Catalogue)
    ensures { (content : Content) (steps : List Step) → IsAccepted (problem_in manifest.now catalogue.now) steps
        → IsValidSelection (problem_in manifest.now catalogue.now) content → ⊥ }
{
    catalogues_are_well_formed(manifest, catalogue);
    model::accepted_derivations_refute();
}

/// What the root reaches in an assignment that breaks no instance is a valid selection, put into package order.
pub fn unbroken_assignments_select(manifest: &Manifest, catalogue: &Catalogue)
    ensures { (state : Vertex → State) (kept : List Kept) → IsUnbroken (problem_in manifest.now catalogue.now) state
        → AreKept (problem_in manifest.now catalogue.now) (LeadsTo (problem_in manifest.now catalogue.now) state) kept
        → IsValidSelection (problem_in manifest.now catalogue.now)
        (content_of (problem_in manifest.now catalogue.now) kept) }
{
    catalogues_are_well_formed(manifest, catalogue);
    model::gathered_contents_select();
}

/// Wherever an assignment breaks no instance there is a valid selection, in which each vertex has just the state that
/// it has in the assignment cut down to what the root reaches.
pub fn unbroken_assignments_have_selections(manifest: &Manifest, catalogue: &Catalogue)
    ensures { (state : Vertex → State) → IsUnbroken (problem_in manifest.now catalogue.now) state
        → (content : Content) × IsValidSelection (problem_in manifest.now catalogue.now) content
        × ((v : Vertex) (s : State) → Assigns (problem_in manifest.now catalogue.now) content v s
        ↔ AssignsReached (problem_in manifest.now catalogue.now) state v s) }
{
    catalogues_are_well_formed(manifest, catalogue);
    model::unbroken_assignments_have_selections();
}

/// All names, versions and numbers of dependencies are ones that read back from the text of a derivation.
pub fn parts_are_valid(manifest: &Manifest, catalogue: &Catalogue)
    ensures { HasValidParts (problem_in manifest.now catalogue.now) }
{
    manifests_bring_valid_parts(manifest);
    let _ = catalogue.names();
}
