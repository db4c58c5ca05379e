//! The laws of a run: what holds of the selections that its index allows.
//!
//! A law is a function that does nothing: its contract is the statement, and its body shows that the statement needs no
//! code, or only a call whose contract says it.

ghost use Rattle.std.specs.Prelude.{◌≡◌, ◌≤◌, ℕ, List, [], Option, Some, Contains, length};
ghost use Rattle.model.specs.Content.{Content, Package};
ghost use Rattle.model.specs.Candidates.{Record};
ghost use Rattle.model.specs.Selection.{IsOther, IsValidSelection};
ghost use Rattle.model.specs.Order.{IsCatalogue};
ghost use Rattle.manifest.specs.Manifests.{ManifestView};
ghost use Rattle.index_reader.specs.Folders.{Files, MemoryCalls, file_at, path_of};
ghost use Rattle.catalogue.specs.Runs.{AreNext, Asked, IsRun, records_of};
ghost use Rattle.catalogue.specs.Problems.{IsRunOver, KeepsYanked, names_in, problem_in, problem_of};

use crate::store::Catalogue;
use manifest::Manifest;

/// What a selection is held against, for a manifest and a loaded index, is a catalogue: each name once, its versions
/// rising by precedence, and each feature table knowing its features.
pub fn catalogues_are_well_formed(manifest: &Manifest, catalogue: &Catalogue)
    ensures { IsCatalogue (problem_in manifest.now catalogue.now) }
{
    let _ = catalogue.names();
}

/// What a run asks for makes a catalogue: each name once, its versions rising by precedence, and each feature table
/// knowing its features.
pub fn runs_make_catalogues()
    ensures { (manifest : ManifestView) (old : Content) (source : List ℕ) (asked : List Asked)
        → AreNext old source manifest.brings.dependencies [] asked
        → IsCatalogue (problem_of manifest old source asked) }
{}

/// A run of a folder in memory is one over a fixed index: that of the folder's files.
pub fn memory_folders_have_one_index()
    ensures { (folder : Files) (manifest : ManifestView) (old : Content) (source : List ℕ)
        (asked : List Asked) (after : Files)
        → IsRun old source manifest.brings.dependencies MemoryCalls folder asked after
        → IsRunOver (λ name. file_at folder (path_of name)) manifest old source asked }
{}

/// Each package of a valid selection, other than the root, has a name that was asked for.
pub fn selected_names_are_asked_for()
    ensures { (manifest : ManifestView) (old : Content) (source : List ℕ) (asked : List Asked)
        (content : Content) (n : ℕ) (p : Package)
        → IsValidSelection (problem_of manifest old source asked) content
        → IsOther (problem_of manifest old source asked) content n p
        → Contains (names_in asked) p.name }
{}

/// Over a fixed index, each package of a valid selection, other than the root, has the checksum of the record of its
/// name and version.
pub fn selections_have_their_checksums()
    ensures { (files : List ℕ → Option (List ℕ)) (manifest : ManifestView) (old : Content) (source : List ℕ)
        (asked : List Asked) (content : Content)
        → IsRunOver files manifest old source asked → IsValidSelection (problem_of manifest old source asked) content
        → (n : ℕ) (p : Package) (r : Record) → IsOther (problem_of manifest old source asked) content n p
        → Contains (records_of (p.name, files p.name)) r → r.version ≡ p.version → p.checksum ≡ Some r.checksum }
{}

/// Over a fixed index, the run that has a valid selection as its old lock ends too, and asks for no more names.
pub fn selections_run_again()
    ensures { (files : List ℕ → Option (List ℕ)) (manifest : ManifestView) (old : Content) (source : List ℕ)
        (asked : List Asked) (content : Content)
        → IsRunOver files manifest old source asked → IsValidSelection (problem_of manifest old source asked) content
        → (again : List Asked) × IsRunOver files manifest content source again × (length again ≤ length asked) }
{}

/// Over a fixed index, a valid selection asks for no more names as the old lock than the run that it was selected in.
pub fn selections_ask_for_no_more()
    ensures { (files : List ℕ → Option (List ℕ)) (manifest : ManifestView) (old : Content) (source : List ℕ)
        (asked : List Asked) (content : Content) (again : List Asked)
        → IsRunOver files manifest old source asked → IsRunOver files manifest content source again
        → IsValidSelection (problem_of manifest old source asked) content
        → (name : List ℕ) → Contains (names_in again) name → Contains (names_in asked) name }
{}

/// Over a fixed index, a valid selection stays one with itself as the old lock.
pub fn selections_hold_with_themselves()
    ensures { (files : List ℕ → Option (List ℕ)) (manifest : ManifestView) (old : Content) (source : List ℕ)
        (asked : List Asked) (content : Content) (again : List Asked)
        → IsRunOver files manifest old source asked → IsRunOver files manifest content source again
        → IsValidSelection (problem_of manifest old source asked) content
        → IsValidSelection (problem_of manifest content source again) content }
{}

/// Over a fixed index, a valid selection stays one with another old lock, if that has those of its packages that are
/// yanked.
pub fn selections_hold_with_other_locks()
    ensures { (files : List ℕ → Option (List ℕ)) (manifest : ManifestView) (old : Content) (source : List ℕ)
        (asked : List Asked) (content lock : Content) (again : List Asked)
        → IsRunOver files manifest old source asked → IsRunOver files manifest lock source again
        → IsValidSelection (problem_of manifest old source asked) content → KeepsYanked files source content lock
        → IsValidSelection (problem_of manifest lock source again) content }
{}
