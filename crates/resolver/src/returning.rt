//! The laws of the calls: each is a function that does nothing, whose contract is the statement.

ghost use Rattle.std.specs.Prelude.{◌≡◌, ◌↔◌, ℕ, Bool, List, Option, Result, Ok, true, Contains, String, Vec};
ghost use Rattle.std.specs.List.{All};
ghost use Rattle.std.specs.declared.alloc.Global.{Global};
ghost use Rattle.model.specs.Content.{Content, packages_if};
ghost use Rattle.model.specs.Derivation.{Step};
ghost use Rattle.model.specs.Selection.{IsValidSelection};
ghost use Rattle.model.specs.Order.{IsCatalogue};
ghost use Rattle.index_reader.specs.Folders.{Files, MemoryCalls};
ghost use Rattle.index_reader.specs.declared.skip.Skip.{Skip};
ghost use Rattle.lockfile.specs.Locks.{content_of_bytes};
ghost use Rattle.lockfile.specs.Spelling.{IsWritable};
ghost use Rattle.catalogue.specs.Problems.{IsProblemOfRun, KeepsYanked};
ghost use Rattle.catalogue.specs.Sources.{is_source};
ghost use Rattle.derivations.specs.Files.{derivation_of_bytes};
ghost use Rattle.selection.specs.declared.verdict.Verdict.{Verdict};
ghost use Rattle.selection.specs.declared.verdict.Verdict.TheVariants.{Valid};
ghost use Rattle.checker.specs.declared.outcome.Check.{Check};
ghost use Rattle.resolver.specs.CheckedProofs.{Checks};
ghost use Rattle.resolver.specs.Inputs.{input_wants_memory, RequestView, AreRead, IsCutShort, IsInputFault, names_of};
ghost use Rattle.resolver.specs.Inputs.{old_of_bytes, problem_of};
ghost use Rattle.resolver.specs.Answers.{Resolves, Verifies, IsAnswer, IsAnswered, IsChosen};
ghost use Rattle.resolver.specs.inner.Returning.{handed_in, to_verify, to_check, AreAlike, ComesBack, FindsValid};
ghost use Rattle.resolver.specs.inner.Returning.{FindsProof};
ghost use Rattle.resolver.specs.inner.Returning.{IsSomeLock, files_of};
ghost use Rattle.resolver.specs.declared.fault.Fault.{Fault};
ghost use Rattle.resolver.specs.declared.fault.CheckFault.{CheckFault};
ghost use Rattle.resolver.specs.declared.inputs.Inputs.{Inputs};
ghost use Rattle.resolver.specs.declared.resolving.Answer.{Answer};
ghost use Rattle.resolver.specs.declared.resolving.Answer.TheVariants.{Lock, Unsolvable};

use index_reader::Folder;

/// An answer is a lock exactly where a valid selection exists, and so a refusal exactly where none does.
pub fn locks_are_given_where_there_are_selections()
    ensures { (old : Option (List ℕ)) (inputs : Inputs) (answer : Answer) → IsAnswer old inputs answer
        → IsSomeLock answer ↔ ((content : Content) × IsValidSelection (problem_of inputs) content) }
{}

/// Each call leaves a folder in memory as it was, however it ends: so of two calls on one folder the second is over the
/// same map of files.
pub fn memory_folders_stay()
    ensures resolving { (failed : Files → ℕ) (folder : Files) (request : RequestView)
        (result : Result Answer Fault) (after : Files)
        → Resolves MemoryCalls failed request folder result after → after ≡ folder }
    ensures verifying { (failed : Files → ℕ) (folder : Files) (request : RequestView)
        (result : Result Verdict Fault) (after : Files)
        → Verifies MemoryCalls failed request folder result after → after ≡ folder }
    ensures checking { (failed : Files → ℕ) (folder : Files) (request : RequestView) (bytes : List ℕ)
        (result : Result Check CheckFault) (after : Files)
        → Checks MemoryCalls failed request bytes folder result after → after ≡ folder }
{}

/// Over one map of files, a lock that `resolve` gave comes back where it is handed in as the old one: the same bytes,
/// kept. Want of memory alone may come between.
pub fn given_locks_come_back()
    ensures { (failed : Files → ℕ) (folder : Files) (request : RequestView) (bytes : Vec ℕ Global) (kept : Bool)
        (skips : Vec Skip Global) (after : Files) (result : Result Answer Fault) (later : Files)
        → Resolves MemoryCalls failed request folder (Ok (Lock bytes kept skips)) after
        → Resolves MemoryCalls failed (handed_in request bytes.items) folder result later
        → ComesBack bytes.items result }
{}

/// The run that a given lock is handed in to asks only for names that the run which gave it asked for, whether it
/// answers or memory is wanting.
pub fn given_locks_ask_for_no_more()
    ensures answered { (failed : Files → ℕ) (folder : Files) (request : RequestView) (bytes : Vec ℕ Global)
        (kept : Bool) (skips : Vec Skip Global) (after : Files) (again : Answer) (later : Files)
        (first : IsAnswered MemoryCalls failed request folder (Lock bytes kept skips) after)
        (second : IsAnswered MemoryCalls failed (handed_in request bytes.items) folder again later)
        (name : List ℕ) → Contains (names_of second.inputs) name → Contains (names_of first.inputs) name }
    ensures cut_short { (failed : Files → ℕ) (folder : Files) (request : RequestView) (bytes : Vec ℕ Global)
        (kept : Bool) (skips : Vec Skip Global) (after : Files) (names : List (List ℕ)) (later : Files)
        (first : IsAnswered MemoryCalls failed request folder (Lock bytes kept skips) after)
        (second : IsCutShort MemoryCalls failed (handed_in request bytes.items) folder names later)
        (name : List ℕ) → Contains names name → Contains (names_of first.inputs) name }
{}

/// Over one map of files, a lock that `resolve` gave is valid for `verify_bytes`, whatever was preferred. Want of
/// memory alone may come between.
pub fn given_locks_verify()
    ensures { (failed : Files → ℕ) (folder : Files) (request : RequestView) (bytes : Vec ℕ Global) (kept : Bool)
        (skips : Vec Skip Global) (after : Files) (result : Result Verdict Fault) (later : Files)
        → Resolves MemoryCalls failed request folder (Ok (Lock bytes kept skips)) after
        → Verifies MemoryCalls failed (to_verify request bytes.items) folder result later → FindsValid result }
{}

/// Over one map of files, where a lock is valid for `verify_bytes`, and the old lock that `resolve` is given has each
/// of its packages that is yanked in the index, an answer of `resolve` is a lock.
pub fn verified_locks_exclude_refusals()
    ensures { (failed : Files → ℕ) (folder : Files) (request : RequestView) (lock : List ℕ) (content : Content)
        (old : Option Content) (after : Files) (answer : Answer) (later : Files)
        → Verifies MemoryCalls failed (to_verify request lock) folder (Ok Valid) after
        → Resolves MemoryCalls failed request folder (Ok answer) later
        → content_of_bytes lock ≡ Ok content → old_of_bytes request.old ≡ Ok old
        → KeepsYanked (files_of folder) request.source content (packages_if old) → IsSomeLock answer }
{}

/// Over one map of files, a derivation that `resolve` gave proves for `check_bytes`, with the same old lock and
/// whatever was preferred, from bytes that read as it: those that `derivations::write` gives do, where it has at most
/// 16,777,216 steps. Want of memory alone may come between.
pub fn given_refusals_prove()
    ensures { (failed : Files → ℕ) (folder : Files) (request : RequestView) (derivation : List Step)
        (text : String Global) (skips : Vec Skip Global) (after : Files)
        (bytes : List ℕ) (result : Result Check CheckFault) (later : Files)
        → Resolves MemoryCalls failed request folder (Ok (Unsolvable derivation text skips)) after
        → derivation_of_bytes bytes ≡ Ok derivation
        → Checks MemoryCalls failed (to_check request) bytes folder result later → FindsProof result }
{}

/// What a call has read makes a catalogue, each name once, its versions rising and each feature table knowing its
/// features; and it is that of a run of the folder, so that the laws of `model` and of `catalogue` hold of it.
pub fn loaded_inputs_make_a_catalogue<F: Folder>()
    ensures catalogue { (request : RequestView) (before : F) (inputs : Inputs) (after : F)
        → AreRead F.calls F.failed request before inputs after
        → IsCatalogue (problem_of inputs) }
    ensures run { (request : RequestView) (before : F) (inputs : Inputs) (after : F)
        → AreRead F.calls F.failed request before inputs after
        → IsProblemOfRun F.calls before inputs.manifest (packages_if inputs.old) request.source
        (problem_of inputs) after }
{}

/// Names that weren't asked for can't matter. Where a run over one map of files has read its inputs, every other map
/// that has the same files for the names which it asked for is read as the same inputs, and as no other: the same
/// candidates, and so the same valid selections. A run over that map ends with no fault of an input, and what it
/// answers is an answer to the first run's inputs.
pub fn names_not_asked_for_cannot_matter()
    ensures read { (failed : Files → ℕ) (folder other : Files) (request : RequestView) (inputs : Inputs) (after : Files)
        → AreRead MemoryCalls failed request folder inputs after → AreAlike (names_of inputs) folder other
        → AreRead MemoryCalls failed request other inputs other }
    ensures same { (failed : Files → ℕ) (folder other : Files) (request : RequestView) (inputs : Inputs) (after : Files)
        → AreRead MemoryCalls failed request folder inputs after → AreAlike (names_of inputs) folder other
        → (again : Inputs) (later : Files) → AreRead MemoryCalls failed request other again later → again ≡ inputs }
    ensures unrefused { (failed : Files → ℕ) (folder other : Files) (request : RequestView)
        (inputs : Inputs) (after : Files)
        → AreRead MemoryCalls failed request folder inputs after → AreAlike (names_of inputs) folder other
        → (fault : Fault) (later : Files) → IsInputFault MemoryCalls failed request other fault later
        → input_wants_memory fault ≡ true }
    ensures answered { (failed : Files → ℕ) (folder other : Files) (request : RequestView)
        (answer again : Answer) (after later : Files)
        (first : IsAnswered MemoryCalls failed request folder answer after)
        → AreAlike (names_of first.inputs) folder other
        → IsAnswered MemoryCalls failed request other again later → IsAnswer request.old first.inputs again }
{}

/// What may be chosen of a loaded index has texts that a lock may have: so only its length, or TOML, can be why its
/// spelling doesn't read as it.
pub fn chosen_contents_are_writable<F: Folder>()
    ensures { (request : RequestView) (before : F) (inputs : Inputs) (after : F) (content : Content)
        → is_source request.source ≡ true
        → AreRead F.calls F.failed request before inputs after → IsChosen inputs content → All IsWritable content }
{}
