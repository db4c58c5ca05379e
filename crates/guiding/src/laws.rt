//! The number that falls, on whatever trail: nothing is done here.

ghost use Rattle.conflicts.specs.Resolving.{IsLearned, Quiet};
ghost use Rattle.incompatibilities.specs.Stores.{EntryView};
ghost use Rattle.propagation.specs.Promises.{IsSound, Propagated};
ghost use Rattle.propagation.specs.Trails.{StepView, TrailView};
ghost use Rattle.propagation.specs.declared.propagating.Progress.{Progress};
ghost use Rattle.guiding.specs.inner.Searching.{EachFalls, HasJumped};
ghost use Rattle.std.specs.Prelude.{ℕ, List};

/// Each assignment and each decision of a trail brought the number down.
pub fn assignments_fall()
    ensures { (late : ℕ) (t : TrailView) → IsSound t → EachFalls late t }
{}

/// So does what was learned, taken together with the jump back and the first assignment after it, which comes: where no
/// entry was satisfied at the end of an earlier level.
pub fn jumps_fall()
    ensures { (late : ℕ) (es : List EntryView) (old mid new : TrailView) (id back_to : ℕ) (next : Progress)
        (added : List StepView) → Quiet es old old.level → IsLearned old es mid id back_to
        → Propagated es mid new next added → IsSound new → HasJumped late old mid new }
{}
