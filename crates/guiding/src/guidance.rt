//! What a search is about.

use incompatibilities::{Id, Store};
use propagation::Trail;
use std::alloc::AllocError;
use version_sets::States;

/// What a search asks from outside: which vertices there are, which axioms it needs, and what to decide; and what it
/// tells of its conflicts, so that this can be by what had to do with them lately.
pub trait Guide<S: States + Drop>: Sized {
    ghost use Rattle.incompatibilities.specs.Incompatibilities.{Assignment};
    ghost use Rattle.incompatibilities.specs.Stores.{EntryView, entries_view};
    ghost use Rattle.propagation.specs.Promises.{IsTrail};
    ghost use Rattle.propagation.specs.Satisfaction.{Agrees};
    ghost use Rattle.propagation.specs.Trails.{TrailView, trail_view};
    ghost use Rattle.guiding.specs.inner.Searching.{AreMore, HasSpaces, IsCaught, IsSeen, Pairs};
    ghost use Rattle.guiding.specs.inner.Turning.{IsAdding, IsChosen};
    ghost use Rattle.guiding.specs.inner.Following.{AreGiven, KeepsFollowed};
    ghost use Rattle.std.specs.Prelude.{◌≡◌, ℕ, ◌<◌, ◌≤◌, ◌++◌, IfOk, IfSome, List, OnOk, length};

    /// How many states each vertex has that the trail has now.
    ghost spaces: { Self → List ℕ };

    /// How many states the vertices have that are still to come.
    ghost late: { Self → ℕ };

    /// Which pairs of a vertex and a state had their axioms put into the store, or have none.
    ghost asked: { Self → Pairs };

    /// How many pairs there are still.
    ghost left: { Self → ℕ };

    /// How many places of the trail were looked at; a pair that stood alone after them was asked for. So a guide has to
    /// look only at later ones: a cut takes seen places off, and none of the others is looked at again.
    ghost seen: { Self → ℕ };

    /// No vertex is to be decided.
    ghost done: { Self → TrailView → Type 0 };

    /// What an axiom may be.
    ghost given: { Self → EntryView → Type 0 };

    /// What is known of the axioms that the store has, as that those of each pair that was asked for are there.
    ghost stored: { Self → List EntryView → Type 0 };

    ghost stored_on: { (g : Self) (es more : List EntryView) → stored g es → stored g (es ++ more) };

    /// An assignment that breaks no axiom, and whose states are decided, as far as the vertices go that there are now.
    ghost follows: { Self → Assignment → Type 0 };

    /// What a guide keeps of an earlier one, as the table to which its numbers belong.
    ghost keeps: { Self → Self → Type 0 };

    ghost keeps_same: { (g : Self) → keeps g g };

    ghost keeps_on: { (a b c : Self) → keeps a b → keeps b c → keeps a c };

    /// Puts the axioms of pairs that stand alone now into the store, and says whether there were any. The vertices that
    /// these speak of first come onto the trail.
    ///
    /// Each has a term of one state, for a pair that wasn't asked for, at a vertex that was there before. At the end of
    /// each earlier level all pairs that stood alone had been asked for, so the axiom isn't satisfied there.
    fn axioms(&mut self, trail: &mut Trail<S>, store: &mut Store<S>) -> Result<bool, AllocError>
        requires trail { IsTrail (entries_view S.tests store.old) (trail_view S.tests trail.old) }
        requires spaces { HasSpaces (spaces self.old) (trail_view S.tests trail.old) }
        requires caught { IsCaught (asked self.old) (trail_view S.tests trail.old) }
        // So only the vertices of later places have to be looked at.
        requires seen { IsSeen (seen self.old) (asked self.old) (trail_view S.tests trail.old) }
        ensures adding { IfOk result (λ added. IsAdding (asked self.old) (asked self.new) (left self.old)
            (left self.new) (late self.old) (late self.new) (trail_view S.tests trail.old)
            (trail_view S.tests trail.new) (entries_view S.tests store.old) (entries_view S.tests store.new) added) }
        ensures spaces { IfOk result (λ added. HasSpaces (spaces self.new) (trail_view S.tests trail.new)) }
        ensures seen { IfOk result (λ added. IsSeen (seen self.new) (asked self.new) (trail_view S.tests trail.new)) }
        ensures keeps { IfOk result (λ added. keeps self.old self.new) }
        ensures given { IfOk result (λ added. AreGiven (given self.old) (entries_view S.tests store.old)
            → AreGiven (given self.new) (entries_view S.tests store.new)) }
        ensures stored { IfOk result (λ added. stored self.old (entries_view S.tests store.old)
            → stored self.new (entries_view S.tests store.new)) }
        ensures follows { IfOk result
            (λ added. KeepsFollowed (follows self.old) (entries_view S.tests store.old) (trail_view S.tests trail.old)
            (follows self.new) (entries_view S.tests store.new) (trail_view S.tests trail.new)) };

    /// A vertex to decide and its state, if there is one to be decided.
    fn choose(&self, trail: &Trail<S>) -> Result<Option<(usize, u32)>, AllocError>
        requires { HasSpaces (spaces self.now) (trail_view S.tests trail.now) }
        ensures chosen { IfOk result
            (λ o. IsChosen (done self.now (trail_view S.tests trail.now)) (trail_view S.tests trail.now) o) }
        ensures follows { IfOk result (λ o. IfSome o (λ d. (x : Assignment) → follows self.now x
            → Agrees x (trail_view S.tests trail.now).sets → x d.0 ≡ d.1)) };

    /// Tells that a conflict was resolved, and the trail cut, before what was learned is propagated. `learned` is
    /// `conflict`, or comes out of a chain whose entries are the ones that had to do with the conflict.
    ///
    /// What is kept of it may change what is chosen. The vertices stay, and so does how many pairs are left; fewer
    /// places may count as looked at.
    fn noted(
        &mut self,
        trail: &Trail<S>,
        store: &Store<S>,
        conflict: Id,
        learned: Id,
    ) -> Result<(), AllocError>
        requires trail { IsTrail (entries_view S.tests store.now) (trail_view S.tests trail.now) }
        requires spaces { HasSpaces (spaces self.old) (trail_view S.tests trail.now) }
        requires conflict { conflict < length (entries_view S.tests store.now) }
        requires learned { learned < length (entries_view S.tests store.now) }
        ensures spaces { OnOk result (spaces self.new ≡ spaces self.old) }
        ensures late { OnOk result (late self.new ≡ late self.old) }
        ensures asked { OnOk result (AreMore (asked self.old) (asked self.new)) }
        ensures left { OnOk result (left self.new ≡ left self.old) }
        // Places that were cut are seen no more.
        ensures seen { OnOk result (seen self.new ≤ seen self.old) }
        ensures within { OnOk result (seen self.new ≤ length (trail_view S.tests trail.now).steps) }
        ensures keeps { OnOk result (keeps self.old self.new) }
        ensures given { OnOk result ((e : EntryView) → given self.old e → given self.new e) }
        ensures stored { OnOk result ((es : List EntryView) → stored self.old es → stored self.new es) }
        ensures follows { OnOk result ((x : Assignment) → follows self.new x → follows self.old x) };
}
