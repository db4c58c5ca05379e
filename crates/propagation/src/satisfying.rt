//! The assignment that satisfied an incompatibility.

ghost use Rattle.incompatibilities.specs.Incompatibilities.{LiesIn, states_at, HoldsAt};
ghost use Rattle.incompatibilities.specs.Stores.{EntryView};
ghost use Rattle.propagation.specs.inner.Counting.{IsCount, Ranked, ranked};
ghost use Rattle.propagation.specs.Promises.{ForcedFits, IsSatisfied, IsSound, IsTrail, OpenFits};
ghost use Rattle.propagation.specs.Satisfaction.{Sat};
ghost use Rattle.propagation.specs.Trails.{level_after, set_of, space_of, trail_view};
ghost use Rattle.propagation.specs.inner.Units.{LiesOn};
ghost use Rattle.std.specs.Prelude.{◌≡◌, ◌<◌, ◌≤◌, List, Some, length};
ghost use Rattle.terms.specs.Terms.{terms_view};

use crate::trail::Trail;
use incompatibilities::{Id, Incompatibility};
use terms::Term;
use version_sets::States;

/// The first assignment after which an incompatibility is satisfied.
#[derive(Clone, Copy, PartialEq, Eq, Debug)]
pub struct Satisfier {
    /// Its place on the trail, counted from 0.
    pub place: usize,
    /// Its vertex.
    pub vertex: usize,
    /// Its level.
    pub level: usize,
    /// The incompatibility that forced it; none for a decision.
    pub cause: Option<Id>,
    /// The level of the first place after which all the other terms are satisfied, 0 if there are none.
    pub before: usize,
}

/// Numbers of places: after how many all terms are satisfied, and after how many all but the last of them.
#[derive(Clone, Copy)]
struct Ranks {
    all: usize,
    others: usize,
}

impl Ranks {
    /// The numbers with one term more, which is satisfied after `places` places.
    fn with(self, places: usize) -> Ranks
        ensures { result ≡ ranked self places }
    {
        if places > self.all {
            Ranks {
                all: places,
                others: self.all,
            }
        } else if places > self.others {
            Ranks {
                all: self.all,
                others: places,
            }
        } else {
            self
        }
    }
}

impl<S: States + Drop> Trail<S> {
    /// The assignment that satisfied an incompatibility, which is satisfied now and has a term; takes no memory.
    ///
    /// Only assignments on the incompatibility's own vertices are looked at.
    pub fn satisfier(&self, incompatibility: &Incompatibility<S>) -> Satisfier
        requires sound { IsSound (trail_view S.tests self.now) }
        requires lies { LiesIn (space_of (trail_view S.tests self.now))
            (states_at (terms_view S.tests incompatibility.now)) }
        requires satisfied { Sat (trail_view S.tests self.now).sets
            (states_at (terms_view S.tests incompatibility.now)) }
        requires some { 0 < length (terms_view S.tests incompatibility.now) }
        ensures satisfied { IsSatisfied (trail_view S.tests self.now)
            (states_at (terms_view S.tests incompatibility.now)) result }
        ensures cause { (es : List EntryView) → IsTrail es (trail_view S.tests self.now)
            → ForcedFits es (trail_view S.tests self.now)
            (terms_view S.tests incompatibility.now) result result.cause }
        ensures opens { OpenFits (trail_view S.tests self.now)
            (states_at (terms_view S.tests incompatibility.now)) result }
    {
        let ranks = self.ranks(incompatibility.terms());
        let place = ranks.all - 1;
        let step = &self.steps[place];
        Satisfier {
            place,
            vertex: step.vertex,
            level: step.level,
            cause: step.forced_by,
            before: self.level_after(ranks.others),
        }
    }

    /// After how many places all of these terms are satisfied, and all but the last of them.
    fn ranks(&self, terms: &[Term<S>]) -> Ranks
        requires sound { IsSound (trail_view S.tests self.now) }
        requires lies { LiesOn (trail_view S.tests self.now) (terms_view S.tests terms.now) }
        requires satisfied { Sat (trail_view S.tests self.now).sets (states_at (terms_view S.tests terms.now)) }
        ensures { Ranked (trail_view S.tests self.now) (terms_view S.tests terms.now)
            (length (terms_view S.tests terms.now)) result }
    {
        let mut ranks = Ranks { all: 0, others: 0 };
        'terms: for place in 0..terms.len() {
            let places = self.places_of(&terms[place]);
            ranks = ranks.with(places);
        }
        ranks
    }

    /// After how many places a term that is satisfied now came to be.
    fn places_of(&self, term: &Term<S>) -> usize
        requires sound { IsSound (trail_view S.tests self.now) }
        requires vertex { term.now.vertex < length (trail_view S.tests self.now).sets }
        requires fits { length (S.tests term.now.states) ≡ space_of (trail_view S.tests self.now) term.now.vertex }
        requires holds { HoldsAt (set_of (trail_view S.tests self.now).sets term.now.vertex)
            (Some (S.tests term.now.states)) }
        ensures { IsCount (trail_view S.tests self.now) term.now.vertex (S.tests term.now.states) result }
    {
        // Sets only shrink from place to place, so the last one before which a state outside the term was left is it.
        let mut link = self.latest[term.vertex];
        'back: while let Some(place) = link {
            if !self.steps[place].before.subset(&term.states) {
                return place + 1;
            }
            link = self.steps[place].previous;
        }
        0
    }

    /// The level after some places.
    fn level_after(&self, places: usize) -> usize
        requires { places ≤ length (trail_view S.tests self.now).steps }
        ensures { result ≡ level_after (trail_view S.tests self.now).steps places }
    {
        if places == 0 {
            return 0;
        }
        self.steps[places - 1].level
    }
}
