//! What a search asks of a manifest and a loaded index: its vertices and axioms on demand, and what to decide.

ghost use Rattle.std.specs.Prelude.{◌≡◌, ◌<◌, [], IfOk, IfSome, OnOk, false, is_some, length, map, true};
ghost use Rattle.numbering.specs.inner.KnownProblem.{KnowsDefault, problem};
ghost use Rattle.numbering.specs.Numberings.{IsNumbering};
ghost use Rattle.incompatibilities.specs.Incompatibilities.{Assignment};
ghost use Rattle.incompatibilities.specs.Stores.{entries_view};
ghost use Rattle.propagation.specs.Promises.{IsTrail};
ghost use Rattle.propagation.specs.Satisfaction.{Agrees};
ghost use Rattle.propagation.specs.Trails.{set_of, trail_view};
ghost use Rattle.guiding.specs.inner.Searching.{CanDecide, HasSpaces};
ghost use Rattle.version_sets.specs.Sets.{has, size};
ghost use Rattle.vertices.specs.inner.RefViews.{vertex_ref_view};
ghost use Rattle.guiding.specs.inner.Guides.{CanAsk, CanFollow, Follows, HasBegun, IsAsking, IsFollowed, IsUnasked};
ghost use Rattle.guiding.specs.inner.Guides.{on_trail};
ghost use Rattle.guiding.specs.inner.Remaining.{spaces_of};

use crate::choosing::{greatest, is_undecided};
use crate::coming::come;
use crate::given::{mark, put_given};
use crate::guidance::Guide;
use crate::leads::Leads;
use crate::opening::{next_open, unless_asked};
use crate::order::Order;
use crate::preferring::Preferences;
use crate::states::state_in;
use catalogue::catalogues_are_well_formed;
use incompatibilities::{Id, Store};
use lockfile::LockContent;
use numbering::{KnownProblem, Noted, Table, axioms_at, first_axioms_at, next_axioms_at};
use propagation::Trail;
use std::alloc::{AllocError, Global};
use std::collections::BTreeSet;
use std::marker::Model;
use version_sets::States;
use vertices::VertexRef;

/// A manifest and a loaded index, as what a search is about.
#[derive(Drop)]
pub struct Encoded<'a, S: States> {
    alloc: Global,
    known: KnownProblem<'a>,
    table: Table<'a>,
    /// The valid selection that the search decides as; else it decides by preference.
    follows: Option<LockContent>,
    /// Of each vertex that the trail has, the states that were asked for.
    asked: Vec<S>,
    /// Those of them that are classes of dependencies, by owner and package.
    noted: Noted<'a>,
    /// Of so many places of the trail the vertex was looked at.
    seen: usize,
    order: Order,
    /// The vertex that comes next in this order.
    next: Option<usize>,
    preferences: Preferences<'a>,
    /// What the version that is decided next needs.
    leads: Leads,
    /// The pairs whose first instances were brought, where a dependency isn't alone on its package.
    begun: BTreeSet<(usize, u32)>,
    /// So many more may be begun so. Each takes one off, by which the search is seen to end.
    to_begin: u64,
}

/// The vertex that is decided by preference: none where a content is followed, which says what each is decided for.
fn unless_followed(follows: &Option<LockContent>, next: Option<usize>) -> Option<usize> {
    match follows {
        Some(_) => None,
        None => next,
    }
}

impl<'a, S: States> Model for Encoded<'a, S> {
    ghost use Rattle.std.specs.Prelude.{map};
    ghost use Rattle.numbering.specs.inner.KnownProblem.{problem};
    ghost use Rattle.guiding.specs.inner.Guides.{AreNoted, CanFollow, EncodedView, IsEncoding, encoded_view};

    ghost Value = { EncodedView };

    ghost view = { λ g.
        encoded_view (problem g.known) g.table (map S.tests g.asked.items) g.seen g.follows g.to_begin };

    ghost invariant = { λ g. IsEncoding g.known g.table (map S.tests g.asked.items)
        × CanFollow (problem g.known) g.follows
        × AreNoted (problem g.known) g.table (map S.tests g.asked.items) g.noted };
}

impl<'a, S: States + Drop> Encoded<'a, S> {
    /// The guide of a search that begins, for a trail without vertices and a store without entries: the root comes onto
    /// the trail, and the instance of its absence into the store.
    pub fn begin(
        alloc: Global,
        known: KnownProblem<'a>,
        follows: Option<LockContent>,
        trail: &mut Trail<S>,
        store: &mut Store<S>,
    ) -> Result<Encoded<'a, S>, AllocError>
        requires default { KnowsDefault known }
        requires follows { CanFollow (problem known) follows }
        requires trail { IsTrail (entries_view S.tests store.old) (trail_view S.tests trail.old) }
        requires bare { length (trail_view S.tests trail.old).sets ≡ 0 }
        requires steps { (trail_view S.tests trail.old).steps ≡ [] }
        requires store { entries_view S.tests store.old ≡ [] }
        ensures { IfOk result (λ g. HasBegun (problem known.entry) follows g (trail_view S.tests trail.new)
            (entries_view S.tests store.new)) }
    {
        catalogues_are_well_formed(known.problem.manifest, known.problem.catalogue);
        let mut table = Table::new(alloc);
        let mut asked = Vec::new(alloc);
        // The one pair with absent that has an instance; others are asked for when they come to stand alone.
        let root = table.put(VertexRef::Root)?;
        let given = axioms_at(alloc, &known, &mut table, root, 0)?;
        come(alloc, &known, &table, &mut asked, trail, store)?;
        put_given(store, given)?;
        Ok(Encoded {
            alloc,
            known,
            table,
            follows,
            asked,
            noted: Noted::new(alloc),
            seen: 0,
            order: Order::new(alloc),
            next: None,
            preferences: Preferences::new(alloc),
            leads: Leads::new(alloc),
            begun: BTreeSet::new(alloc),
            to_begin: u64::MAX,
        })
    }

    /// What vertices and axioms are looked up in, with what was matched for them.
    pub fn known(&self) -> &KnownProblem<'a>
        ensures { problem result.now ≡ self.now.problem }
    {
        &self.known
    }

    /// The vertices by number.
    pub fn table(&self) -> &Table<'a>
        ensures { result.now ≡ self.now.vertices }
    {
        &self.table
    }

    /// Whether a content is followed.
    pub fn is_following(&self) -> bool
        ensures { result ≡ is_some self.now.follows }
    {
        self.follows.is_some()
    }

    /// The content that is followed.
    pub fn into_followed(self) -> Option<LockContent>
        ensures { result ≡ self.entry.follows }
    {
        self.follows
    }

    /// A law, the call does nothing: the vertices have one number each, and those on the trail their own states.
    pub fn vertices_have_numbers_and_states(&self)
        ensures numbering { IsNumbering self.now.problem self.now.vertices }
        ensures spaces { map length self.now.asked
            ≡ spaces_of self.now.problem (on_trail self.now.vertices self.now.asked) }
    {
        let _ = self.asked.len();
    }

    /// Brings the instances of a pair into the store, and the vertices that they speak of onto the trail.
    fn ask(
        &mut self,
        trail: &mut Trail<S>,
        store: &mut Store<S>,
        vertex: usize,
        state: u32,
    ) -> Result<(), AllocError>
        requires trail { IsTrail (entries_view S.tests store.old) (trail_view S.tests trail.old) }
        requires vertex { vertex < length self.old.asked }
        requires state { state < length (set_of self.old.asked vertex) }
        ensures { OnOk result (IsAsking vertex state self.old self.new (trail_view S.tests trail.old)
            (trail_view S.tests trail.new) (entries_view S.tests store.old) (entries_view S.tests store.new)) }
    {
        let number = state as usize;
        let known = &mut self.known;
        known
            .matched
            .keep_at(self.alloc, &self.table, vertex, number)?;
        let given = next_axioms_at(
            self.alloc,
            &self.known,
            &mut self.table,
            &mut self.noted,
            vertex,
            number,
        )?;
        // The vertices first: the store may speak only of those that the trail has.
        come(
            self.alloc,
            &self.known,
            &self.table,
            &mut self.asked,
            trail,
            store,
        )?;
        put_given(store, given)?;
        mark(self.alloc, &mut self.asked, vertex, state)
    }

    /// Brings the first instances of a pair into the store: those of a dependency in a class that name no other one.
    fn begin_with(
        &mut self,
        trail: &mut Trail<S>,
        store: &mut Store<S>,
        vertex: usize,
        state: u32,
    ) -> Result<(), AllocError>
        requires some { 0 < self.old.to_begin }
        requires trail { IsTrail (entries_view S.tests store.old) (trail_view S.tests trail.old) }
        requires vertex { vertex < length self.old.asked }
        requires state { state < length (set_of self.old.asked vertex) }
        ensures { OnOk result (IsAsking vertex state self.old self.new (trail_view S.tests trail.old)
            (trail_view S.tests trail.new) (entries_view S.tests store.old) (entries_view S.tests store.new)) }
    {
        let number = state as usize;
        let given = first_axioms_at(self.alloc, &self.known, &mut self.table, vertex, number)?;
        come(
            self.alloc,
            &self.known,
            &self.table,
            &mut self.asked,
            trail,
            store,
        )?;
        put_given(store, given)?;
        self.to_begin -= 1;
        Ok(())
    }

    /// Whether a pair is to be begun with: one that wasn't, of a dependency that isn't alone on its package. There are
    /// as many instances with the others as these have classes in all, and what rules the class out needs none of them.
    fn takes_long(&mut self, vertex: usize, state: u32) -> Result<bool, AllocError>
        ensures same { self.new ≡ self.old }
        ensures some { IfOk result (λ b. b ≡ true → 0 < self.new.to_begin) }
    {
        let known = &self.known;
        let shares = known.matched.has_others(&self.table, vertex);
        if self.to_begin == 0 || !shares {
            return Ok(false);
        }
        Ok(self.begun.insert((vertex, state))?)
    }

    /// Brings the instances of a pair, or the first of them, into the store.
    fn bring(
        &mut self,
        trail: &mut Trail<S>,
        store: &mut Store<S>,
        vertex: usize,
        state: u32,
    ) -> Result<(), AllocError>
        requires trail { IsTrail (entries_view S.tests store.old) (trail_view S.tests trail.old) }
        requires vertex { vertex < length self.old.asked }
        requires state { state < length (set_of self.old.asked vertex) }
        ensures { OnOk result (IsAsking vertex state self.old self.new (trail_view S.tests trail.old)
            (trail_view S.tests trail.new) (entries_view S.tests store.old) (entries_view S.tests store.new)) }
    {
        if self.takes_long(vertex, state)? {
            self.begin_with(trail, store, vertex, state)
        } else {
            self.ask(trail, store, vertex, state)
        }
    }

    /// The state that a vertex has in the content that is followed, if it is left.
    fn followed_state(&self, vertex: &VertexRef<'a>, left: &S) -> Result<Option<u32>, AllocError>
        ensures left { IfOk result (λ o. IfSome o (λ n. has (S.tests left.now) n ≡ true)) }
        ensures followed { IfOk result
            (λ o. IsFollowed self.now.problem self.now.follows (vertex_ref_view vertex.now) (S.tests left.now) o) }
    {
        let Some(content) = &self.follows else {
            return Ok(None);
        };
        match state_in(self.alloc, &self.known, content, vertex)? {
            Some(state) if left.member(state) => Ok(Some(state)),
            _ => Ok(None),
        }
    }

    /// The state that a vertex is decided for: that of the content that is followed, else the preferred one, else the
    /// greatest that is left.
    fn state_for(&self, number: usize, left: &S) -> Result<u32, AllocError>
        requires number { number < length self.now.asked }
        requires some { 0 < size (S.tests left.now) }
        requires lost { has (S.tests left.now) 0 ≡ false }
        ensures left { IfOk result (λ n. has (S.tests left.now) n ≡ true) }
        ensures follows { IfOk result
            (λ n. (x : Assignment) → Follows self.now x → has (S.tests left.now) (x number) ≡ true → x number ≡ n) }
    {
        let Some(vertex) = self.table.vertex(number) else {
            return Ok(greatest(left));
        };
        if let Some(state) = self.followed_state(&vertex, left)? {
            return Ok(state);
        }
        Ok(self.preferences.preferred(number, left))
    }

    /// The vertex that comes next in the order, and the state that it is decided for.
    fn next_decision(&self, trail: &Trail<S>) -> Result<Option<(usize, u32)>, AllocError>
        requires { HasSpaces (map length self.now.asked) (trail_view S.tests trail.now) }
        ensures can { IfOk result (λ o. IfSome o (λ d. CanDecide (trail_view S.tests trail.now) d.0 d.1)) }
        ensures follows { IfOk result (λ o. IfSome o (λ d. (x : Assignment) → Follows self.now x
            → Agrees x (trail_view S.tests trail.now).sets → x d.0 ≡ d.1)) }
    {
        let Some(vertex) = self.next else {
            return Ok(None);
        };
        if vertex >= self.asked.len() {
            return Ok(None);
        }
        let left = trail.states(vertex);
        if !is_undecided(left) {
            return Ok(None);
        }
        Ok(Some((vertex, self.state_for(vertex, left)?)))
    }

    /// The pair that is decided next, if it wasn't asked for, after what leads on from it. Where its instances leave it
    /// out at once, no level is opened for it, and none is taken back.
    fn ahead(
        &self,
        trail: &Trail<S>,
        lead: Option<(usize, u32)>,
    ) -> Result<Option<(usize, u32)>, AllocError>
        requires spaces { HasSpaces (map length self.now.asked) (trail_view S.tests trail.now) }
        requires lead { IfSome lead (λ d. IsUnasked self.now.asked d.0 d.1) }
        ensures { IfOk result (λ o. IfSome o (λ d. CanAsk (trail_view S.tests trail.now) self.now.asked d.0 d.1)) }
    {
        if lead.is_some() {
            return Ok(lead);
        }
        let Some((vertex, state)) = self.next_decision(trail)? else {
            return Ok(None);
        };
        match unless_asked(&self.asked[vertex], state) {
            Some(state) => Ok(Some((vertex, state))),
            None => Ok(None),
        }
    }
}

impl<'a, S: States + Drop> Guide<S> for Encoded<'a, S> {
    ghost use Rattle.std.specs.Prelude.{map, length};
    ghost use Rattle.guiding.specs.inner.Guides.{AreStored, Follows, GoesOn, IsDone, IsOfInstance, asked_of, late_with};
    ghost use Rattle.guiding.specs.inner.Guides.{left_with};
    ghost use Rattle.guiding.specs.inner.Going.{goes_on, goes_same, stored_on};

    ghost spaces = { λ g. map length g.asked };

    ghost late = { λ g. late_with g };

    ghost asked = { λ g. asked_of g.asked };

    ghost left = { λ g. left_with g };

    ghost seen = { λ g. g.seen };

    ghost done = { λ g t. IsDone t };

    ghost given = { λ g e. IsOfInstance g.problem g.vertices e };

    ghost stored = { λ g es. AreStored g.problem g.vertices g.asked es };

    ghost stored_on = { λ g es more was. stored_on g es more was };

    ghost follows = { λ g x. Follows g x };

    ghost keeps = { λ old new. GoesOn old new };

    ghost keeps_same = { λ g. goes_same g };

    ghost keeps_on = { λ a b c first second. goes_on a b c first second };

    fn axioms(&mut self, trail: &mut Trail<S>, store: &mut Store<S>) -> Result<bool, AllocError> {
        match next_open(trail, &self.asked, &mut self.seen) {
            Some((vertex, state)) => {
                self.bring(trail, store, vertex, state)?;
                Ok(true)
            }
            // Nothing that stands alone is left to ask for. What the decision would bring is asked for before it.
            None => {
                self.order.follow(trail, self.asked.len())?;
                self.next = self.order.next(trail, self.asked.len())?;
                let wanted = unless_followed(&self.follows, self.next);
                let vertices = self.asked.len();
                self.preferences.keep(
                    self.alloc,
                    &self.known,
                    &self.table,
                    trail,
                    vertices,
                    wanted,
                )?;
                let is_hard = self.order.is_hard();
                let lead = self.leads.next(&self.asked, is_hard);
                match self.ahead(trail, lead)? {
                    Some((vertex, state)) => {
                        let before = store.len();
                        self.bring(trail, store, vertex, state)?;
                        self.leads.note(lead, store, before)?;
                        Ok(true)
                    }
                    None => Ok(false),
                }
            }
        }
    }

    fn choose(&self, trail: &Trail<S>) -> Result<Option<(usize, u32)>, AllocError> {
        if let Some(decision) = self.next_decision(trail)? {
            return Ok(Some(decision));
        }
        // There is no candidate; this shows that no vertex is left out.
        'vertices: for vertex in 0..self.asked.len() {
            let left = trail.states(vertex);
            if is_undecided(left) {
                return Ok(Some((vertex, self.state_for(vertex, left)?)));
            }
        }
        Ok(None)
    }

    fn noted(
        &mut self,
        trail: &Trail<S>,
        store: &Store<S>,
        conflict: Id,
        learned: Id,
    ) -> Result<(), AllocError> {
        self.order.jumped(trail.level(), store, conflict, learned)?;
        // What was seen at places that were cut may stand otherwise when they are filled again.
        self.order.cut(trail.places())?;
        if trail.places() < self.seen {
            self.seen = trail.places();
        }
        Ok(())
    }
}
