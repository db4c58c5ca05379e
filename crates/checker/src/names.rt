//! What the numbers of steps stand for, found once for all of them.

ghost use Rattle.std.specs.Prelude.{◌≤◌, length};
ghost use Rattle.checker.specs.inner.Names.{AreVertexRanks};

use derivations::{Tables, Term};
use lookups::StateSet;
use std::cmp::Ordering;
use vertices::Vertex;

/// The order of the vertices, and the sets of states that steps name.
#[derive(Drop)]
pub(crate) struct Names<'a> {
    tables: &'a Tables,
    /// By vertex: two compare as the vertices' texts do.
    ranks: Vec<usize>,
    /// By number, those that steps name.
    sets: Vec<Option<StateSet<'a>>>,
    ghost within: { length ranks.items ≤ length tables.now.vertices },
    ghost order: { AreVertexRanks tables.now ranks.items },
}

impl<'a> Names<'a> {
    ghost use Rattle.std.specs.Prelude.{◌≡◌, ◌<◌, ◌∷◌, [], option_map};
    ghost use Rattle.std.specs.Ordering.{nat_cmp};
    ghost use Rattle.model.specs.Derivation.{states_at};
    ghost use Rattle.model.specs.Vertices.{same_vertex};
    ghost use Rattle.model.specs.inner.Terms.{same_states};
    ghost use Rattle.derivations.specs.inner.Tables.{terms_at, vertex_at};
    ghost use Rattle.vertices.specs.Views.{vertex_view};
    ghost use Rattle.checker.specs.inner.Ready.{AreReady, IsReady, IsSetIf, tables_of};
    ghost use Rattle.checker.specs.inner.Names.{IsMade, named_set, rank_at};

    pub(crate) fn new(
        tables: &'a Tables,
        ranks: Vec<usize>,
        sets: Vec<Option<StateSet<'a>>>,
    ) -> Names<'a>
        requires within { length ranks.items ≤ length tables.now.vertices }
        requires order { AreVertexRanks tables.now ranks.items }
        ensures tables { tables_of result ≡ tables.entry.now }
        ensures ranks { result.ranks.items ≡ ranks.items }
        ensures sets { result.sets.items ≡ sets.entry.items }
    {
        Names {
            tables,
            ranks,
            sets,
        }
    }

    pub(crate) fn vertex(&self, number: usize) -> &'a Vertex
        requires { number < length (tables_of self.now).vertices }
        ensures { vertex_view result.now ≡ vertex_at (tables_of self.now) number }
    {
        self.tables.vertex(number)
    }

    /// The set of states of this number.
    pub(crate) fn set(&self, number: usize) -> &StateSet<'a>
        requires { IsMade (tables_of self.now) self.now.sets.items number }
        ensures { result.now ≡ named_set (tables_of self.now) number }
    {
        match &self.sets[number] {
            Some(states) => states,
            None => unreachable!(),
        }
    }

    /// Whether two numbers stand for one vertex: equal ones do without a look.
    pub(crate) fn is_same_vertex(&self, a: usize, b: usize) -> bool
        requires a { a < length (tables_of self.now).vertices }
        requires b { b < length (tables_of self.now).vertices }
        ensures { result ≡ same_vertex (vertex_at (tables_of self.now) a) (vertex_at (tables_of self.now) b) }
    {
        if a == b {
            return true;
        }
        self.vertex(a) == self.vertex(b)
    }

    /// Whether two numbers stand for one set of states: equal ones do without a look.
    pub(crate) fn is_same_set(&self, a: usize, b: usize) -> bool
        requires a { IsMade (tables_of self.now) self.now.sets.items a }
        requires b { IsMade (tables_of self.now) self.now.sets.items b }
        ensures { result ≡ same_states (named_set (tables_of self.now) a) (named_set (tables_of self.now) b) }
    {
        if a == b {
            return true;
        }
        self.set(a).is_same(self.set(b))
    }

    /// The number of the set of states that terms leave at a vertex.
    pub(crate) fn find(&self, terms: &[Term], vertex: usize) -> Option<usize>
        requires terms { AreReady self.now terms.now }
        requires vertex { vertex < length self.now.ranks.items }
        ensures said { option_map (named_set (tables_of self.now)) result
            ≡ states_at (terms_at (tables_of self.now) terms.now) (vertex_at (tables_of self.now) vertex) }
        ensures made { IsSetIf self.now result }
    {
        match terms.binary_search_by(|term| self.order(term.vertex, vertex)) {
            Ok(place) => self.set_if(&terms[place], vertex),
            Err(_) => None,
        }
    }

    /// The number of the set of a term, if it is of this vertex.
    fn set_if(&self, term: &Term, vertex: usize) -> Option<usize>
        requires term { IsReady self.now term.now }
        requires vertex { vertex < length (tables_of self.now).vertices }
        ensures said { option_map (named_set (tables_of self.now)) result
            ≡ states_at (terms_at (tables_of self.now) (term.now ∷ [])) (vertex_at (tables_of self.now) vertex) }
        ensures made { IsSetIf self.now result }
    {
        if self.is_same_vertex(vertex, term.vertex) {
            Some(term.states)
        } else {
            None
        }
    }

    /// By the bytes of the vertices' texts.
    fn order(&self, a: usize, b: usize) -> Ordering
        ensures { result ≡ nat_cmp (rank_at self.now.ranks.items a) (rank_at self.now.ranks.items b) }
    {
        self.rank(a).cmp(&self.rank(b))
    }

    fn rank(&self, number: usize) -> usize
        ensures { result ≡ rank_at self.now.ranks.items number }
    {
        match self.ranks.get(number) {
            Some(rank) => *rank,
            None => 0,
        }
    }
}
