//! Whether the terms of a step are the combination of two earlier ones at a vertex.

ghost use Rattle.std.specs.Prelude.{◌≡◌, ◌&&◌, Some};
ghost use Rattle.std.specs.List.{AllByRecursion, list_all};
ghost use Rattle.model.specs.Derivation.{both, meet_at, union_at};
ghost use Rattle.model.specs.inner.Terms.{same_at, same_states};
ghost use Rattle.derivations.specs.inner.Tables.{term_at, terms_at};
ghost use Rattle.checker.specs.inner.Claims.{IsSound, claim_first, claim_problem, claim_second, claim_tables};
ghost use Rattle.checker.specs.inner.Claims.{claim_vertex};
ghost use Rattle.checker.specs.inner.Claims.{fits_claim, fits_or_said_claim, is_right};
ghost use Rattle.checker.specs.inner.Names.{IsMade, named_set, set_if};
ghost use Rattle.checker.specs.inner.Ready.{IsReady, IsSetIf, tables_of};

use crate::names::Names;
use crate::space::is_full;
use axioms::Gathered;
use derivations::Term;

/// That terms are the combination of two lists of terms at a vertex.
#[derive(Drop)]
pub(crate) struct Claim<'s, 'a> {
    pub(crate) gathered: &'s Gathered<'a>,
    pub(crate) names: &'s Names<'a>,
    pub(crate) vertex: usize,
    pub(crate) first: &'s [Term],
    pub(crate) second: &'s [Term],
    pub(crate) terms: &'s [Term],
}

impl<'s, 'a> Claim<'s, 'a> {
    /// Whether it is so, of sets of terms: the union there, unless it is full, and the intersection elsewhere.
    pub(crate) fn holds(&self) -> bool
        requires { IsSound self.now }
        ensures { result ≡ is_right self.now }
    {
        self.all_fit(self.terms) && self.others_fit()
    }

    /// Whether nothing is left out at the vertices of both.
    fn others_fit(&self) -> bool
        requires { IsSound self.now }
        ensures { result ≡ (list_all (fits_or_said_claim self.now) (claim_first self.now)
            && list_all (fits_or_said_claim self.now) (claim_second self.now)) }
    {
        self.all_fit_or_said(self.first) && self.all_fit_or_said(self.second)
    }

    /// Whether the terms say what the combination says at the vertex of each of these.
    fn all_fit(&self, those: &[Term]) -> bool
        requires sound { IsSound self.now }
        requires those { AllByRecursion (IsReady self.now.names.now) those.now }
        ensures { result ≡ list_all (fits_claim self.now) (terms_at (claim_tables self.now) those.now) }
    {
        'those: for term in those {
            if !self.fits(term) {
                return false;
            }
        }
        true
    }

    /// The same, but for vertices at which they say something.
    fn all_fit_or_said(&self, those: &[Term]) -> bool
        requires sound { IsSound self.now }
        requires those { AllByRecursion (IsReady self.now.names.now) those.now }
        ensures { result ≡ list_all (fits_or_said_claim self.now) (terms_at (claim_tables self.now) those.now) }
    {
        'those: for term in those {
            if !self.fits_or_said(term) {
                return false;
            }
        }
        true
    }

    /// Whether the terms say something at the vertex of a term, or else what the combination says there.
    fn fits_or_said(&self, term: &Term) -> bool
        requires sound { IsSound self.now }
        requires term { IsReady self.now.names.now term.now }
        ensures { result ≡ fits_or_said_claim self.now (term_at (claim_tables self.now) term.now) }
    {
        match self.names.find(self.terms, term.vertex) {
            Some(_) => true,
            None => self.fits(term),
        }
    }

    /// Whether the terms say what the combination says at the vertex of one term.
    fn fits(&self, term: &Term) -> bool
        requires sound { IsSound self.now }
        requires term { IsReady self.now.names.now term.now }
        ensures { result ≡ fits_claim self.now (term_at (claim_tables self.now) term.now) }
    {
        let said = self.names.find(self.terms, term.vertex);
        let first = self.names.find(self.first, term.vertex);
        let second = self.names.find(self.second, term.vertex);
        if self.names.is_same_vertex(self.vertex, term.vertex) {
            self.is_union(first, second, said)
        } else {
            is_meet(self.names, first, second, said)
        }
    }

    /// Whether this is said where two are combined: their union, and nothing if that is full.
    fn is_union(&self, a: Option<usize>, b: Option<usize>, said: Option<usize>) -> bool
        requires sound { IsSound self.now }
        requires a { IsSetIf self.now.names.now a }
        requires b { IsSetIf self.now.names.now b }
        requires said { IsSetIf self.now.names.now said }
        ensures { result ≡ same_at (set_if (claim_tables self.now) said) (union_at (claim_problem self.now)
            (claim_vertex self.now) (set_if (claim_tables self.now) a) (set_if (claim_tables self.now) b)) }
    {
        match (a, b) {
            (Some(a), Some(b)) => self.is_union_of(a, b, said),
            _ => said.is_none(),
        }
    }

    /// The same where both have a set at the vertex.
    fn is_union_of(&self, a: usize, b: usize, said: Option<usize>) -> bool
        requires sound { IsSound self.now }
        requires a { IsMade (claim_tables self.now) self.now.names.now.sets.items a }
        requires b { IsMade (claim_tables self.now) self.now.names.now.sets.items b }
        requires said { IsSetIf self.now.names.now said }
        ensures { result
            ≡ same_at (set_if (claim_tables self.now) said) (union_at (claim_problem self.now) (claim_vertex self.now)
            (Some (named_set (claim_tables self.now) a)) (Some (named_set (claim_tables self.now) b))) }
    {
        let (a, b) = (self.names.set(a), self.names.set(b));
        let vertex = self.names.vertex(self.vertex);
        if is_full(self.gathered, vertex, a, b) {
            return said.is_none();
        }
        match said {
            Some(said) => self.names.set(said).is_union(a, b),
            None => false,
        }
    }
}

/// Whether this is said where two meet.
fn is_meet(names: &Names<'_>, a: Option<usize>, b: Option<usize>, said: Option<usize>) -> bool
    requires a { IsSetIf names.now a }
    requires b { IsSetIf names.now b }
    requires said { IsSetIf names.now said }
    ensures { result ≡ same_at (set_if (tables_of names.now) said)
        (meet_at (set_if (tables_of names.now) a) (set_if (tables_of names.now) b)) }
{
    match (said, a, b) {
        (Some(said), Some(a), Some(b)) => is_meet_of(names, a, b, said),
        (Some(said), Some(a), None) => names.is_same_set(said, a),
        (Some(said), None, Some(b)) => names.is_same_set(said, b),
        (None, None, None) => true,
        _ => false,
    }
}

fn is_meet_of(names: &Names<'_>, a: usize, b: usize, said: usize) -> bool
    requires a { IsMade (tables_of names.now) names.now.sets.items a }
    requires b { IsMade (tables_of names.now) names.now.sets.items b }
    requires said { IsMade (tables_of names.now) names.now.sets.items said }
    ensures { result ≡ same_states (named_set (tables_of names.now) said)
        (both (named_set (tables_of names.now) a) (named_set (tables_of names.now) b)) }
{
    names.set(said).is_meet(names.set(a), names.set(b))
}
