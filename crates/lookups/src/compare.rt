//! Comparison of terms, as sets.

ghost use Rattle.std.specs.Prelude.{◌≡◌, ◌&&◌, option_map};
ghost use Rattle.std.specs.List.{list_all};
ghost use Rattle.model.specs.Derivation.{states_at};
ghost use Rattle.model.specs.inner.Terms.{agree, same_at, same_terms};
ghost use Rattle.lookups.specs.inner.TermViews.{term_views};
ghost use Rattle.vertices.specs.inner.RefViews.{vertex_ref_view};

use crate::states::StateSet;
use crate::term::Term;
use vertices::{VertexRef, same_vertex};

/// Whether two lists of terms say the same of each vertex that one of them speaks of.
pub fn same_terms<'a>(a: &[Term<'a>], b: &[Term<'a>]) -> bool
    ensures { result ≡ same_terms (term_views a.now) (term_views b.now) }
{
    all_agree(a, b, a) && all_agree(a, b, b)
}

fn all_agree<'a>(a: &[Term<'a>], b: &[Term<'a>], terms: &[Term<'a>]) -> bool
    ensures { result ≡ list_all (agree (term_views a.now) (term_views b.now)) (term_views terms.now) }
{
    terms.iter().all(|term| agree(a, b, &term.vertex))
}

/// Whether both say the same of a vertex, or nothing.
fn agree<'a>(a: &[Term<'a>], b: &[Term<'a>], vertex: &VertexRef<'a>) -> bool
    ensures { result ≡ same_at (states_at (term_views a.now) (vertex_ref_view vertex.now))
        (states_at (term_views b.now) (vertex_ref_view vertex.now)) }
{
    match (states_at(a, vertex), states_at(b, vertex)) {
        (None, None) => true,
        (Some(a), Some(b)) => a.is_same(b),
        _ => false,
    }
}

/// The states that the terms leave at a vertex.
fn states_at<'s, 'a>(terms: &'s [Term<'a>], vertex: &VertexRef<'_>) -> Option<&'s StateSet<'a>>
    ensures { option_map (λ s. s.now) result ≡ states_at (term_views terms.entry.now) (vertex_ref_view vertex.now) }
{
    'terms: for term in terms.iter() {
        if same_vertex(vertex, &term.vertex) {
            return Some(&term.states);
        }
    }
    None
}
