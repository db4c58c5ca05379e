//! What a pair of a vertex and a state brings into the store.

ghost use Rattle.std.specs.Prelude.{◌≡◌, ◌<◌, OnErr, OnOk, length, map};
ghost use Rattle.incompatibilities.specs.Stores.{entries_view};
ghost use Rattle.propagation.specs.Trails.{set_of};
ghost use Rattle.numbering.specs.GivenViews.{given_views};
ghost use Rattle.guiding.specs.inner.Guides.{marked, with_given};

use incompatibilities::{Incompatibility, Origin, Store};
use std::alloc::{AllocError, Global};
use version_sets::States;
use vertices::Kind;

/// Puts instances into the store.
pub(crate) fn put_given<S: States + Drop>(
    store: &mut Store<S>,
    given: Vec<(Kind, Incompatibility<S>)>,
) -> Result<(), AllocError>
    ensures { OnOk result (entries_view S.tests store.new
        ≡ with_given (entries_view S.tests store.old) (given_views S.tests given.items)) }
{
    'given: for (kind, made) in given {
        store.add(made, Origin::Axiom(kind.number()))?;
    }
    Ok(())
}

/// Says that a state of a vertex was asked for.
pub(crate) fn mark<S: States + Drop>(
    alloc: Global,
    asked: &mut Vec<S>,
    vertex: usize,
    state: u32,
) -> Result<(), AllocError>
    requires vertex { vertex < length asked.old.items }
    requires state { state < length (set_of (map S.tests asked.old.items) vertex) }
    ensures ok { OnOk result (map S.tests asked.new.items ≡ marked (map S.tests asked.old.items) vertex state) }
    ensures err { OnErr result (map S.tests asked.new.items ≡ map S.tests asked.old.items) }
{
    let one = S::single(alloc, asked[vertex].universe(), state)?;
    let both = asked[vertex].union(alloc, &one)?;
    asked[vertex] = both;
    Ok(())
}
