//! The entries of a store that one of them comes from.

ghost use Rattle.std.specs.Prelude.{◌≡◌, ◌<◌, true, IfOk, length};
ghost use Rattle.version_sets.specs.Sets.{has};
ghost use Rattle.incompatibilities.specs.Stores.{OriginFits, entries_view, entry};
ghost use Rattle.solver.specs.inner.Marks.{AreBelow, IsMarking, PartsBelow, visited, with_links, with_parts};

use incompatibilities::{Id, Link, Origin, Store};
use std::alloc::{AllocError, Global};
use version_sets::States;

/// Marks what links combine with.
fn mark_links(marks: &mut Vec<bool>, links: &[Link])
    requires { AreBelow (length marks.old.items) links.now }
    ensures { marks.new.items ≡ with_links links.now marks.old.items }
{
    'links: for link in links {
        marks[link.with.index()] = true;
    }
}

/// Marks the entries of a chain.
fn mark_parts(marks: &mut Vec<bool>, origin: &Origin)
    requires { PartsBelow (length marks.old.items) origin.now }
    ensures { marks.new.items ≡ with_parts origin.now marks.old.items }
{
    match origin {
        Origin::Axiom(_) => {}
        Origin::Learned(chain) => {
            marks[chain.first().index()] = true;
            mark_links(marks, chain.links());
        }
    }
}

/// Marks what a marked entry comes out of.
fn visit<S: States + Drop>(marks: &mut Vec<bool>, store: &Store<S>, id: usize)
    requires marked { id < length marks.old.items }
    requires there { id < length (entries_view S.tests store.now) }
    ensures marks { marks.new.items ≡ visited (entries_view S.tests store.now) id marks.old.items }
    ensures fits { has marks.old.items id ≡ true → OriginFits (entries_view S.tests store.now) id
        (entry (entries_view S.tests store.now) id).terms (entry (entries_view S.tests store.now) id).origin }
{
    if marks[id] {
        mark_parts(marks, store.origin(Id::new(id)));
    }
}

/// The marks of an entry and of all that it comes from.
pub(crate) fn marked<S: States + Drop>(
    alloc: Global,
    store: &Store<S>,
    last: usize,
) -> Result<Vec<bool>, AllocError>
    requires { last < length (entries_view S.tests store.now) }
    ensures { IfOk result (λ v. IsMarking (entries_view S.tests store.now) last 0 v.items) }
{
    let mut marks = vec![in alloc; false; last]?;
    marks.push(true)?;
    let mut left = marks.len();
    'entries: while left > 0 {
        left -= 1;
        visit(&mut marks, store, left);
    }
    Ok(marks)
}
