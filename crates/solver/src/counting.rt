//! How many axioms a search needed.

ghost use Rattle.std.specs.Prelude.{◌≡◌};
ghost use Rattle.incompatibilities.specs.inner.Counts.{axioms, given_in};
ghost use Rattle.incompatibilities.specs.Stores.{entries_view};

use incompatibilities::{Id, Origin, Store};
use version_sets::States;

/// How many of a store's incompatibilities are axioms.
pub(crate) fn axioms_in<S: States + Drop>(store: &Store<S>) -> u64
    ensures { result ≡ axioms (entries_view S.tests store.now) }
{
    let mut count = 0;
    'entries: for place in 0..store.len() {
        count += given_in(store.origin(Id::new(place)));
    }
    count
}

/// One for an axiom.
fn given_in(origin: &Origin) -> u64
    ensures { result ≡ given_in origin.now }
{
    match origin {
        Origin::Axiom(_) => 1,
        Origin::Learned(_) => 0,
    }
}
