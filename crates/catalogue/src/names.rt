//! The names that a run asks for.

ghost use Rattle.std.specs.Prelude.{◌≡◌, ◌++◌, ◌∷◌, [], false, length, OnOk};
ghost use Rattle.std.specs.List.{All, IsDistinct, list_any, position};
ghost use Rattle.features.specs.inner.Valid.{IsPackageName};
ghost use Rattle.model.specs.Summary.{same_text};

use features::PackageName;
use std::alloc::{AllocError, Global};
use std::collections::HashMap;
use std::marker::Model;

/// Names, each once, in the order in which they came. No set of `indexmap`: each crate that sees a catalogue would have
/// to read all that is stated of that crate.
#[derive(Drop)]
pub(crate) struct Names {
    list: Vec<PackageName>,
    /// The place of each in the list.
    places: HashMap<PackageName, usize>,
}

impl Model for Names {
    ghost use Rattle.catalogue.specs.inner.Names.{ArePlaces, NamesView};

    ghost Value = { NamesView };

    ghost view = { λ names. record { keys = names.list.items } };

    ghost invariant = { λ names. ArePlaces names.list.items names.places };
}

impl Names {
    /// None yet.
    pub(crate) fn new(alloc: Global) -> Names
        ensures empty { result.keys ≡ [] }
    {
        Names {
            list: Vec::new(alloc),
            places: HashMap::new(alloc),
        }
    }

    pub(crate) fn len(&self) -> usize
        ensures len { result ≡ length self.now.keys }
        ensures unique { IsDistinct same_text self.now.keys }
        ensures valid { All IsPackageName self.now.keys }
    {
        self.list.len()
    }

    pub(crate) fn as_slice(&self) -> &[PackageName]
        ensures keys { result.now ≡ self.now.keys }
    {
        self.list.as_slice()
    }

    /// The place of a name.
    pub(crate) fn get_index_of(&self, name: &PackageName) -> Option<usize>
        ensures index { result ≡ position (same_text name.now) self.now.keys }
    {
        self.places.get(name).copied()
    }

    pub(crate) fn contains(&self, name: &PackageName) -> bool
        ensures contains { result ≡ list_any (same_text name.now) self.now.keys }
    {
        self.places.contains_key(name)
    }

    /// Puts a name last that isn't there.
    pub(crate) fn insert(&mut self, name: PackageName) -> Result<(), AllocError>
        requires { list_any (same_text name) self.old.keys ≡ false }
        ensures keys { OnOk result (self.new.keys ≡ self.old.keys ++ name ∷ []) }
    {
        // What the name's type promises of its text is known from here on.
        name.as_str();
        let key = name.clone()?;
        self.list.reserve(1)?;
        self.places.insert(key, self.list.len())?;
        self.list.push_reserved(name);
        Ok(())
    }
}
