//! Pairs of a name and a feature.

ghost use Rattle.std.specs.Prelude.{◌≡◌, ◌&&◌, ◌||◌, false, List, ℕ, OnOk};
ghost use Rattle.model.specs.Summary.{same_text};
ghost use Rattle.model.specs.Causes.{same_pair};
ghost use Rattle.std.specs.List.{list_any};

use std::alloc::{AllocError, Global};
use std::collections::{BTreeMap, BTreeSet};

/// Pairs of a name and a feature: the features by name.
#[derive(Drop)]
pub struct Pairs<'a> {
    alloc: Global,
    features: BTreeMap<&'a str, BTreeSet<&'a str>>,
}

impl<'a> Pairs<'a> {
    ghost use Rattle.axioms.specs.inner.Pairs.{Adds, has_pair};

    pub(crate) fn new(alloc: Global) -> Pairs<'a>
        ensures { (n f : List ℕ) → has_pair result n f ≡ false }
    {
        Pairs {
            alloc,
            features: BTreeMap::new(alloc),
        }
    }

    pub fn has(&self, name: &str, feature: &str) -> bool
        ensures { result ≡ has_pair self.now name.now feature.now }
    {
        match self.features.get(name) {
            Some(features) => features.contains(feature),
            None => false,
        }
    }

    /// Puts a pair, unless it is there.
    pub(crate) fn put(&mut self, name: &'a str, feature: &'a str) -> Result<(), AllocError>
        ensures { OnOk result (Adds self.old self.new (λ n f. same_pair (n, f) (name.now, feature.now))) }
    {
        if let Some(features) = self.features.get_mut(name) {
            features.insert(feature)?;
            return Ok(());
        }
        let mut features = BTreeSet::new(self.alloc);
        features.insert(feature)?;
        self.features.insert(name, features)?;
        Ok(())
    }

    /// Puts the features that other pairs have with one name to another.
    pub(crate) fn put_those(
        &mut self,
        name: &'a str,
        others: &Pairs<'a>,
        called: &str,
    ) -> Result<(), AllocError>
        ensures { OnOk result
            (Adds self.old self.new (λ n f. same_text n name.now && has_pair others.now called.now f)) }
    {
        match others.features.get(called) {
            Some(features) => self.put_each(name, features),
            None => Ok(()),
        }
    }

    fn put_each(&mut self, name: &'a str, features: &BTreeSet<&'a str>) -> Result<(), AllocError>
        ensures { OnOk result
            (Adds self.old self.new (λ n f. list_any (λ k. same_pair (n, f) (name.now, k.now)) features.now.keys)) }
    {
        'features: for feature in features.iter() {
            self.put(name, *feature)?;
        }
        Ok(())
    }
}
