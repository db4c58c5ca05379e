//! What terms are looked up in, gathered once for all steps.

ghost use Rattle.std.specs.Prelude.{◌≡◌, IfOk};
ghost use Rattle.catalogue.specs.Problems.{problem_in};
ghost use Rattle.axioms.specs.inner.Gathered.{is_known_feature};
ghost use Rattle.lookups.specs.inner.NumbersViews as numbered;
ghost use Rattle.axioms.specs.inner.KeptViews as known;
ghost use Rattle.axioms.specs.inner.Listed.{AreLists, AreOfOwners, AreOfRows};
ghost use Rattle.axioms.specs.inner.Pairs.{HasThose};
ghost use Rattle.lookups.specs.inner.Views.{problem_view};
ghost use Rattle.model.specs.Causes.{same_pair};
ghost use Rattle.std.specs.List.{list_any};

use crate::entries::Named;
use crate::gathering::{asked_by_root, known_features};
use crate::instances::Kept;
use crate::pairs::Pairs;
use catalogue::Catalogue;
use classes::Class;
use features::{DependencyParts, FeatureName};
use lookups::{Numbers, Problem};
use manifest::Manifest;
use std::alloc::{AllocError, Global};
use std::collections::{HashMap, HashSet};
use vertices::OwnerRef;

/// The manifest and the loaded index, with the features that are known of each name, and with what was found for
/// earlier steps.
#[derive(Drop)]
pub struct Gathered<'a> {
    pub(crate) problem: Problem<'a>,
    pub(crate) features: Pairs<'a>,
    pub(crate) numbers: Numbers<'a>,
    pub(crate) kept: Kept<'a>,
    /// What entries of the root ask for, by the names that dependencies are called by.
    pub(crate) root_asks: Pairs<'a>,
    /// By version and feature, the entries where they are many.
    pub(crate) rows: HashMap<(OwnerRef<'a>, &'a FeatureName), HashSet<Named<'a>>>,
    /// By version, the entries of all its features.
    pub(crate) versions: HashMap<OwnerRef<'a>, HashSet<Named<'a>>>,
    /// By owner and number, the list of a dependency where it is long, with the name of its package.
    pub(crate) lists: HashMap<(OwnerRef<'a>, usize), Pairs<'a>>,
    ghost features_are: { HasThose features (is_known_feature (problem_view problem)) },
    ghost numbers_are: { numbered.problem_of numbers ≡ problem_view problem },
    ghost kept_are: { known.problem_of kept ≡ problem_view problem },
    ghost root_asks_are: { HasThose root_asks (λ d g. list_any (same_pair (d, g)) (problem_view problem).root_asks) },
    ghost rows_are: { AreOfRows (problem_view problem) rows },
    ghost versions_are: { AreOfOwners (problem_view problem) versions },
    ghost lists_are: { AreLists (problem_view problem) lists },
}

impl<'a> Gathered<'a> {
    ghost use Rattle.axioms.specs.inner.GatheredViews.{problem_of};
    ghost use Rattle.std.specs.Prelude.{IfSome};
    ghost use Rattle.axioms.specs.inner.Keeping.{AreAll};
    ghost use Rattle.model.specs.Vertices.{dep_classes};
    ghost use Rattle.classes.specs.Classes.{class_view};
    ghost use Rattle.features.specs.Views.{dependency_view};
    ghost use Rattle.model.specs.Causes.{has_class};

    /// Gathers what is looked up for each step.
    ///
    /// # Errors
    /// Want of memory.
    pub fn new(
        alloc: Global,
        manifest: &'a Manifest,
        catalogue: &'a Catalogue,
    ) -> Result<Gathered<'a>, AllocError>
        ensures { IfOk result (λ g. problem_of g ≡ problem_in manifest.entry.now catalogue.entry.now) }
    {
        let problem = Problem {
            manifest,
            catalogue,
        };
        Ok(Gathered {
            problem,
            features: known_features(alloc, manifest, catalogue)?,
            numbers: Numbers::new(alloc, problem),
            kept: Kept::new(alloc, problem),
            root_asks: asked_by_root(alloc, manifest.features())?,
            rows: HashMap::new(alloc),
            versions: HashMap::new(alloc),
            lists: HashMap::new(alloc),
        })
    }

    /// What terms are looked up in.
    pub fn problem(&self) -> &Problem<'a>
        ensures { problem_view result.now ≡ problem_of self.now }
    {
        &self.problem
    }

    /// The classes to which the dependency may lead, if they are kept.
    pub fn classes(&self, dependency: &'a DependencyParts) -> Option<&[Class]>
        ensures { IfSome result
            (λ ks. AreAll (dep_classes (problem_of self.now) (dependency_view dependency.now)) ks.now) }
    {
        self.kept.classes(dependency)
    }

    /// Keeps the classes to which a dependency may lead, if they are many to find.
    ///
    /// # Errors
    /// Want of memory.
    pub fn keep_classes(
        &mut self,
        alloc: Global,
        owner: OwnerRef<'a>,
        number: usize,
    ) -> Result<(), AllocError>
        ensures { problem_of self.new ≡ problem_of self.old }
    {
        self.kept.keep_classes(alloc, owner, number)
    }

    /// Whether some candidate of the class is matched.
    pub(crate) fn has_class(&self, class: Class, dependency: &'a DependencyParts) -> bool
        ensures { result ≡ has_class (problem_of self.now) (class_view class) (dependency_view dependency.now) }
    {
        self.kept.has_class(class, dependency)
    }
}
