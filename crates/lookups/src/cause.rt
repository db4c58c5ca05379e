//! What gives rise to an instance of an axiom, by names and numbers.

ghost use Rattle.std.specs.Prelude.{◌≡◌};
ghost use Rattle.model.specs.Causes.{kind_of};
ghost use Rattle.vertices.specs.Texts.{kind_view};
ghost use Rattle.lookups.specs.inner.CauseViews.{cause_view};

use classes::Class;
use features::{Entry, FeatureName, PackageName};
use semver::Version;
use vertices::{Kind, OwnerRef};

/// What an instance comes from.
#[derive(Clone, Copy, PartialEq, Eq, Hash)]
pub enum Cause<'a> {
    Root,
    /// An owner, and the number of a dependency that it needs.
    Need(OwnerRef<'a>, usize),
    /// A dependency of an owner, and a class that it may lead to.
    Target(OwnerRef<'a>, usize, Class),
    /// A feature that is asked of a class.
    Feature(&'a PackageName, Class, &'a FeatureName),
    /// A dependency of an owner, a class that it may lead to, and a feature that it asks for by its list.
    List(OwnerRef<'a>, usize, Class, &'a FeatureName),
    /// The same, where an entry `d/g` of the version asks for g.
    Ask(&'a PackageName, &'a Version, usize, &'a FeatureName, Class),
    /// An entry `g` of a version's feature f.
    Entry(&'a PackageName, &'a Version, &'a FeatureName, &'a FeatureName),
    /// An entry of a version's feature f that enables a dependency.
    Enabling(&'a PackageName, &'a Version, &'a FeatureName, &'a Entry, usize),
    /// An entry `d/g` of a version's feature f, and a dependency called d.
    Asking(&'a PackageName, &'a Version, &'a FeatureName, &'a FeatureName, usize),
    /// Two dependencies of an owner, and a class for each.
    Newest(OwnerRef<'a>, usize, usize, Class, Class),
    /// An entry `d?/g` of a version's feature f, a dependency called d, and a class that it may lead to.
    Weak(&'a PackageName, &'a Version, &'a FeatureName, &'a FeatureName, usize, Class),
}

impl Cause<'_> {
    /// The kind of the instance.
    pub fn kind(&self) -> Kind
        ensures { kind_view result ≡ kind_of (cause_view self.now) }
    {
        match self {
            Cause::Root => Kind::Root,
            Cause::Need(_, _) => Kind::Needed,
            Cause::Target(_, _, _) => Kind::Target,
            Cause::Feature(_, _, _) => Kind::HasFeature,
            Cause::List(_, _, _, _) => Kind::WantsFeature,
            Cause::Ask(_, _, _, _, _) => Kind::WantsFeature,
            Cause::Entry(_, _, _, _) => Kind::FeatureOnFeature,
            Cause::Enabling(_, _, _, _, _) => Kind::FeatureOnDependency,
            Cause::Asking(_, _, _, _, _) => Kind::FeatureAsks,
            Cause::Newest(_, _, _, _, _) => Kind::NewestListed,
            Cause::Weak(_, _, _, _, _, _) => Kind::WeakFeature,
        }
    }
}
