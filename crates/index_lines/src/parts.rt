//! What stands at the keys of a line or of a dependency, found in one pass over its members.

ghost use Rattle.std.specs.Prelude.{◌≡◌, ℕ, List, Option, Some, option_map};
ghost use Rattle.serde_json.specs.Data.{Data, no_members};
ghost use Rattle.trees.specs.inner.Parts.{members_put};
ghost use Rattle.trees.specs.Trees.{left, tree_view};
ghost use Rattle.index_lines.specs.inner.PartMembers.{line_values_by, line_values_in, line_values_of};
ghost use Rattle.index_lines.specs.inner.PartMembers.{value_put, values_in};
ghost use Rattle.index_lines.specs.Shapes.{unless_null, values_by, values_of};
ghost use Rattle.index_lines.specs.inner.ShapeViews.{line_values_view, values_view};

use trees::{Entries, Tree, entries, is_null, next_entry};

/// The values of a dependency: null counts as absent.
#[derive(Drop)]
pub(crate) struct DependencyValues<'t, 'a> {
    pub name: Option<Tree<'t, 'a>>,
    pub requirement: Option<Tree<'t, 'a>>,
    pub features: Option<Tree<'t, 'a>>,
    pub optional: Option<Tree<'t, 'a>>,
    pub default_features: Option<Tree<'t, 'a>>,
    pub kind: Option<Tree<'t, 'a>>,
    pub package: Option<Tree<'t, 'a>>,
    pub registry: Option<Tree<'t, 'a>>,
}

/// The values of a line, in the same way.
#[derive(Drop)]
pub(crate) struct LineValues<'t, 'a> {
    pub name: Option<Tree<'t, 'a>>,
    pub version: Option<Tree<'t, 'a>>,
    pub dependencies: Option<Tree<'t, 'a>>,
    pub checksum: Option<Tree<'t, 'a>>,
    pub features: Option<Tree<'t, 'a>>,
    pub features2: Option<Tree<'t, 'a>>,
    pub yanked: Option<Tree<'t, 'a>>,
    pub format: Option<Tree<'t, 'a>>,
    pub rust_version: Option<Tree<'t, 'a>>,
}

impl<'t, 'a> DependencyValues<'t, 'a> {
    pub(crate) fn none() -> DependencyValues<'t, 'a>
        ensures { values_view result ≡ values_in no_members }
    {
        DependencyValues {
            name: None,
            requirement: None,
            features: None,
            optional: None,
            default_features: None,
            kind: None,
            package: None,
            registry: None,
        }
    }

    /// Takes the values of an object in the place of those that it has. They are found in one pass, for to look for one
    /// key after another would go over the members for each; and they are put where they are read, for to hand them on
    /// would take as long as to find them.
    pub(crate) fn take(&mut self, object: &Tree<'t, 'a>)
        ensures { values_view self.new ≡ values_of (tree_view object.now) }
    {
        *self = DependencyValues::none();
        if let Some(members) = entries(object) {
            self.put_all(members);
        }
    }

    /// Puts the values of the members of an object, where there are none yet.
    fn put_all(&mut self, mut members: Entries<'t, 'a>)
        requires { values_view self.old ≡ values_in no_members }
        ensures { values_view self.new ≡ values_in (members_put (left members.entry) no_members) }
    {
        'members: while let Some((key, value)) = next_entry(&mut members) {
            self.put(key, unless_null(value));
        }
    }

    /// Puts a value to those at its key.
    fn put(&mut self, key: &str, value: Option<Tree<'t, 'a>>)
        ensures { (at : List ℕ → Option Data) → values_view self.old ≡ values_by at
            → values_view self.new ≡ values_by (value_put key.now (option_map tree_view value.entry) at) }
    {
        if key == "name" {
            self.name = value;
        } else if key == "req" {
            self.requirement = value;
        } else if key == "features" {
            self.features = value;
        } else if key == "optional" {
            self.optional = value;
        } else if key == "default_features" {
            self.default_features = value;
        } else if key == "kind" {
            self.kind = value;
        } else if key == "package" {
            self.package = value;
        } else if key == "registry" {
            self.registry = value;
        }
    }
}

impl<'t, 'a> LineValues<'t, 'a> {
    pub(crate) fn none() -> LineValues<'t, 'a>
        ensures { line_values_view result ≡ line_values_in no_members }
    {
        LineValues {
            name: None,
            version: None,
            dependencies: None,
            checksum: None,
            features: None,
            features2: None,
            yanked: None,
            format: None,
            rust_version: None,
        }
    }

    /// Takes the values of an object in the place of those that it has.
    pub(crate) fn take(&mut self, object: &Tree<'t, 'a>)
        ensures { line_values_view self.new ≡ line_values_of (tree_view object.now) }
    {
        *self = LineValues::none();
        if let Some(members) = entries(object) {
            self.put_all(members);
        }
    }

    /// Puts the values of the members of an object, where there are none yet.
    fn put_all(&mut self, mut members: Entries<'t, 'a>)
        requires { line_values_view self.old ≡ line_values_in no_members }
        ensures { line_values_view self.new ≡ line_values_in (members_put (left members.entry) no_members) }
    {
        'members: while let Some((key, value)) = next_entry(&mut members) {
            self.put(key, unless_null(value));
        }
    }

    /// Puts a value to those at its key.
    fn put(&mut self, key: &str, value: Option<Tree<'t, 'a>>)
        ensures { (at : List ℕ → Option Data) → line_values_view self.old ≡ line_values_by at
            → line_values_view self.new ≡ line_values_by (value_put key.now (option_map tree_view value.entry) at) }
    {
        if key == "name" {
            self.name = value;
        } else if key == "vers" {
            self.version = value;
        } else if key == "deps" {
            self.dependencies = value;
        } else if key == "cksum" {
            self.checksum = value;
        } else if key == "features" {
            self.features = value;
        } else if key == "features2" {
            self.features2 = value;
        } else if key == "yanked" {
            self.yanked = value;
        } else if key == "v" {
            self.format = value;
        } else if key == "rust_version" {
            self.rust_version = value;
        }
    }
}

/// A value, unless it is null.
pub(crate) fn unless_null<'t, 'a>(value: Tree<'t, 'a>) -> Option<Tree<'t, 'a>>
    ensures { option_map tree_view result ≡ unless_null (Some (tree_view value.entry)) }
{
    if is_null(&value) { None } else { Some(value) }
}
