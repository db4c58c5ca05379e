//! The kinds of axioms, and the codes that they are printed as.

ghost use Rattle.std.specs.Prelude.{◌≡◌, option_map};
ghost use Rattle.vertices.specs.Texts.{kind_at, kind_number, kind_of_text, kind_text, kind_view};

use std::fmt;

/// The kind of an axiom: what no selection does.
#[derive(Clone, Copy, Debug, PartialEq, Eq)]
pub enum Kind {
    /// The root is absent.
    Root,
    /// An owner holds, and a dependency that it needs is absent.
    Needed,
    /// A dependency has its target in a class, in which no version stands that its requirement matches.
    Target,
    /// A feature is on in a class, in which no version stands that has it.
    HasFeature,
    /// A dependency has its target in a class, and a feature that it asks for is off there.
    WantsFeature,
    /// A feature is on, and a feature among its entries is off.
    FeatureOnFeature,
    /// A feature is on, and a dependency among its entries is absent.
    FeatureOnDependency,
    /// A feature is on, and doesn't ask for what its entry `d/g` asks for.
    FeatureAsks,
    /// Two dependencies of one owner on one package have their targets in two classes, and the requirement of the one
    /// with the lower class matches the version in the higher: an entry of the list that may mean two means the newest.
    NewestListed,
    /// A feature is on, a dependency that its entry `d?/g` names has its target in a class, and the feature is off
    /// there.
    WeakFeature,
}

/// The kinds, each once.
static KINDS: [Kind; 10] = [
    Kind::Root,
    Kind::Needed,
    Kind::Target,
    Kind::HasFeature,
    Kind::WantsFeature,
    Kind::FeatureOnFeature,
    Kind::FeatureOnDependency,
    Kind::FeatureAsks,
    Kind::NewestListed,
    Kind::WeakFeature,
];

impl Kind {
    /// The code that it is printed as.
    pub fn code(self) -> &'static str
        ensures { result.now ≡ kind_text (kind_view self) }
    {
        match self {
            Kind::Root => "X0",
            Kind::Needed => "X1",
            Kind::Target => "X2",
            Kind::HasFeature => "X3",
            Kind::WantsFeature => "X4",
            Kind::FeatureOnFeature => "X5",
            Kind::FeatureOnDependency => "X6",
            Kind::FeatureAsks => "X7",
            Kind::NewestListed => "X8",
            Kind::WeakFeature => "X9",
        }
    }

    /// The kind whose code a text is.
    pub fn of_code(text: &str) -> Option<Kind>
        ensures { option_map kind_view result ≡ kind_of_text text.now }
    {
        KINDS.iter().find(|kind| text == kind.code()).copied()
    }

    /// The number that a search keeps it by.
    pub fn number(self) -> u8
        ensures { result ≡ kind_number (kind_view self) }
    {
        match self {
            Kind::Root => 0,
            Kind::Needed => 1,
            Kind::Target => 2,
            Kind::HasFeature => 3,
            Kind::WantsFeature => 4,
            Kind::FeatureOnFeature => 5,
            Kind::FeatureOnDependency => 6,
            Kind::FeatureAsks => 7,
            Kind::NewestListed => 8,
            Kind::WeakFeature => 9,
        }
    }

    /// The kind of this number; of one that no kind has, the root's.
    pub fn numbered(number: u8) -> Kind
        ensures { kind_view result ≡ kind_at number }
    {
        match number {
            1 => Kind::Needed,
            2 => Kind::Target,
            3 => Kind::HasFeature,
            4 => Kind::WantsFeature,
            5 => Kind::FeatureOnFeature,
            6 => Kind::FeatureOnDependency,
            7 => Kind::FeatureAsks,
            8 => Kind::NewestListed,
            9 => Kind::WeakFeature,
            _ => Kind::Root,
        }
    }
}

impl fmt::Display for Kind {
    ghost use Rattle.std.specs.Prelude.{Some};
    ghost use Rattle.vertices.specs.Texts.{kind_view, kind_text};

    ghost output = { λ kind. Some (kind_text (kind_view kind)) };

    fn fmt<W: fmt::Write>(&self, f: &mut fmt::Formatter<W>) -> fmt::Result {
        f.write_str(self.code())
    }
}
