//! A locked package.

ghost use Rattle.std.specs.Prelude.{◌≡◌, true};
ghost use Rattle.semver.specs.Grammar.{IsValid};
ghost use Rattle.semver.specs.Identifiers.{parts_of};
ghost use Rattle.features.specs.Names.{is_package_name};

use features::PackageName;
use semver::Version;

/// A locked package; its list has the places of packages of the same content.
#[derive(Drop)]
pub struct Package {
    pub name: PackageName,
    pub version: Version,
    /// Where the package comes from, if it isn't the root.
    pub source: Option<String>,
    pub checksum: Option<String>,
    /// The places of the packages that this one depends on, lowest first.
    pub list: Vec<usize>,
    ghost named: { is_package_name name ≡ true },
    ghost version_reads: { IsValid (parts_of version) },
}

impl Package {
    ghost use Rattle.std.specs.Prelude.{◌≡◌, option_map};
    ghost use Rattle.lockfile.specs.inner.Views.{package_view};

    /// The source, if the package has one.
    pub fn source(&self) -> Option<&str>
        ensures { option_map (λ s. s.now) result ≡ (package_view self.now).source }
    {
        match &self.source {
            Some(source) => Some(source.as_str()),
            None => None,
        }
    }
    /// The checksum, if the package has one.
    pub fn checksum(&self) -> Option<&str>
        ensures { option_map (λ s. s.now) result ≡ (package_view self.now).checksum }
    {
        match &self.checksum {
            Some(checksum) => Some(checksum.as_str()),
            None => None,
        }
    }
}
