//! Names, tables of features, and the versions that a requirement matches by class.

ghost use Rattle.std.specs.Prelude.{◌≤◌, length};
ghost use Rattle.std.specs.List.{AllPairs};
ghost use Rattle.std.specs.declared.cmp.Ordering.TheVariants.{Less};
ghost use Rattle.std.specs.Prelude.{◌≡◌};
ghost use Rattle.semver.specs.Eval.{precedence_cmp};

use crate::problems::{Files, load_files, manifest_of};
use classes::{Class, matching};
use features::{DepName, Entry, EntryFault, FeatureName, FeatureTable, NameFault, PackageName};
use index_reader::index_path;
use semver::{Version, VersionReq};
use std::alloc::{AllocError, Global};
use std::collections::BTreeMap;
use std::test::Fail;

/// A table of one feature f with the entry `b/x`, of a package with an optional dependency b.
fn table(alloc: Global) -> Result<FeatureTable, Fail> {
    let mut entries = Vec::new(alloc);
    entries.push(Entry::parse(alloc, "b/x")?)?;
    let mut written = BTreeMap::new(alloc);
    written.insert(FeatureName::parse(alloc, "f")?, entries)?;
    let b = DepName {
        name: PackageName::parse(alloc, "b")?,
        optional: true,
    };
    Ok(FeatureTable::build(alloc, &[b], written)?)
}

#[test]
fn builds_a_table(rt: HostRuntime) -> Result<(), Fail> {
    let table = table(rt.alloc())?;
    for (name, has, entries) in [
        ("f", true, 1),
        ("b", true, 1),
        ("default", true, 0),
        ("x", false, 0),
    ] {
        let feature = FeatureName::parse(rt.alloc(), name)?;
        assert!(rt; table.has(&feature) == has, "{name}");
        assert!(rt; table.entries(&feature).len() == entries, "{name}");
    }
    Ok(())
}

#[test]
fn reads_names(rt: HostRuntime) -> Result<(), Fail> {
    assert!(rt;
        matches!(
            PackageName::parse(rt.alloc(), "a b"),
            Err(NameFault::NotAName)
        )
    );
    assert!(rt; matches!(FeatureName::parse(rt.alloc(), ""), Err(NameFault::NotAName)));
    assert!(rt;
        matches!(
            Entry::parse(rt.alloc(), "dep:"),
            Err(EntryFault::NotAnEntry)
        )
    );
    for (name, path) in [
        ("a", "1/a"),
        ("ab", "2/ab"),
        ("Abc", "3/a/abc"),
        ("Serde", "se/rd/serde"),
    ] {
        let name = PackageName::parse(rt.alloc(), name)?;
        assert_eq!(rt; index_path(rt.alloc(), &name)?.as_str(), path);
    }
    Ok(())
}

#[test]
fn orders_classes(rt: HostRuntime) -> Result<(), Fail> {
    for (lower, higher, text) in [
        ("0.0.7", "0.3.1", "0.0.7"),
        ("0.3.9", "1.0.0", "0.3"),
        ("1.9.0-x", "2.0.0", "1"),
    ] {
        let lower = Class::of(&Version::parse(rt.alloc(), lower)?);
        assert!(rt; lower < Class::of(&Version::parse(rt.alloc(), higher)?));
        assert_eq!(rt; format!(in rt.alloc(); "{lower}")?.as_str(), text);
    }
    Ok(())
}

/// The groups of a requirement among versions that a catalogue has, as text.
fn groups(
    alloc: Global,
    requirement: &VersionReq,
    versions: &[Version],
) -> Result<String, AllocError>
    requires rising { AllPairs (λ v w. precedence_cmp v w ≡ Less) versions.now }
    requires few { length versions.now ≤ 65535 }
{
    let mut text = String::new(alloc);
    for (class, places) in matching(alloc, requirement, versions)?.iter() {
        text.push_str(format!(in alloc; "{class}: {places:?};")?.as_str())?;
    }
    Ok(text)
}

/// A root that needs a, of which there are versions of two classes.
static CLASSES: Files = Files {
    manifest: "[package]\nname = \"demo\"\n\n[dependencies]\na = \"1\"\n",
    index: &[(
        "1/a",
        r#"{"name":"a","vers":"0.9.0","deps":[],"cksum":"0000000000000000000000000000000000000000000000000000000000000000"}
{"name":"a","vers":"1.0.0","deps":[],"cksum":"0000000000000000000000000000000000000000000000000000000000000000"}
{"name":"a","vers":"1.1.0","deps":[],"cksum":"0000000000000000000000000000000000000000000000000000000000000000"}
"#,
    )],
};

#[test]
fn groups_matching_versions(rt: HostRuntime) -> Result<(), Fail> {
    let manifest = manifest_of(rt.alloc(), &CLASSES)?;
    let catalogue = load_files(rt.alloc(), &CLASSES, &manifest)?;
    let a = PackageName::parse(rt.alloc(), "a")?;
    let requirement = VersionReq::parse(rt.alloc(), "^1")?;
    let groups = groups(rt.alloc(), &requirement, catalogue.versions(&a))?;
    assert_eq!(rt; groups.as_str(), "1: [1, 2];");
    Ok(())
}
