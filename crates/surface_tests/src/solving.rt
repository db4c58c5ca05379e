//! Searches, derivations, and the calls from bytes to an answer.

use crate::problems::{PLAIN, REFUSED, SOURCE, boxed, folder_of, load_files, manifest_of};
use catalogue::{Catalogue, Prefer, Source};
use checker::{Check, check};
use derivations::{Derivation, DerivationFault, read, write};
use explainer::explain;
use manifest::Manifest;
use resolver::{Answer, check_bytes, resolve, verify_bytes};
use selection::Verdict;
use solver::{Outcome, solve};
use std::alloc::{AllocError, Global};
use std::test::Fail;

/// Why the root that needs a 1.0.0 and b, whose one version needs a 1.1.0, has no selection.
const LINES: &str = r#"{"axiom":"X0","terms":[["root",["absent"]]]}
{"axiom":"X1","terms":[["dep root 0",["absent"]],["root",["present"]]]}
{"axiom":"X2","terms":[["dep root 0",["1"]],["pkg a 1",["absent","1.1.0"]]]}
{"combine":[1,2,"dep root 0"],"terms":[["pkg a 1",["absent","1.1.0"]],["root",["present"]]]}
{"axiom":"X1","terms":[["dep root 1",["absent"]],["root",["present"]]]}
{"axiom":"X2","terms":[["dep root 1",["1"]],["pkg b 1",["absent"]]]}
{"combine":[4,5,"dep root 1"],"terms":[["pkg b 1",["absent"]],["root",["present"]]]}
{"axiom":"X1","terms":[["dep b@1.0.0 0",["absent"]],["pkg b 1",["1.0.0"]]]}
{"axiom":"X2","terms":[["dep b@1.0.0 0",["1"]],["pkg a 1",["absent","1.0.0"]]]}
{"combine":[7,8,"dep b@1.0.0 0"],"terms":[["pkg a 1",["absent","1.0.0"]],["pkg b 1",["1.0.0"]]]}
{"combine":[6,9,"pkg b 1"],"terms":[["pkg a 1",["absent","1.0.0"]],["root",["present"]]]}
{"combine":[3,10,"pkg a 1"],"terms":[["root",["present"]]]}
{"combine":[0,11,"root"],"terms":[]}
"#;

const TOLD: &str = "1: never root in {absent}, as X0 root
2: never dep root 0 in {absent} and root in {present}, as X1 needed
3: never dep root 0 in {1} and pkg a 1 in {absent, 1.1.0}, as X2 target
4: never pkg a 1 in {absent, 1.1.0} and root in {present}, from 2 and 3
5: never dep root 1 in {absent} and root in {present}, as X1 needed
6: never dep root 1 in {1} and pkg b 1 in {absent}, as X2 target
7: never pkg b 1 in {absent} and root in {present}, from 5 and 6
8: never dep b@1.0.0 0 in {absent} and pkg b 1 in {1.0.0}, as X1 needed
9: never dep b@1.0.0 0 in {1} and pkg a 1 in {absent, 1.0.0}, as X2 target
10: never pkg a 1 in {absent, 1.0.0} and pkg b 1 in {1.0.0}, from 8 and 9
11: never pkg a 1 in {absent, 1.0.0} and root in {present}, from 7 and 10
12: never root in {present}, from 4 and 11
13: no selection is left, from 1 and 12
";

/// Whether a derivation is written as those lines.
fn is_written(alloc: Global, derivation: &Derivation) -> Result<bool, AllocError> {
    let written = write(alloc, derivation)?;
    Ok(written.as_slice() == LINES.as_bytes())
}

/// Whether it is told so.
fn is_told(alloc: Global, derivation: &Derivation) -> Result<bool, AllocError> {
    let told = explain(alloc, derivation)?;
    Ok(told.as_str() == TOLD)
}

/// The derivation of those lines.
fn refutation(alloc: Global) -> Result<Box<Derivation>, DerivationFault> {
    Ok(boxed(alloc, read(alloc, LINES.as_bytes())?)?)
}

#[test]
fn writes_and_tells_a_derivation(rt: HostRuntime) -> Result<(), Fail> {
    let derivation = refutation(rt.alloc())?;
    assert!(rt; is_written(rt.alloc(), &derivation)?);
    assert!(rt; is_told(rt.alloc(), &derivation)?);
    Ok(())
}

/// Whether those lines prove that there is no selection.
fn proves(
    alloc: Global,
    manifest: &Manifest,
    catalogue: &Catalogue,
) -> Result<bool, DerivationFault> {
    let derivation = refutation(alloc)?;
    Ok(check(alloc, manifest, catalogue, &derivation)? == Check::Proves)
}

#[test]
fn checks_a_derivation(rt: HostRuntime) -> Result<(), Fail> {
    let manifest = manifest_of(rt.alloc(), &REFUSED)?;
    let catalogue = load_files(rt.alloc(), &REFUSED, &manifest)?;
    assert!(rt; proves(rt.alloc(), &manifest, &catalogue)?);
    Ok(())
}

#[test]
fn refuses_a_line(rt: HostRuntime) -> Result<(), Fail> {
    assert!(rt; matches!(read(rt.alloc(), b"{}"), Err(DerivationFault::NotALine(1))));
    Ok(())
}

/// How many packages a search selects, if any.
fn selected(
    alloc: Global,
    manifest: &Manifest,
    catalogue: &Catalogue,
) -> Result<Option<usize>, AllocError> {
    let found = solve(alloc, manifest, catalogue)?;
    Ok(packages(&found.outcome))
}

fn packages(outcome: &Outcome) -> Option<usize> {
    match outcome {
        Outcome::Selection(content) => Some(content.packages().len()),
        Outcome::Unsolvable(_) => None,
    }
}

#[test]
fn solves(rt: HostRuntime) -> Result<(), Fail> {
    for (files, wanted) in [(&PLAIN, Some(2)), (&REFUSED, None)] {
        let manifest = manifest_of(rt.alloc(), files)?;
        let catalogue = load_files(rt.alloc(), files, &manifest)?;
        assert!(rt; selected(rt.alloc(), &manifest, &catalogue)? == wanted);
    }
    Ok(())
}

/// The new lock of the root that needs a; none where there is another answer.
fn resolved(alloc: Global, source: &Source) -> Result<Option<Vec<u8>>, AllocError> {
    let mut folder = folder_of(alloc, &PLAIN)?;
    let manifest = PLAIN.manifest.as_bytes();
    let answer = resolve(alloc, manifest, &mut folder, None, source, Prefer::Newest);
    Ok(match answer {
        Ok(
            Answer::Lock {
                bytes,
                kept: false,
                ..
            },
        ) => Some(bytes),
        _ => None,
    })
}

/// Whether a lock is one for that root.
fn is_valid(alloc: Global, source: &Source, lock: &[u8]) -> Result<bool, AllocError> {
    let mut folder = folder_of(alloc, &PLAIN)?;
    let manifest = PLAIN.manifest.as_bytes();
    let verdict = verify_bytes(alloc, manifest, &mut folder, lock, source);
    Ok(matches!(verdict, Ok(Verdict::Valid)))
}

/// Whether the lines above prove that the other root has none.
fn is_refuted(alloc: Global, source: &Source) -> Result<bool, AllocError> {
    let mut folder = folder_of(alloc, &REFUSED)?;
    let manifest = REFUSED.manifest.as_bytes();
    let lines = LINES.as_bytes();
    let checked = check_bytes(alloc, manifest, &mut folder, None, lines, source);
    Ok(matches!(checked, Ok(Check::Proves)))
}

#[test]
fn answers_for_bytes(rt: HostRuntime) -> Result<(), Fail> {
    let source = Source::parse(rt.alloc(), SOURCE)?;
    let lock = resolved(rt.alloc(), &source)?.unwrap_or(Vec::new(rt.alloc()));
    assert!(rt; is_valid(rt.alloc(), &source, lock.as_slice())?);
    assert!(rt; is_refuted(rt.alloc(), &source)?);
    Ok(())
}
