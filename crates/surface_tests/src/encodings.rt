//! Encodings of small problems: what is to be there was derived by hand from the axioms.

use crate::lines::{all_lines, given_lines, pair_lines, vertex_lines};
use crate::problems::{CYCLE, FEATURES, NEWEST, REFUSED, load_files, manifest_of};
use catalogue::Catalogue;
use encoding::{Encoding, Vertex};
use manifest::Manifest;
use std::alloc::{AllocError, Global};
use std::test::Fail;
use vertices::TextFault;

/// Vertices with their states, and all instances.
struct Encoded {
    vertices: &'static [&'static str],
    axioms: &'static [&'static str],
}

static ENCODED_REFUSED: Encoded = Encoded {
    vertices: &[
        "dep b@1.0.0 0 in absent 1",
        "dep root 0 in absent 1",
        "dep root 1 in absent 1",
        "feat a 1 default in absent present",
        "feat b 1 default in absent present",
        "pkg a 1 in absent 1.0.0 1.1.0",
        "pkg b 1 in absent 1.0.0",
        "root in absent present",
    ],
    axioms: &[
        "X0 root in absent",
        "X1 dep b@1.0.0 0 in absent, pkg b 1 in 1.0.0",
        "X1 dep root 0 in absent, root in present",
        "X1 dep root 1 in absent, root in present",
        "X2 dep b@1.0.0 0 in 1, pkg a 1 in absent 1.0.0",
        "X2 dep root 0 in 1, pkg a 1 in absent 1.1.0",
        "X2 dep root 1 in 1, pkg b 1 in absent",
        "X3 feat a 1 default in present, pkg a 1 in absent",
        "X3 feat b 1 default in present, pkg b 1 in absent",
        "X4 dep b@1.0.0 0 in 1, feat a 1 default in absent",
        "X4 dep root 0 in 1, feat a 1 default in absent",
        "X4 dep root 1 in 1, feat b 1 default in absent",
    ],
};

static ENCODED_NEWEST: Encoded = Encoded {
    vertices: &[
        "dep root 0 in absent 1 2",
        "dep root 1 in absent 2",
        "feat a 1 default in absent present",
        "feat a 2 default in absent present",
        "pkg a 1 in absent 1.0.0",
        "pkg a 2 in absent 2.0.0",
        "root in absent present",
    ],
    axioms: &[
        "X0 root in absent",
        "X1 dep root 0 in absent, root in present",
        "X1 dep root 1 in absent, root in present",
        "X2 dep root 0 in 1, pkg a 1 in absent",
        "X2 dep root 0 in 2, pkg a 2 in absent",
        "X2 dep root 1 in 2, pkg a 2 in absent",
        "X3 feat a 1 default in present, pkg a 1 in absent",
        "X3 feat a 2 default in present, pkg a 2 in absent",
        "X4 dep root 0 in 1, feat a 1 default in absent",
        "X4 dep root 0 in 2, feat a 2 default in absent",
        "X4 dep root 1 in 2, feat a 2 default in absent",
        "X8 dep root 0 in 1, dep root 1 in 2, pkg a 2 in 2.0.0",
    ],
};

static ENCODED_FEATURES: Encoded = Encoded {
    vertices: &[
        "ask a@1.0.0 0 x in absent present",
        "dep a@1.0.0 0 in absent 1",
        "dep root 0 in absent 1",
        "feat a 1 default in absent present",
        "feat a 1 f in absent present",
        "feat a 1 g in absent present",
        "feat a 1 h in absent present",
        "feat b 1 default in absent present",
        "feat b 1 x in absent present",
        "pkg a 1 in absent 1.0.0",
        "pkg b 1 in absent 1.0.0",
        "root in absent present",
    ],
    axioms: &[
        "X0 root in absent",
        "X1 dep root 0 in absent, root in present",
        "X2 dep a@1.0.0 0 in 1, pkg b 1 in absent",
        "X2 dep root 0 in 1, pkg a 1 in absent",
        "X3 feat a 1 default in present, pkg a 1 in absent",
        "X3 feat a 1 f in present, pkg a 1 in absent",
        "X3 feat a 1 g in present, pkg a 1 in absent",
        "X3 feat a 1 h in present, pkg a 1 in absent",
        "X3 feat b 1 default in present, pkg b 1 in absent",
        "X3 feat b 1 x in present, pkg b 1 in absent",
        "X4 ask a@1.0.0 0 x in present, dep a@1.0.0 0 in 1, feat b 1 x in absent",
        "X4 dep a@1.0.0 0 in 1, feat b 1 default in absent",
        "X4 dep root 0 in 1, feat a 1 default in absent",
        "X4 dep root 0 in 1, feat a 1 f in absent",
        "X5 feat a 1 f in present, feat a 1 g in absent, pkg a 1 in 1.0.0",
        "X6 dep a@1.0.0 0 in absent, feat a 1 f in present, pkg a 1 in 1.0.0",
        "X6 dep a@1.0.0 0 in absent, feat a 1 h in present, pkg a 1 in 1.0.0",
        "X7 ask a@1.0.0 0 x in absent, feat a 1 f in present, pkg a 1 in 1.0.0",
        "X9 dep a@1.0.0 0 in 1, feat a 1 h in present, feat b 1 x in absent, pkg a 1 in 1.0.0",
    ],
};

/// Whether lines are these.
fn are(lines: &[String], wanted: &[&str]) -> bool {
    lines.len() == wanted.len() && lines.iter().zip(wanted).all(|(a, b)| a.as_str() == *b)
}

/// Whether each vertex has the number at which it is.
fn have_numbers(encoding: &Encoding<'_>) -> bool {
    let mut all = true;
    for number in 0..encoding.len() {
        all &= encoding.number(encoding.vertex(number)) == Some(number);
    }
    all
}

/// Whether the vertices and instances are those, and the instances of all pairs are all instances.
fn is_encoded(
    alloc: Global,
    manifest: &Manifest,
    catalogue: &Catalogue,
    wanted: &Encoded,
) -> Result<bool, AllocError> {
    let encoding = Encoding::new(alloc, manifest, catalogue)?;
    let all = all_lines(alloc, &encoding)?;
    Ok(
        are(&vertex_lines(alloc, &encoding)?, wanted.vertices)
            & are(&all, wanted.axioms)
            & (pair_lines(alloc, &encoding)? == all)
            & have_numbers(&encoding),
    )
}

#[test]
fn encodes(rt: HostRuntime) -> Result<(), Fail> {
    for (files, wanted) in [
        (&REFUSED, &ENCODED_REFUSED),
        (&NEWEST, &ENCODED_NEWEST),
        (&FEATURES, &ENCODED_FEATURES),
    ] {
        let manifest = manifest_of(rt.alloc(), files)?;
        let catalogue = load_files(rt.alloc(), files, &manifest)?;
        assert!(rt; is_encoded(rt.alloc(), &manifest, &catalogue, wanted)?);
    }
    Ok(())
}

/// Whether the instances of all pairs are all instances, each once.
fn agrees(alloc: Global, manifest: &Manifest, catalogue: &Catalogue) -> Result<bool, AllocError> {
    let encoding = Encoding::new(alloc, manifest, catalogue)?;
    Ok(pair_lines(alloc, &encoding)? == all_lines(alloc, &encoding)?)
}

#[test]
fn gives_each_instance_for_one_pair(rt: HostRuntime) -> Result<(), Fail> {
    let manifest = manifest_of(rt.alloc(), &CYCLE)?;
    let catalogue = load_files(rt.alloc(), &CYCLE, &manifest)?;
    assert!(rt; agrees(rt.alloc(), &manifest, &catalogue)?);
    Ok(())
}

/// The instances of the vertex of a text in the state of a number.
fn lines_at(
    alloc: Global,
    encoding: &Encoding<'_>,
    vertex: &str,
    state: usize,
) -> Result<Vec<String>, TextFault> {
    let read = vertices::Vertex::parse(alloc, vertex)?;
    let vertex = Vertex::of(read.borrowed())?;
    match encoding.number(&vertex) {
        Some(number) => Ok(given_lines(alloc, encoding, number, state)?),
        None => Ok(Vec::new(alloc)),
    }
}

#[test]
fn gives_what_a_pair_needs(rt: HostRuntime) -> Result<(), Fail> {
    let manifest = manifest_of(rt.alloc(), &REFUSED)?;
    let catalogue = load_files(rt.alloc(), &REFUSED, &manifest)?;
    let encoding = Encoding::new(rt.alloc(), &manifest, &catalogue)?;
    let of_root = lines_at(rt.alloc(), &encoding, "root", 1)?;
    assert!(rt;
        are(
            &of_root,
            &[
                "X1 dep root 0 in absent, root in present",
                "X1 dep root 1 in absent, root in present",
            ]
        )
    );
    let of_b = lines_at(rt.alloc(), &encoding, "pkg b 1", 1)?;
    assert!(rt; are(&of_b, &["X1 dep b@1.0.0 0 in absent, pkg b 1 in 1.0.0"]));
    Ok(())
}
