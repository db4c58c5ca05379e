//! The facts that the axioms of a derivation say, each once.

use crate::axiom::{Saying, saying_of};
use crate::claim::is_plain;
use crate::outline::Note;
use crate::ranges::push_versions;
use crate::terms::terms_of;
use derivations::{Derivation, Origin};
use features::{FeatureName, PackageName};
use lookups::{Numbers, Problem, Term, cause_in};
use semver::Version;
use std::alloc::{AllocError, Global};
use std::collections::BTreeMap;
use vertices::Kind;

/// The facts, and which steps say them.
#[derive(Drop)]
pub(crate) struct Facts<'a> {
    facts: Vec<Fact<'a>>,
    /// By what is said, the number of the fact.
    known: BTreeMap<String, usize>,
    /// By name of a package, the number of the first fact of its versions.
    first: BTreeMap<String, usize>,
    /// For each step what is known of it by itself.
    notes: Vec<Note>,
}

/// What is said of the marked versions of a name, or where there is none of what stands before.
#[derive(Drop)]
struct Fact<'a> {
    before: String,
    name: Option<&'a PackageName>,
    marks: Vec<bool>,
    /// The number of the first fact of versions of this name.
    group: usize,
    verb: &'static str,
    object: String,
    feature: Option<&'a FeatureName>,
    /// The dependency of which it says that it is there, if it does, and how much it says of it.
    about: String,
    weight: usize,
}

/// What the axioms of a derivation say. What is said of several versions of a name is one fact.
pub(crate) fn facts_of<'a>(
    alloc: Global,
    problem: Problem<'a>,
    derivation: &'a Derivation,
) -> Result<Facts<'a>, AllocError> {
    let mut numbers = Numbers::new(alloc, problem);
    let mut facts = Facts {
        facts: Vec::new(alloc),
        known: BTreeMap::new(alloc),
        first: BTreeMap::new(alloc),
        notes: Vec::new(alloc),
    };
    for number in 0..derivation.len() {
        let terms = terms_of(alloc, derivation, number)?;
        let fact = match said_by(
            alloc,
            problem,
            &mut numbers,
            kind_of(derivation, number),
            &terms,
        )? {
            Some(saying) => Some(facts.add(alloc, problem, saying)?),
            None => None,
        };
        facts.notes.push(Note {
            fact,
            plain: is_plain(&terms),
        })?;
    }
    Ok(facts)
}

/// What a step says, if it is an axiom and says something.
fn said_by<'a>(
    alloc: Global,
    problem: Problem<'a>,
    numbers: &mut Numbers<'a>,
    kind: Option<Kind>,
    terms: &[Term<'a>],
) -> Result<Option<Saying<'a>>, AllocError> {
    let Some(kind) = kind else {
        return Ok(None);
    };
    match cause_in(alloc, numbers, kind, terms)? {
        Some(cause) => saying_of(alloc, &problem, cause),
        None => Ok(None),
    }
}

/// The kind of a step, if it is an axiom.
pub(crate) fn kind_of(derivation: &Derivation, number: usize) -> Option<Kind> {
    let (_, steps) = derivation.parts();
    match &steps.get(number)?.origin {
        Origin::Axiom(kind) => Some(*kind),
        Origin::Combination(..) => None,
    }
}

impl<'a> Facts<'a> {
    /// For each step what is known of it by itself.
    pub(crate) fn notes(&self) -> &[Note] {
        self.notes.as_slice()
    }

    /// The number of a fact, which is added unless it is there.
    fn add(
        &mut self,
        alloc: Global,
        problem: Problem<'a>,
        saying: Saying<'a>,
    ) -> Result<usize, AllocError> {
        let key = key_of(alloc, &saying)?;
        let number = match self.known.get(&key) {
            Some(number) => *number,
            None => {
                let number = self.facts.len();
                self.known.insert(key, number)?;
                number
            }
        };
        let version = saying.version;
        if number == self.facts.len() {
            let group = self.group(alloc, version, number)?;
            self.facts.push(new_fact(alloc, problem, saying, group)?)?;
        }
        if let (Some((name, version)), Some(fact)) = (version, self.facts.get_mut(number)) {
            mark(&mut fact.marks, problem.catalogue.versions(name), version);
        }
        Ok(number)
    }

    /// The number of the first fact of versions of this name, which is the next one, unless there is one.
    fn group(
        &mut self,
        alloc: Global,
        version: Option<(&PackageName, &Version)>,
        next: usize,
    ) -> Result<usize, AllocError> {
        let Some((name, _)) = version else {
            return Ok(next);
        };
        if let Some(first) = self.first.get(name.as_str()) {
            return Ok(*first);
        }
        let key = format!(in alloc; "{name}")?;
        self.first.insert(key, next)?;
        Ok(next)
    }

    /// Whether a fact says all that another one does, and more.
    pub(crate) fn covers(&self, number: usize, other: usize) -> bool {
        match (self.facts.get(number), self.facts.get(other)) {
            (Some(fact), Some(other)) => fact.covers(other),
            _ => false,
        }
    }

    /// Whether two facts say that the same one does something.
    pub(crate) fn are_of_one(&self, number: usize, other: usize) -> bool {
        match (self.facts.get(number), self.facts.get(other)) {
            (Some(fact), Some(other)) => fact.is_of_same(other),
            _ => false,
        }
    }

    /// Whether the second fact says no more than that the dependency of the first is asked for another feature.
    pub(crate) fn goes_on(&self, number: usize, other: usize) -> bool {
        match (self.facts.get(number), self.facts.get(other)) {
            (Some(fact), Some(other)) => fact.goes_on(other),
            _ => false,
        }
    }

    /// Where a fact stands in a sentence: what the root needs first; then name by name, the older versions first.
    pub(crate) fn rank(&self, number: usize) -> Rank {
        match self.facts.get(number) {
            Some(fact) => (
                fact.name.is_some() || fact.about.is_empty(),
                fact.group,
                fact.oldest(),
            ),
            None => (true, number, 0),
        }
    }

    pub(crate) fn has_feature(&self, number: usize) -> bool {
        match self.facts.get(number) {
            Some(fact) => fact.feature.is_some(),
            None => false,
        }
    }

    /// Adds who does something, and the verb.
    pub(crate) fn push_subject(
        &self,
        alloc: Global,
        text: &mut String,
        problem: &Problem<'_>,
        number: usize,
    ) -> Result<(), AllocError> {
        let Some(fact) = self.facts.get(number) else {
            return Ok(());
        };
        text.push_str(fact.before.as_str())?;
        if let Some(name) = fact.name {
            let versions = problem.catalogue.versions(name);
            push_versions(alloc, text, name, versions, &fact.marks, "every")?;
        }
        write!(text, " {} ", fact.verb)
    }

    /// Adds what it does it to.
    pub(crate) fn push_object(&self, text: &mut String, number: usize) -> Result<(), AllocError> {
        let Some(fact) = self.facts.get(number) else {
            return Ok(());
        };
        text.push_str(fact.object.as_str())?;
        match fact.feature {
            Some(feature) => write!(text, " with feature {feature}"),
            None => Ok(()),
        }
    }

    /// Adds the feature that a fact goes on with.
    pub(crate) fn push_feature(&self, text: &mut String, number: usize) -> Result<(), AllocError> {
        let Some(fact) = self.facts.get(number) else {
            return Ok(());
        };
        match fact.feature {
            Some(feature) => write!(text, " and feature {feature}"),
            None => Ok(()),
        }
    }
}

/// Whether it isn't of the root, the first fact of the name, the place of the oldest version.
pub(crate) type Rank = (bool, usize, usize);

impl Fact<'_> {
    /// The place of the oldest version that it is about.
    fn oldest(&self) -> usize {
        self.marks.iter().position(|mark| *mark).unwrap_or(0)
    }

    /// Whether it says more of the same dependency of the same versions: of one that is there, or of what the same
    /// feature does.
    fn covers(&self, other: &Fact<'_>) -> bool {
        self.weight > other.weight
            && !other.about.is_empty()
            && self.about == other.about
            && self.name == other.name
            && self.marks == other.marks
            && (other.weight == 0 || self.before == other.before)
    }

    fn is_of_same(&self, other: &Fact<'_>) -> bool {
        self.before == other.before
            && self.name == other.name
            && self.marks == other.marks
            && self.verb == other.verb
    }

    fn goes_on(&self, other: &Fact<'_>) -> bool {
        self.feature.is_some() && other.feature.is_some() && self.object == other.object
    }
}

/// What is said, without the version.
fn key_of(alloc: Global, saying: &Saying<'_>) -> Result<String, AllocError> {
    let mut key = String::new(alloc);
    key.push_str(saying.before.as_str())?;
    key.push_str("\n")?;
    if let Some((name, _)) = saying.version {
        key.push_str(name.as_str())?;
    }
    key.push_str("\n")?;
    key.push_str(saying.verb)?;
    key.push_str("\n")?;
    key.push_str(saying.object.as_str())?;
    if let Some(feature) = saying.feature {
        key.push_str("\n")?;
        key.push_str(feature.as_str())?;
    }
    Ok(key)
}

/// A fact of no version yet.
fn new_fact<'a>(
    alloc: Global,
    problem: Problem<'a>,
    saying: Saying<'a>,
    group: usize,
) -> Result<Fact<'a>, AllocError> {
    let name = match saying.version {
        Some((name, _)) => Some(name),
        None => None,
    };
    let count = match name {
        Some(name) => problem.catalogue.versions(name).len(),
        None => 0,
    };
    Ok(Fact {
        before: saying.before,
        name,
        marks: vec![in alloc; false; count]?,
        group,
        verb: saying.verb,
        object: saying.object,
        feature: saying.feature,
        about: saying.about,
        weight: saying.weight,
    })
}

/// Marks the place of a version.
fn mark(marks: &mut [bool], versions: &[Version], version: &Version) {
    if let Some(place) = versions.iter().position(|other| other == version) {
        if let Some(mark) = marks.get_mut(place) {
            *mark = true;
        }
    }
}
