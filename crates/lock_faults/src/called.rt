//! The packages of a lock by what lists call them.
//!
//! Sorted once, so that each text is looked up by halves.

use crate::section::{Listed, Section};
use std::alloc::{AllocError, Global};
use std::cmp::Ordering;

/// A package with its number in the lock, from 0.
#[derive(Clone, Copy)]
struct Numbered<'t> {
    number: usize,
    section: Section<'t>,
}

/// The packages of a lock, by name, version and source; those that are alike in these as they stand in the lock.
#[derive(Drop)]
pub(crate) struct Called<'t> {
    ordered: Vec<Numbered<'t>>,
}

/// How many packages a text calls.
#[derive(Clone, Copy)]
pub(crate) enum Meant {
    None,
    /// One, of this number.
    One(usize),
    Several,
}

/// What is looked for.
#[derive(Clone, Copy)]
enum Wanted<'w> {
    Name(&'w str),
    Version(&'w str, &'w str),
    Source(&'w str, &'w str, Option<&'w str>),
}

impl Wanted<'_> {
    /// Where a package stands beside what is looked for.
    fn compare(&self, section: &Section<'_>) -> Ordering {
        match *self {
            Wanted::Name(name) => section.name.cmp(name),
            Wanted::Version(name, version) => section
                .name
                .cmp(name)
                .then_with(|| section.version.cmp(version)),
            Wanted::Source(name, version, source) => section
                .name
                .cmp(name)
                .then_with(|| section.version.cmp(version))
                .then_with(|| section.source.cmp(&source)),
        }
    }
}

impl<'t> Called<'t> {
    pub(crate) fn new(alloc: Global, packages: &[Listed<'t>]) -> Result<Called<'t>, AllocError> {
        let mut ordered = Vec::new(alloc);
        for (number, package) in packages.iter().enumerate() {
            let section = package.section;
            ordered.push(Numbered { number, section })?;
        }
        ordered.sort_by(|one, other| {
            one.section
                .compare(&other.section)
                .then(one.number.cmp(&other.number))
        })?;
        Ok(Called { ordered })
    }

    /// The number of the first package that is alike an earlier one.
    pub(crate) fn first_repeated(&self) -> Option<usize> {
        let mut first = None;
        for pair in self.ordered.windows(2) {
            if let [one, other] = pair {
                if one.section.compare(&other.section) == Ordering::Equal {
                    first = Some(first.unwrap_or(other.number).min(other.number));
                }
            }
        }
        first
    }

    /// The package that a text calls: `name`, `name version` or `name version (source)`. `name version` of several is
    /// the one without a source.
    pub(crate) fn meant(&self, text: &str) -> Meant {
        let Some((name, rest)) = text.split_once(' ') else {
            return self.only(Wanted::Name(text));
        };
        match rest.split_once(' ') {
            Some((version, source)) => match in_parentheses(source) {
                Some(source) => self.only(Wanted::Source(name, version, Some(source))),
                None => Meant::None,
            },
            None => match self.only(Wanted::Version(name, rest)) {
                Meant::Several => self.without_source(name, rest),
                meant => meant,
            },
        }
    }

    /// Of several packages of a name and a version the one without a source.
    fn without_source<'w>(&self, name: &'w str, version: &'w str) -> Meant {
        match self.only(Wanted::Source(name, version, None)) {
            Meant::None => Meant::Several,
            meant => meant,
        }
    }

    /// The only package that is wanted; those that are stand next to one another.
    fn only(&self, wanted: Wanted<'_>) -> Meant {
        let first = self
            .ordered
            .partition_point(|it| wanted.compare(&it.section) == Ordering::Less);
        match (
            self.number_at(first, wanted),
            self.number_at(first + 1, wanted),
        ) {
            (Some(_), Some(_)) => Meant::Several,
            (Some(number), None) => Meant::One(number),
            (None, _) => Meant::None,
        }
    }

    /// The number of the package at a place, if it is wanted.
    fn number_at(&self, place: usize, wanted: Wanted<'_>) -> Option<usize> {
        let it = self.ordered.get(place)?;
        if wanted.compare(&it.section) == Ordering::Equal {
            Some(it.number)
        } else {
            None
        }
    }
}

/// What stands between parentheses.
fn in_parentheses(text: &str) -> Option<&str> {
    text.strip_prefix('(')?.strip_suffix(')')
}
