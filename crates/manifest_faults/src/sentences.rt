//! The sentence that tells what is wrong with a part of a manifest.

use crate::place::Place;
use crate::why::{Culprit, Kind, Sort, Why};
use manifest::Unsupported;
use semver::{Version, VersionReq};
use std::alloc::{AllocError, Global};
use std::fmt;
use tables::{has_key, member};
use toml::{Table, Value};

/// `[dependencies] serde: its `version` isn't a requirement: `^^1``, of the value that stands at the place.
pub(crate) fn push_sentence(
    alloc: Global,
    text: &mut String,
    top: &Table,
    value: Option<&Value>,
    culprit: &Culprit<'_>,
) -> Result<(), AllocError> {
    let place = culprit.place;
    match culprit.why {
        Why::Absent => push_absent(text, top, &place),
        Why::NoSuch(kind) => write!(text, "{place}: {} {kind}", Subject(place)),
        Why::NoText(sort) => {
            let word = text_in(value);
            write!(text, "{place}: {} isn't {sort}: `{word}`", Subject(place))?;
            push_reason(alloc, text, sort, word)
        }
        Why::NoKey(sort) => write!(text, "{place}: that isn't {sort}"),
        Why::Twice => write!(
            text,
            "{place}: {} is there with `_` for `-` too",
            Subject(place)
        ),
        Why::DevOptional => write!(
            text,
            "{place}: it is optional, which no dev dependency can be"
        ),
        Why::HasRows => write!(text, "{place}: it has entries, which aren't supported"),
        Why::HasItems => write!(
            text,
            "{place}: it isn't empty, and workspaces aren't supported"
        ),
        Why::Inherited => write!(
            text,
            "{place}: it is left to a workspace, which isn't supported"
        ),
        Why::Foreign(source) => push_foreign(text, &place, key_of(source, value), value),
        _ => push_of_entry(text, text_in(value), culprit),
    }
}

/// What is wrong with an entry of a feature.
fn push_of_entry(text: &mut String, entry: &str, culprit: &Culprit<'_>) -> Result<(), AllocError> {
    let place = culprit.place;
    write!(text, "{place}: its entry `{entry}` ")?;
    match culprit.why {
        Why::Taken(feature, _) => write!(
            text,
            "is no feature, since {feature} has the entry `dep:{entry}`"
        ),
        Why::NoSuchDependency => text.push_str("names no dependency"),
        Why::NotOptional => text.push_str("names a dependency that isn't optional"),
        _ => text.push_str("is no feature"),
    }
}

/// Where `[project]` stands for `[package]`, as Cargo still takes it, that is said.
fn push_absent(text: &mut String, top: &Table, place: &Place<'_>) -> Result<(), AllocError> {
    if let Some(name) = place.name {
        return write!(text, "[{}]: it has no {name}", place.section);
    }
    write!(text, "there is no [{}]", place.section)?;
    if member(top, "project").is_some() {
        text.push_str(", and [project] isn't read")?;
    }
    Ok(())
}

fn text_in(value: Option<&Value>) -> &str {
    match value {
        Some(value) => value.as_str().unwrap_or(""),
        None => "",
    }
}

/// Why a version or a requirement doesn't read, in parentheses.
fn push_reason(alloc: Global, text: &mut String, sort: Sort, word: &str) -> Result<(), AllocError> {
    match sort {
        Sort::Version => match Version::parse(alloc, word) {
            Ok(_) => Ok(()),
            Err(why) => write!(text, " ({why})"),
        },
        Sort::Requirement => match VersionReq::parse(alloc, word) {
            Ok(_) => Ok(()),
            Err(why) => write!(text, " ({why})"),
        },
        _ => Ok(()),
    }
}

/// The key of a dependency that asks for a source, with the text that stands there.
fn push_foreign(
    text: &mut String,
    place: &Place<'_>,
    key: &str,
    dependency: Option<&Value>,
) -> Result<(), AllocError> {
    let said = value_of(dependency, key);
    if said.is_empty() {
        write!(text, "{place} has the key `{key}`")
    } else {
        write!(text, "{place} has {key} = \"{said}\"")
    }
}

/// The text at a key of a dependency, or an empty one.
fn value_of<'v>(dependency: Option<&'v Value>, key: &str) -> &'v str {
    match dependency {
        Some(value) => text_in(value.get(key)),
        None => "",
    }
}

/// The key of a dependency that asks for a source.
fn key_of(source: Unsupported, dependency: Option<&Value>) -> &'static str {
    match source {
        Unsupported::Git => "git",
        Unsupported::Path => "path",
        _ => match dependency {
            Some(Value::Table(table)) => {
                if has_key(table, "registry") {
                    "registry"
                } else {
                    "registry-index"
                }
            }
            _ => "registry",
        },
    }
}

/// `[target.'cfg(unix)'.dependencies] serde`.
impl fmt::Display for Place<'_> {
    fn fmt<W: fmt::Write>(&self, f: &mut fmt::Formatter<W>) -> fmt::Result {
        match self.target {
            Some(target) => {
                let quote = if is_bare(target) { "" } else { "'" };
                write!(f, "[target.{quote}{target}{quote}.{}]", self.section)?;
            }
            None => write!(f, "[{}]", self.section)?,
        }
        match self.name {
            Some(name) => write!(f, " {name}"),
            None => Ok(()),
        }
    }
}

/// Whether a key stands in a header without quotes.
fn is_bare(key: &str) -> bool {
    key.as_bytes()
        .iter()
        .all(|b| b.is_ascii_alphanumeric() || *b == b'-' || *b == b'_')
}

/// What is spoken of, behind the name: `its `version``.
#[derive(Clone, Copy)]
struct Subject<'t>(Place<'t>);

impl fmt::Display for Subject<'_> {
    fn fmt<W: fmt::Write>(&self, f: &mut fmt::Formatter<W>) -> fmt::Result {
        let place = self.0;
        match (place.key, place.item) {
            (Some(key), Some(item)) => write!(
                f,
                "element {} of its `{key}`",
                item.saturating_add(1)
            ),
            (Some(key), None) => write!(f, "its `{key}`"),
            (None, Some(item)) => write!(f, "element {}", item.saturating_add(1)),
            (None, None) => f.write_str("it"),
        }
    }
}

impl fmt::Display for Kind {
    fn fmt<W: fmt::Write>(&self, f: &mut fmt::Formatter<W>) -> fmt::Result {
        f.write_str(match self {
            Kind::Table => "isn't a table",
            Kind::Dependency => "is neither a requirement nor a table",
            Kind::Sourced => "has no version",
            Kind::Text => "isn't a text",
            Kind::OwnText => "isn't a text",
            Kind::Flag => "is neither true nor false",
            Kind::List => "isn't a list",
        })
    }
}

impl fmt::Display for Sort {
    fn fmt<W: fmt::Write>(&self, f: &mut fmt::Formatter<W>) -> fmt::Result {
        f.write_str(match self {
            Sort::PackageName => "the name of a package",
            Sort::FeatureName => "the name of a feature",
            Sort::AskedFeature => "the name of a feature",
            Sort::Version => "a version",
            Sort::Requirement => "a requirement",
            Sort::Entry => "an entry",
        })
    }
}
