//! Reading vertices, owners and states.

ghost use Rattle.std.specs.Prelude.{◌≡◌};
ghost use Rattle.model.specs.Outcome.{Gives};
ghost use Rattle.vertices.specs.Texts.{wants_memory, owner_of_text, named_version_of_text, package_of_text};
ghost use Rattle.vertices.specs.Texts.{dependency_of_text, feature_of_text, ask_of_text, kinded_vertex, vertex_of_text};
ghost use Rattle.vertices.specs.Texts.{present_of_text, value_of_text, state_of_text};
ghost use Rattle.vertices.specs.Views.{owner_view, vertex_view, named_view, state_view};

use crate::fault::TextFault;
use crate::state::State;
use crate::text::{around_at, around_space, class, feature_name, number, package_name, version};
use crate::vertex::{Owner, Vertex};
use features::PackageName;
use semver::Version;
use std::alloc::Global;

/// The vertex that a text is.
pub(crate) fn vertex_in(alloc: Global, text: &str) -> Result<Vertex, TextFault>
    ensures { Gives wants_memory vertex_view result (vertex_of_text text.now) }
{
    if text == "root" {
        return Ok(Vertex::Root);
    }
    let (word, rest) = around_space(text)?;
    of_word(alloc, word, rest)
}

/// The vertex that a first word and the rest of a text are.
fn of_word(alloc: Global, word: &str, rest: &str) -> Result<Vertex, TextFault>
    ensures { Gives wants_memory vertex_view result (kinded_vertex word.now rest.now) }
{
    if word == "pkg" {
        package(alloc, rest)
    } else if word == "dep" {
        dependency(alloc, rest)
    } else if word == "feat" {
        feature(alloc, rest)
    } else if word == "ask" {
        ask(alloc, rest)
    } else {
        Err(TextFault::NotAText)
    }
}

/// `NAME CLASS`
#[tactic(auto, unfolding(crate::specs::Texts::package_of_text))]
fn package(alloc: Global, text: &str) -> Result<Vertex, TextFault>
    ensures { Gives wants_memory vertex_view result (package_of_text text.now) }
{
    let (name, class_text) = around_space(text)?;
    let name = package_name(alloc, name)?;
    let class = class(class_text)?;
    Ok(Vertex::Package(name, class))
}

/// `OWNER I`
#[tactic(auto, unfolding(crate::specs::Texts::dependency_of_text))]
fn dependency(alloc: Global, text: &str) -> Result<Vertex, TextFault>
    ensures { Gives wants_memory vertex_view result (dependency_of_text text.now) }
{
    let (owner_text, number_text) = around_space(text)?;
    let owner = owner_in(alloc, owner_text)?;
    let number = number(number_text)?;
    Ok(Vertex::Dependency(owner, number))
}

/// `NAME CLASS F`
#[tactic(auto, unfolding(crate::specs::Texts::feature_of_text))]
fn feature(alloc: Global, text: &str) -> Result<Vertex, TextFault>
    ensures { Gives wants_memory vertex_view result (feature_of_text text.now) }
{
    let (name, rest) = around_space(text)?;
    let (class_text, feature) = around_space(rest)?;
    let name = package_name(alloc, name)?;
    let class = class(class_text)?;
    let feature = feature_name(alloc, feature)?;
    Ok(Vertex::Feature(name, class, feature))
}

/// `NAME@VERSION I G`
#[tactic(auto, unfolding(crate::specs::Texts::ask_of_text))]
fn ask(alloc: Global, text: &str) -> Result<Vertex, TextFault>
    ensures { Gives wants_memory vertex_view result (ask_of_text text.now) }
{
    let (owner, rest) = around_space(text)?;
    let (number_text, feature) = around_space(rest)?;
    let (name, version) = named_version(alloc, owner)?;
    let number = number(number_text)?;
    let feature = feature_name(alloc, feature)?;
    Ok(Vertex::Ask(name, version, number, feature))
}

/// `root` or `NAME@VERSION`
pub(crate) fn owner_in(alloc: Global, text: &str) -> Result<Owner, TextFault>
    ensures { Gives wants_memory owner_view result (owner_of_text text.now) }
{
    if text == "root" {
        return Ok(Owner::Root);
    }
    let (name, version) = named_version(alloc, text)?;
    Ok(Owner::Version(name, version))
}

/// `NAME@VERSION`
#[tactic(auto, unfolding(crate::specs::Texts::named_version_of_text))]
fn named_version(alloc: Global, text: &str) -> Result<(PackageName, Version), TextFault>
    ensures { Gives wants_memory named_view result (named_version_of_text text.now) }
{
    let (name, version_text) = around_at(text)?;
    let name = package_name(alloc, name)?;
    let version = version(alloc, version_text)?;
    Ok((name, version))
}

/// The state of the vertex that a text is.
pub(crate) fn state_in(alloc: Global, vertex: &Vertex, text: &str) -> Result<State, TextFault>
    ensures { Gives wants_memory state_view result (state_of_text (vertex_view vertex.now) text.now) }
{
    if text == "absent" {
        Ok(State::Absent)
    } else {
        value_in(alloc, vertex, text)
    }
}

/// The same for what isn't absent.
fn value_in(alloc: Global, vertex: &Vertex, text: &str) -> Result<State, TextFault>
    ensures { Gives wants_memory state_view result (value_of_text (vertex_view vertex.now) text.now) }
{
    match vertex {
        Vertex::Package(_, _) => Ok(State::Version(version(alloc, text)?)),
        Vertex::Dependency(_, _) => Ok(State::Class(class(text)?)),
        Vertex::Root | Vertex::Feature(_, _, _) | Vertex::Ask(_, _, _, _) => present_in(text),
    }
}

fn present_in(text: &str) -> Result<State, TextFault>
    ensures { Gives wants_memory state_view result (present_of_text text.now) }
{
    if text == "present" {
        Ok(State::Present)
    } else {
        Err(TextFault::NotAText)
    }
}
