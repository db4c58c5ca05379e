//! What vertices may be, and the texts of that.

ghost use Rattle.std.specs.Prelude.{◌≡◌};
ghost use Rattle.model.specs.Outcome.{Gives};
ghost use Rattle.vertices.specs.inner.RefViews.{state_ref_view};
ghost use Rattle.vertices.specs.Texts.{state_of_text, wants_memory};
ghost use Rattle.vertices.specs.Views.{state_view, vertex_view};

use crate::fault::TextFault;
use crate::reading::state_in;
use crate::vertex::Vertex;
use classes::Class;
use semver::Version;
use std::alloc::Global;
use std::fmt;

/// What a vertex may be.
#[derive(Drop)]
pub enum State {
    Absent,
    /// Of the root, a feature or an ask.
    Present,
    /// Of a package.
    Version(Version),
    /// Of a dependency.
    Class(Class),
}

/// The same, with a version that lies elsewhere.
#[derive(Clone, Copy)]
pub enum StateRef<'a> {
    Absent,
    /// Of the root, a feature or an ask.
    Present,
    /// Of a package.
    Version(&'a Version),
    /// Of a dependency.
    Class(Class),
}

impl State {
    /// The state of the vertex that a text is.
    ///
    /// # Errors
    /// The text is of no state that the vertex may have, or there is no memory.
    pub fn parse(alloc: Global, vertex: &Vertex, text: &str) -> Result<State, TextFault>
        ensures { Gives wants_memory state_view result (state_of_text (vertex_view vertex.now) text.now) }
    {
        state_in(alloc, vertex, text)
    }

    /// The same state, borrowed.
    pub fn borrowed(&self) -> StateRef<'_>
        ensures { state_ref_view result ≡ state_view self.entry.now }
    {
        match self {
            State::Absent => StateRef::Absent,
            State::Present => StateRef::Present,
            State::Version(version) => StateRef::Version(version),
            State::Class(class) => StateRef::Class(*class),
        }
    }
}

impl fmt::Display for State {
    ghost use Rattle.std.specs.Prelude.{Some};
    ghost use Rattle.vertices.specs.Texts.{state_text};
    ghost use Rattle.vertices.specs.Views.{state_view};

    ghost output = { λ state. Some (state_text (state_view state)) };

    fn fmt<W: fmt::Write>(&self, f: &mut fmt::Formatter<W>) -> fmt::Result {
        let state = self.borrowed();
        write!(f, "{state}")
    }
}

impl<'a> fmt::Display for StateRef<'a> {
    ghost use Rattle.std.specs.Prelude.{Some};
    ghost use Rattle.vertices.specs.Texts.{state_text};
    ghost use Rattle.vertices.specs.inner.RefViews.{state_ref_view};

    ghost output = { λ state. Some (state_text (state_ref_view state)) };

    fn fmt<W: fmt::Write>(&self, f: &mut fmt::Formatter<W>) -> fmt::Result {
        match self {
            StateRef::Absent => f.write_str("absent"),
            StateRef::Present => f.write_str("present"),
            StateRef::Version(version) => write!(f, "{version}"),
            StateRef::Class(class) => write!(f, "{class}"),
        }
    }
}
