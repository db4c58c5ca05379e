//! What the command line and the environment say.

use std::env::{self, VarError};
use std::io::{self, ErrorKind};

/// What the command line and the environment say.
#[derive(Drop)]
pub(crate) struct Asked {
    /// The program's name first.
    pub(crate) words: Vec<String>,
    /// Whether a terminal is to show no colors.
    pub(crate) no_color: bool,
    /// Whether a terminal shows text alone.
    pub(crate) is_dumb: bool,
    index: Option<String>,
    cargo_home: Option<String>,
    color: Option<String>,
}

impl Asked {
    /// The index that the environment names.
    pub(crate) fn index(&self) -> Option<&str> {
        text_if(&self.index)
    }

    /// Where Cargo keeps what it fetched.
    pub(crate) fn cargo_home(&self) -> Option<&str> {
        text_if(&self.cargo_home)
    }

    /// What the environment says of colors.
    pub(crate) fn color(&self) -> Option<&str> {
        text_if(&self.color)
    }
}

fn text_if(text: &Option<String>) -> Option<&str> {
    match text {
        Some(text) => Some(text.as_str()),
        None => None,
    }
}

pub(crate) fn what_is_asked(rt: &HostRuntime) -> io::Result<Asked> {
    let words = env::args(rt)?.collect(rt.alloc())?;
    let index = said(rt, "RELOCK_INDEX", "RELOCK_INDEX is no valid Unicode")?;
    let color = said(
        rt,
        "CARGO_TERM_COLOR",
        "CARGO_TERM_COLOR is no valid Unicode",
    )?;
    let cargo_home = cargo_home(rt)?;
    let no_color = says(rt, "NO_COLOR", None)?;
    let is_dumb = says(rt, "TERM", Some("dumb"))?;
    Ok(Asked {
        words,
        no_color,
        is_dumb,
        index,
        cargo_home,
        color,
    })
}

/// Cargo's home, as Cargo finds it (Cargo book, "Cargo Home").
fn cargo_home(rt: &HostRuntime) -> io::Result<Option<String>> {
    if let Some(home) = said(rt, "CARGO_HOME", "CARGO_HOME is no valid Unicode")? {
        return Ok(Some(home));
    }
    match said(rt, "HOME", "HOME is no valid Unicode")? {
        Some(home) => Ok(Some(format!(in rt.alloc(); "{home}/.cargo")?)),
        None => Ok(None),
    }
}

/// What the environment says under a name; an empty text says nothing.
fn said(rt: &HostRuntime, name: &str, not_unicode: &'static str) -> io::Result<Option<String>> {
    match env::var(rt, name) {
        Ok(text) => Ok(if text.is_empty() { None } else { Some(text) }),
        Err(VarError::NotPresent) => Ok(None),
        Err(VarError::NotUnicode) => Err(io::Error::new(ErrorKind::InvalidData, not_unicode)),
        Err(VarError::OutOfMemory) => Err(io::Error::from(ErrorKind::OutOfMemory)),
    }
}

/// Whether the environment has this text under a name, or any but the empty one.
fn says(rt: &HostRuntime, name: &str, wanted: Option<&str>) -> io::Result<bool> {
    match (env::var(rt, name), wanted) {
        (Ok(text), Some(wanted)) => Ok(text.as_str() == wanted),
        (Ok(text), None) => Ok(!text.is_empty()),
        (Err(VarError::OutOfMemory), _) => Err(io::Error::from(ErrorKind::OutOfMemory)),
        (Err(VarError::NotPresent | VarError::NotUnicode), _) => Ok(false),
    }
}
