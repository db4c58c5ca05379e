//! How what is told is shown: in colors or without, or errors alone.

use crate::failure::Failure;
use crate::manner::{Color, Manner, MessageFormat, color_in};
use crate::painter::{Painter, Show};
use std::alloc::Global;
use std::io::Write;

/// What is around a run: what the environment says, and whether terminals show what it tells.
#[derive(Clone, Copy, Debug)]
pub struct Surroundings<'a> {
    /// The index where the words name none.
    pub index: Option<&'a str>,
    /// Cargo's home, in which it keeps what it fetched of an index.
    pub cargo_home: Option<&'a str>,
    /// What stands for `--color` where the words don't give it.
    pub color: Option<&'a str>,
    /// Whether a terminal is to show no colors unless the words say so.
    pub no_color: bool,
    pub out_is_terminal: bool,
    pub err_is_terminal: bool,
    /// Whether a terminal is to show meanwhile how far the run has come.
    pub is_watched: bool,
}

impl<'a> Surroundings<'a> {
    /// Those without a terminal, where the environment names at most an index.
    pub fn bare(index: Option<&'a str>) -> Surroundings<'a> {
        Surroundings {
            index,
            cargo_home: None,
            color: None,
            no_color: false,
            out_is_terminal: false,
            err_is_terminal: false,
            is_watched: false,
        }
    }

    /// Whether what goes to a terminal, or to something else, is shown in colors.
    fn show(&self, color: Color, is_terminal: bool) -> Show {
        match color {
            Color::Always => Show::InColors,
            Color::Auto if is_terminal && !self.no_color => Show::InColors,
            _ => Show::Plain,
        }
    }
}

/// How the two texts of a run are shown.
#[derive(Clone, Copy)]
pub(crate) struct Shows {
    pub(crate) out: Show,
    pub(crate) err: Show,
}

/// How what is told is shown, as it is asked for. Messages for programs are never painted.
pub(crate) fn shows_of<'a>(
    manner: &Manner,
    around: &Surroundings<'a>,
) -> Result<Shows, Failure<'a>> {
    if manner.format == MessageFormat::Json {
        return Ok(Shows {
            out: Show::Json,
            err: Show::Json,
        });
    }
    let color = color_by(manner.color, around)?;
    let out = if manner.quiet {
        Show::Nothing
    } else {
        around.show(color, around.out_is_terminal)
    };
    Ok(Shows {
        out,
        err: around.show(color, around.err_is_terminal),
    })
}

/// When colors are shown: as the words say, else as the environment does, else where a terminal shows them.
fn color_by<'a>(said: Option<Color>, around: &Surroundings<'a>) -> Result<Color, Failure<'a>> {
    match (said, around.color) {
        (Some(color), _) => Ok(color),
        (None, None) => Ok(Color::Auto),
        (None, Some(word)) => color_in(word).ok_or(Failure::NoColor(word)),
    }
}

/// Where errors go before it is known what the words ask for.
pub(crate) fn painted<'a, E: Write>(
    alloc: Global,
    around: &Surroundings<'_>,
    err: &'a mut E,
) -> Painter<&'a mut E> {
    let color = color_by(None, around).unwrap_or(Color::Auto);
    let show = around.show(color, around.err_is_terminal);
    Painter::new(alloc, err, show)
}
