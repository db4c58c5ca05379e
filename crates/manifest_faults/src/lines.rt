//! On which lines of a manifest its dependencies stand.

use crate::finding::TABLES;
use crate::line::line_of;
use crate::place::{Place, table_at};
use std::alloc::{AllocError, Global};
use tables::read_table;
use toml::Table;

/// Of how many dependencies the lines are looked for at most: each takes a reading of the whole manifest.
const MOST_LINES: usize = 20;

/// The lines on which dependencies stand, by the numbers that a manifest gives them and by what they are called;
/// none of one whose line isn't certain, and of those behind the first twenty.
pub fn dependency_lines(
    alloc: Global,
    bytes: &[u8],
    asked: &[(usize, &str)],
) -> Result<Vec<Option<usize>>, AllocError> {
    let mut lines = Vec::new(alloc);
    let Some(top) = read_table(alloc, bytes)? else {
        return Ok(lines);
    };
    let places = places_in(alloc, &top)?;
    for (number, name) in asked.iter().take(MOST_LINES) {
        lines.push(line_at(alloc, bytes, places.get(*number), *name)?)?;
    }
    Ok(lines)
}

/// The line of a place, if it has this name.
fn line_at(
    alloc: Global,
    bytes: &[u8],
    place: Option<&Place<'_>>,
    name: &str,
) -> Result<Option<usize>, AllocError> {
    match place {
        Some(place) if place.name == Some(name) => line_of(alloc, bytes, place),
        _ => Ok(None),
    }
}

/// The places of all dependencies in the order of their numbers: those at the top, then those of each target.
fn places_in(alloc: Global, top: &Table) -> Result<Vec<Place<'_>>, AllocError> {
    let mut places = Vec::new(alloc);
    push_tables(&mut places, top, Place::of(""))?;
    if let Some(targets) = table_at(top, &Place::of("target")) {
        for (name, _) in targets.iter() {
            push_tables(&mut places, top, Place::of_target(name.as_str()))?;
        }
    }
    Ok(places)
}

/// Adds the places of the dependencies of the tables that stand where a place does.
fn push_tables<'t>(
    places: &mut Vec<Place<'t>>,
    top: &'t Table,
    beside: Place<'t>,
) -> Result<(), AllocError> {
    for section in TABLES {
        let place = beside.at_section(section);
        if let Some(table) = table_at(top, &place) {
            push_names(places, table, place)?;
        }
    }
    Ok(())
}

fn push_names<'t>(
    places: &mut Vec<Place<'t>>,
    table: &'t Table,
    place: Place<'t>,
) -> Result<(), AllocError> {
    for (name, _) in table.iter() {
        places.push(place.at_name(name.as_str()))?;
    }
    Ok(())
}
