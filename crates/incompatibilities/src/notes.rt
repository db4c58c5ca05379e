//! What who resolves conflicts notes of a store, so as to find it again.
//!
//! No contract says more of it than that it is there: what is found here is looked at before it is used.
//!
//! What is gone at a vertex several entries say together, a stack of them: one that says it all would be made anew
//! whenever a state falls away, and a refusal whose 2,000 versions fall away in turn would have 22 MB and not 1 MB. Who
//! puts them says which there are (`conflicts`).

use crate::origin::Id;
use crate::rows::row_of;
use std::alloc::{AllocError, Global};

/// Which entry is used in place of one, which ones say what is gone at a vertex, and of how many places of a trail that
/// was noted.
#[derive(Drop)]
pub struct Notes {
    stand_ins: Vec<usize>,
    units: Vec<Vec<Id>>,
    taken: usize,
}

/// The place that is noted at one, if there is one.
fn noted(places: &[usize], at: usize) -> Option<Id> {
    match places.get(at) {
        Some(&usize::MAX) => None,
        Some(place) => Some(Id::new(*place)),
        None => None,
    }
}

/// Notes a place at one.
fn note(places: &mut Vec<usize>, at: usize, place: Id) -> Result<(), AllocError> {
    'shorter: while places.len() <= at {
        places.push(usize::MAX)?;
    }
    places[at] = place.index();
    Ok(())
}

/// Puts the row of a vertex.
fn put_row(
    rows: &mut Vec<Vec<Id>>,
    alloc: Global,
    vertex: usize,
    row: Vec<Id>,
) -> Result<(), AllocError> {
    'shorter: while rows.len() <= vertex {
        rows.push(Vec::new(alloc))?;
    }
    rows[vertex] = row;
    Ok(())
}

impl Notes {
    /// Nothing is noted.
    pub(crate) fn new(alloc: Global) -> Notes {
        Notes {
            stand_ins: Vec::new(alloc),
            units: Vec::new(alloc),
            taken: 0,
        }
    }

    /// The entry that is used in place of one.
    pub fn stand_in(&self, id: Id) -> Option<Id> {
        noted(&self.stand_ins, id.index())
    }

    /// The entries that say together what is gone at a vertex, the newest last.
    pub fn units_at(&self, vertex: usize) -> &[Id] {
        row_of(&self.units, vertex)
    }

    /// Of how many places that is noted.
    pub fn taken(&self) -> usize {
        self.taken
    }

    pub(crate) fn put_stand_in(&mut self, id: Id, stand_in: Id) -> Result<(), AllocError> {
        note(&mut self.stand_ins, id.index(), stand_in)
    }

    pub(crate) fn put_units(
        &mut self,
        alloc: Global,
        vertex: usize,
        units: Vec<Id>,
    ) -> Result<(), AllocError> {
        put_row(&mut self.units, alloc, vertex, units)
    }

    pub(crate) fn put_taken(&mut self, places: usize) {
        self.taken = places;
    }
}
