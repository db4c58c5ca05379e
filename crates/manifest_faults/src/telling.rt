//! Where and why a manifest doesn't read.

use crate::finding::culprit_in;
use crate::line::line_of;
use crate::place::value_at;
use crate::sentences::push_sentence;
use crate::sought::Sought;
use crate::why::{Culprit, Why};
use manifest::ManifestFault;
use std::alloc::{AllocError, Global};
use tables::{Misreading, no_toml};
use toml::Table;

/// The greatest number of bytes that a manifest may have: 1 MiB.
const MOST_BYTES: usize = 1_048_576;

/// Where and why the bytes of a manifest have this fault; nothing where no part is found that has it.
pub fn misreading_of(
    alloc: Global,
    bytes: &[u8],
    fault: &ManifestFault,
) -> Result<Option<Misreading>, AllocError> {
    if bytes.len() > MOST_BYTES {
        let why = String::from_str(alloc, "it has more than 1 MiB")?;
        return Ok(Some(Misreading::new(alloc, None, why)));
    }
    match toml::table_from_slice(alloc, bytes) {
        Ok(table) => {
            let sought = Sought { top: &table, fault };
            match culprit_in(alloc, sought)? {
                Some(culprit) => Ok(Some(of_culprit(alloc, bytes, &table, &culprit)?)),
                None => Ok(None),
            }
        }
        Err(error) => Ok(Some(no_toml(alloc, bytes, &error)?)),
    }
}

/// `[dependencies] serde: ..`, and the line of that.
fn of_culprit(
    alloc: Global,
    bytes: &[u8],
    top: &Table,
    culprit: &Culprit<'_>,
) -> Result<Misreading, AllocError> {
    let line = line_for(alloc, bytes, culprit)?;
    let mut why = String::new(alloc);
    let value = value_at(top, &culprit.place);
    push_sentence(alloc, &mut why, top, value, culprit)?;
    Ok(Misreading::new(alloc, line, why))
}

/// The line of a place, else of what it is a part of; of what is absent, that of where it has to be.
fn line_for(
    alloc: Global,
    bytes: &[u8],
    culprit: &Culprit<'_>,
) -> Result<Option<usize>, AllocError> {
    let place = culprit.place;
    if matches!(culprit.why, Why::Absent) {
        return line_of(alloc, bytes, &place.at_section(place.section));
    }
    match line_of(alloc, bytes, &place.at_key(place.key))? {
        Some(line) => Ok(Some(line)),
        None => line_of(alloc, bytes, &place.at_key(None)),
    }
}
