//! The packages of one list, in the order in which they are written.

ghost use Rattle.std.specs.Prelude.{◌≡◌, IfOk, option_map, slice_get};
ghost use Rattle.std.specs.Option.{option_cmp};
ghost use Rattle.model.specs.Order.{text_cmp, in_order};
ghost use Rattle.lockfile.specs.Spelling.{at_places};
ghost use Rattle.lockfile.specs.inner.Written.{written_cmp, entry_views, listed_view, listed_views};

use crate::written_package::{Listed, WrittenPackage};
use std::alloc::{AllocError, Global};
use std::cmp::Ordering;

/// No source before one, two by their bytes.
fn listed_source_order(a: Option<&str>, b: Option<&str>) -> Ordering
    ensures { result ≡ option_cmp text_cmp (option_map (λ s. s.now) a.entry) (option_map (λ s. s.now) b.entry) }
{
    match (a, b) {
        (Some(a), Some(b)) => a.cmp(b),
        (Some(_), None) => Ordering::Greater,
        (None, Some(_)) => Ordering::Less,
        (None, None) => Ordering::Equal,
    }
}

/// Packages by name, then the version's text, then the source.
fn listed_order(a: &Listed, b: &Listed) -> Ordering
    ensures { result ≡ written_cmp (listed_view a.now) (listed_view b.now) }
{
    a.locked
        .name
        .cmp(&b.locked.name)
        .then_with(|| a.version.cmp(b.version))
        .then_with(|| listed_source_order(a.locked.source(), b.locked.source()))
}

fn listed_at<'e>(entries: &'e [WrittenPackage<'_>], place: usize) -> Option<Listed<'e>>
    ensures { option_map listed_view result ≡ slice_get (entry_views entries.now) place }
{
    match entries.get(place) {
        Some(entry) => Some(entry.listed()),
        None => None,
    }
}

/// The entries at these places.
fn entries_at<'e>(
    alloc: Global,
    entries: &'e [WrittenPackage<'_>],
    places: &[usize],
) -> Result<Vec<Listed<'e>>, AllocError>
    ensures { IfOk result (λ v. listed_views v.items ≡ at_places (entry_views entries.now) places.now) }
{
    let mut found = Vec::new(alloc);
    'places: for place in places.iter() {
        if let Some(other) = listed_at(entries, *place) {
            found.push(other)?;
        }
    }
    Ok(found)
}

/// The entries at these places, in the order of a list.
pub(crate) fn listed<'e>(
    alloc: Global,
    entries: &'e [WrittenPackage<'_>],
    places: &[usize],
) -> Result<Vec<Listed<'e>>, AllocError>
    ensures { IfOk result
        (λ v. listed_views v.items ≡ in_order written_cmp (at_places (entry_views entries.now) places.now)) }
{
    let mut found = entries_at(alloc, entries, places)?;
    found.sort_by(|a, b| listed_order(a, b))?;
    Ok(found)
}
