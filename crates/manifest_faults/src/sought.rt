//! The fault that is sought, and whether a part of the manifest has it.

ghost use Rattle.std.specs.Prelude.{◌≡◌, IfOk, option_copied, option_map};
ghost use Rattle.toml.specs.View.{table_view, view};
ghost use Rattle.manifest_faults.specs.inner.Finding.{IsFound};
ghost use Rattle.manifest_faults.specs.inner.Places.{named_value, value_at};
ghost use Rattle.manifest_faults.specs.inner.Blame.{is_blamed, is_needed, is_own, is_so, is_so_of_own};

use crate::due::{form_of, is_due};
use crate::meaning::is_meant;
use crate::place::{Place, named_value, value_at};
use crate::shape::is_inherited;
use crate::why::{Culprit, Why};
use crate::wrong::is_wrong;
use manifest::ManifestFault;
use std::alloc::{AllocError, Global};
use toml::{Table, Value};

/// A manifest, and the fault that it has.
#[derive(Clone, Copy)]
pub(crate) struct Sought<'t> {
    pub top: &'t Table,
    pub fault: &'t ManifestFault,
}

/// The part at a place, if it has the fault, for this reason.
pub(crate) fn blamed<'t>(
    alloc: Global,
    sought: Sought<'t>,
    place: Place<'t>,
    why: Why<'t>,
) -> Result<Option<Culprit<'t>>, AllocError>
    ensures { IsFound sought.entry result }
{
    if is_blamed(alloc, sought, &place, why)? {
        Ok(Some(Culprit { place, why }))
    } else {
        Ok(None)
    }
}

/// The first of these parts that has the fault, for the reason beside it.
pub(crate) fn first_blamed<'t>(
    alloc: Global,
    sought: Sought<'t>,
    tried: &[(Place<'t>, Why<'t>)],
) -> Result<Option<Culprit<'t>>, AllocError>
    ensures { IsFound sought.entry result }
{
    for (place, why) in tried.iter() {
        if let Some(found) = blamed(alloc, sought, *place, *why)? {
            return Ok(Some(found));
        }
    }
    Ok(None)
}

fn is_blamed(
    alloc: Global,
    sought: Sought<'_>,
    place: &Place<'_>,
    why: Why<'_>,
) -> Result<bool, AllocError>
    ensures { IfOk result
        (λ b. b ≡ is_blamed sought.entry.fault.now (table_view sought.entry.top.now) place.now why.entry) }
{
    if !is_meant(sought.fault, place, why) {
        return Ok(false);
    }
    if is_due(why, form_of(place)) {
        is_so_of_own(alloc, sought.top, place, why)
    } else {
        Ok(false)
    }
}

/// Whether it is so of what stands at a place, where that isn't a part of what is left to a workspace.
fn is_so_of_own(
    alloc: Global,
    top: &Table,
    place: &Place<'_>,
    why: Why<'_>,
) -> Result<bool, AllocError>
    ensures { IfOk result (λ b. b ≡ is_so_of_own why.entry place.now (table_view top.now)) }
{
    if is_own(place.key, named_value(top, place)) {
        is_so(alloc, top, place, why)
    } else {
        Ok(false)
    }
}

fn is_own(key: Option<&str>, owner: Option<&Value>) -> bool
    ensures { result ≡ is_own (option_copied key.entry) (option_map (λ v. view v.now) owner.entry) }
{
    match key {
        Some(_) => !is_inherited(owner),
        None => true,
    }
}

fn is_so(alloc: Global, top: &Table, place: &Place<'_>, why: Why<'_>) -> Result<bool, AllocError>
    ensures { IfOk result (λ b. b
        ≡ is_so why.entry place.now (table_view top.now) (value_at place.now (table_view top.now))) }
{
    match value_at(top, place) {
        Some(value) => is_wrong(alloc, top, place, why, value),
        None => Ok(is_needed(why, place)),
    }
}

/// Only the package and its name have to be there.
fn is_needed(why: Why<'_>, place: &Place<'_>) -> bool
    ensures { result ≡ is_needed why.entry place.now }
{
    match why {
        Why::Absent => place.section == "package",
        _ => false,
    }
}
