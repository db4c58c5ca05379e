//! The first thing in a lock that breaks a rule of reading.

use crate::called::{Called, Meant};
use crate::misread::{Broken, Misread};
use crate::section::{Listed, Section, listed_of};
use std::alloc::Global;
use toml::{Table, Value};

/// The first thing in a table that breaks a rule, if the table is no lock.
pub(crate) fn misread_in(alloc: Global, table: &Table) -> Result<(), Misread<'_>> {
    check_format(table)?;
    let Some(value) = table.get("package") else {
        return Ok(());
    };
    let Some(values) = value.as_array() else {
        return Err(Misread::NoPackages);
    };
    let packages = packages_in(alloc, values)?;
    let called = Called::new(alloc, &packages)?;
    check_alike(&packages, &called)?;
    check_lists(alloc, &packages, &called)
}

/// `version` may be absent; else it is a whole number from 1 to 4.
fn check_format(table: &Table) -> Result<(), Misread<'_>> {
    let Some(value) = table.get("version") else {
        return Ok(());
    };
    match value.as_integer() {
        Some(1..=4) => Ok(()),
        Some(number) => Err(Misread::Format(number)),
        None => Err(Misread::NoFormat),
    }
}

fn packages_in(alloc: Global, values: &[Value]) -> Result<Vec<Listed<'_>>, Misread<'_>> {
    let mut packages = Vec::new(alloc);
    for (number, value) in values.iter().enumerate() {
        match listed_of(alloc, value) {
            Ok(package) => packages.push(package)?,
            Err(Broken::OutOfMemory) => return Err(Misread::OutOfMemory),
            Err(broken) => return Err(Misread::Package(number, broken)),
        }
    }
    Ok(packages)
}

/// No package is alike an earlier one.
fn check_alike<'t>(packages: &[Listed<'t>], called: &Called<'t>) -> Result<(), Misread<'t>> {
    let Some(number) = called.first_repeated() else {
        return Ok(());
    };
    match packages.get(number) {
        Some(package) => {
            let Section { name, version, .. } = package.section;
            Err(Misread::Package(number, Broken::Twice(name, version)))
        }
        None => Ok(()),
    }
}

/// Each text of a list is what just one package is called, each package once.
fn check_lists<'t>(
    alloc: Global,
    packages: &[Listed<'t>],
    called: &Called<'t>,
) -> Result<(), Misread<'t>> {
    let mut listed_by = vec![in alloc; packages.len(); packages.len()]?;
    for (number, package) in packages.iter().enumerate() {
        if let Some(broken) = broken_list(called, package, number, &mut listed_by) {
            return Err(Misread::Package(number, broken));
        }
    }
    Ok(())
}

/// What is wrong with the list of the package of a number; `listed_by` has for each package the last one that lists it.
fn broken_list<'t>(
    called: &Called<'t>,
    package: &Listed<'t>,
    number: usize,
    listed_by: &mut [usize],
) -> Option<Broken<'t>> {
    let name = package.section.name;
    for value in package.list.iter() {
        let text = value.as_str().unwrap_or("");
        match called.meant(text) {
            Meant::One(meant) => {
                if is_listed_again(listed_by, meant, number) {
                    return Some(Broken::ListedTwice(name, text));
                }
            }
            Meant::Several => return Some(Broken::Several(name, text)),
            Meant::None => return Some(Broken::Unknown(name, text)),
        }
    }
    None
}

/// Whether the package of a number was the last one that lists another; if not, it is from now on.
fn is_listed_again(listed_by: &mut [usize], meant: usize, number: usize) -> bool {
    match listed_by.get_mut(meant) {
        Some(last) => {
            let is_again = *last == number;
            *last = number;
            is_again
        }
        None => false,
    }
}
