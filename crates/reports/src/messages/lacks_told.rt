//! Why nothing fits a dependency of the manifest.

use crate::messages::message::{LackKind, LackOf, Message, push_message};
use crate::messages::shown::Shown;
use crate::reporting::{Inputs, unless_failed};
use catalogue::{Catalogue, LoadFault};
use features::{Dependency, PackageName};
use flaws::{Lack, NothingFits, look_for, nothing_fits, out_of_memory};
use index_reader::{Folder, FolderFault};
use std::alloc::Global;

/// The dependencies of the manifest for which nothing fits; where there is none, or the folder fails while it is asked
/// for these once more, nothing.
pub fn lacks_of<F: Folder>(
    alloc: Global,
    folder: &mut F,
    catalogue: &Catalogue,
    inputs: &Inputs,
) -> Result<String, LoadFault> {
    let lacks = lacks_in(alloc, folder, inputs, catalogue);
    unless_failed(alloc, lacks)
}

/// A message for each dependency of the manifest that nothing fits.
fn lacks_in<F: Folder>(
    alloc: Global,
    folder: &mut F,
    inputs: &Inputs,
    catalogue: &Catalogue,
) -> Result<String, FolderFault> {
    let mut text = String::new(alloc);
    for dependency in inputs.manifest.dependencies() {
        if let Some(found) = look_for(alloc, catalogue, folder, dependency)? {
            let reason = nothing_fits(alloc, catalogue, dependency, &found).map_err(out_of_memory)?;
            let message = lack(inputs.manifest.name(), dependency, reason);
            push_message(&mut text, alloc, &message).map_err(out_of_memory)?;
        }
    }
    Ok(text)
}

fn lack<'a>(
    root: &'a PackageName,
    dependency: &'a Dependency,
    reason: NothingFits<'a>,
) -> Message<'a> {
    Message::Lack(LackOf {
        package: root.as_str(),
        dependency: dependency.real_name.as_str(),
        requirement: Shown(&dependency.requirement),
        lack: kind_of(reason.lack),
        newest: match reason.newest {
            Some(version) => Some(Shown(version)),
            None => None,
        },
        feature: match reason.feature {
            Some(feature) => Some(feature.as_str()),
            None => None,
        },
        other: match reason.other {
            Some(name) => Some(name.as_str()),
            None => None,
        },
        similar: reason.similar,
    })
}

fn kind_of(lack: Lack) -> LackKind {
    match lack {
        Lack::NoPackage => LackKind::NoPackage,
        Lack::NoLine => LackKind::NoLine,
        Lack::Yanked => LackKind::Yanked,
        Lack::PreReleases => LackKind::PreReleases,
        Lack::NoVersion => LackKind::NoVersion,
        Lack::NoFeature => LackKind::NoFeature,
    }
}
