//! What a command ends with, by the files that it reads.

use crate::counted::Counted;
use crate::failure::Failure;
use crate::watch::Watch;
use features::PackageName;
use index_reader::{DiskFolder, index_path};
use outcomes::{
    Bytes, IndexFolder, Outcome, Paths, Pinned, Pins, Precise, Project, Question, ReadFault, Said,
    Wish, has_workspace, manifests_above, no_index, paths_below, precise_in, precise_told,
    question_in, read_files, resolve_told, skips_told, skips_told_of_all, standing_of,
    tell_fetched, tell_read, tell_time, told_fault, update_told, verify_told, warn_of_workspace,
    why_told,
};
use resolver::Fault;
use semver::Version;
use std::alloc::{AllocError, Global};
use std::io::{Eprint, ErrorKind};
use std::rt::Files;
use std::time::Clock;

/// The index of a run, which counts what it is asked for.
type Index<'r, R> = Counted<'r, IndexFolder<DiskFolder<R>>, R>;

/// Behind a box, since a check goes through all that a function owns wherever it can end.
fn index_at<'r, R: Files + Clock + Eprint + AllocGlobal + Clone + Drop>(
    rt: &'r R,
    paths: &Paths<'_>,
    watch: Watch,
) -> Result<Box<Index<'r, R>>, AllocError> {
    let folder = folder_at(rt, paths)?;
    let alloc = rt.alloc();
    Ok(Box::new(alloc, Counted::new(alloc, folder, rt, watch))?)
}

fn folder_at<R: Files + AllocGlobal + Clone + Drop>(
    rt: &R,
    paths: &Paths<'_>,
) -> Result<IndexFolder<DiskFolder<R>>, AllocError> {
    let folder = DiskFolder::open(rt, paths.index.as_str())?;
    Ok(IndexFolder::new(rt.alloc(), folder, paths.is_fetched))
}

/// What a command ends with, once a fault is told, and what there is to say of the index: that Cargo fetched it; and
/// the time. Where there is no file of an index, and none was found of those that were looked for, that is told alone.
fn ended<R: Files + Clock + Eprint + AllocGlobal + Clone + Drop>(
    rt: &R,
    project: Project<'_>,
    told: Result<Outcome, Fault>,
    index: &Index<'_, R>,
    watch: Watch,
    said: &mut Said,
) -> Result<Outcome, AllocError> {
    let alloc = rt.alloc();
    let paths = project.paths;
    let seen = index.seen();
    let path = paths.index.as_str();
    if seen.asked() > 0 && seen.files == 0 {
        if let Some(lacking) = lacking_at(rt, path)? {
            return without_index(alloc, path, &lacking, said);
        }
    }
    let outcome = told_fault(alloc, project, told, said)?;
    if paths.is_fetched {
        // After a no names were looked for that are like others, so that their number says nothing.
        let missing = if outcome.is_yes() {
            Some(index.folder().missing())
        } else {
            None
        };
        tell_fetched(alloc, path, missing, said)?;
    }
    if let Some(millis) = watch.told(rt) {
        tell_time(alloc, millis, seen.asked(), seen.lines, said)?;
    }
    Ok(outcome)
}

/// What is to be done, once it is known whether the manifest is a member of a workspace.
fn checked<'a, R: Files + AllocGlobal>(
    rt: &R,
    project: Project<'_>,
    wish: Wish,
    said: &mut Said,
) -> Result<Wish, Failure<'a>> {
    Ok(Wish {
        is_member: tell_workspace(rt, project, wish.write, said)?,
        ..wish
    })
}

/// Whether the manifest is a member of a workspace, whose lock Cargo takes: that is told, and where the lock is to be
/// written refused.
fn tell_workspace<'a, R: Files + AllocGlobal>(
    rt: &R,
    project: Project<'_>,
    writes: bool,
    said: &mut Said,
) -> Result<bool, Failure<'a>> {
    let alloc = rt.alloc();
    let manifest = project.paths.manifest;
    if has_workspace(alloc, &project.bytes.manifest, "")? {
        return Ok(false);
    }
    for above in manifests_above(rt, manifest)? {
        if has_workspace(alloc, &above.bytes, above.below.as_str())? {
            if writes {
                return Err(Failure::Member(above.path));
            }
            let below = above.below.as_str();
            let found = standing_of(alloc, &above.bytes, below)?;
            let path = above.path.as_str();
            warn_of_workspace(alloc, manifest, path, below, found, said)?;
            return Ok(true);
        }
    }
    Ok(false)
}

/// A folder in which no file lies where an index has it.
#[derive(Drop)]
struct Lacking {
    /// A folder in it in which one does.
    inner: Option<String>,
}

/// How a run ends whose index isn't there.
fn without_index(
    alloc: Global,
    index: &str,
    lacking: &Lacking,
    said: &mut Said,
) -> Result<Outcome, AllocError> {
    let inner = match &lacking.inner {
        Some(inner) => Some(inner.as_str()),
        None => None,
    };
    no_index(alloc, index, inner, said)
}

/// That no file of a folder lies where an index has it, if that is so; of one that can't be listed that isn't known.
fn lacking_at<R: Files + AllocGlobal + Clone + Drop>(
    rt: &R,
    index: &str,
) -> Result<Option<Lacking>, AllocError> {
    match paths_below(rt, index) {
        Ok(paths) => lacking_in(rt, index, &paths),
        Err(_) => Ok(None),
    }
}

/// The same of a folder with files at these paths.
fn lacking_in<R: Files + AllocGlobal + Clone + Drop>(
    rt: &R,
    index: &str,
    paths: &[String],
) -> Result<Option<Lacking>, AllocError> {
    if has_index_file(rt.alloc(), paths)? {
        return Ok(None);
    }
    let inner = inner_index(rt, index)?;
    Ok(Some(Lacking { inner }))
}

/// The folder `index` in a folder, as Cargo's local registries have it, if it has a file of an index.
fn inner_index<R: Files + AllocGlobal + Clone + Drop>(
    rt: &R,
    folder: &str,
) -> Result<Option<String>, AllocError> {
    let alloc = rt.alloc();
    let inner = format!(in alloc; "{}/index", folder.trim_end_matches('/'))?;
    let is_index = match paths_below(rt, inner.as_str()) {
        Ok(paths) => has_index_file(alloc, &paths)?,
        Err(_) => false,
    };
    Ok(if is_index { Some(inner) } else { None })
}

/// Whether some path is that of a package's file in an index.
fn has_index_file(alloc: Global, paths: &[String]) -> Result<bool, AllocError> {
    for path in paths {
        let path = path.as_str();
        let (_, name) = path.rsplit_once('/').unwrap_or(("", path));
        if let Ok(name) = PackageName::parse(alloc, name) {
            if index_path(alloc, &name)?.as_str() == path {
                return Ok(true);
            }
        }
    }
    Ok(false)
}

pub(crate) fn resolve_at<'a, R: Files + Clock + Eprint + AllocGlobal + Clone + Drop>(
    rt: &R,
    paths: &'a Paths<'a>,
    wish: Wish,
    watch: Watch,
    said: &mut Said,
) -> Result<Outcome, Failure<'a>> {
    let bytes = read_files(rt, paths, false)?;
    let project = Project::of(paths, &bytes);
    let wish = checked(rt, project, wish, said)?;
    let mut index = index_at(rt, paths, watch)?;
    let told = resolve_told(rt.alloc(), &mut *index, project, wish, said);
    Ok(ended(rt, project, told, &index, watch, said)?)
}

/// What each of some words asks for, or the first of them that ask for no package.
fn questions_in<'a>(
    alloc: Global,
    packages: &[&'a str],
) -> Result<Result<Vec<(&'a str, Question)>, &'a str>, AllocError> {
    let mut asked = Vec::new(alloc);
    for words in packages {
        let Some(question) = question_in(alloc, words)? else {
            return Ok(Err(words));
        };
        asked.push((*words, question))?;
    }
    Ok(Ok(asked))
}

pub(crate) fn update_at<'a, R: Files + Clock + Eprint + AllocGlobal + Clone + Drop>(
    rt: &R,
    paths: &'a Paths<'a>,
    packages: &[&str],
    wish: Wish,
    watch: Watch,
    said: &mut Said,
) -> Result<Outcome, Failure<'a>> {
    let asked = match questions_in(rt.alloc(), packages)? {
        Ok(asked) => asked,
        Err(words) => return Err(Failure::NoPackage(String::from_str(rt.alloc(), words)?)),
    };
    let bytes = if asked.is_empty() {
        read_files(rt, paths, false)?
    } else {
        with_lock(rt, paths, said)?
    };
    let project = Project::of(paths, &bytes);
    let wish = checked(rt, project, wish, said)?;
    let mut index = index_at(rt, paths, watch)?;
    let told = update_told(rt.alloc(), &mut *index, project, &asked, wish, said);
    Ok(ended(rt, project, told, &index, watch, said)?)
}

/// The version that a text is.
fn version_of<'a>(alloc: Global, text: &str) -> Result<Version, Failure<'a>> {
    match Version::parse(alloc, text) {
        Ok(version) => Ok(version),
        Err(error) if error == semver::Error::from(AllocError) => Err(Failure::OutOfMemory),
        Err(_) => Err(Failure::NoVersion(String::from_str(alloc, text)?)),
    }
}

/// The same where one package is to have a version.
pub(crate) fn precise_at<'a, R: Files + Clock + Eprint + AllocGlobal + Clone + Drop>(
    rt: &R,
    paths: &'a Paths<'a>,
    packages: &[&str],
    version: &str,
    wish: Wish,
    watch: Watch,
    said: &mut Said,
) -> Result<Outcome, Failure<'a>> {
    let alloc = rt.alloc();
    let [words] = packages else {
        return Err(Failure::NotOne);
    };
    let Some(question) = question_in(alloc, words)? else {
        return Err(Failure::NoPackage(String::from_str(alloc, words)?));
    };
    let version = version_of(alloc, version)?;
    let bytes = with_lock(rt, paths, said)?;
    let project = Project::of(paths, &bytes);
    let wish = checked(rt, project, wish, said)?;
    let mut index = index_at(rt, paths, watch)?;
    let told = match precise_in(alloc, project, words, &question, version, said) {
        Ok(Ok((precise, pins))) => precisely(rt, &mut *index, project, &precise, pins, wish, said),
        Ok(Err(outcome)) => Ok(outcome),
        Err(fault) => Err(fault),
    };
    Ok(ended(rt, project, told, &index, watch, said)?)
}

/// With an index that has of some packages only the versions that are asked for.
fn precisely<R: Files + Clock + Eprint + AllocGlobal + Clone + Drop>(
    rt: &R,
    index: &mut Index<'_, R>,
    project: Project<'_>,
    precise: &Precise,
    pins: Pins,
    wish: Wish,
    said: &mut Said,
) -> Result<Outcome, Fault> {
    let mut pinned = Pinned::new(folder_at(rt, project.paths)?, pins);
    precise_told(rt.alloc(), index, &mut pinned, project, precise, wish, said)
}

pub(crate) fn verify_at<'a, R: Files + Clock + Eprint + AllocGlobal + Clone + Drop>(
    rt: &R,
    paths: &'a Paths<'a>,
    watch: Watch,
    said: &mut Said,
) -> Result<Outcome, Failure<'a>> {
    let bytes = with_lock(rt, paths, said)?;
    let project = Project::of(paths, &bytes);
    tell_workspace(rt, project, false, said)?;
    let mut index = index_at(rt, paths, watch)?;
    let told = verify_told(rt.alloc(), &mut *index, project, said);
    Ok(ended(rt, project, told, &index, watch, said)?)
}

pub(crate) fn why_at<'a, R: Files + Clock + Eprint + AllocGlobal + Clone + Drop>(
    rt: &R,
    paths: &'a Paths<'a>,
    package: &str,
    all: bool,
    watch: Watch,
    said: &mut Said,
) -> Result<Outcome, Failure<'a>> {
    let Some(question) = question_in(rt.alloc(), package)? else {
        let text = String::from_str(rt.alloc(), package)?;
        return Err(Failure::NoPackage(text));
    };
    let bytes = with_lock(rt, paths, said)?;
    let project = Project::of(paths, &bytes);
    tell_workspace(rt, project, false, said)?;
    let mut index = index_at(rt, paths, watch)?;
    let told = why_told(
        rt.alloc(),
        &mut *index,
        project,
        package,
        &question,
        all,
        said,
    );
    Ok(ended(rt, project, told, &index, watch, said)?)
}

/// What the files say, with the lock, which has to be there: else a workspace that has it is told.
fn with_lock<'a, R: Files + AllocGlobal>(
    rt: &R,
    paths: &'a Paths<'a>,
    said: &mut Said,
) -> Result<Bytes, Failure<'a>> {
    match read_files(rt, paths, true) {
        Ok(bytes) => Ok(bytes),
        Err(ReadFault::CannotRead(path, error)) => {
            if path == paths.lock.as_str() && error.kind() == ErrorKind::NotFound {
                let bytes = read_files(rt, paths, false)?;
                tell_workspace(rt, Project::of(paths, &bytes), false, said)?;
                Err(Failure::NoLock(path))
            } else {
                Err(Failure::Unread(ReadFault::CannotRead(path, error)))
            }
        }
        Err(fault) => Err(Failure::from(fault)),
    }
}

fn tell_all_read<R: Files + Clock + Eprint + AllocGlobal + Clone + Drop>(
    alloc: Global,
    paths: &Paths<'_>,
    index: &Index<'_, R>,
    said: &mut Said,
) -> Result<(), AllocError> {
    let seen = index.seen();
    tell_read(alloc, paths.index.as_str(), seen.files, seen.lines, said)
}

pub(crate) fn skips_at<'a, R: Files + Clock + Eprint + AllocGlobal + Clone + Drop>(
    rt: &R,
    paths: &'a Paths<'a>,
    all: bool,
    watch: Watch,
    said: &mut Said,
) -> Result<Outcome, Failure<'a>> {
    let bytes = read_files(rt, paths, false)?;
    let project = Project::of(paths, &bytes);
    let mut index = index_at(rt, paths, watch)?;
    let told = skips_told(rt.alloc(), &mut *index, &bytes, all, said);
    if told.is_ok() {
        tell_all_read(rt.alloc(), paths, &index, said)?;
    }
    Ok(ended(rt, project, told, &index, watch, said)?)
}

/// The lines of the whole index, beside no manifest.
pub(crate) fn skips_at_all<'a, R: Files + Clock + Eprint + AllocGlobal + Clone + Drop>(
    rt: &R,
    paths: &'a Paths<'a>,
    all: bool,
    watch: Watch,
    said: &mut Said,
) -> Result<Outcome, Failure<'a>> {
    let alloc = rt.alloc();
    let files = paths_below(rt, paths.index.as_str())?;
    let mut index = index_at(rt, paths, watch)?;
    let told = skips_told_of_all(alloc, &mut *index, &files, all, said);
    if told.is_ok() {
        tell_all_read(alloc, paths, &index, said)?;
    }
    if index.seen().asked() == 0 {
        if let Some(lacking) = lacking_in(rt, paths.index.as_str(), &files)? {
            return Ok(without_index(alloc, paths.index.as_str(), &lacking, said)?);
        }
    }
    let nothing = Bytes {
        manifest: Vec::new(alloc),
        lock: None,
        source: String::new(alloc),
    };
    let project = Project::of(paths, &nothing);
    Ok(ended(rt, project, told, &index, watch, said)?)
}
