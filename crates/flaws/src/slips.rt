//! A name that an index has, and that differs from one that it lacks by a slip.

use crate::package_file::{file_of, out_of_memory};
use features::PackageName;
use index_reader::{Folder, FolderFault};
use std::alloc::{AllocError, Global};

/// What a letter may have been meant for.
const LETTERS: &str = "abcdefghijklmnopqrstuvwxyz0123456789-_";

/// One slip in fewer letters makes another name, and in more the folder would be asked too often.
const SHORTEST: usize = 3;

const LONGEST: usize = 64;

/// A name that has a record and is like another: the same in small letters, with `_` for each `-` or `-` for each `_`,
/// or with two neighbors that changed places, a letter less, another letter or a letter more, tried in this order.
///
/// # Errors
/// Want of memory, or the folder failed.
pub(crate) fn other_name<F: Folder>(
    alloc: Global,
    folder: &mut F,
    name: &PackageName,
) -> Result<Option<PackageName>, FolderFault> {
    let letters = small_letters(alloc, name).map_err(out_of_memory)?;
    if let Some(other) = otherwise_spelt(alloc, folder, &letters)? {
        return Ok(Some(other));
    }
    if letters.len() < SHORTEST || letters.len() > LONGEST {
        return Ok(None);
    }
    if let Some(other) = with_two_swapped(alloc, folder, &letters)? {
        return Ok(Some(other));
    }
    if let Some(other) = with_one_less(alloc, folder, &letters)? {
        return Ok(Some(other));
    }
    if let Some(other) = with_another(alloc, folder, &letters)? {
        return Ok(Some(other));
    }
    with_one_more(alloc, folder, &letters)
}

fn small_letters(alloc: Global, name: &PackageName) -> Result<Vec<char>, AllocError> {
    let mut letters = Vec::new(alloc);
    for letter in name.as_str().chars() {
        letters.push(letter.to_ascii_lowercase())?;
    }
    Ok(letters)
}

/// The name in small letters, then with `_` for each `-`, then with `-` for each `_`.
fn otherwise_spelt<F: Folder>(
    alloc: Global,
    folder: &mut F,
    letters: &[char],
) -> Result<Option<PackageName>, FolderFault> {
    if let Some(other) = if_there(alloc, folder, letters, &[], &[])? {
        return Ok(Some(other));
    }
    let low = with_each(alloc, letters, '-', '_').map_err(out_of_memory)?;
    if let Some(other) = if_there(alloc, folder, &low, &[], &[])? {
        return Ok(Some(other));
    }
    let high = with_each(alloc, letters, '_', '-').map_err(out_of_memory)?;
    if_there(alloc, folder, &high, &[], &[])
}

/// The same letters with one for another.
fn with_each(
    alloc: Global,
    letters: &[char],
    from: char,
    to: char,
) -> Result<Vec<char>, AllocError> {
    let mut others = Vec::new(alloc);
    for letter in letters {
        others.push(if *letter == from { to } else { *letter })?;
    }
    Ok(others)
}

fn with_two_swapped<F: Folder>(
    alloc: Global,
    folder: &mut F,
    letters: &[char],
) -> Result<Option<PackageName>, FolderFault> {
    for at in 0..letters.len() {
        let (front, back) = letters.split_at(at);
        if let [first, second, rest @ ..] = back {
            if let Some(other) = if_there(alloc, folder, front, &[*second, *first], rest)? {
                return Ok(Some(other));
            }
        }
    }
    Ok(None)
}

fn with_one_less<F: Folder>(
    alloc: Global,
    folder: &mut F,
    letters: &[char],
) -> Result<Option<PackageName>, FolderFault> {
    for at in 0..letters.len() {
        if let Some(other) = if_there(alloc, folder, &letters[..at], &[], &letters[at + 1..])? {
            return Ok(Some(other));
        }
    }
    Ok(None)
}

fn with_another<F: Folder>(
    alloc: Global,
    folder: &mut F,
    letters: &[char],
) -> Result<Option<PackageName>, FolderFault> {
    for at in 0..letters.len() {
        if let Some(other) = with_some(alloc, folder, &letters[..at], &letters[at + 1..])? {
            return Ok(Some(other));
        }
    }
    Ok(None)
}

fn with_one_more<F: Folder>(
    alloc: Global,
    folder: &mut F,
    letters: &[char],
) -> Result<Option<PackageName>, FolderFault> {
    for at in 0..=letters.len() {
        if let Some(other) = with_some(alloc, folder, &letters[..at], &letters[at..])? {
            return Ok(Some(other));
        }
    }
    Ok(None)
}

/// The name with some letter between two parts.
fn with_some<F: Folder>(
    alloc: Global,
    folder: &mut F,
    front: &[char],
    back: &[char],
) -> Result<Option<PackageName>, FolderFault> {
    for letter in LETTERS.chars() {
        if let Some(other) = if_there(alloc, folder, front, &[letter], back)? {
            return Ok(Some(other));
        }
    }
    Ok(None)
}

/// The name of these parts, if it has a record.
fn if_there<F: Folder>(
    alloc: Global,
    folder: &mut F,
    front: &[char],
    middle: &[char],
    back: &[char],
) -> Result<Option<PackageName>, FolderFault> {
    let text = text_of(alloc, front, middle, back).map_err(out_of_memory)?;
    let Ok(other) = PackageName::parse(alloc, text.as_str()) else {
        return Ok(None);
    };
    match file_of(alloc, folder, &other)? {
        Some(file) if !file.records.is_empty() => Ok(Some(other)),
        _ => Ok(None),
    }
}

fn text_of(
    alloc: Global,
    front: &[char],
    middle: &[char],
    back: &[char],
) -> Result<String, AllocError> {
    let mut text = String::new(alloc);
    for letter in front.iter().chain(middle).chain(back) {
        text.push(*letter)?;
    }
    Ok(text)
}
