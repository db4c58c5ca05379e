//! The parts of texts: names, classes, versions and numbers.

ghost use Rattle.std.specs.Prelude.{◌≡◌, ◌≢◌, ◌⊎◌, codes, option_copied, option_map};
ghost use Rattle.semver.specs.Identifiers.{parts_of};
ghost use Rattle.semver.specs.Parse.{memory_error};
ghost use Rattle.model.specs.Outcome.{Gives};
ghost use Rattle.features.specs.Names.{after_text, around};
ghost use Rattle.classes.specs.Classes.{class_view, number_of};
ghost use Rattle.vertices.specs.Texts.{wants_memory, needed, parted, package_name_of, feature_name_of, version_of_text};
ghost use Rattle.vertices.specs.Texts.{class_of_text, lesser_class, above_zero, index_of};

use crate::fault::TextFault;
use classes::{Class, whole_number};
use features::{FeatureName, NameFault, PackageName, name_and_version};
use semver::Version;
use std::alloc::{AllocError, Global};

/// What stands before and after the first space.
pub(crate) fn around_space(text: &str) -> Result<(&str, &str), TextFault>
    ensures { Gives wants_memory (λ p. (p.0.now, p.1.now)) result (parted 32 text.now) }
{
    match first_space(text) {
        Some((left, right)) => Ok((left, right)),
        None => Err(TextFault::NotAText),
    }
}

/// What stands before and after the first `@`.
pub(crate) fn around_at(text: &str) -> Result<(&str, &str), TextFault>
    ensures { Gives wants_memory (λ p. (p.0.now, p.1.now)) result (parted 64 text.now) }
{
    match name_and_version(text) {
        Some((left, right)) => Ok((left, right)),
        None => Err(TextFault::NotAText),
    }
}

fn first_space(text: &str) -> Option<(&str, &str)>
    ensures { option_map (λ p. (p.0.now, p.1.now)) result ≡ around 32 text.now }
{
    text.split_once(' ')
}

pub(crate) fn package_name(alloc: Global, text: &str) -> Result<PackageName, TextFault>
    ensures { Gives wants_memory (λ n. n) result (package_name_of text.now) }
{
    match PackageName::parse(alloc, text) {
        Ok(name) => Ok(name),
        Err(NameFault::OutOfMemory) => Err(TextFault::OutOfMemory),
        Err(NameFault::NotAName) => Err(TextFault::NotAText),
    }
}

pub(crate) fn feature_name(alloc: Global, text: &str) -> Result<FeatureName, TextFault>
    ensures { Gives wants_memory (λ n. n) result (feature_name_of text.now) }
{
    match FeatureName::parse(alloc, text) {
        Ok(name) => Ok(name),
        Err(NameFault::OutOfMemory) => Err(TextFault::OutOfMemory),
        Err(NameFault::NotAName) => Err(TextFault::NotAText),
    }
}

pub(crate) fn version(alloc: Global, text: &str) -> Result<Version, TextFault>
    ensures { Gives wants_memory parts_of result (version_of_text text.now) }
{
    match Version::parse(alloc, text) {
        Ok(version) => Ok(version),
        Err(e) => Err(fault_of(e)),
    }
}

/// What an error of `semver` is.
fn fault_of(e: semver::Error) -> TextFault
    ensures { ((result ≡ TextFault.OutOfMemory) × (e ≡ memory_error))
        ⊎ ((result ≡ TextFault.NotAText) × (e ≢ memory_error)) }
{
    if e == semver::Error::from(AllocError) {
        TextFault::OutOfMemory
    } else {
        TextFault::NotAText
    }
}

/// The class that a text is: `N` or `0.N`, N above 0, or `0.0.N`.
pub(crate) fn class(text: &str) -> Result<Class, TextFault>
    ensures { Gives wants_memory class_view result (class_of_text text.now) }
{
    match after_zero(text) {
        Some(rest) => lesser_class(rest),
        None => Ok(Class::Major(above_zero(text)?)),
    }
}

/// The class that a text after `0.` is.
fn lesser_class(text: &str) -> Result<Class, TextFault>
    ensures { Gives wants_memory class_view result (lesser_class text.now (after_text (codes "0.") text.now)) }
{
    match after_zero(text) {
        Some(patch) => Ok(Class::Patch(whole(patch)?)),
        None => Ok(Class::Minor(above_zero(text)?)),
    }
}

fn after_zero(text: &str) -> Option<&str>
    ensures { option_copied result ≡ after_text (codes "0.") text.now }
{
    text.strip_prefix("0.")
}

/// The number of a dependency.
#[tactic(auto, unfolding(crate::specs::Texts::index_of))]
pub(crate) fn number(text: &str) -> Result<u32, TextFault>
    ensures { Gives wants_memory (λ n. n) result (index_of text.now) }
{
    let number = whole(text)?;
    if number < 4_294_967_296 {
        Ok(number as u32)
    } else {
        Err(TextFault::NotAText)
    }
}

#[tactic(auto, unfolding(crate::specs::Texts::above_zero))]
fn above_zero(text: &str) -> Result<u64, TextFault>
    ensures { Gives wants_memory (λ n. n) result (above_zero text.now) }
{
    let number = whole(text)?;
    if number > 0 {
        Ok(number)
    } else {
        Err(TextFault::NotAText)
    }
}

/// The number of 64 bits that digits without a leading zero are.
fn whole(text: &str) -> Result<u64, TextFault>
    ensures { Gives wants_memory (λ n. n) result (needed (number_of text.now)) }
{
    match whole_number(text) {
        Some(number) => Ok(number),
        None => Err(TextFault::NotAText),
    }
}
