//! A line in parts: the word at its front that Cargo shows in a color, and the newer version at its end.

ghost use Rattle.std.specs.Prelude.{◌≡◌, ◌++◌, IfSome};

use crate::paint::Style;

/// The words at the front of a line that Cargo shows in a color, and those of a verdict, each with what has to come
/// after it.
const FRONTS: [(&str, &str, Style); 12] = [
    ("     Locking", " ", Style::Green),
    ("    Updating", " ", Style::Green),
    ("      Adding", " ", Style::Green),
    (" Downgrading", " ", Style::Yellow),
    ("    Removing", " ", Style::Red),
    ("   Relisting", " ", Style::Green),
    ("   Unchanged", " ", Style::Bold),
    ("error", ":", Style::Red),
    ("warning", ":", Style::Yellow),
    ("note", ":", Style::Green),
    ("valid", "\n", Style::Green),
    ("invalid", " V", Style::Red),
];

/// What a newer version at the end of a line begins with.
const NEWER: &str = "(available: ";

/// A line whose front is shown in a color.
#[derive(Clone, Copy)]
pub(crate) struct Colored<'a> {
    pub(crate) word: &'static str,
    pub(crate) style: Style,
    pub(crate) rest: &'a str,
}

/// A line in parts, if it has such a front.
pub(crate) fn parts_of<'a>(line: &'a str) -> Option<Colored<'a>>
    ensures { IfSome result (λ c. c.word.now ++ c.rest.now ≡ line.entry.now) }
{
    for (word, next, style) in FRONTS {
        if let Some(rest) = after(line, word) {
            if rest.starts_with(next) {
                return Some(Colored { word, style, rest });
            }
        }
    }
    None
}

/// What stands after a word at the front of a line.
fn after<'a>(line: &'a str, word: &str) -> Option<&'a str>
    ensures { IfSome result (λ rest. word.now ++ rest.now ≡ line.entry.now) }
{
    line.strip_prefix(word)
}

/// ` v1.0.0 `, `(available: v1.1.0)` and a line end, where this is what stands after a word.
pub(crate) fn newer<'a>(rest: &'a str) -> Option<(&'a str, &'a str, &'a str)>
    ensures { IfSome result (λ p. p.0.now ++ p.1.now ++ p.2.now ≡ rest.entry.now) }
{
    let (front, from) = rest.split_at_checked(rest.find(NEWER)?)?;
    let (version, end) = from.split_at_checked(from.find('\n')?)?;
    Some((front, version, end))
}
