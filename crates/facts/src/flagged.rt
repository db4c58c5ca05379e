//! Flags at places.

ghost use Rattle.std.specs.Prelude.{◌≡◌, [], map, slice_get, unwrap_or};
ghost use Rattle.facts.specs.inner.Graphs.{flag_at};

/// Whether there is a flag at a place.
pub fn flag(flags: &[bool], at: usize) -> bool
    ensures { result ≡ flag_at flags.now at }
{
    match flags.get(at) {
        Some(flag) => *flag,
        None => false,
    }
}

/// The flags at a place of lists of them.
pub fn flags(lists: &[Vec<bool>], at: usize) -> &[bool]
    ensures { result.now ≡ unwrap_or (slice_get (map (λ v. v.items) lists.now) at) [] }
{
    match lists.get(at) {
        Some(list) => list.as_slice(),
        None => &[],
    }
}
