//! `NAME@VERSION`.

ghost use Rattle.std.specs.Prelude.{◌≡◌, option_map};
ghost use Rattle.features.specs.Names.{around};

/// What stands before and after the first `@` of a text.
pub fn name_and_version(text: &str) -> Option<(&str, &str)>
    ensures { option_map (λ p. (p.0.now, p.1.now)) result ≡ around 64 text.now }
{
    text.split_once('@')
}
