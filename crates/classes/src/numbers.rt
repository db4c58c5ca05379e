//! Whole numbers in decimal.

ghost use Rattle.std.specs.Prelude.{◌≡◌, ◌&&◌, ◌||◌, not, ◌==◌, length, nat_le, slice_index};
ghost use Rattle.std.specs.Char.{is_ascii_digit};
ghost use Rattle.std.specs.List.{list_all};
ghost use Rattle.classes.specs.Classes.{is_plain_number, number_of};

/// The number of 64 bits that digits without a leading zero are.
pub fn whole_number(text: &str) -> Option<u64>
    ensures { result ≡ number_of text.now }
{
    if !is_plain(text.as_bytes()) {
        return None;
    }
    match text.parse::<u64>() {
        Ok(number) => Some(number),
        Err(_) => None,
    }
}

fn is_plain(text: &[u8]) -> bool
    ensures { result ≡ is_plain_number text.now }
{
    !text.is_empty() && is_digits(text) && has_no_leading_zero(text)
}

fn is_digits(text: &[u8]) -> bool
    ensures { result ≡ list_all is_ascii_digit text.now }
{
    text.iter().all(|b| b.is_ascii_digit())
}

fn has_no_leading_zero(text: &[u8]) -> bool
    ensures { result ≡ (nat_le (length text.now) 1 || not (slice_index text.now 0 == 48)) }
{
    text.len() <= 1 || text[0] != b'0'
}
