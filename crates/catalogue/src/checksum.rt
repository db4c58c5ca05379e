//! The checksum of a candidate, in less than half of the room that its text takes.

ghost use Rattle.std.specs.Prelude.{◌≡◌, ◌/◌, ◌%◌, ◌<◌, ◌&&◌, nat_eq, [], ◌∷◌, ◌++◌, length, string_bytes};
ghost use Rattle.std.specs.Prelude.{IfOk, IfSome, OnOk, true};
ghost use Rattle.std.specs.List.{list_all};
ghost use Rattle.index_lines.specs.Records.{is_hexadecimal};
ghost use Rattle.model.specs.Summary.{same_text};
ghost use Rattle.catalogue.specs.inner.Checksums.{digit, digits_of};

use index_reader::are_hexadecimal;
use std::alloc::{AllocError, Global};
use std::marker::Model;

/// The checksum of a package's file.
#[derive(Drop)]
pub struct Checksum {
    form: Form,
}

/// What a checksum is kept as.
#[derive(Drop)]
enum Form {
    /// 64 lower-case hexadecimal digits, two in each byte.
    Bytes([u8; 32]),
    /// Any other text, which no record of a file has.
    Text(String),
}

impl Model for Checksum {
    ghost use Rattle.std.specs.Prelude.{ℕ, List};
    ghost use Rattle.catalogue.specs.inner.Checksums.{text_of};

    ghost Value = { List ℕ };

    ghost view = { λ c. text_of c.form };
}

impl Checksum {
    /// A text as bytes, if it is the digits of such, else as it is.
    pub(crate) fn of(text: String) -> Checksum
        ensures { result ≡ string_bytes text }
    {
        match bytes_of(text.as_bytes()) {
            Some(bytes) => Checksum {
                form: Form::Bytes(bytes),
            },
            None => Checksum {
                form: Form::Text(text),
            },
        }
    }

    /// Whether a text is this checksum.
    pub fn is(&self, text: &str) -> bool
        ensures { result ≡ same_text text.now self.now }
    {
        match &self.form {
            Form::Bytes(bytes) => are_digits_of(text.as_bytes(), bytes),
            Form::Text(own) => text == own.as_str(),
        }
    }

    /// Its text.
    pub fn to_text(&self, alloc: Global) -> Result<String, AllocError>
        ensures { IfOk result (λ s. string_bytes s ≡ self.now) }
    {
        match &self.form {
            Form::Bytes(bytes) => digits_of(alloc, bytes),
            Form::Text(own) => own.clone(),
        }
    }
}

/// The bytes that are written in 64 digits, if a text is such digits.
fn bytes_of(text: &[u8]) -> Option<[u8; 32]>
    ensures { IfSome result (λ bytes. digits_of bytes ≡ text.now) }
{
    if text.len() == 64 && are_hexadecimal(text) {
        Some(bytes_in(text))
    } else {
        None
    }
}

/// The bytes that are written in 64 digits. No digit is asked whether it is a letter: which ones are is chance, so a
/// processor would guess wrong at every third.
fn bytes_in(text: &[u8]) -> [u8; 32]
    requires long { length text.now ≡ 64 }
    requires digits { list_all is_hexadecimal text.now ≡ true }
    ensures { digits_of result ≡ text.now }
{
    let mut bytes = [0; 32];
    'places: for place in 0..32 {
        bytes[place] = 16 * value_of(text[2 * place]) + value_of(text[2 * place + 1]);
    }
    bytes
}

/// What a digit means: those below 10 are from 0x30 on, the others from 0x61 on.
fn value_of(byte: u8) -> u8
    requires { is_hexadecimal byte ≡ true }
    ensures { (result < 16) × (digit result ≡ byte) }
{
    (byte % 16 + 9 * (byte / 64)) % 16
}

/// Whether a text is the digits of these bytes.
fn are_digits_of(text: &[u8], bytes: &[u8; 32]) -> bool
    ensures { result ≡ same_text text.now (digits_of bytes.now) }
{
    if text.len() != 64 {
        return false;
    }
    'places: for (place, byte) in bytes.iter().enumerate() {
        if !are_digits(text[2 * place], text[2 * place + 1], *byte) {
            return false;
        }
    }
    true
}

/// Whether these are the two digits of a byte.
fn are_digits(high: u8, low: u8, byte: u8) -> bool
    ensures { result ≡ (nat_eq high (digit (byte / 16)) && nat_eq low (digit (byte % 16))) }
{
    high == digit(byte / 16) && low == digit(byte % 16)
}

/// The text of the digits of bytes.
fn digits_of(alloc: Global, bytes: &[u8; 32]) -> Result<String, AllocError>
    ensures { IfOk result (λ s. string_bytes s ≡ digits_of bytes.now) }
{
    let mut text = String::with_capacity(alloc, 64)?;
    'bytes: for byte in bytes {
        push_digit(&mut text, *byte / 16)?;
        push_digit(&mut text, *byte % 16)?;
    }
    Ok(text)
}

fn push_digit(text: &mut String, value: u8) -> Result<(), AllocError>
    requires { value < 16 }
    ensures { OnOk result (string_bytes text.new ≡ string_bytes text.old ++ digit value ∷ []) }
{
    text.push(char::from(digit(value)))
}

/// The digit of a number below 16.
fn digit(value: u8) -> u8
    requires { value < 16 }
    ensures value { result ≡ digit value }
    ensures ascii { result < 128 }
{
    if value < 10 {
        b'0' + value
    } else {
        b'a' + (value - 10)
    }
}
