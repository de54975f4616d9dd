//! Decimal numbers of a script, and hexadecimal digits.

ghost use Rattle.std.specs.Prelude.{◌≡◌, ◌<◌, ◌^◌, SomeIff};
ghost use Rattle.scripts.specs.Numbers.{Numeral, value, Said, hex_value, hex_byte, hex_digit};

use std::str::from_utf8;

/// The number of at most 64 bits that a word says in decimal digits.
fn parsed(word: &[u8]) -> Option<u64>
    ensures { SomeIff result (Numeral word.now × (value word.now < 2 ^ 64)) (value word.now) }
{
    // `parse` would take a plus in front of the digits
    if word.starts_with(b"+") {
        return None;
    }
    from_utf8(word).ok()?.parse().ok()
}

/// The number that a word says in decimal digits, where it is at most `most`.
pub fn number(word: &[u8], most: u64) -> Option<u64>
    ensures { Said word.now most result }
{
    parsed(word).filter(|value| *value <= most)
}

/// The value of a hexadecimal digit, in either case.
// Kept: `to_digit` is of a char and gives a u32, so that it would stand between two casts.
pub fn hex_value(byte: u8) -> Option<u8>
    ensures { result ≡ hex_value byte }
{
    match byte {
        b'0'..=b'9' => Some(byte - b'0'),
        b'a'..=b'f' => Some(byte - b'a' + 10),
        b'A'..=b'F' => Some(byte - b'A' + 10),
        _ => None,
    }
}

/// The byte that two hexadecimal digits say.
pub fn hex_byte(high: u8, low: u8) -> Option<u8>
    ensures { result ≡ hex_byte high low }
{
    let high = hex_value(high)?;
    let low = hex_value(low)?;
    Some(high * 16 + low)
}

/// The hexadecimal digit of a value.
// Kept: `from_digit` gives an Option of a char, which would have to be unwrapped and cast; and markup's function of this name is no
// dependency worth having for scripts, which stand on no crate of plates.
pub fn hex_digit(value: u8) -> u8
    requires { value < 16 }
    ensures { result ≡ hex_digit value }
{
    if value < 10 {
        b'0' + value
    } else {
        b'a' + (value - 10)
    }
}
