//! Floats of a script: a decimal, read to the nearest float and of two as near to the even one, or the 32 bits themselves.

ghost use Rattle.std.specs.Prelude.{◌≡◌, from_bits};
ghost use Rattle.std.specs.Float.{binary32};
ghost use Rattle.scripts.specs.Floats.{nan_pattern};

use std::str::from_utf8;

/// Whether 32 bits are those of a NaN: every bit of the exponent is set, and some bit of the fraction.
fn is_nan_pattern(bits: u32) -> bool
    ensures { result ≡ nan_pattern bits }
{
    bits % 0x8000_0000 / 0x80_0000 == 0xff && bits % 0x80_0000 != 0
}

/// The float of 32 bits. Those of any NaN give the one NaN that there is.
pub fn float_of_bits(bits: u32) -> f32
    ensures { result ≡ from_bits binary32 bits }
{
    if is_nan_pattern(bits) {
        f32::NAN
    } else {
        f32::from_bits(bits)
    }
}

/// The bits that eight hexadecimal digits say.
fn bits_said(digits: &[u8]) -> Option<u32> {
    if digits.len() != 8 || !digits.iter().all(|digit| digit.is_ascii_hexdigit()) {
        return None;
    }
    u32::from_str_radix(from_utf8(digits).ok()?, 16).ok()
}

/// The float that a word says: `0x` and eight hexadecimal digits, or a decimal as Rust reads it.
pub fn float_said(word: &[u8]) -> Option<f32> {
    match word.strip_prefix(b"0x") {
        Some(digits) => bits_said(digits).map(float_of_bits),
        None => from_utf8(word).ok()?.parse().ok(),
    }
}
