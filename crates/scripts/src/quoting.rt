//! The quoted form of bytes, in which every byte can be said and shown.

ghost use Rattle.std.specs.Prelude.{◌≡◌, ◌++◌, OnOk};
ghost use Rattle.scripts.specs.Quoting.{short, plain, escaped, quoted_form};

use crate::numbers::hex_digit;
use std::alloc::{AllocError, AllocFailed};

/// The letter of a byte's short escape.
fn short_escape(byte: u8) -> Option<u8>
    ensures { result ≡ short byte }
{
    match byte {
        b'"' => Some(b'"'),
        b'\\' => Some(b'\\'),
        b'\n' => Some(b'n'),
        b'\r' => Some(b'r'),
        b'\t' => Some(b't'),
        _ => None,
    }
}

/// Adds a byte that has no short escape.
// Kept: `write!` with `{:02x}` fails with an error of input and output, and this with want of memory alone.
fn push_plain(out: &mut Vec<u8>, byte: u8) -> Result<(), AllocError>
    ensures { OnOk result (out.new.items ≡ out.old.items ++ plain byte) }
{
    if matches!(byte, b' '..=b'~') {
        return out.extend_from_slice(&[byte]);
    }
    let high = hex_digit(byte / 16);
    let low = hex_digit(byte % 16);
    out.extend_from_slice(&[b'\\', b'x', high, low])
}

/// Adds a byte as it stands between quotes.
fn push_escaped(out: &mut Vec<u8>, byte: u8) -> Result<(), AllocError>
    ensures { OnOk result (out.new.items ≡ out.old.items ++ escaped byte) }
{
    match short_escape(byte) {
        Some(letter) => out.extend_from_slice(&[b'\\', letter]),
        None => push_plain(out, byte),
    }
}

/// Adds bytes in double quotes, with the escapes of the script.
pub fn push_quoted(out: &mut Vec<u8>, bytes: &[u8]) -> Result<(), AllocError>
    ensures { OnOk result (out.new.items ≡ out.old.items ++ quoted_form bytes.now) }
{
    out.push(b'"')?;
    for byte in bytes {
        push_escaped(out, *byte)?;
    }
    out.push(b'"')?;
    Ok(())
}
