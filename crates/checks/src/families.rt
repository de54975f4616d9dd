//! The rule for a named family: neither quote, no backslash, line feed or carriage return. And whether a name goes without
//! quotes.
//!
//! A bare name is CSS identifiers joined by single spaces and, as a whole and in any ASCII letter case, none of the nine
//! words that mean something else in `font-family`.

ghost use Rattle.std.specs.Prelude.{◌≡◌, map};
ghost use Rattle.std.specs.List.{list_any};
ghost use Rattle.std.specs.Char.{to_ascii_lowercase};
ghost use Rattle.checks.specs.Families.{plain_byte, plain_bytes, starts_identifier, in_identifier, next_spot, spot_after, reserved_word, bare_name, word};

/// The words that mean something else in `font-family`.
const RESERVED: [&str; 9] = [
    "serif",
    "sans-serif",
    "cursive",
    "fantasy",
    "monospace",
    "inherit",
    "initial",
    "unset",
    "default",
];

/// Where in a name of identifiers the next byte stands.
#[derive(Clone, Copy)]
pub enum Spot {
    /// At an identifier's first byte.
    Start,
    /// After a leading hyphen.
    Hyphen,
    /// After a byte that may end an identifier.
    Inside,
}

fn is_plain_byte(byte: u8) -> bool
    ensures { result ≡ plain_byte byte }
{
    !matches!(byte, b'"' | b'\'' | b'\\' | b'\n' | b'\r')
}

/// Whether a name can stand in quotes as it is.
pub fn has_plain_bytes(bytes: &[u8]) -> bool
    ensures { result ≡ plain_bytes bytes.now }
{
    bytes.iter().all(|byte| is_plain_byte(*byte))
}

fn starts_identifier(byte: u8) -> bool
    ensures { result ≡ starts_identifier byte }
{
    matches!(byte, b'A'..=b'Z' | b'a'..=b'z' | b'_' | 0x80..=0xFF)
}

fn is_in_identifier(byte: u8) -> bool
    ensures { result ≡ in_identifier byte }
{
    matches!(byte, b'0'..=b'9' | b'-') || starts_identifier(byte)
}

/// Where the byte after this one stands, if a name of identifiers may have this one there.
fn next_spot(spot: Spot, byte: u8) -> Option<Spot>
    ensures { result ≡ next_spot spot byte }
{
    match (spot, byte) {
        (Spot::Start | Spot::Hyphen, _) if starts_identifier(byte) => Some(Spot::Inside),
        (Spot::Start, b'-') => Some(Spot::Hyphen),
        (Spot::Inside, _) if is_in_identifier(byte) => Some(Spot::Inside),
        (Spot::Inside, b' ') => Some(Spot::Start),
        _ => None,
    }
}

#[tactic(auto, unfolding(crate::specs::Families::spot_after))]
fn spot_after(bytes: &[u8]) -> Option<Spot>
    ensures { result ≡ spot_after bytes.now }
{
    bytes
        .iter()
        .fold(Some(Spot::Start), |spot, byte| next_spot(spot?, *byte))
}

fn is_word(bytes: &[u8], text: &str) -> bool
    ensures { result ≡ word (map to_ascii_lowercase text.now) bytes.now }
{
    bytes.eq_ignore_ascii_case(text.as_bytes())
}

fn is_one_of(bytes: &[u8], words: &[&str]) -> bool
    ensures { result ≡ list_any (λ text. word (map to_ascii_lowercase text.now) bytes.now) words.now }
{
    words.iter().any(|text| is_word(bytes, text))
}

fn is_reserved_word(bytes: &[u8]) -> bool
    ensures { result ≡ reserved_word bytes.now }
{
    is_one_of(bytes, &RESERVED)
}

/// Whether a name goes without quotes.
pub fn is_bare_name(bytes: &[u8]) -> bool
    ensures { result ≡ bare_name bytes.now }
{
    matches!(spot_after(bytes), Some(Spot::Inside)) && !is_reserved_word(bytes)
}
