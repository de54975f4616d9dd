//! The rule for texts: UTF-8 of characters that XML 1.0 allows, and a span that lies in its text at character bounds.

ghost use Rattle.std.specs.Prelude.{◌≡◌, Decides};
ghost use Rattle.std.specs.Str.{chars};
ghost use Rattle.std.specs.List.{list_all};
ghost use Rattle.checks.specs.Texts.{xml_char, text_stands, Text, character_bound, span_lies};

use std::str::from_utf8;

/// A character of production 2 of XML 1.0.
pub fn is_xml_char(character: char) -> bool
    ensures { result ≡ xml_char character }
{
    matches!(
        character,
        '\t' | '\n' | '\r'
            | '\u{20}'..='\u{D7FF}'
            | '\u{E000}'..='\u{FFFD}'
            | '\u{10000}'..='\u{10FFFF}'
    )
}

fn has_xml_chars(text: &str) -> bool
    ensures { result ≡ list_all xml_char (chars text.now) }
{
    text.chars().all(is_xml_char)
}

/// Whether some allowed characters have these bytes.
pub fn is_text(bytes: &[u8]) -> bool
    ensures value { result ≡ text_stands bytes.now }
    ensures means { Decides result (Text bytes.now) }
{
    from_utf8(bytes).is_ok_and(has_xml_chars)
}

/// Whether a character begins or the text ends there. It asks nothing of the text: a byte from 80 to BF goes on with a
/// character, and any other begins one.
pub fn is_character_bound(bytes: &[u8], at: usize) -> bool
    ensures { result ≡ character_bound bytes.now at }
{
    match bytes.get(at) {
        Some(byte) => !matches!(byte, 0x80..=0xBF),
        None => at == bytes.len(),
    }
}

/// Whether a span lies in its text, at character bounds.
pub fn is_span(bytes: &[u8], start: usize, end: usize) -> bool
    ensures { result ≡ span_lies bytes.now start end }
{
    start <= end && is_character_bound(bytes, start) && is_character_bound(bytes, end)
}
