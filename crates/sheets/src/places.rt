//! Places in lists, and texts, which are places in the pool.

ghost use Rattle.std.specs.Prelude.{◌≡◌, ◌<◌, length, IfSome, OnOk, slice_index};
ghost use Rattle.scripts.specs.Cursors.{FewerLeft};

use crate::entries::Entry;
use crate::lists::append;
use drawing::rows::Place;
use scripts::cursors::{Words, take_number};
use scripts::failures::{Expected, Failure};
use scripts::numbers::number;

/// Where the first `+` stands.
fn plus_in(word: &[u8]) -> Option<usize>
    ensures { IfSome result (λ i. (i < length word.now) × (slice_index word.now i ≡ 43)) }
{
    word.iter().position(|byte| *byte == b'+')
}

/// The place that `START+COUNT` says.
fn place_said(word: &[u8]) -> Option<Place> {
    let plus = plus_in(word)?;
    Some(Place {
        start: number(&word[..plus], u64::MAX)? as usize,
        count: number(&word[plus + 1..], u64::MAX)? as usize,
    })
}

/// `@START+COUNT`
pub fn take_place(words: &mut Words) -> Result<Place, Failure>
    ensures { OnOk result (FewerLeft words.old words.new) }
{
    words.said(Expected::Place, |word| {
        word.strip_prefix(b"@").and_then(place_said)
    })
}

/// A text, which goes to the end of the pool, or a place.
pub fn take_text(words: &mut Words, pool: &mut Vec<u8>) -> Result<Place, Failure>
    ensures { OnOk result (FewerLeft words.old words.new) }
{
    let word = words.word(Expected::Text)?;
    if let Some(said) = word.strip_prefix(b"@") {
        return place_said(said).ok_or_else(|| words.instead(Expected::Place, word));
    }
    let start = pool.len();
    append(words, pool, word, 1)?;
    Ok(Place {
        start,
        count: word.len(),
    })
}

/// Any number of 64 bits.
impl Entry for usize {
    fn take(words: &mut Words, _pool: &mut Vec<u8>) -> Result<usize, Failure> {
        Ok(take_number(words, u64::MAX, Expected::Count)? as usize)
    }
}
