//! Colours, paints, fills and strokes.

ghost use Rattle.std.specs.Prelude.{◌≡◌, ◌≤◌, length, OnOk};
ghost use Rattle.scripts.specs.Cursors.{left, FewerLeft};
ghost use Rattle.sheets.specs.Colors.{color_said};

use crate::entries::Entry;
use crate::keywords::take_case;
use crate::places::{take_place, take_text};
use crate::rows::{Row, take_fields};
use drawing::rows::{Color, Fill, Paint, Stroke};
use scripts::cursors::{Words, take_float};
use scripts::failures::{Expected, Failure, Fields};
use scripts::numbers::hex_byte;

/// The colour that `#RRGGBB` says.
fn color_said(word: &[u8]) -> Option<Color>
    ensures { result ≡ color_said word.now }
{
    let [b'#', a, b, c, d, e, f] = word else {
        return None;
    };
    Some(Color {
        red: hex_byte(*a, *b)?,
        green: hex_byte(*c, *d)?,
        blue: hex_byte(*e, *f)?,
    })
}

impl Entry for Color {
    fn take(words: &mut Words, _pool: &mut Vec<u8>) -> Result<Color, Failure> {
        words.said(Expected::Color, color_said)
    }
}

/// The paint that begins with a word.
fn paint_from(word: &[u8], words: &mut Words, pool: &mut Vec<u8>) -> Result<Paint, Failure>
    ensures { OnOk result (length (left words.new) ≤ length (left words.old)) }
{
    match word {
        b"LinearGradient" => Ok(Paint::LinearGradient(take_text(words, pool)?)),
        b"RadialGradient" => Ok(Paint::RadialGradient(take_text(words, pool)?)),
        b"Pattern" => Ok(Paint::Pattern(take_text(words, pool)?)),
        _ => color_said(word)
            .map(Paint::Color)
            .ok_or_else(|| words.instead(Expected::Paint, word)),
    }
}

impl Entry for Paint {
    fn take(words: &mut Words, pool: &mut Vec<u8>) -> Result<Paint, Failure> {
        let word = words.word(Expected::Paint)?;
        paint_from(word, words, pool)
    }
}

impl Row for Fill {
    const WANTED: Fields = Fields::Fill;

    fn set(&mut self, name: &[u8], words: &mut Words, pool: &mut Vec<u8>) -> Result<(), Failure> {
        match name {
            b"paint" => self.paint = Paint::take(words, pool)?,
            b"opacity" => self.opacity = take_float(words)?,
            b"rule" => self.rule = take_case(words)?,
            _ => return Err(Self::no_field(words, name)),
        }
        Ok(())
    }
}

impl Row for Stroke {
    const WANTED: Fields = Fields::Stroke;

    fn set(&mut self, name: &[u8], words: &mut Words, pool: &mut Vec<u8>) -> Result<(), Failure> {
        match name {
            b"paint" => self.paint = Paint::take(words, pool)?,
            b"dasharray" => self.dasharray = Some(take_place(words)?),
            b"dashoffset" => self.dashoffset = take_float(words)?,
            b"miterlimit" => self.miterlimit = take_float(words)?,
            b"opacity" => self.opacity = take_float(words)?,
            b"width" => self.width = take_float(words)?,
            b"linecap" => self.linecap = take_case(words)?,
            b"linejoin" => self.linejoin = take_case(words)?,
            _ => return Err(Self::no_field(words, name)),
        }
        Ok(())
    }
}

/// `PAINT`, for what else is as it is by default, or `{ FIELDS }`
fn take_painted<R: Row, F: FnOnce(Paint) -> R>(
    words: &mut Words,
    pool: &mut Vec<u8>,
    painted: F,
) -> Result<R, Failure>
    requires { F.IsAlwaysCallable painted }
    ensures { OnOk result (FewerLeft words.old words.new) }
{
    match words.word(Expected::Paint)? {
        b"{" => take_fields(words, pool),
        word => Ok(painted(paint_from(word, words, pool)?)),
    }
}

impl Entry for Fill {
    fn take(words: &mut Words, pool: &mut Vec<u8>) -> Result<Fill, Failure> {
        take_painted(
            words,
            pool,
            |paint| Fill {
                paint,
                ..Fill::default()
            },
        )
    }
}

impl Entry for Stroke {
    fn take(words: &mut Words, pool: &mut Vec<u8>) -> Result<Stroke, Failure> {
        take_painted(
            words,
            pool,
            |paint| Stroke {
                paint,
                ..Stroke::default()
            },
        )
    }
}
