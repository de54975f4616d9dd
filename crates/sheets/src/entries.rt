//! Entries of the lists that hold small values: a line gives any number of them, one after the other.

ghost use Rattle.std.specs.Prelude.{OnOk};
ghost use Rattle.scripts.specs.Cursors.{FewerLeft};

use crate::places::take_text;
use drawing::rows::{BaselineShift, FontFamily, PathSegment, Place, Point};
use scripts::cursors::{Words, take_float};
use scripts::failures::{Expected, Failure};

/// A value that is read from one word or a few.
// Kept: readers that are functions beside it. A `Place` has two readings, a row two ends, and what scripts reads wants no pool; so does
// the case of an enum: an impl for all enums of `Keyword` is accepted, but `Entry::take(words, pool)` says less than `take_case(words)`.
pub trait Entry: Copy {
    fn take(words: &mut Words, pool: &mut Vec<u8>) -> Result<Self, Failure>
        ensures { OnOk result (FewerLeft words.old words.new) };
}

impl Entry for f32 {
    fn take(words: &mut Words, _pool: &mut Vec<u8>) -> Result<f32, Failure> {
        take_float(words)
    }
}

/// An id that is referred to.
impl Entry for Place {
    fn take(words: &mut Words, pool: &mut Vec<u8>) -> Result<Place, Failure> {
        take_text(words, pool)
    }
}

impl Entry for FontFamily {
    fn take(words: &mut Words, pool: &mut Vec<u8>) -> Result<FontFamily, Failure> {
        match words.word(Expected::FontFamily)? {
            b"Serif" => Ok(FontFamily::Serif),
            b"SansSerif" => Ok(FontFamily::SansSerif),
            b"Cursive" => Ok(FontFamily::Cursive),
            b"Fantasy" => Ok(FontFamily::Fantasy),
            b"Monospace" => Ok(FontFamily::Monospace),
            b"Named" => Ok(FontFamily::Named(take_text(words, pool)?)),
            word => Err(words.instead(Expected::FontFamily, word)),
        }
    }
}

impl Entry for BaselineShift {
    fn take(words: &mut Words, _pool: &mut Vec<u8>) -> Result<BaselineShift, Failure> {
        match words.word(Expected::BaselineShift)? {
            b"Baseline" => Ok(BaselineShift::Baseline),
            b"Subscript" => Ok(BaselineShift::Subscript),
            b"Superscript" => Ok(BaselineShift::Superscript),
            b"Number" => Ok(BaselineShift::Number(take_float(words)?)),
            word => Err(words.instead(Expected::BaselineShift, word)),
        }
    }
}

impl Entry for Point {
    fn take(words: &mut Words, _pool: &mut Vec<u8>) -> Result<Point, Failure> {
        Ok(Point {
            x: take_float(words)?,
            y: take_float(words)?,
        })
    }
}

impl Entry for PathSegment {
    fn take(words: &mut Words, pool: &mut Vec<u8>) -> Result<PathSegment, Failure> {
        match words.word(Expected::PathSegment)? {
            b"MoveTo" => Ok(PathSegment::MoveTo(Point::take(words, pool)?)),
            b"LineTo" => Ok(PathSegment::LineTo(Point::take(words, pool)?)),
            b"QuadTo" => Ok(PathSegment::QuadTo(
                Point::take(words, pool)?,
                Point::take(words, pool)?,
            )),
            b"CubicTo" => Ok(PathSegment::CubicTo(
                Point::take(words, pool)?,
                Point::take(words, pool)?,
                Point::take(words, pool)?,
            )),
            b"Close" => Ok(PathSegment::Close),
            word => Err(words.instead(Expected::PathSegment, word)),
        }
    }
}

/// The entries up to the end of the line.
pub fn take_entries<E: Entry + Drop>(
    words: &mut Words,
    pool: &mut Vec<u8>,
) -> Result<Vec<E>, Failure> {
    let mut entries = Vec::new(words.heap);
    while !words.is_empty() {
        entries.push(E::take(words, pool)?)?;
    }
    Ok(entries)
}
