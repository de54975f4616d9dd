//! The rows of texts, chunks and spans, and what a span is made of.

ghost use Rattle.std.specs.Prelude.{OnOk};
ghost use Rattle.scripts.specs.Cursors.{FewerLeft};

use crate::entries::Entry;
use crate::keywords::take_case;
use crate::places::{take_place, take_text};
use crate::rows::{Row, take_struct};
use drawing::rows::{
    Fill, Font, Stroke, Text, TextChunk, TextDecoration, TextDecorationStyle, TextFlow, TextPath,
    TextSpan,
};
use scripts::cursors::{Words, take_flag, take_float, take_number};
use scripts::failures::{Expected, Failure, Fields};

impl Row for Text {
    const WANTED: Fields = Fields::Text;

    fn set(&mut self, name: &[u8], words: &mut Words, pool: &mut Vec<u8>) -> Result<(), Failure> {
        match name {
            b"id" => self.id = take_text(words, pool)?,
            b"rendering_mode" => self.rendering_mode = take_case(words)?,
            b"dx" => self.dx = take_place(words)?,
            b"dy" => self.dy = take_place(words)?,
            b"rotate" => self.rotate = take_place(words)?,
            b"writing_mode" => self.writing_mode = take_case(words)?,
            b"chunks" => self.chunks = take_place(words)?,
            _ => return Err(Self::no_field(words, name)),
        }
        Ok(())
    }
}

impl Row for TextPath {
    const WANTED: Fields = Fields::TextPath;

    fn set(&mut self, name: &[u8], words: &mut Words, pool: &mut Vec<u8>) -> Result<(), Failure> {
        match name {
            b"id" => self.id = take_text(words, pool)?,
            b"start_offset" => self.start_offset = take_float(words)?,
            _ => return Err(Self::no_field(words, name)),
        }
        Ok(())
    }
}

/// `Linear`, or `Path { FIELDS }`
impl Entry for TextFlow {
    fn take(words: &mut Words, pool: &mut Vec<u8>) -> Result<TextFlow, Failure> {
        match words.word(Expected::TextFlow)? {
            b"Linear" => Ok(TextFlow::Linear),
            b"Path" => Ok(TextFlow::Path(take_struct(words, pool)?)),
            word => Err(words.instead(Expected::TextFlow, word)),
        }
    }
}

impl Row for TextChunk {
    const WANTED: Fields = Fields::Chunk;

    fn set(&mut self, name: &[u8], words: &mut Words, pool: &mut Vec<u8>) -> Result<(), Failure> {
        match name {
            b"x" => self.x = Some(take_float(words)?),
            b"y" => self.y = Some(take_float(words)?),
            b"anchor" => self.anchor = take_case(words)?,
            b"spans" => self.spans = take_place(words)?,
            b"text_flow" => self.text_flow = TextFlow::take(words, pool)?,
            b"text" => self.text = take_text(words, pool)?,
            _ => return Err(Self::no_field(words, name)),
        }
        Ok(())
    }
}

/// Any number of 16 bits.
impl Entry for u16 {
    fn take(words: &mut Words, _pool: &mut Vec<u8>) -> Result<u16, Failure> {
        Ok(take_number(words, 65535, Expected::Weight)? as u16)
    }
}

impl Row for Font {
    const WANTED: Fields = Fields::Font;

    fn set(&mut self, name: &[u8], words: &mut Words, pool: &mut Vec<u8>) -> Result<(), Failure> {
        match name {
            b"families" => self.families = take_place(words)?,
            b"style" => self.style = take_case(words)?,
            b"stretch" => self.stretch = take_case(words)?,
            b"weight" => self.weight = u16::take(words, pool)?,
            _ => return Err(Self::no_field(words, name)),
        }
        Ok(())
    }
}

impl Row for TextDecorationStyle {
    const WANTED: Fields = Fields::Style;

    fn set(&mut self, name: &[u8], words: &mut Words, pool: &mut Vec<u8>) -> Result<(), Failure> {
        match name {
            b"fill" => self.fill = Some(Fill::take(words, pool)?),
            b"stroke" => self.stroke = Some(Stroke::take(words, pool)?),
            _ => return Err(Self::no_field(words, name)),
        }
        Ok(())
    }
}

impl Row for TextDecoration {
    const WANTED: Fields = Fields::Decoration;

    fn set(&mut self, name: &[u8], words: &mut Words, pool: &mut Vec<u8>) -> Result<(), Failure> {
        match name {
            b"underline" => self.underline = Some(take_struct(words, pool)?),
            b"overline" => self.overline = Some(take_struct(words, pool)?),
            b"line_through" => self.line_through = Some(take_struct(words, pool)?),
            _ => return Err(Self::no_field(words, name)),
        }
        Ok(())
    }
}

impl Row for TextSpan {
    const WANTED: Fields = Fields::Span;

    fn set(&mut self, name: &[u8], words: &mut Words, pool: &mut Vec<u8>) -> Result<(), Failure> {
        match name {
            b"start" => self.start = usize::take(words, pool)?,
            b"end" => self.end = usize::take(words, pool)?,
            b"fill" => self.fill = Some(Fill::take(words, pool)?),
            b"stroke" => self.stroke = Some(Stroke::take(words, pool)?),
            b"paint_order" => self.paint_order = take_case(words)?,
            b"font" => self.font = take_struct(words, pool)?,
            b"decoration" => self.decoration = take_struct(words, pool)?,
            b"baseline_shift" => self.baseline_shift = take_place(words)?,
            b"visible" => self.visible = take_flag(words)?,
            _ => set_type(self, name, words)?,
        }
        Ok(())
    }
}

/// The fields of a span that are a number, a flag or a keyword of its letters.
fn set_type(span: &mut TextSpan, name: &[u8], words: &mut Words) -> Result<(), Failure>
    ensures { OnOk result (FewerLeft words.old words.new) }
{
    match name {
        b"font_size" => span.font_size = take_float(words)?,
        b"small_caps" => span.small_caps = take_flag(words)?,
        b"apply_kerning" => span.apply_kerning = take_flag(words)?,
        b"dominant_baseline" => span.dominant_baseline = take_case(words)?,
        b"alignment_baseline" => span.alignment_baseline = take_case(words)?,
        b"letter_spacing" => span.letter_spacing = take_float(words)?,
        b"word_spacing" => span.word_spacing = take_float(words)?,
        b"text_length" => span.text_length = Some(take_float(words)?),
        b"length_adjust" => span.length_adjust = take_case(words)?,
        _ => return Err(TextSpan::no_field(words, name)),
    }
    Ok(())
}
