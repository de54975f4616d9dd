//! Texts, their chunks and spans: one rule over the entries of a row, in their order.

ghost use Rattle.std.specs.Prelude.{◌≡◌};
ghost use Rattle.checks.specs.Entries.{first_at};
ghost use Rattle.checks.specs.Rows.{family_fields, families_fields, decoration_fields, shift_fields, shifts_fields, span_fields, each_span, flow_fields, chunk_fields, text_row_fields};

use crate::entries::{Checker, Entry, check_each};
use crate::numbers::Domain;
use drawing::faults::AttributeFault;
use drawing::names::AId;
use drawing::rows::{
    BaselineShift, FontFamily, Place, Text, TextChunk, TextDecorationStyle, TextFlow, TextSpan,
};
use drawing::tables::part;

/// The most spans of a chunk, and the most families and shifts of a span.
const MOST_SPANS: usize = 256;

const MOST_FAMILIES: usize = 64;

const MOST_SHIFTS: usize = 64;

impl Checker<'_> {
    fn check_family(&self, family: FontFamily) -> Result<(), AttributeFault>
        ensures { result ≡ first_at self.now.rule (family_fields self.now.drawing.now family) }
    {
        let FontFamily::Named(name) = family else {
            return Ok(());
        };
        let bytes = part(self.drawing.pool, name);
        self.check_entry(Some(AId::FontFamily), Entry::NotEmpty(name.count))?;
        self.check_pool_text(Some(AId::FontFamily), name)?;
        self.check_entry(Some(AId::FontFamily), Entry::FamilyName(bytes))
    }

    fn check_families(&self, families: Place) -> Result<(), AttributeFault>
        ensures { result ≡ first_at self.now.rule (families_fields self.now.drawing.now families) }
    {
        self.check_count(MOST_FAMILIES, families.count)?;
        self.check_list(self.drawing.families, families, |family| {
            self.check_family(*family)
        })
    }

    fn check_decoration(&self, style: Option<TextDecorationStyle>) -> Result<(), AttributeFault>
        ensures { result ≡ first_at self.now.rule (decoration_fields self.now.drawing.now style) }
    {
        let Some(style) = style else { return Ok(()) };
        self.check_fill(style.fill)?;
        self.check_stroke(style.stroke)
    }

    fn check_shift(&self, shift: BaselineShift) -> Result<(), AttributeFault>
        ensures { result ≡ first_at self.now.rule (shift_fields shift) }
    {
        let BaselineShift::Number(x) = shift else {
            return Ok(());
        };
        self.check_number(AId::BaselineShift, Domain::Bare, x)
    }

    fn check_shifts(&self, shifts: Place) -> Result<(), AttributeFault>
        ensures { result ≡ first_at self.now.rule (shifts_fields self.now.drawing.now shifts) }
    {
        self.check_count(MOST_SHIFTS, shifts.count)?;
        self.check_list(self.drawing.shifts, shifts, |shift| {
            self.check_shift(*shift)
        })
    }

    /// A span of a chunk that has this text.
    fn check_text_span(&self, text: &[u8], span: &TextSpan) -> Result<(), AttributeFault>
        ensures { result ≡ first_at self.now.rule (span_fields self.now.drawing.now text.now span.now) }
    {
        self.check_entry(
            None,
            Entry::Span {
                text,
                start: span.start,
                end: span.end,
            },
        )?;
        self.check_fill(span.fill)?;
        self.check_stroke(span.stroke)?;
        self.check_families(span.font.families)?;
        self.check_number(AId::FontSize, Domain::AboveZero, span.font_size)?;
        self.check_decoration(span.decoration.underline)?;
        self.check_decoration(span.decoration.overline)?;
        self.check_decoration(span.decoration.line_through)?;
        self.check_shifts(span.baseline_shift)?;
        self.check_number(AId::LetterSpacing, Domain::Bare, span.letter_spacing)?;
        self.check_number(AId::WordSpacing, Domain::Bare, span.word_spacing)?;
        self.check_number_if_any(AId::TextLength, Domain::AtLeastZero, span.text_length)
    }

    fn check_each_span(&self, text: &[u8], spans: &[TextSpan]) -> Result<(), AttributeFault>
        ensures { result ≡ first_at self.now.rule (each_span self.now.drawing.now text.now spans.now) }
    {
        check_each(spans, |span| self.check_text_span(text, span))
    }

    fn check_flow(&self, flow: TextFlow) -> Result<(), AttributeFault>
        ensures { result ≡ first_at self.now.rule (flow_fields self.now.drawing.now flow) }
    {
        let TextFlow::Path(path) = flow else {
            return Ok(());
        };
        self.check_reference(AId::Href, path.id)?;
        self.check_number(AId::StartOffset, Domain::Bare, path.start_offset)
    }

    fn check_chunk(&self, chunk: &TextChunk) -> Result<(), AttributeFault>
        ensures { result ≡ first_at self.now.rule (chunk_fields self.now.drawing.now chunk.now) }
    {
        let text = part(self.drawing.pool, chunk.text);
        self.check_number_if_any(AId::X, Domain::Bare, chunk.x)?;
        self.check_number_if_any(AId::Y, Domain::Bare, chunk.y)?;
        self.check_count(MOST_SPANS, chunk.spans.count)?;
        self.check_place(self.drawing.spans, chunk.spans)?;
        self.check_each_span(text, part(self.drawing.spans, chunk.spans))?;
        self.check_flow(chunk.text_flow)?;
        self.check_pool_text(None, chunk.text)
    }

    pub fn check_text_row(&self, text: &Text) -> Result<(), AttributeFault>
        ensures { result ≡ first_at self.now.rule (text_row_fields self.now.drawing.now text.now) }
    {
        self.check_id(text.id)?;
        self.check_number_list(AId::Dx, Domain::Bare, text.dx)?;
        self.check_number_list(AId::Dy, Domain::Bare, text.dy)?;
        self.check_number_list(AId::Rotate, Domain::Bare, text.rotate)?;
        self.check_list(self.drawing.chunks, text.chunks, |chunk| {
            self.check_chunk(chunk)
        })
    }
}
