//! Why a script cannot be read: a line says something else than was expected, or memory runs out.

ghost use Rattle.std.specs.Prelude.{◌≡◌};
ghost use Rattle.scripts.specs.Failures.{TellsWord};

use crate::quoting::push_quoted;
use std::alloc::{AllocError, AllocFailed, Global};
use std::fmt;
use std::fmt::Write;

/// What a script was expected to say.
#[derive(Clone, Copy)]
pub enum Expected {
    /// Of a script that draws tables too.
    Statement,
    /// Of a script that only opens and closes elements.
    PlateStatement,
    FirstStore,
    OneStore,
    StoreKind,
    Size,
    OptionName,
    Prefix,
    Precision,
    ElementName,
    CheckKind,
    LineEnd,
    Blank,
    ClosingQuote,
    Escape,
    HexDigit,
    List,
    Times,
    Room,
    OpeningBrace,
    Float,
    Count,
    Weight,
    Flag,
    Place,
    Text,
    Paint,
    Color,
    Case(Keywords),
    PathSegment,
    TextFlow,
    FontFamily,
    BaselineShift,
    Field(Fields),
}

/// Whose cases were expected.
#[derive(Clone, Copy)]
pub enum Keywords {
    Kind,
    PaintOrder,
    FillRule,
    LineCap,
    LineJoin,
    BlendMode,
    ShapeRendering,
    TextRendering,
    ImageRendering,
    WritingMode,
    TextAnchor,
    FontStyle,
    FontStretch,
    DominantBaseline,
    AlignmentBaseline,
    LengthAdjust,
    Units,
    SpreadMethod,
}

/// Whose fields were expected.
#[derive(Clone, Copy)]
pub enum Fields {
    Node,
    Group,
    Path,
    Image,
    Text,
    Chunk,
    Span,
    Gradient,
    Stop,
    Fill,
    Stroke,
    TextPath,
    Font,
    Decoration,
    Style,
}

/// What it said instead. A word is kept in its quoted form.
// Kept: bytes, since the quoted form is pushed byte by byte; for a `String` each byte would first be made a char.
#[derive(Drop)]
pub enum Found {
    LineEnd,
    ScriptEnd,
    Word(Vec<u8>),
}

/// A line of a script that says something else than was expected.
#[derive(Drop)]
pub struct ScriptError {
    pub line: usize,
    pub expected: Expected,
    pub found: Found,
}

/// Why a script is not read.
#[derive(Drop)]
pub enum Failure {
    Script(ScriptError),
    Memory,
}

/// The failure of a line that says something else than was expected.
fn told(line: usize, expected: Expected, found: Found) -> Failure
    ensures { result ≡ Failure.Script (record { line = line; expected = expected; found = found }) }
{
    Failure::Script(ScriptError {
        line,
        expected,
        found,
    })
}

/// The failure of a line at a word.
pub fn at_word(heap: Global, line: usize, expected: Expected, word: &[u8]) -> Failure
    ensures { TellsWord line expected word.now result }
{
    let mut shown = Vec::new(heap);
    match push_quoted(&mut shown, word) {
        Ok(()) => told(line, expected, Found::Word(shown)),
        Err(_) => Failure::Memory,
    }
}

/// The failure of a line at its end.
pub fn at_line_end(line: usize, expected: Expected) -> Failure
    ensures { result ≡ Failure.Script (record { line = line; expected = expected; found = Found.LineEnd }) }
{
    told(line, expected, Found::LineEnd)
}

/// The failure of a script at its end.
pub fn at_script_end(line: usize, expected: Expected) -> Failure
    ensures { result ≡ Failure.Script (record { line = line; expected = expected; found = Found.ScriptEnd }) }
{
    told(line, expected, Found::ScriptEnd)
}

impl fmt::Display for Expected {
    fn fmt<W: fmt::Write>(&self, f: &mut fmt::Formatter<W>) -> fmt::Result {
        f.write_str(match self {
            Expected::Statement =>
                "store, options, open, close, check, repeat or the name of a list",
            Expected::PlateStatement => "store, options, open or close",
            Expected::FirstStore => "the store before any other statement",
            Expected::OneStore => "one store only",
            Expected::StoreKind => "page or roll",
            Expected::Size => "a size from 0 to 16777216",
            Expected::OptionName => "prefix, preserve, coordinates, transforms or single",
            Expected::Prefix => "a prefix",
            Expected::Precision => "a number from 0 to 255",
            Expected::ElementName =>
                "svg, g, defs, mask, pattern, linearGradient or radialGradient",
            Expected::CheckKind => "draw or gradient",
            Expected::LineEnd => "the end of the line",
            Expected::Blank => "a space between words",
            Expected::ClosingQuote => "a closing quote",
            Expected::Escape => "one of \" \\ n r t x after a backslash",
            Expected::HexDigit => "two hexadecimal digits after \\x",
            Expected::List => "the name of a list",
            Expected::Times => "a number from 0 to 100000",
            Expected::Room => "at most 100000 entries in a list",
            Expected::OpeningBrace => "{",
            Expected::Float => "a decimal number, or 0x and eight hexadecimal digits",
            Expected::Count => "a number from 0 to 18446744073709551615",
            Expected::Weight => "a number from 0 to 65535",
            Expected::Flag => "true or false",
            Expected::Place => "a place, as @0+2",
            Expected::Text => "a text, or a place as @0+2",
            Expected::Paint => "a colour as #ff0000, or LinearGradient, RadialGradient or Pattern",
            Expected::Color => "a colour as #ff0000",
            Expected::PathSegment => "MoveTo, LineTo, QuadTo, CubicTo or Close",
            Expected::TextFlow => "Linear or Path",
            Expected::FontFamily => "Serif, SansSerif, Cursive, Fantasy, Monospace or Named",
            Expected::BaselineShift => "Baseline, Subscript, Superscript or Number",
            Expected::Case(keywords) => return write!(f, "{keywords}"),
            Expected::Field(fields) => return write!(f, "{fields}"),
        })
    }
}

impl fmt::Display for Keywords {
    fn fmt<W: fmt::Write>(&self, f: &mut fmt::Formatter<W>) -> fmt::Result {
        f.write_str(match self {
            Keywords::Kind => "Group, Path, Image or Text",
            Keywords::PaintOrder => "FillAndStroke or StrokeAndFill",
            Keywords::FillRule => "NonZero or EvenOdd",
            Keywords::LineCap => "Butt, Round or Square",
            Keywords::LineJoin => "Miter, MiterClip, Round or Bevel",
            Keywords::BlendMode => "a case of BlendMode, as Normal",
            Keywords::ShapeRendering => "OptimizeSpeed, CrispEdges or GeometricPrecision",
            Keywords::TextRendering => "OptimizeSpeed, OptimizeLegibility or GeometricPrecision",
            Keywords::ImageRendering =>
                "OptimizeQuality, OptimizeSpeed, Smooth, HighQuality, CrispEdges or Pixelated",
            Keywords::WritingMode => "LeftToRight or TopToBottom",
            Keywords::TextAnchor => "Start, Middle or End",
            Keywords::FontStyle => "Normal, Italic or Oblique",
            Keywords::FontStretch => "a case of FontStretch, as Normal",
            Keywords::DominantBaseline => "a case of DominantBaseline, as Auto",
            Keywords::AlignmentBaseline => "a case of AlignmentBaseline, as Auto",
            Keywords::LengthAdjust => "Spacing or SpacingAndGlyphs",
            Keywords::Units => "UserSpaceOnUse or ObjectBoundingBox",
            Keywords::SpreadMethod => "Pad, Reflect or Repeat",
        })
    }
}

impl fmt::Display for Fields {
    fn fmt<W: fmt::Write>(&self, f: &mut fmt::Formatter<W>) -> fmt::Result {
        f.write_str(match self {
            Fields::Node => "a field of nodes",
            Fields::Group => "a field of groups",
            Fields::Path => "a field of paths",
            Fields::Image => "a field of images",
            Fields::Text => "a field of texts",
            Fields::Chunk => "a field of chunks",
            Fields::Span => "a field of spans",
            Fields::Gradient => "a field of gradients",
            Fields::Stop => "a field of stops",
            Fields::Fill => "paint, opacity, rule or }",
            Fields::Stroke => "a field of a stroke, or }",
            Fields::TextPath => "id, start_offset or }",
            Fields::Font => "families, style, stretch, weight or }",
            Fields::Decoration => "underline, overline, line_through or }",
            Fields::Style => "fill, stroke or }",
        })
    }
}

impl fmt::Display for Found {
    fn fmt<W: fmt::Write>(&self, f: &mut fmt::Formatter<W>) -> fmt::Result {
        match self {
            Found::LineEnd => f.write_str("the end of the line"),
            Found::ScriptEnd => f.write_str("the end of the script"),
            Found::Word(word) => word
                .iter()
                .try_for_each(|byte| f.write_char(char::from(*byte))),
        }
    }
}

impl fmt::Display for ScriptError {
    fn fmt<W: fmt::Write>(&self, f: &mut fmt::Formatter<W>) -> fmt::Result {
        write!(
            f,
            "line {}: expected {}, found {}",
            self.line, self.expected, self.found
        )
    }
}

impl fmt::Display for Failure {
    fn fmt<W: fmt::Write>(&self, f: &mut fmt::Formatter<W>) -> fmt::Result {
        match self {
            Failure::Script(error) => write!(f, "{error}"),
            Failure::Memory => f.write_str("out of memory"),
        }
    }
}

impl From<AllocError> for Failure {
    fn from(_error: AllocError) -> Failure {
        Failure::Memory
    }
}

impl<T: Drop> From<AllocFailed<T>> for Failure {
    fn from(_error: AllocFailed<T>) -> Failure {
        Failure::Memory
    }
}
