//! The rows of a drawing, with usvg's names: the fields that the writer reads, in usvg's order.
//!
//! What usvg owns stands elsewhere and is named by a place: a list of its own is a place in a shared list, a text or an
//! id a place in the pool. Any number, place and text can stand in a row; whether it may is what the checks find out.

ghost use Rattle.std.specs.Prelude.{◌≡◌};
ghost use Rattle.drawing.specs.Tables.{identity};

use crate::keywords::{
    AlignmentBaseline, BlendMode, DominantBaseline, FillRule, FontStretch, FontStyle,
    ImageRendering, LengthAdjust, LineCap, LineJoin, PaintOrder, ShapeRendering, SpreadMethod,
    TextAnchor, TextRendering, Units, WritingMode,
};

/// `count` entries of some list, from the entry `start` on.
#[derive(Clone, Copy, Debug, Default, PartialEq, Eq)]
pub struct Place {
    pub start: usize,
    pub count: usize,
}

/// The point (x, y) goes to (sx x + kx y + tx, ky x + sy y + ty).
#[derive(Clone, Copy, Debug, PartialEq)]
pub struct Transform {
    pub sx: f32,
    pub ky: f32,
    pub kx: f32,
    pub sy: f32,
    pub tx: f32,
    pub ty: f32,
}

impl Transform {
    /// Every point stays where it is.
    pub fn identity() -> Transform
        ensures { result ≡ identity }
    {
        Transform {
            sx: 1.0,
            ky: 0.0,
            kx: 0.0,
            sy: 1.0,
            tx: 0.0,
            ty: 0.0,
        }
    }
}

impl Default for Transform {
    ghost is_default = { λ transform. transform ≡ identity };

    fn default() -> Transform {
        Transform::identity()
    }
}

/// A colour, black by default.
#[derive(Clone, Copy, Debug, Default, PartialEq, Eq)]
pub struct Color {
    pub red: u8,
    pub green: u8,
    pub blue: u8,
}

/// A colour, or the id that it refers to.
#[derive(Clone, Copy, Debug, PartialEq)]
pub enum Paint {
    Color(Color),
    LinearGradient(Place),
    RadialGradient(Place),
    Pattern(Place),
}

/// How the inside of a path or of letters is painted.
#[derive(Clone, Copy, Debug, PartialEq)]
pub struct Fill {
    pub paint: Paint,
    pub opacity: f32,
    pub rule: FillRule,
}

/// How an outline is painted.
#[derive(Clone, Copy, Debug, PartialEq)]
pub struct Stroke {
    pub paint: Paint,
    /// In `numbers`.
    pub dasharray: Option<Place>,
    pub dashoffset: f32,
    pub miterlimit: f32,
    pub opacity: f32,
    pub width: f32,
    pub linecap: LineCap,
    pub linejoin: LineJoin,
}

/// A group of nodes, and what is done to it as a whole.
#[derive(Clone, Copy, Debug, PartialEq)]
pub struct Group {
    pub id: Place,
    pub transform: Transform,
    pub opacity: f32,
    pub blend_mode: BlendMode,
    pub isolate: bool,
    /// The clip path's id.
    pub clip_path: Option<Place>,
    /// The mask's id.
    pub mask: Option<Place>,
    /// In `references`: the filters' ids.
    pub filters: Place,
}

/// A point of a path.
#[derive(Clone, Copy, Debug, PartialEq)]
pub struct Point {
    pub x: f32,
    pub y: f32,
}

/// The points of a curve stand in the order of writing: control points first, where it ends last.
#[derive(Clone, Copy, Debug, PartialEq)]
pub enum PathSegment {
    MoveTo(Point),
    LineTo(Point),
    QuadTo(Point, Point),
    CubicTo(Point, Point, Point),
    Close,
}

/// A shape made of segments.
#[derive(Clone, Copy, Debug, PartialEq)]
pub struct Path {
    pub id: Place,
    pub visible: bool,
    pub fill: Option<Fill>,
    pub stroke: Option<Stroke>,
    pub paint_order: PaintOrder,
    pub rendering_mode: ShapeRendering,
    /// In `segments`.
    pub data: Place,
}

/// A picture from elsewhere.
#[derive(Clone, Copy, Debug, PartialEq)]
pub struct Image {
    pub id: Place,
    pub visible: bool,
    pub width: f32,
    pub height: f32,
    pub rendering_mode: ImageRendering,
    /// In `pool`: the whole value of `xlink:href`.
    pub payload: Place,
}

/// A text, made of chunks.
#[derive(Clone, Copy, Debug, Default, PartialEq, Eq)]
pub struct Text {
    pub id: Place,
    pub rendering_mode: TextRendering,
    /// In `numbers`, as the two below.
    pub dx: Place,
    pub dy: Place,
    pub rotate: Place,
    pub writing_mode: WritingMode,
    /// In `chunks`.
    pub chunks: Place,
}

/// The path along which a text goes.
#[derive(Clone, Copy, Debug, Default, PartialEq)]
pub struct TextPath {
    pub id: Place,
    pub start_offset: f32,
}

/// Where a chunk goes: straight on, or along a path.
#[derive(Clone, Copy, Debug, Default, PartialEq)]
pub enum TextFlow {
    #[default]
    Linear,
    Path(TextPath),
}

/// A part of a text with a place of its own, made of spans.
#[derive(Clone, Copy, Debug, Default, PartialEq)]
pub struct TextChunk {
    pub x: Option<f32>,
    pub y: Option<f32>,
    pub anchor: TextAnchor,
    /// In `spans`.
    pub spans: Place,
    pub text_flow: TextFlow,
    /// In `pool`.
    pub text: Place,
}

/// A family of fonts, by its kind or by its name, a place in `pool`.
#[derive(Clone, Copy, Debug, PartialEq, Eq)]
pub enum FontFamily {
    Serif,
    SansSerif,
    Cursive,
    Fantasy,
    Monospace,
    Named(Place),
}

/// Which font letters are taken from.
#[derive(Clone, Copy, Debug, PartialEq, Eq)]
pub struct Font {
    /// In `families`.
    pub families: Place,
    pub style: FontStyle,
    pub stretch: FontStretch,
    pub weight: u16,
}

/// How a line at a text is painted.
#[derive(Clone, Copy, Debug, Default, PartialEq)]
pub struct TextDecorationStyle {
    pub fill: Option<Fill>,
    pub stroke: Option<Stroke>,
}

/// The lines at a text.
#[derive(Clone, Copy, Debug, Default, PartialEq)]
pub struct TextDecoration {
    pub underline: Option<TextDecorationStyle>,
    pub overline: Option<TextDecorationStyle>,
    pub line_through: Option<TextDecorationStyle>,
}

/// How far letters stand above or below their line.
#[derive(Clone, Copy, Debug, PartialEq)]
pub enum BaselineShift {
    Baseline,
    Subscript,
    Superscript,
    Number(f32),
}

/// Letters of a chunk that look alike.
#[derive(Clone, Copy, Debug, PartialEq)]
pub struct TextSpan {
    /// The span's bytes of its chunk's text, from `start` up to but without `end`.
    pub start: usize,
    pub end: usize,
    pub fill: Option<Fill>,
    pub stroke: Option<Stroke>,
    pub paint_order: PaintOrder,
    pub font: Font,
    pub font_size: f32,
    pub small_caps: bool,
    pub apply_kerning: bool,
    pub decoration: TextDecoration,
    pub dominant_baseline: DominantBaseline,
    pub alignment_baseline: AlignmentBaseline,
    /// In `shifts`.
    pub baseline_shift: Place,
    pub visible: bool,
    pub letter_spacing: f32,
    pub word_spacing: f32,
    pub text_length: Option<f32>,
    pub length_adjust: LengthAdjust,
}

/// A colour of a gradient, and where it stands.
#[derive(Clone, Copy, Debug, PartialEq)]
pub struct Stop {
    pub offset: f32,
    pub color: Color,
    pub opacity: f32,
}

/// What linear and radial gradients share.
#[derive(Clone, Copy, Debug, Default, PartialEq)]
pub struct BaseGradient {
    pub units: Units,
    pub transform: Transform,
    pub spread_method: SpreadMethod,
    /// In `stops`.
    pub stops: Place,
}
