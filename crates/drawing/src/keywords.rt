//! The keyword enums, with usvg's names and cases. A case cannot be wrong, so no check looks at them.

/// Which of a fill and a stroke is painted first.
#[derive(Clone, Copy, Debug, Default, PartialEq, Eq)]
pub enum PaintOrder {
    #[default]
    FillAndStroke,
    StrokeAndFill,
}

/// Which points a path encloses.
#[derive(Clone, Copy, Debug, Default, PartialEq, Eq)]
pub enum FillRule {
    #[default]
    NonZero,
    EvenOdd,
}

/// How a stroke ends.
#[derive(Clone, Copy, Debug, Default, PartialEq, Eq)]
pub enum LineCap {
    #[default]
    Butt,
    Round,
    Square,
}

/// How two segments of a stroke meet.
#[derive(Clone, Copy, Debug, Default, PartialEq, Eq)]
pub enum LineJoin {
    #[default]
    Miter,
    MiterClip,
    Round,
    Bevel,
}

/// How a group is mixed with what lies below it.
#[derive(Clone, Copy, Debug, Default, PartialEq, Eq)]
pub enum BlendMode {
    #[default]
    Normal,
    Multiply,
    Screen,
    Overlay,
    Darken,
    Lighten,
    ColorDodge,
    ColorBurn,
    HardLight,
    SoftLight,
    Difference,
    Exclusion,
    Hue,
    Saturation,
    Color,
    Luminosity,
    PlusLighter,
}

/// What matters most where a path is drawn.
#[derive(Clone, Copy, Debug, Default, PartialEq, Eq)]
pub enum ShapeRendering {
    OptimizeSpeed,
    CrispEdges,
    #[default]
    GeometricPrecision,
}

/// What matters most where a text is drawn.
#[derive(Clone, Copy, Debug, Default, PartialEq, Eq)]
pub enum TextRendering {
    OptimizeSpeed,
    #[default]
    OptimizeLegibility,
    GeometricPrecision,
}

/// How an image is scaled.
#[derive(Clone, Copy, Debug, Default, PartialEq, Eq)]
pub enum ImageRendering {
    #[default]
    OptimizeQuality,
    OptimizeSpeed,
    Smooth,
    HighQuality,
    CrispEdges,
    Pixelated,
}

/// Which way a text runs.
#[derive(Clone, Copy, Debug, Default, PartialEq, Eq)]
pub enum WritingMode {
    #[default]
    LeftToRight,
    TopToBottom,
}

/// Which part of a chunk stands at its place.
#[derive(Clone, Copy, Debug, Default, PartialEq, Eq)]
pub enum TextAnchor {
    #[default]
    Start,
    Middle,
    End,
}

/// Whether letters lean.
#[derive(Clone, Copy, Debug, Default, PartialEq, Eq)]
pub enum FontStyle {
    #[default]
    Normal,
    Italic,
    Oblique,
}

/// How wide letters are.
#[derive(Clone, Copy, Debug, Default, PartialEq, Eq)]
pub enum FontStretch {
    UltraCondensed,
    ExtraCondensed,
    Condensed,
    SemiCondensed,
    #[default]
    Normal,
    SemiExpanded,
    Expanded,
    ExtraExpanded,
    UltraExpanded,
}

/// The line on which a span stands.
#[derive(Clone, Copy, Debug, Default, PartialEq, Eq)]
pub enum DominantBaseline {
    #[default]
    Auto,
    UseScript,
    NoChange,
    ResetSize,
    Ideographic,
    Alphabetic,
    Hanging,
    Mathematical,
    Central,
    Middle,
    TextAfterEdge,
    TextBeforeEdge,
}

/// The line by which a span is set to the one around it.
#[derive(Clone, Copy, Debug, Default, PartialEq, Eq)]
pub enum AlignmentBaseline {
    #[default]
    Auto,
    Baseline,
    BeforeEdge,
    TextBeforeEdge,
    Middle,
    Central,
    AfterEdge,
    TextAfterEdge,
    Ideographic,
    Alphabetic,
    Hanging,
    Mathematical,
}

/// What is stretched where a text has a length.
#[derive(Clone, Copy, Debug, Default, PartialEq, Eq)]
pub enum LengthAdjust {
    #[default]
    Spacing,
    SpacingAndGlyphs,
}

/// The units of a gradient.
#[derive(Clone, Copy, Debug, Default, PartialEq, Eq)]
pub enum Units {
    UserSpaceOnUse,
    #[default]
    ObjectBoundingBox,
}

/// How a gradient goes on past its ends.
#[derive(Clone, Copy, Debug, Default, PartialEq, Eq)]
pub enum SpreadMethod {
    #[default]
    Pad,
    Reflect,
    Repeat,
}
