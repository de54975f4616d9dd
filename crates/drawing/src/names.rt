//! Names of attributes, under usvg's own names for them.

ghost use Rattle.std.specs.Prelude.{◌≡◌};
ghost use Rattle.drawing.specs.Names.{attribute_name};

/// An attribute that a fault can be in.
#[derive(Clone, Copy, Debug, PartialEq, Eq)]
pub enum AId {
    Id,
    Transform,
    Opacity,
    ClipPath,
    Mask,
    Filter,
    Fill,
    FillOpacity,
    Stroke,
    StrokeDasharray,
    StrokeDashoffset,
    StrokeMiterlimit,
    StrokeOpacity,
    StrokeWidth,
    D,
    Width,
    Height,
    Href,
    Dx,
    Dy,
    Rotate,
    X,
    Y,
    StartOffset,
    FontFamily,
    FontSize,
    BaselineShift,
    LetterSpacing,
    WordSpacing,
    TextLength,
    GradientTransform,
    Offset,
    StopOpacity,
}

impl AId {
    /// The name as it is written.
    // Kept: bytes and no Display, since a plate writes them as they are, with no formatter.
    #[tactic(auto, unfolding(crate::specs::Names::attribute_name))]
    pub fn name(self) -> &'static [u8]
        ensures { result.now ≡ attribute_name self }
    {
        match self {
            AId::Id => b"id",
            AId::Transform => b"transform",
            AId::Opacity => b"opacity",
            AId::ClipPath => b"clip-path",
            AId::Mask => b"mask",
            AId::Filter => b"filter",
            AId::Fill => b"fill",
            AId::FillOpacity => b"fill-opacity",
            AId::Stroke => b"stroke",
            AId::StrokeDasharray => b"stroke-dasharray",
            AId::StrokeDashoffset => b"stroke-dashoffset",
            AId::StrokeMiterlimit => b"stroke-miterlimit",
            AId::StrokeOpacity => b"stroke-opacity",
            AId::StrokeWidth => b"stroke-width",
            AId::D => b"d",
            AId::Width => b"width",
            AId::Height => b"height",
            AId::Href => b"xlink:href",
            AId::Dx => b"dx",
            AId::Dy => b"dy",
            AId::Rotate => b"rotate",
            AId::X => b"x",
            AId::Y => b"y",
            AId::StartOffset => b"startOffset",
            AId::FontFamily => b"font-family",
            AId::FontSize => b"font-size",
            AId::BaselineShift => b"baseline-shift",
            AId::LetterSpacing => b"letter-spacing",
            AId::WordSpacing => b"word-spacing",
            AId::TextLength => b"textLength",
            AId::GradientTransform => b"gradientTransform",
            AId::Offset => b"offset",
            AId::StopOpacity => b"stop-opacity",
        }
    }
}
