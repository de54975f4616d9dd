//! The keyword enums of a drawing by their words: each case has the name that usvg has for it.

ghost use Rattle.sheets.specs.Keywords.{
  kind_word,
  kind_cases,
  paint_order_word,
  paint_order_cases,
  fill_rule_word,
  fill_rule_cases,
  line_cap_word,
  line_cap_cases,
  line_join_word,
  line_join_cases,
  blend_mode_word,
  blend_mode_cases,
  shape_rendering_word,
  shape_rendering_cases,
  text_rendering_word,
  text_rendering_cases,
  image_rendering_word,
  image_rendering_cases,
  writing_mode_word,
  writing_mode_cases,
  text_anchor_word,
  text_anchor_cases,
  font_style_word,
  font_style_cases,
  font_stretch_word,
  font_stretch_cases,
  dominant_baseline_word,
  dominant_baseline_cases,
  alignment_baseline_word,
  alignment_baseline_cases,
  length_adjust_word,
  length_adjust_cases,
  units_word,
  units_cases,
  spread_method_word,
  spread_method_cases,
};

use crate::keywords::Keyword;
use drawing::keywords::{
    AlignmentBaseline, BlendMode, DominantBaseline, FillRule, FontStretch, FontStyle,
    ImageRendering, LengthAdjust, LineCap, LineJoin, PaintOrder, ShapeRendering, SpreadMethod,
    TextAnchor, TextRendering, Units, WritingMode,
};
use drawing::tables::Kind;
use scripts::failures::Keywords;

impl Keyword for Kind {
    ghost spelled = { kind_word };

    ghost listed = { kind_cases };

    const WANTED: Keywords = Keywords::Kind;

    fn word(self) -> &'static [u8] {
        match self {
            Kind::Group => b"Group",
            Kind::Path => b"Path",
            Kind::Image => b"Image",
            Kind::Text => b"Text",
        }
    }

    fn cases() -> &'static [Kind] {
        &[Kind::Group, Kind::Path, Kind::Image, Kind::Text]
    }
}

impl Keyword for PaintOrder {
    ghost spelled = { paint_order_word };

    ghost listed = { paint_order_cases };

    const WANTED: Keywords = Keywords::PaintOrder;

    #[tactic(auto, unfolding(crate::specs::Keywords::paint_order_word))]
    fn word(self) -> &'static [u8] {
        match self {
            PaintOrder::FillAndStroke => b"FillAndStroke",
            PaintOrder::StrokeAndFill => b"StrokeAndFill",
        }
    }

    fn cases() -> &'static [PaintOrder] {
        &[PaintOrder::FillAndStroke, PaintOrder::StrokeAndFill]
    }
}

impl Keyword for FillRule {
    ghost spelled = { fill_rule_word };

    ghost listed = { fill_rule_cases };

    const WANTED: Keywords = Keywords::FillRule;

    fn word(self) -> &'static [u8] {
        match self {
            FillRule::NonZero => b"NonZero",
            FillRule::EvenOdd => b"EvenOdd",
        }
    }

    fn cases() -> &'static [FillRule] {
        &[FillRule::NonZero, FillRule::EvenOdd]
    }
}

impl Keyword for LineCap {
    ghost spelled = { line_cap_word };

    ghost listed = { line_cap_cases };

    const WANTED: Keywords = Keywords::LineCap;

    fn word(self) -> &'static [u8] {
        match self {
            LineCap::Butt => b"Butt",
            LineCap::Round => b"Round",
            LineCap::Square => b"Square",
        }
    }

    fn cases() -> &'static [LineCap] {
        &[LineCap::Butt, LineCap::Round, LineCap::Square]
    }
}

impl Keyword for LineJoin {
    ghost spelled = { line_join_word };

    ghost listed = { line_join_cases };

    const WANTED: Keywords = Keywords::LineJoin;

    fn word(self) -> &'static [u8] {
        match self {
            LineJoin::Miter => b"Miter",
            LineJoin::MiterClip => b"MiterClip",
            LineJoin::Round => b"Round",
            LineJoin::Bevel => b"Bevel",
        }
    }

    fn cases() -> &'static [LineJoin] {
        &[
            LineJoin::Miter,
            LineJoin::MiterClip,
            LineJoin::Round,
            LineJoin::Bevel,
        ]
    }
}

impl Keyword for BlendMode {
    ghost spelled = { blend_mode_word };

    ghost listed = { blend_mode_cases };

    const WANTED: Keywords = Keywords::BlendMode;

    #[tactic(auto, unfolding(crate::specs::Keywords::blend_mode_word))]
    fn word(self) -> &'static [u8] {
        match self {
            BlendMode::Normal => b"Normal",
            BlendMode::Multiply => b"Multiply",
            BlendMode::Screen => b"Screen",
            BlendMode::Overlay => b"Overlay",
            BlendMode::Darken => b"Darken",
            BlendMode::Lighten => b"Lighten",
            BlendMode::ColorDodge => b"ColorDodge",
            BlendMode::ColorBurn => b"ColorBurn",
            BlendMode::HardLight => b"HardLight",
            BlendMode::SoftLight => b"SoftLight",
            BlendMode::Difference => b"Difference",
            BlendMode::Exclusion => b"Exclusion",
            BlendMode::Hue => b"Hue",
            BlendMode::Saturation => b"Saturation",
            BlendMode::Color => b"Color",
            BlendMode::Luminosity => b"Luminosity",
            BlendMode::PlusLighter => b"PlusLighter",
        }
    }

    fn cases() -> &'static [BlendMode] {
        &[
            BlendMode::Normal,
            BlendMode::Multiply,
            BlendMode::Screen,
            BlendMode::Overlay,
            BlendMode::Darken,
            BlendMode::Lighten,
            BlendMode::ColorDodge,
            BlendMode::ColorBurn,
            BlendMode::HardLight,
            BlendMode::SoftLight,
            BlendMode::Difference,
            BlendMode::Exclusion,
            BlendMode::Hue,
            BlendMode::Saturation,
            BlendMode::Color,
            BlendMode::Luminosity,
            BlendMode::PlusLighter,
        ]
    }
}

impl Keyword for ShapeRendering {
    ghost spelled = { shape_rendering_word };

    ghost listed = { shape_rendering_cases };

    const WANTED: Keywords = Keywords::ShapeRendering;

    fn word(self) -> &'static [u8] {
        match self {
            ShapeRendering::OptimizeSpeed => b"OptimizeSpeed",
            ShapeRendering::CrispEdges => b"CrispEdges",
            ShapeRendering::GeometricPrecision => b"GeometricPrecision",
        }
    }

    fn cases() -> &'static [ShapeRendering] {
        &[
            ShapeRendering::OptimizeSpeed,
            ShapeRendering::CrispEdges,
            ShapeRendering::GeometricPrecision,
        ]
    }
}

impl Keyword for TextRendering {
    ghost spelled = { text_rendering_word };

    ghost listed = { text_rendering_cases };

    const WANTED: Keywords = Keywords::TextRendering;

    #[tactic(auto, unfolding(crate::specs::Keywords::text_rendering_word))]
    fn word(self) -> &'static [u8] {
        match self {
            TextRendering::OptimizeSpeed => b"OptimizeSpeed",
            TextRendering::OptimizeLegibility => b"OptimizeLegibility",
            TextRendering::GeometricPrecision => b"GeometricPrecision",
        }
    }

    fn cases() -> &'static [TextRendering] {
        &[
            TextRendering::OptimizeSpeed,
            TextRendering::OptimizeLegibility,
            TextRendering::GeometricPrecision,
        ]
    }
}

impl Keyword for ImageRendering {
    ghost spelled = { image_rendering_word };

    ghost listed = { image_rendering_cases };

    const WANTED: Keywords = Keywords::ImageRendering;

    #[tactic(auto, unfolding(crate::specs::Keywords::image_rendering_word))]
    fn word(self) -> &'static [u8] {
        match self {
            ImageRendering::OptimizeQuality => b"OptimizeQuality",
            ImageRendering::OptimizeSpeed => b"OptimizeSpeed",
            ImageRendering::Smooth => b"Smooth",
            ImageRendering::HighQuality => b"HighQuality",
            ImageRendering::CrispEdges => b"CrispEdges",
            ImageRendering::Pixelated => b"Pixelated",
        }
    }

    fn cases() -> &'static [ImageRendering] {
        &[
            ImageRendering::OptimizeQuality,
            ImageRendering::OptimizeSpeed,
            ImageRendering::Smooth,
            ImageRendering::HighQuality,
            ImageRendering::CrispEdges,
            ImageRendering::Pixelated,
        ]
    }
}

impl Keyword for WritingMode {
    ghost spelled = { writing_mode_word };

    ghost listed = { writing_mode_cases };

    const WANTED: Keywords = Keywords::WritingMode;

    #[tactic(auto, unfolding(crate::specs::Keywords::writing_mode_word))]
    fn word(self) -> &'static [u8] {
        match self {
            WritingMode::LeftToRight => b"LeftToRight",
            WritingMode::TopToBottom => b"TopToBottom",
        }
    }

    fn cases() -> &'static [WritingMode] {
        &[WritingMode::LeftToRight, WritingMode::TopToBottom]
    }
}

impl Keyword for TextAnchor {
    ghost spelled = { text_anchor_word };

    ghost listed = { text_anchor_cases };

    const WANTED: Keywords = Keywords::TextAnchor;

    fn word(self) -> &'static [u8] {
        match self {
            TextAnchor::Start => b"Start",
            TextAnchor::Middle => b"Middle",
            TextAnchor::End => b"End",
        }
    }

    fn cases() -> &'static [TextAnchor] {
        &[TextAnchor::Start, TextAnchor::Middle, TextAnchor::End]
    }
}

impl Keyword for FontStyle {
    ghost spelled = { font_style_word };

    ghost listed = { font_style_cases };

    const WANTED: Keywords = Keywords::FontStyle;

    fn word(self) -> &'static [u8] {
        match self {
            FontStyle::Normal => b"Normal",
            FontStyle::Italic => b"Italic",
            FontStyle::Oblique => b"Oblique",
        }
    }

    fn cases() -> &'static [FontStyle] {
        &[FontStyle::Normal, FontStyle::Italic, FontStyle::Oblique]
    }
}

impl Keyword for FontStretch {
    ghost spelled = { font_stretch_word };

    ghost listed = { font_stretch_cases };

    const WANTED: Keywords = Keywords::FontStretch;

    #[tactic(auto, unfolding(crate::specs::Keywords::font_stretch_word))]
    fn word(self) -> &'static [u8] {
        match self {
            FontStretch::UltraCondensed => b"UltraCondensed",
            FontStretch::ExtraCondensed => b"ExtraCondensed",
            FontStretch::Condensed => b"Condensed",
            FontStretch::SemiCondensed => b"SemiCondensed",
            FontStretch::Normal => b"Normal",
            FontStretch::SemiExpanded => b"SemiExpanded",
            FontStretch::Expanded => b"Expanded",
            FontStretch::ExtraExpanded => b"ExtraExpanded",
            FontStretch::UltraExpanded => b"UltraExpanded",
        }
    }

    fn cases() -> &'static [FontStretch] {
        &[
            FontStretch::UltraCondensed,
            FontStretch::ExtraCondensed,
            FontStretch::Condensed,
            FontStretch::SemiCondensed,
            FontStretch::Normal,
            FontStretch::SemiExpanded,
            FontStretch::Expanded,
            FontStretch::ExtraExpanded,
            FontStretch::UltraExpanded,
        ]
    }
}

impl Keyword for DominantBaseline {
    ghost spelled = { dominant_baseline_word };

    ghost listed = { dominant_baseline_cases };

    const WANTED: Keywords = Keywords::DominantBaseline;

    #[tactic(auto, unfolding(crate::specs::Keywords::dominant_baseline_word))]
    fn word(self) -> &'static [u8] {
        match self {
            DominantBaseline::Auto => b"Auto",
            DominantBaseline::UseScript => b"UseScript",
            DominantBaseline::NoChange => b"NoChange",
            DominantBaseline::ResetSize => b"ResetSize",
            DominantBaseline::Ideographic => b"Ideographic",
            DominantBaseline::Alphabetic => b"Alphabetic",
            DominantBaseline::Hanging => b"Hanging",
            DominantBaseline::Mathematical => b"Mathematical",
            DominantBaseline::Central => b"Central",
            DominantBaseline::Middle => b"Middle",
            DominantBaseline::TextAfterEdge => b"TextAfterEdge",
            DominantBaseline::TextBeforeEdge => b"TextBeforeEdge",
        }
    }

    fn cases() -> &'static [DominantBaseline] {
        &[
            DominantBaseline::Auto,
            DominantBaseline::UseScript,
            DominantBaseline::NoChange,
            DominantBaseline::ResetSize,
            DominantBaseline::Ideographic,
            DominantBaseline::Alphabetic,
            DominantBaseline::Hanging,
            DominantBaseline::Mathematical,
            DominantBaseline::Central,
            DominantBaseline::Middle,
            DominantBaseline::TextAfterEdge,
            DominantBaseline::TextBeforeEdge,
        ]
    }
}

impl Keyword for AlignmentBaseline {
    ghost spelled = { alignment_baseline_word };

    ghost listed = { alignment_baseline_cases };

    const WANTED: Keywords = Keywords::AlignmentBaseline;

    #[tactic(auto, unfolding(crate::specs::Keywords::alignment_baseline_word))]
    fn word(self) -> &'static [u8] {
        match self {
            AlignmentBaseline::Auto => b"Auto",
            AlignmentBaseline::Baseline => b"Baseline",
            AlignmentBaseline::BeforeEdge => b"BeforeEdge",
            AlignmentBaseline::TextBeforeEdge => b"TextBeforeEdge",
            AlignmentBaseline::Middle => b"Middle",
            AlignmentBaseline::Central => b"Central",
            AlignmentBaseline::AfterEdge => b"AfterEdge",
            AlignmentBaseline::TextAfterEdge => b"TextAfterEdge",
            AlignmentBaseline::Ideographic => b"Ideographic",
            AlignmentBaseline::Alphabetic => b"Alphabetic",
            AlignmentBaseline::Hanging => b"Hanging",
            AlignmentBaseline::Mathematical => b"Mathematical",
        }
    }

    fn cases() -> &'static [AlignmentBaseline] {
        &[
            AlignmentBaseline::Auto,
            AlignmentBaseline::Baseline,
            AlignmentBaseline::BeforeEdge,
            AlignmentBaseline::TextBeforeEdge,
            AlignmentBaseline::Middle,
            AlignmentBaseline::Central,
            AlignmentBaseline::AfterEdge,
            AlignmentBaseline::TextAfterEdge,
            AlignmentBaseline::Ideographic,
            AlignmentBaseline::Alphabetic,
            AlignmentBaseline::Hanging,
            AlignmentBaseline::Mathematical,
        ]
    }
}

impl Keyword for LengthAdjust {
    ghost spelled = { length_adjust_word };

    ghost listed = { length_adjust_cases };

    const WANTED: Keywords = Keywords::LengthAdjust;

    #[tactic(auto, unfolding(crate::specs::Keywords::length_adjust_word))]
    fn word(self) -> &'static [u8] {
        match self {
            LengthAdjust::Spacing => b"Spacing",
            LengthAdjust::SpacingAndGlyphs => b"SpacingAndGlyphs",
        }
    }

    fn cases() -> &'static [LengthAdjust] {
        &[LengthAdjust::Spacing, LengthAdjust::SpacingAndGlyphs]
    }
}

impl Keyword for Units {
    ghost spelled = { units_word };

    ghost listed = { units_cases };

    const WANTED: Keywords = Keywords::Units;

    #[tactic(auto, unfolding(crate::specs::Keywords::units_word))]
    fn word(self) -> &'static [u8] {
        match self {
            Units::UserSpaceOnUse => b"UserSpaceOnUse",
            Units::ObjectBoundingBox => b"ObjectBoundingBox",
        }
    }

    fn cases() -> &'static [Units] {
        &[Units::UserSpaceOnUse, Units::ObjectBoundingBox]
    }
}

impl Keyword for SpreadMethod {
    ghost spelled = { spread_method_word };

    ghost listed = { spread_method_cases };

    const WANTED: Keywords = Keywords::SpreadMethod;

    fn word(self) -> &'static [u8] {
        match self {
            SpreadMethod::Pad => b"Pad",
            SpreadMethod::Reflect => b"Reflect",
            SpreadMethod::Repeat => b"Repeat",
        }
    }

    fn cases() -> &'static [SpreadMethod] {
        &[
            SpreadMethod::Pad,
            SpreadMethod::Reflect,
            SpreadMethod::Repeat,
        ]
    }
}
