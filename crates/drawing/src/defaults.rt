//! What a row, or a part of one, is where nothing is said of it: what the drawing shows past a list's end, and what a
//! script's row is before its first field. Where every field has its own type's default, the row derives it.

ghost use Rattle.std.specs.Prelude.{◌≡◌};
ghost use Rattle.drawing.specs.Tables.{
  black,
  default_fill,
  default_stroke,
  default_font,
  default_span,
  default_stop,
  no_group,
  no_path,
  no_image,
};

use crate::keywords::{
    AlignmentBaseline, BlendMode, DominantBaseline, FillRule, FontStretch, FontStyle,
    ImageRendering, LengthAdjust, LineCap, LineJoin, PaintOrder, ShapeRendering,
};
use crate::rows::{
    Color, Fill, Font, Group, Image, Paint, Path, Place, Stop, Stroke, TextDecoration, TextSpan,
    Transform,
};

impl Default for Paint {
    ghost is_default = { λ paint. paint ≡ black };

    fn default() -> Paint {
        Paint::Color(Color::default())
    }
}

impl Default for Fill {
    ghost is_default = { λ fill. fill ≡ default_fill };

    fn default() -> Fill {
        Fill {
            paint: Paint::default(),
            opacity: 1.0,
            rule: FillRule::default(),
        }
    }
}

impl Default for Stroke {
    ghost is_default = { λ stroke. stroke ≡ default_stroke };

    fn default() -> Stroke {
        Stroke {
            paint: Paint::default(),
            dasharray: None,
            dashoffset: 0.0,
            miterlimit: 4.0,
            opacity: 1.0,
            width: 1.0,
            linecap: LineCap::default(),
            linejoin: LineJoin::default(),
        }
    }
}

impl Default for Group {
    ghost is_default = { λ row. row ≡ no_group };

    fn default() -> Group {
        Group {
            id: Place::default(),
            transform: Transform::default(),
            opacity: 1.0,
            blend_mode: BlendMode::default(),
            isolate: false,
            clip_path: None,
            mask: None,
            filters: Place::default(),
        }
    }
}

impl Default for Path {
    ghost is_default = { λ row. row ≡ no_path };

    fn default() -> Path {
        Path {
            id: Place::default(),
            visible: true,
            fill: None,
            stroke: None,
            paint_order: PaintOrder::default(),
            rendering_mode: ShapeRendering::default(),
            data: Place::default(),
        }
    }
}

impl Default for Image {
    ghost is_default = { λ row. row ≡ no_image };

    fn default() -> Image {
        Image {
            id: Place::default(),
            visible: true,
            width: 0.0,
            height: 0.0,
            rendering_mode: ImageRendering::default(),
            payload: Place::default(),
        }
    }
}

impl Default for Font {
    ghost is_default = { λ font. font ≡ default_font };

    fn default() -> Font {
        Font {
            families: Place::default(),
            style: FontStyle::default(),
            stretch: FontStretch::default(),
            weight: 400,
        }
    }
}

impl Default for TextSpan {
    ghost is_default = { λ span. span ≡ default_span };

    fn default() -> TextSpan {
        TextSpan {
            start: 0,
            end: 0,
            fill: None,
            stroke: None,
            paint_order: PaintOrder::default(),
            font: Font::default(),
            font_size: 12.0,
            small_caps: false,
            apply_kerning: true,
            decoration: TextDecoration::default(),
            dominant_baseline: DominantBaseline::default(),
            alignment_baseline: AlignmentBaseline::default(),
            baseline_shift: Place::default(),
            visible: true,
            letter_spacing: 0.0,
            word_spacing: 0.0,
            text_length: None,
            length_adjust: LengthAdjust::default(),
        }
    }
}

impl Default for Stop {
    ghost is_default = { λ stop. stop ≡ default_stop };

    fn default() -> Stop {
        Stop {
            offset: 0.0,
            color: Color::default(),
            opacity: 1.0,
        }
    }
}
