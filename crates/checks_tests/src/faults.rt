//! One broken entry at a time: the rule, the attribute and the node that the fault names.

use crate::sheets::*;
use checks::calls::{check_draw, check_gradient};
use drawing::faults::Fault;
use drawing::names::AId;
use drawing::rows::{
    BaselineShift, Fill, FontFamily, Paint, PathSegment, Stroke, TextDecoration,
    TextDecorationStyle, TextFlow, TextPath,
};
use std::process::Abort;
use std::test::Fail;

/// The next f32 above 2 ^ 40.
const TOO_LARGE: f32 = 1099511758848.0;

/// The largest f32 below the least that is shown bare.
const TOO_SMALL: f32 = 9.999999e-9;

// The answer is a fault: the number of its rule, its attribute and its node.
// Kept: the rule by its number and the attribute by its name, since these are what a record shows of a fault.
fn says<R: Abort>(
    rt: &R,
    answer: Result<(), Fault>,
    rule: u8,
    attribute: Option<&[u8]>,
    node: Option<usize>,
) -> Result<(), Fail> {
    let Err(fault) = answer else {
        return Err(Fail::new("it is accepted"));
    };
    assert_eq!(rt; fault.number(), rule);
    assert!(rt; fault.attribute().map(AId::name) == attribute);
    assert_eq!(rt; fault.node(), node);
    Ok(())
}

/// The good drawing, after a change, is refused at its first node: the rule, the attribute and the node.
pub fn refused<R: Abort, F: FnOnce(&mut Sheet)>(
    rt: &R,
    rule: u8,
    attribute: Option<&[u8]>,
    node: usize,
    change: F,
) -> Result<(), Fail>
    requires { F.IsAlwaysCallable change }
{
    let sheet = Sheet::changed(change);
    says(
        rt,
        check_draw(&sheet.drawing(), 0),
        rule,
        attribute,
        Some(node),
    )
}

pub fn accepted<F: FnOnce(&mut Sheet)>(change: F) -> Result<(), Fail>
    requires { F.IsAlwaysCallable change }
{
    let sheet = Sheet::changed(change);
    check_draw(&sheet.drawing(), 0).map_err(|_| Fail::new("it is refused"))
}

fn gradient_refused<R: Abort, F: FnOnce(&mut Sheet)>(
    rt: &R,
    rule: u8,
    attribute: Option<&[u8]>,
    change: F,
) -> Result<(), Fail>
    requires { F.IsAlwaysCallable change }
{
    let sheet = Sheet::changed(change);
    says(
        rt,
        check_gradient(&sheet.drawing(), 0),
        rule,
        attribute,
        None,
    )
}

// ---- groups

#[test]
fn good(rt: HostRuntime) -> Result<(), Fail> {
    accepted(|_| ())?;
    assert!(rt; check_gradient(&Sheet::good().drawing(), 0).is_ok());
    Ok(())
}

#[test]
fn groups(rt: HostRuntime) -> Result<(), Fail> {
    refused(&rt, 4, Some(b"id"), 0, |sheet| {
        sheet.groups[0].id = SPACED_ID;
    })?;
    refused(&rt, 6, Some(b"transform"), 0, |sheet| {
        sheet.groups[0].transform.ky = TOO_LARGE;
    })?;
    refused(&rt, 6, Some(b"opacity"), 0, |sheet| {
        sheet.groups[0].opacity = 1.0000001;
    })?;
    refused(&rt, 4, Some(b"clip-path"), 0, |sheet| {
        sheet.groups[0].clip_path = Some(NOTHING);
    })?;
    refused(&rt, 4, Some(b"mask"), 0, |sheet| {
        sheet.groups[0].mask = Some(SPACED_ID);
    })?;
    refused(&rt, 4, Some(b"filter"), 0, |sheet| {
        sheet.references = [REFERENCE, NOTHING];
    })?;
    accepted(|sheet| {
        sheet.groups[0].id = NOTHING;
        sheet.groups[0].clip_path = None;
        sheet.groups[0].mask = None;
        sheet.groups[0].opacity = -0.0;
        sheet.groups[0].filters = NOTHING;
    })
}

#[test]
fn ids(rt: HostRuntime) -> Result<(), Fail> {
    accepted(|sheet| sheet.groups[0].id = ID_OF_64)?;
    refused(&rt, 4, Some(b"id"), 0, |sheet| {
        sheet.groups[0].id = ID_OF_65;
    })?;
    accepted(|sheet| sheet.groups[0].mask = Some(ID_OF_64))?;
    refused(&rt, 4, Some(b"mask"), 0, |sheet| {
        sheet.groups[0].mask = Some(ID_OF_65);
    })
}

#[test]
fn transforms(rt: HostRuntime) -> Result<(), Fail> {
    refused(&rt, 6, Some(b"transform"), 0, |sheet| {
        sheet.groups[0].transform.sx = TOO_LARGE;
    })?;
    refused(&rt, 6, Some(b"transform"), 0, |sheet| {
        sheet.groups[0].transform.kx = -TOO_LARGE;
    })?;
    refused(&rt, 6, Some(b"transform"), 0, |sheet| {
        sheet.groups[0].transform.sy = TOO_LARGE;
    })?;
    refused(&rt, 6, Some(b"transform"), 0, |sheet| {
        sheet.groups[0].transform.tx = TOO_LARGE;
    })?;
    refused(&rt, 6, Some(b"transform"), 0, |sheet| {
        sheet.groups[0].transform.ty = TOO_LARGE;
    })?;
    accepted(|sheet| {
        sheet.groups[0].transform.tx = 1099511627776.0;
        sheet.groups[0].transform.ty = TOO_SMALL;
    })
}

// ---- paths

#[test]
fn fills(rt: HostRuntime) -> Result<(), Fail> {
    refused(&rt, 4, Some(b"fill"), 1, |sheet| {
        sheet.paths[0].fill = Some(Fill {
            paint: Paint::LinearGradient(NOTHING),
            ..fill()
        });
    })?;
    refused(&rt, 4, Some(b"fill"), 1, |sheet| {
        sheet.paths[0].fill = Some(Fill {
            paint: Paint::RadialGradient(SPACED_ID),
            ..fill()
        });
    })?;
    refused(&rt, 4, Some(b"fill"), 1, |sheet| {
        sheet.paths[0].fill = Some(Fill {
            paint: Paint::Pattern(ID_OF_65),
            ..fill()
        });
    })?;
    refused(&rt, 6, Some(b"fill-opacity"), 1, |sheet| {
        sheet.paths[0].fill = Some(Fill {
            opacity: -0.1,
            ..fill()
        });
    })?;
    refused(&rt, 6, Some(b"fill-opacity"), 1, |sheet| {
        sheet.paths[0].fill = Some(Fill {
            opacity: TOO_SMALL,
            ..fill()
        });
    })?;
    accepted(|sheet| {
        sheet.paths[0].fill = Some(Fill {
            opacity: 1e-8,
            ..fill()
        });
    })
}

#[test]
fn strokes(rt: HostRuntime) -> Result<(), Fail> {
    refused(&rt, 4, Some(b"stroke"), 1, |sheet| {
        sheet.paths[0].stroke = Some(Stroke {
            paint: Paint::Pattern(NOTHING),
            ..stroke()
        });
    })?;
    refused(&rt, 5, Some(b"stroke-dasharray"), 1, |sheet| {
        sheet.paths[0].stroke = Some(Stroke {
            dasharray: Some(place(0, 0)),
            ..stroke()
        });
    })?;
    refused(&rt, 6, Some(b"stroke-dasharray"), 1, |sheet| {
        sheet.paths[0].stroke = Some(Stroke {
            dasharray: Some(place(2, 2)),
            ..stroke()
        });
    })?;
    refused(&rt, 6, Some(b"stroke-dashoffset"), 1, |sheet| {
        sheet.paths[0].stroke = Some(Stroke {
            dashoffset: TOO_LARGE,
            ..stroke()
        });
    })?;
    refused(&rt, 6, Some(b"stroke-miterlimit"), 1, |sheet| {
        sheet.paths[0].stroke = Some(Stroke {
            miterlimit: 0.99999994,
            ..stroke()
        });
    })?;
    refused(&rt, 6, Some(b"stroke-opacity"), 1, |sheet| {
        sheet.paths[0].stroke = Some(Stroke {
            opacity: 2.0,
            ..stroke()
        });
    })?;
    refused(&rt, 6, Some(b"stroke-width"), 1, |sheet| {
        sheet.paths[0].stroke = Some(Stroke {
            width: 0.0,
            ..stroke()
        });
    })?;
    accepted(|sheet| {
        sheet.paths[0].stroke = Some(Stroke {
            dasharray: None,
            miterlimit: 1.0,
            dashoffset: -0.0,
            ..stroke()
        });
    })
}

#[test]
fn paths(rt: HostRuntime) -> Result<(), Fail> {
    refused(&rt, 4, Some(b"id"), 1, |sheet| {
        sheet.paths[0].id = SPACED_ID;
    })?;
    refused(&rt, 5, Some(b"d"), 1, |sheet| {
        sheet.paths[0].data = place(0, 0);
    })?;
    refused(&rt, 5, Some(b"d"), 1, |sheet| {
        sheet.paths[0].data = place(1, 3);
    })?;
    refused(&rt, 5, Some(b"d"), 1, |sheet| {
        sheet.paths[0].data = place(4, 2);
    })?;
    accepted(|sheet| {
        sheet.paths[0].fill = None;
        sheet.paths[0].stroke = None;
        sheet.paths[0].data = place(0, 1);
    })
}

#[test]
fn segments(rt: HostRuntime) -> Result<(), Fail> {
    let good = point(1.0, 1.0);
    let right = point(TOO_LARGE, 1.0);
    let down = point(1.0, TOO_LARGE);
    let zero = 0.0;
    refused(&rt, 6, Some(b"d"), 1, |sheet| {
        sheet.set_segments(PathSegment::MoveTo(right));
    })?;
    refused(&rt, 6, Some(b"d"), 1, |sheet| {
        sheet.set_segments(PathSegment::LineTo(down));
    })?;
    refused(&rt, 6, Some(b"d"), 1, |sheet| {
        sheet.set_segments(PathSegment::QuadTo(right, good));
    })?;
    refused(&rt, 6, Some(b"d"), 1, |sheet| {
        sheet.set_segments(PathSegment::QuadTo(good, down));
    })?;
    refused(&rt, 6, Some(b"d"), 1, |sheet| {
        sheet.set_segments(PathSegment::CubicTo(down, good, good));
    })?;
    refused(&rt, 6, Some(b"d"), 1, |sheet| {
        sheet.set_segments(PathSegment::CubicTo(good, right, good));
    })?;
    refused(&rt, 6, Some(b"d"), 1, |sheet| {
        sheet.set_segments(PathSegment::CubicTo(good, good, down));
    })?;
    refused(&rt, 6, Some(b"d"), 1, |sheet| {
        sheet.set_segments(PathSegment::LineTo(point(zero / zero, 0.0)));
    })?;
    refused(&rt, 6, Some(b"d"), 1, |sheet| {
        sheet.set_segments(PathSegment::LineTo(point(0.0, -1.0 / zero)));
    })?;
    accepted(|sheet| {
        sheet.set_segments(PathSegment::LineTo(point(TOO_SMALL, -1099511627776.0)));
    })
}

// ---- images

#[test]
fn images(rt: HostRuntime) -> Result<(), Fail> {
    refused(&rt, 4, Some(b"id"), 2, |sheet| {
        sheet.images[0].id = SPACED_ID;
    })?;
    refused(&rt, 6, Some(b"width"), 2, |sheet| {
        sheet.images[0].width = 0.0;
    })?;
    refused(&rt, 6, Some(b"height"), 2, |sheet| {
        sheet.images[0].height = -0.0;
    })?;
    refused(&rt, 7, Some(b"xlink:href"), 2, |sheet| {
        sheet.images[0].payload = OVERLONG;
    })?;
    refused(&rt, 7, Some(b"xlink:href"), 2, |sheet| {
        sheet.images[0].payload = SURROGATE;
    })?;
    refused(&rt, 7, Some(b"xlink:href"), 2, |sheet| {
        sheet.images[0].payload = NONCHARACTER;
    })?;
    refused(&rt, 7, Some(b"xlink:href"), 2, |sheet| {
        sheet.images[0].payload = CONTROL;
    })?;
    refused(&rt, 7, Some(b"xlink:href"), 2, |sheet| {
        sheet.images[0].payload = CUT_OFF;
    })?;
    accepted(|sheet| sheet.images[0].payload = NOTHING)
}

// ---- texts

// A number that no attribute takes, and no stroke that names it.
fn put_small_number(sheet: &mut Sheet) {
    sheet.numbers = [TOO_SMALL, 1.0, 2.0, 3.0, 4.0, 5.0];
    sheet.paths[0].stroke = None;
    sheet.paths[1].stroke = None;
}

#[test]
fn texts(rt: HostRuntime) -> Result<(), Fail> {
    refused(&rt, 4, Some(b"id"), 3, |sheet| {
        sheet.texts[0].id = SPACED_ID;
    })?;
    refused(&rt, 6, Some(b"dx"), 3, |sheet| {
        put_small_number(sheet);
        sheet.texts[0].dx = place(0, 1);
    })?;
    refused(&rt, 6, Some(b"dy"), 3, |sheet| {
        put_small_number(sheet);
        sheet.texts[0].dy = place(0, 1);
    })?;
    refused(&rt, 6, Some(b"rotate"), 3, |sheet| {
        put_small_number(sheet);
        sheet.texts[0].rotate = place(0, 1);
    })?;
    accepted(|sheet| {
        sheet.texts[0].dx = NOTHING;
        sheet.texts[0].dy = NOTHING;
        sheet.texts[0].rotate = NOTHING;
        sheet.texts[0].chunks = NOTHING;
    })
}

#[test]
fn chunks(rt: HostRuntime) -> Result<(), Fail> {
    let far = TextFlow::Path(TextPath {
        id: REFERENCE,
        start_offset: TOO_LARGE,
    });
    refused(&rt, 6, Some(b"x"), 3, |sheet| {
        sheet.chunks[1].x = Some(TOO_LARGE);
    })?;
    refused(&rt, 6, Some(b"y"), 3, |sheet| {
        sheet.chunks[1].y = Some(TOO_SMALL);
    })?;
    refused(&rt, 4, Some(b"xlink:href"), 3, |sheet| {
        sheet.chunks[1].text_flow = TextFlow::Path(TextPath::default());
    })?;
    refused(&rt, 6, Some(b"startOffset"), 3, |sheet| {
        sheet.chunks[1].text_flow = far;
    })?;
    refused(&rt, 7, None, 3, |sheet| {
        sheet.chunks[1].spans = NOTHING;
        sheet.chunks[1].text = CONTROL;
    })?;
    refused(&rt, 7, None, 3, |sheet| sheet.chunks[1].text = NOTHING)?;
    accepted(|sheet| {
        sheet.chunks[1].x = None;
        sheet.chunks[1].y = None;
        sheet.chunks[1].spans = NOTHING;
        sheet.chunks[1].text_flow = TextFlow::Linear;
        sheet.chunks[1].text = NOTHING;
    })
}

#[test]
fn spans(rt: HostRuntime) -> Result<(), Fail> {
    refused(&rt, 7, None, 3, |sheet| sheet.spans[1].start = 2)?;
    refused(&rt, 7, None, 3, |sheet| sheet.spans[1].end = 2)?;
    refused(&rt, 7, None, 3, |sheet| sheet.spans[1].end = 5)?;
    refused(&rt, 7, None, 3, |sheet| {
        sheet.spans[1].start = 3;
        sheet.spans[1].end = 1;
    })?;
    accepted(|sheet| {
        sheet.spans[1].start = 4;
        sheet.spans[1].end = 4;
    })?;
    refused(&rt, 6, Some(b"fill-opacity"), 3, |sheet| {
        sheet.spans[1].fill = Some(Fill {
            opacity: 2.0,
            ..fill()
        });
    })?;
    refused(&rt, 6, Some(b"stroke-width"), 3, |sheet| {
        sheet.spans[1].stroke = Some(Stroke {
            width: -1.0,
            ..stroke()
        });
    })?;
    refused(&rt, 6, Some(b"font-size"), 3, |sheet| {
        sheet.spans[1].font_size = 0.0;
    })?;
    refused(&rt, 6, Some(b"letter-spacing"), 3, |sheet| {
        sheet.spans[1].letter_spacing = TOO_LARGE;
    })?;
    refused(&rt, 6, Some(b"word-spacing"), 3, |sheet| {
        sheet.spans[1].word_spacing = TOO_SMALL;
    })?;
    refused(&rt, 6, Some(b"textLength"), 3, |sheet| {
        sheet.spans[1].text_length = Some(-1.0);
    })?;
    accepted(|sheet| sheet.spans[1].text_length = Some(-0.0))
}

#[test]
fn families(rt: HostRuntime) -> Result<(), Fail> {
    refused(&rt, 5, Some(b"font-family"), 3, |sheet| {
        sheet.families = [FontFamily::Monospace, FontFamily::Named(NOTHING)];
    })?;
    refused(&rt, 7, Some(b"font-family"), 3, |sheet| {
        sheet.families = [FontFamily::Monospace, FontFamily::Named(CONTROL)];
    })?;
    refused(&rt, 8, Some(b"font-family"), 3, |sheet| {
        sheet.families = [FontFamily::Monospace, FontFamily::Named(QUOTED)];
    })?;
    accepted(|sheet| {
        sheet.families = [FontFamily::Monospace, FontFamily::Named(TEXT)];
    })
}

#[test]
fn decorations(rt: HostRuntime) -> Result<(), Fail> {
    let none = TextDecoration::default();
    let paint = TextDecorationStyle {
        fill: Some(Fill {
            paint: Paint::Pattern(NOTHING),
            ..fill()
        }),
        ..TextDecorationStyle::default()
    };
    let dash = TextDecorationStyle {
        stroke: Some(Stroke {
            dasharray: Some(NOTHING),
            ..stroke()
        }),
        ..TextDecorationStyle::default()
    };
    let width = TextDecorationStyle {
        fill: Some(fill()),
        stroke: Some(Stroke {
            width: 0.0,
            ..stroke()
        }),
    };
    refused(&rt, 4, Some(b"fill"), 3, |sheet| {
        sheet.spans[1].decoration = TextDecoration {
            underline: Some(paint),
            ..none
        };
    })?;
    refused(&rt, 5, Some(b"stroke-dasharray"), 3, |sheet| {
        sheet.spans[1].decoration = TextDecoration {
            overline: Some(dash),
            ..none
        };
    })?;
    refused(&rt, 6, Some(b"stroke-width"), 3, |sheet| {
        sheet.spans[1].decoration = TextDecoration {
            line_through: Some(width),
            ..none
        };
    })?;
    refused(&rt, 6, Some(b"baseline-shift"), 3, |sheet| {
        sheet.shifts = [BaselineShift::Baseline, BaselineShift::Number(TOO_LARGE)];
    })?;
    accepted(|sheet| {
        sheet.spans[1].decoration = none;
        sheet.spans[1].font.families = NOTHING;
    })
}

// ---- gradients

#[test]
fn gradients(rt: HostRuntime) -> Result<(), Fail> {
    gradient_refused(&rt, 6, Some(b"gradientTransform"), |sheet| {
        sheet.gradients[0].transform.tx = TOO_LARGE;
    })?;
    gradient_refused(&rt, 6, Some(b"offset"), |sheet| sheet.stops[1].offset = 1.5)?;
    gradient_refused(&rt, 6, Some(b"stop-opacity"), |sheet| {
        sheet.stops[1].opacity = -1.0;
    })?;
    gradient_refused(&rt, 6, Some(b"stop-opacity"), |sheet| {
        sheet.stops[0].offset = 1.0;
        sheet.stops[0].opacity = 2.0;
        sheet.stops[1].offset = 2.0;
    })?;
    gradient_refused(&rt, 3, None, |sheet| sheet.gradients[0].stops = place(1, 2))?;
    assert!(rt; check_gradient(&Sheet::good().drawing(), 1).is_err());
    Ok(())
}
