//! Two faults at once: which one is the answer.

use crate::faults::refused;
use crate::sheets::*;
use drawing::rows::{Fill, FontFamily, Paint, Stroke, TextDecoration, TextDecorationStyle};
use std::test::Fail;

#[test]
fn rule_before_field(rt: HostRuntime) -> Result<(), Fail> {
    let faint = Fill {
        opacity: 2.0,
        ..fill()
    };
    let unnamed = Stroke {
        paint: Paint::Pattern(NOTHING),
        ..stroke()
    };
    let bare = Stroke {
        dasharray: Some(NOTHING),
        ..stroke()
    };
    refused(&rt, 4, Some(b"stroke"), 1, |sheet| {
        sheet.paths[0].fill = Some(faint);
        sheet.paths[0].stroke = Some(unnamed);
    })?;
    refused(&rt, 5, Some(b"stroke-dasharray"), 1, |sheet| {
        sheet.paths[0].fill = Some(faint);
        sheet.paths[0].stroke = Some(bare);
    })?;
    refused(&rt, 5, Some(b"d"), 1, |sheet| {
        sheet.paths[0].fill = Some(faint);
        sheet.paths[0].data = NOTHING;
    })
}

#[test]
fn field_before_field(rt: HostRuntime) -> Result<(), Fail> {
    refused(&rt, 6, Some(b"stroke-dashoffset"), 1, |sheet| {
        sheet.paths[0].stroke = Some(Stroke {
            dashoffset: 1e13,
            width: 0.0,
            ..stroke()
        });
    })?;
    refused(&rt, 6, Some(b"stroke-miterlimit"), 1, |sheet| {
        sheet.paths[0].stroke = Some(Stroke {
            miterlimit: 0.0,
            opacity: 2.0,
            ..stroke()
        });
    })?;
    refused(&rt, 6, Some(b"stroke-opacity"), 1, |sheet| {
        sheet.paths[0].stroke = Some(Stroke {
            opacity: 2.0,
            width: 0.0,
            ..stroke()
        });
    })
}

// Overline is tested before line-through, and a span's size before both.
#[test]
fn decorations(rt: HostRuntime) -> Result<(), Fail> {
    let wide = style();
    let faint = TextDecorationStyle {
        fill: Some(Fill {
            opacity: 2.0,
            ..fill()
        }),
        ..wide
    };
    let thin = TextDecorationStyle {
        stroke: Some(Stroke {
            width: 0.0,
            ..stroke()
        }),
        ..wide
    };
    let decoration = TextDecoration {
        overline: Some(thin),
        line_through: Some(faint),
        ..TextDecoration::default()
    };
    refused(&rt, 6, Some(b"stroke-width"), 3, |sheet| {
        sheet.spans[1].decoration = decoration;
    })?;
    refused(&rt, 6, Some(b"font-size"), 3, |sheet| {
        sheet.spans[1].decoration = decoration;
        sheet.spans[1].font_size = 0.0;
    })
}

fn put_quoted_family(sheet: &mut Sheet) {
    sheet.families = [FontFamily::Serif, FontFamily::Named(QUOTED)];
}

// A text's number comes before a span's bound, and a span's bound before a family's bytes.
#[test]
fn rules_of_texts(rt: HostRuntime) -> Result<(), Fail> {
    refused(&rt, 7, None, 3, |sheet| {
        put_quoted_family(sheet);
        sheet.spans[1].end = 2;
    })?;
    refused(&rt, 6, Some(b"font-size"), 3, |sheet| {
        put_quoted_family(sheet);
        sheet.spans[1].end = 2;
        sheet.spans[1].font_size = 0.0;
    })
}

#[test]
fn node_before_node(rt: HostRuntime) -> Result<(), Fail> {
    refused(&rt, 6, Some(b"opacity"), 0, |sheet| {
        sheet.groups[0].opacity = 2.0;
        sheet.paths[0].id = SPACED_ID;
    })?;
    refused(&rt, 6, Some(b"opacity"), 4, |sheet| {
        sheet.groups[1].opacity = 2.0;
        sheet.paths[1].id = SPACED_ID;
    })
}

// The table rule comes before every value, and names the node that is drawn.
#[test]
fn table_before_value(rt: HostRuntime) -> Result<(), Fail> {
    refused(&rt, 3, None, 0, |sheet| {
        sheet.paths[0].id = SPACED_ID;
        sheet.paths[1].data = place(0, 7);
    })
}
