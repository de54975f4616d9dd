//! The table rule: ends, rows, places, depths and limits.

use crate::faults::{accepted, refused};
use crate::sheets::*;
use checks::calls::{check_draw, check_gradient};
use drawing::rows::{
    BaseGradient, BaselineShift, Fill, FontFamily, Group, Image, Paint, PathSegment, Stop, Stroke,
    Text, TextChunk, TextFlow, TextPath, TextSpan,
};
use drawing::tables::{Drawing, Kind, Node};
use std::process::Abort;
use std::test::Fail;

// The number of the rule that refuses the first node, if one does.
// Kept: numbers, since they are what a record shows of a fault.
fn drawn(drawing: Drawing<'_>) -> Result<(), u8> {
    check_draw(&drawing, 0).map_err(|fault| fault.number())
}

fn gradient_drawn(drawing: Drawing<'_>) -> Result<(), u8> {
    check_gradient(&drawing, 0).map_err(|fault| fault.number())
}

// The good drawing with other nodes.
fn with_nodes(nodes: &[Node]) -> Result<(), u8> {
    let sheet = Sheet::good();
    drawn(Drawing {
        nodes,
        ..sheet.drawing()
    })
}

// A table that is no drawing: no attribute, and the node that was to be drawn.
fn table_refused<R: Abort, F: FnOnce(&mut Sheet)>(rt: &R, change: F) -> Result<(), Fail>
    requires { F.IsAlwaysCallable change }
{
    refused(rt, 3, None, 0, change)
}

#[test]
fn ends(rt: HostRuntime) {
    assert_eq!(rt; with_nodes(&[]), Err(3));
    assert_eq!(rt; with_nodes(&[node(Kind::Group, 0, 1)]), Ok(()));
    assert_eq!(rt; with_nodes(&[node(Kind::Group, 0, 0)]), Err(3));
    assert_eq!(rt; with_nodes(&[node(Kind::Group, 0, 2)]), Err(3));
    assert_eq!(rt; with_nodes(&[node(Kind::Path, 0, 1)]), Ok(()));
    assert_eq!(rt;
        with_nodes(&[node(Kind::Path, 0, 2), node(Kind::Path, 0, 2)]),
        Err(3)
    );
    assert_eq!(rt;
        with_nodes(&[node(Kind::Image, 0, 2), node(Kind::Path, 0, 2)]),
        Err(3)
    );
    assert_eq!(rt;
        with_nodes(&[
            node(Kind::Group, 0, 2),
            node(Kind::Path, 0, 3),
            node(Kind::Path, 0, 3),
        ],),
        Err(3)
    );
    assert_eq!(rt;
        with_nodes(&[
            node(Kind::Group, 0, 3),
            node(Kind::Path, 0, 2),
            node(Kind::Path, 0, 2),
        ],),
        Err(3)
    );
    assert_eq!(rt;
        with_nodes(&[
            node(Kind::Group, 0, 3),
            node(Kind::Path, 0, 2),
            node(Kind::Path, 0, 3),
        ],),
        Ok(())
    );
}

#[test]
fn texts_hold_one_group(rt: HostRuntime) {
    assert_eq!(rt;
        with_nodes(&[node(Kind::Text, 0, 2), node(Kind::Group, 0, 2)]),
        Ok(())
    );
    assert_eq!(rt; with_nodes(&[node(Kind::Text, 0, 1)]), Err(3));
    assert_eq!(rt;
        with_nodes(&[node(Kind::Text, 0, 2), node(Kind::Path, 0, 2)]),
        Err(3)
    );
    assert_eq!(rt;
        with_nodes(&[
            node(Kind::Text, 0, 3),
            node(Kind::Group, 0, 2),
            node(Kind::Group, 0, 3),
        ],),
        Err(3)
    );
    assert_eq!(rt;
        with_nodes(&[
            node(Kind::Text, 0, 3),
            node(Kind::Group, 0, 3),
            node(Kind::Path, 0, 3),
        ],),
        Ok(())
    );
}

#[test]
fn rows(rt: HostRuntime) {
    assert_eq!(rt; with_nodes(&[node(Kind::Group, 1, 1)]), Ok(()));
    assert_eq!(rt; with_nodes(&[node(Kind::Group, 2, 1)]), Err(3));
    assert_eq!(rt; with_nodes(&[node(Kind::Path, 2, 1)]), Err(3));
    assert_eq!(rt; with_nodes(&[node(Kind::Image, 1, 1)]), Err(3));
    assert_eq!(rt;
        with_nodes(&[node(Kind::Text, 1, 2), node(Kind::Group, 0, 2)]),
        Err(3)
    );
}

// So many groups, each in the one before.
fn nested(count: usize) -> Result<(), u8> {
    with_nodes(&[node(Kind::Group, 0, count); 66])
}

#[test]
fn depth(rt: HostRuntime) {
    assert_eq!(rt; nested(64), Ok(()));
    assert_eq!(rt; nested(65), Err(3));
}

#[test]
fn places(rt: HostRuntime) -> Result<(), Fail> {
    table_refused(&rt, |sheet| sheet.paths[0].id = PAST_POOL)?;
    table_refused(&rt, |sheet| sheet.paths[0].data = place(1, 6))?;
    table_refused(&rt, |sheet| {
        sheet.paths[0].data = place(18446744073709551615, 2);
    })?;
    table_refused(&rt, |sheet| sheet.groups[0].filters = place(3, 0))?;
    table_refused(&rt, |sheet| sheet.spans[1].baseline_shift = place(1, 2))?;
    table_refused(&rt, |sheet| {
        sheet.families = [FontFamily::Serif, FontFamily::Named(PAST_POOL)];
    })?;
    accepted(|sheet| sheet.groups[0].filters = place(2, 0))
}

// Every other field that is a place, past its list.
#[test]
fn places_of_paints(rt: HostRuntime) -> Result<(), Fail> {
    table_refused(&rt, |sheet| sheet.references[1] = PAST_POOL)?;
    table_refused(&rt, |sheet| sheet.groups[0].id = PAST_POOL)?;
    table_refused(&rt, |sheet| sheet.groups[0].clip_path = Some(PAST_POOL))?;
    table_refused(&rt, |sheet| sheet.groups[0].mask = Some(PAST_POOL))?;
    table_refused(&rt, |sheet| {
        sheet.paths[0].fill = Some(Fill {
            paint: Paint::RadialGradient(PAST_POOL),
            ..fill()
        });
    })?;
    table_refused(&rt, |sheet| {
        sheet.paths[0].stroke = Some(Stroke {
            paint: Paint::LinearGradient(PAST_POOL),
            ..stroke()
        });
    })?;
    table_refused(&rt, |sheet| {
        sheet.paths[0].stroke = Some(Stroke {
            dasharray: Some(place(5, 2)),
            ..stroke()
        });
    })?;
    table_refused(&rt, |sheet| sheet.images[0].id = PAST_POOL)?;
    table_refused(&rt, |sheet| sheet.images[0].payload = PAST_POOL)
}

#[test]
fn places_of_texts(rt: HostRuntime) -> Result<(), Fail> {
    let flow = TextFlow::Path(TextPath {
        id: PAST_POOL,
        ..TextPath::default()
    });
    table_refused(&rt, |sheet| sheet.texts[0].id = PAST_POOL)?;
    table_refused(&rt, |sheet| sheet.texts[0].dx = place(7, 0))?;
    table_refused(&rt, |sheet| sheet.texts[0].dy = place(6, 1))?;
    table_refused(&rt, |sheet| sheet.texts[0].rotate = place(0, 7))?;
    table_refused(&rt, |sheet| sheet.texts[0].chunks = place(1, 2))?;
    table_refused(&rt, |sheet| {
        sheet.chunks[0] = sheet.chunks[1];
        sheet.chunks[1].spans = place(2, 1);
    })?;
    table_refused(&rt, |sheet| {
        sheet.chunks[0] = sheet.chunks[1];
        sheet.chunks[1].text_flow = flow;
    })?;
    table_refused(&rt, |sheet| {
        sheet.chunks[0] = sheet.chunks[1];
        sheet.chunks[1].text = PAST_POOL;
    })?;
    table_refused(&rt, |sheet| sheet.spans[1].font.families = place(2, 1))
}

// The good drawing's first group alone, with another pool.
fn with_pool(pool: &[u8]) -> Result<(), u8> {
    let sheet = Sheet::changed(|sheet| sheet.nodes[0].end = 1);
    drawn(Drawing {
        pool,
        ..sheet.drawing()
    })
}

// The good drawing with another list, and so many of its entries named by the last row that names them.

fn with_families(families: &[FontFamily], count: usize) -> Result<(), u8> {
    let sheet = Sheet::changed(|sheet| sheet.spans[1].font.families = place(0, count));
    drawn(Drawing {
        families,
        ..sheet.drawing()
    })
}

fn with_shifts(shifts: &[BaselineShift], count: usize) -> Result<(), u8> {
    let sheet = Sheet::changed(|sheet| sheet.spans[1].baseline_shift = place(0, count));
    drawn(Drawing {
        shifts,
        ..sheet.drawing()
    })
}

fn with_spans(spans: &[TextSpan], count: usize) -> Result<(), u8> {
    let sheet = Sheet::changed(|sheet| sheet.chunks[1].spans = place(0, count));
    drawn(Drawing {
        spans,
        ..sheet.drawing()
    })
}

// Lists as long as they may be, and one longer, whether a node names their entries or not.
#[test]
fn longest_lists(rt: HostRuntime) {
    let sheet = Sheet::good();
    let good = sheet.drawing();
    assert_eq!(rt; with_nodes(&[node(Kind::Group, 0, 1); 4096]), Ok(()));
    assert_eq!(rt; with_nodes(&[node(Kind::Group, 0, 1); 4097]), Err(3));
    assert_eq!(rt;
        drawn(Drawing {
            numbers: &[0.5; 16384],
            ..good
        }),
        Ok(())
    );
    assert_eq!(rt;
        drawn(Drawing {
            numbers: &[0.5; 16385],
            ..good
        }),
        Err(3)
    );
    assert_eq!(rt;
        drawn(Drawing {
            references: &[REFERENCE; 16384],
            ..good
        }),
        Ok(())
    );
    assert_eq!(rt;
        drawn(Drawing {
            references: &[REFERENCE; 16385],
            ..good
        }),
        Err(3)
    );
    assert_eq!(rt;
        gradient_drawn(Drawing {
            references: &[REFERENCE; 16384],
            ..good
        }),
        Ok(())
    );
    assert_eq!(rt;
        gradient_drawn(Drawing {
            references: &[REFERENCE; 16385],
            ..good
        }),
        Err(3)
    );
    assert_eq!(rt; with_pool(&[b'a'; 65536]), Ok(()));
    assert_eq!(rt; with_pool(&[b'a'; 65537]), Err(3));
}

// Kept: seven functions of one shape. Tried as one struct update where each is used, in four forms: the borrow checker refuses a list
// lent there beside a sheet ("a reference at an intersection of lifetimes").

fn with_segments(segments: &[PathSegment]) -> Result<(), u8> {
    let sheet = Sheet::good();
    drawn(Drawing {
        segments,
        ..sheet.drawing()
    })
}

fn with_stops(stops: &[Stop]) -> Result<(), u8> {
    let sheet = Sheet::good();
    drawn(Drawing {
        stops,
        ..sheet.drawing()
    })
}

fn with_gradients(gradients: &[BaseGradient]) -> Result<(), u8> {
    let sheet = Sheet::good();
    drawn(Drawing {
        gradients,
        ..sheet.drawing()
    })
}

fn with_groups(groups: &[Group]) -> Result<(), u8> {
    let sheet = Sheet::good();
    drawn(Drawing {
        groups,
        ..sheet.drawing()
    })
}

fn with_images(images: &[Image]) -> Result<(), u8> {
    let sheet = Sheet::good();
    drawn(Drawing {
        images,
        ..sheet.drawing()
    })
}

fn with_texts(texts: &[Text]) -> Result<(), u8> {
    let sheet = Sheet::good();
    drawn(Drawing {
        texts,
        ..sheet.drawing()
    })
}

fn with_chunks(chunks: &[TextChunk]) -> Result<(), u8> {
    let sheet = Sheet::good();
    drawn(Drawing {
        chunks,
        ..sheet.drawing()
    })
}

#[test]
fn longest_lists_of_entries(rt: HostRuntime) {
    let sheet = Sheet::good();
    assert_eq!(rt; with_segments(&[sheet.segments[0]; 16384]), Ok(()));
    assert_eq!(rt; with_segments(&[sheet.segments[0]; 16385]), Err(3));
    assert_eq!(rt; with_families(&[FontFamily::Serif; 16384], 2), Ok(()));
    assert_eq!(rt; with_families(&[FontFamily::Serif; 16385], 2), Err(3));
    assert_eq!(rt; with_shifts(&[BaselineShift::Baseline; 16384], 2), Ok(()));
    assert_eq!(rt; with_shifts(&[BaselineShift::Baseline; 16385], 2), Err(3));
    assert_eq!(rt; with_stops(&[sheet.stops[0]; 16384]), Ok(()));
    assert_eq!(rt; with_stops(&[sheet.stops[0]; 16385]), Err(3));
    assert_eq!(rt; with_gradients(&[sheet.gradients[0]; 16384]), Ok(()));
    assert_eq!(rt; with_gradients(&[sheet.gradients[0]; 16385]), Err(3));
}

#[test]
fn longest_lists_of_rows(rt: HostRuntime) {
    let sheet = Sheet::good();
    assert_eq!(rt; with_groups(&[sheet.groups[0]; 16385]), Err(3));
    assert_eq!(rt; with_images(&[sheet.images[0]; 16384]), Ok(()));
    assert_eq!(rt; with_images(&[sheet.images[0]; 16385]), Err(3));
    assert_eq!(rt; with_texts(&[sheet.texts[0]; 16385]), Err(3));
    assert_eq!(rt; with_chunks(&[sheet.chunks[0]; 16385]), Err(3));
}

#[test]
fn longest_places(rt: HostRuntime) {
    assert_eq!(rt; with_families(&[FontFamily::Serif; 65], 64), Ok(()));
    assert_eq!(rt; with_families(&[FontFamily::Serif; 65], 65), Err(3));
    assert_eq!(rt; with_shifts(&[BaselineShift::Baseline; 65], 64), Ok(()));
    assert_eq!(rt; with_shifts(&[BaselineShift::Baseline; 65], 65), Err(3));
    assert_eq!(rt; with_spans(&[Sheet::good().spans[0]; 257], 256), Ok(()));
    assert_eq!(rt; with_spans(&[Sheet::good().spans[0]; 257], 257), Err(3));
}
