//! A good drawing with a node of every kind, a gradient, and every entry that a check looks at.
//!
//! | node | kind | row | end |
//! |---|---|---|---|
//! | 0 | group | 0 | 6 |
//! | 1 | path | 0 | 2 |
//! | 2 | image | 0 | 3 |
//! | 3 | text | 0 | 5 |
//! | 4 | group, the text's flattened one | 1 | 5 |
//! | 5 | path | 1 | 6 |

use drawing::rows::{
    BaseGradient, BaselineShift, Fill, Font, FontFamily, Group, Image, Paint, Path, PathSegment,
    Place, Point, Stop, Stroke, Text, TextChunk, TextDecoration, TextDecorationStyle, TextFlow,
    TextPath, TextSpan,
};
use drawing::tables::{Drawing, Kind, Node};

/// Texts, and below where each stands.
pub const POOL: &[u8] =
    b"n1r1a\xC3\xA9zMy Fontit'sa b\xC0\x80\xED\xA0\x80\xEF\xBF\xBE\x01\xC3iiiiiiiiiiiiiiiiiiiiiiiiiiiiiiiiiiiiiiiiiiiiiiiiiiiiiiiiiiiiiiiii";

pub const ID: Place = Place { start: 0, count: 2 };

pub const REFERENCE: Place = Place { start: 2, count: 2 };

pub const TEXT: Place = Place { start: 4, count: 4 };

pub const FAMILY: Place = Place { start: 8, count: 7 };

pub const QUOTED: Place = Place {
    start: 15,
    count: 4,
};

pub const SPACED_ID: Place = Place {
    start: 19,
    count: 3,
};

pub const OVERLONG: Place = Place {
    start: 22,
    count: 2,
};

pub const SURROGATE: Place = Place {
    start: 24,
    count: 3,
};

pub const NONCHARACTER: Place = Place {
    start: 27,
    count: 3,
};

pub const CONTROL: Place = Place {
    start: 30,
    count: 1,
};

pub const CUT_OFF: Place = Place {
    start: 31,
    count: 1,
};

pub const ID_OF_64: Place = Place {
    start: 32,
    count: 64,
};

pub const ID_OF_65: Place = Place {
    start: 32,
    count: 65,
};

pub const NOTHING: Place = Place { start: 0, count: 0 };

pub const PAST_POOL: Place = Place {
    start: 97,
    count: 1,
};

/// The tables of a drawing, to be changed one entry at a time.
#[derive(Clone, Copy)]
pub struct Sheet {
    pub nodes: [Node; 6],
    pub groups: [Group; 2],
    pub paths: [Path; 2],
    pub images: [Image; 1],
    pub texts: [Text; 1],
    pub chunks: [TextChunk; 2],
    pub spans: [TextSpan; 2],
    pub segments: [PathSegment; 6],
    pub numbers: [f32; 6],
    pub references: [Place; 2],
    pub families: [FontFamily; 2],
    pub shifts: [BaselineShift; 2],
    pub gradients: [BaseGradient; 1],
    pub stops: [Stop; 2],
}

pub fn place(start: usize, count: usize) -> Place {
    Place { start, count }
}

pub fn point(x: f32, y: f32) -> Point {
    Point { x, y }
}

pub fn fill() -> Fill {
    Fill {
        paint: Paint::LinearGradient(REFERENCE),
        opacity: 0.5,
        ..Fill::default()
    }
}

pub fn stroke() -> Stroke {
    Stroke {
        paint: Paint::Pattern(REFERENCE),
        dasharray: Some(place(0, 2)),
        dashoffset: -0.5,
        width: 2.0,
        ..Stroke::default()
    }
}

pub fn style() -> TextDecorationStyle {
    TextDecorationStyle {
        fill: Some(fill()),
        stroke: Some(stroke()),
    }
}

fn group() -> Group {
    Group {
        id: ID,
        clip_path: Some(REFERENCE),
        mask: Some(REFERENCE),
        filters: place(0, 2),
        ..Group::default()
    }
}

fn path() -> Path {
    Path {
        id: ID,
        fill: Some(fill()),
        stroke: Some(stroke()),
        data: place(0, 6),
        ..Path::default()
    }
}

fn image() -> Image {
    Image {
        id: ID,
        width: 10.0,
        height: 20.0,
        payload: TEXT,
        ..Image::default()
    }
}

fn text() -> Text {
    Text {
        id: ID,
        dx: place(2, 1),
        dy: place(3, 1),
        rotate: place(4, 1),
        chunks: place(0, 2),
        ..Text::default()
    }
}

fn chunk(start: usize) -> TextChunk {
    TextChunk {
        x: Some(5.0),
        y: Some(6.0),
        spans: place(start, 1),
        text_flow: TextFlow::Path(TextPath {
            id: REFERENCE,
            ..TextPath::default()
        }),
        text: TEXT,
        ..TextChunk::default()
    }
}

fn span() -> TextSpan {
    TextSpan {
        start: 1,
        end: 3,
        fill: Some(fill()),
        stroke: Some(stroke()),
        font: Font {
            families: place(0, 2),
            ..Font::default()
        },
        decoration: TextDecoration {
            underline: Some(style()),
            overline: Some(style()),
            line_through: Some(style()),
        },
        baseline_shift: place(0, 2),
        text_length: Some(100.0),
        ..TextSpan::default()
    }
}

fn segments() -> [PathSegment; 6] {
    [
        PathSegment::MoveTo(point(0.0, 0.0)),
        PathSegment::LineTo(point(1.0, 0.0)),
        PathSegment::QuadTo(point(1.0, 1.0), point(2.0, 2.0)),
        PathSegment::CubicTo(point(3.0, 3.0), point(4.0, 4.0), point(5.0, 5.0)),
        PathSegment::Close,
        PathSegment::LineTo(point(1e-12, 0.0)),
    ]
}

pub fn node(kind: Kind, row: usize, end: usize) -> Node {
    Node { kind, row, end }
}

impl Sheet {
    pub fn good() -> Sheet {
        Sheet {
            nodes: [
                node(Kind::Group, 0, 6),
                node(Kind::Path, 0, 2),
                node(Kind::Image, 0, 3),
                node(Kind::Text, 0, 5),
                node(Kind::Group, 1, 5),
                node(Kind::Path, 1, 6),
            ],
            groups: [group(), group()],
            paths: [path(), path()],
            images: [image()],
            texts: [text()],
            chunks: [chunk(0), chunk(1)],
            spans: [span(), span()],
            segments: segments(),
            numbers: [1.0, 0.0, 2.0, -3.0, 45.0, 7.0],
            references: [REFERENCE, REFERENCE],
            families: [FontFamily::Serif, FontFamily::Named(FAMILY)],
            shifts: [BaselineShift::Subscript, BaselineShift::Number(-2.5)],
            gradients: [BaseGradient {
                stops: place(0, 2),
                ..BaseGradient::default()
            }],
            stops: [
                Stop::default(),
                Stop {
                    offset: 1.0,
                    opacity: 0.0,
                    ..Stop::default()
                },
            ],
        }
    }

    /// The good drawing after a change.
    pub fn changed<F: FnOnce(&mut Sheet)>(change: F) -> Sheet
        requires { F.IsAlwaysCallable change }
    {
        let mut sheet = Sheet::good();
        change(&mut sheet);
        sheet
    }

    /// Every segment after the first.
    pub fn set_segments(&mut self, segment: PathSegment) {
        self.segments[1..].fill(segment);
    }

    pub fn drawing(&self) -> Drawing<'_> {
        Drawing {
            nodes: &self.nodes,
            groups: &self.groups,
            paths: &self.paths,
            images: &self.images,
            texts: &self.texts,
            chunks: &self.chunks,
            spans: &self.spans,
            segments: &self.segments,
            numbers: &self.numbers,
            references: &self.references,
            families: &self.families,
            shifts: &self.shifts,
            gradients: &self.gradients,
            stops: &self.stops,
            pool: POOL,
        }
    }
}
