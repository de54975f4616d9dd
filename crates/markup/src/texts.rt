//! Escapes of text between tags: `&`, `<` and `>` become entities, and carriage return a character reference. All other
//! bytes stand as they are.

ghost use Rattle.markup.specs.Escapes.{escape_text};

use crate::escapes::Escape;
use crate::pens::Pen;
use stores::Store;

/// Between tags.
#[derive(Clone, Copy, PartialEq, Eq, Debug)]
pub struct Content;

impl Escape for Content {
    ghost escaped = { λ _. escape_text };

    fn write_byte<S: Store>(self, pen: &mut Pen<S>, byte: u8) {
        match byte {
            b'&' => pen.bytes(b"&amp;"),
            b'<' => pen.bytes(b"&lt;"),
            b'>' => pen.bytes(b"&gt;"),
            b'\r' => pen.bytes(b"&#13;"),
            b => pen.byte(b),
        }
    }
}
