//! A pen that escapes what it writes, for the place that it stands in; and the escapes of values: `&`, `<` and the quote in
//! use become entities, and tab, line feed and carriage return character references. All other bytes, those of characters
//! above U+007F too, stand as they are.

ghost use Rattle.std.specs.Prelude.{◌≡◌, ℕ, List};
ghost use Rattle.markup.specs.Pens.{after};
ghost use Rattle.markup.specs.State.{state};
ghost use Rattle.markup.specs.Escapes.{escape_value, after_escaped};

use crate::pens::Pen;
use crate::quotes::Quote;
use stores::Store;

/// A kind of place for texts. The ghost member `escaped` is what a byte becomes there.
pub trait Escape: Copy {
    ghost escaped: { Self → ℕ → List ℕ };

    /// Writes one byte of a text.
    fn write_byte<S: Store>(self, pen: &mut Pen<S>, byte: u8)
        ensures { state S.Store pen.new ≡ after (state S.Store pen.old) (escaped self byte) };
}

/// Inside a value in this quote.
impl Escape for Quote {
    ghost escaped = { escape_value };

    fn write_byte<S: Store>(self, pen: &mut Pen<S>, byte: u8) {
        match byte {
            b'&' => pen.bytes(b"&amp;"),
            b'<' => pen.bytes(b"&lt;"),
            b if b == self.mark() => pen.bytes(self.entity()),
            b'\t' => pen.bytes(b"&#9;"),
            b'\n' => pen.bytes(b"&#10;"),
            b'\r' => pen.bytes(b"&#13;"),
            b => pen.byte(b),
        }
    }
}

/// A pen in such a place.
#[derive(Drop)]
pub struct Escaped<'p, S, E> {
    pub pen: &'p mut Pen<S>,
    pub escape: E,
}

impl<'p, S: Store, E: Escape> Escaped<'p, S, E> {
    /// The bytes of a text.
    pub fn write(&mut self, text: &[u8])
        ensures same_pen { self.new.pen.ghost_name ≡ self.old.pen.ghost_name }
        ensures same_place { self.new.escape ≡ self.old.escape }
        ensures wrote { state S.Store self.new.pen.now ≡ after_escaped (state S.Store self.old.pen.now) (E.Escape.escaped self.old.escape) text.now }
    {
        let escape = self.escape;
        let pen = &mut *self.pen;
        for byte in text {
            escape.write_byte(pen, *byte);
        }
    }
}
