// A numeral: the text of one number, at most 32 bytes, in a value of fixed size.
//
// The text stands at the end of the bytes and grows at its front, since the last digit of a number
// is known first.
ghost use Rattle.std.specs.Prelude.{◌≡◌, ◌<◌, [], ◌∷◌, length};
ghost use Rattle.digits.specs.Numerals.{text_of};

const CAPACITY: usize = 32;

/// The text of one number.
// Kept: C lends one of these, whatever is in it, so it is bytes with a length beside and no invariant (the C interface).
#[derive(Clone, Copy)]
#[repr(C)]
pub struct Numeral {
    bytes: [u8; CAPACITY],
    length: usize,
}

#[tactic(auto, unfolding(crate::specs::Numerals::text_of))]
impl Numeral {
    // The empty text, to write into.
    pub(crate) fn empty() -> Numeral
        ensures { text_of result ≡ [] }
    {
        Numeral {
            bytes: [0; CAPACITY],
            length: 0,
        }
    }

    // Puts one byte before the text.
    pub(crate) fn before(&mut self, byte: u8)
        requires { length (text_of self.old) < 32 }
        ensures { text_of self.new ≡ byte ∷ text_of self.old }
    {
        let place = CAPACITY - self.length - 1;
        self.bytes[place] = byte;
        self.length += 1;
    }

    /// The text.
    pub fn text(&self) -> &[u8]
        ensures { result.now ≡ text_of self.now }
    {
        let start = CAPACITY.saturating_sub(self.length);
        &self.bytes[start..]
    }
}
