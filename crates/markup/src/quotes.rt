//! The quote around an attribute's value.

ghost use Rattle.std.specs.Prelude.{◌≡◌};
ghost use Rattle.markup.specs.Escapes.{quote_mark, quote_entity};

/// The quote around a value.
#[derive(Clone, Copy, PartialEq, Eq, Debug)]
pub enum Quote {
    Double,
    Single,
}

impl Quote {
    /// The quote itself.
    pub fn mark(self) -> u8
        ensures { result ≡ quote_mark self }
    {
        match self {
            Quote::Double => b'"',
            Quote::Single => b'\'',
        }
    }

    /// What stands for it inside a value.
    pub fn entity(self) -> &'static [u8]
        ensures { result.now ≡ quote_entity self }
    {
        match self {
            Quote::Double => b"&quot;",
            Quote::Single => b"&apos;",
        }
    }
}
