//! Values that can be shown in an attribute.
//!
//! The ghost member `shown` is the bytes that a value means; showing it writes them, escaped for the quote in use.

ghost use Rattle.std.specs.Prelude.{◌≡◌, ℕ, List};
ghost use Rattle.markup.specs.State.{state};
ghost use Rattle.markup.specs.Escapes.{escape_value, after_escaped};

use crate::escapes::Escaped;
use crate::quotes::Quote;
use stores::Store;

/// A value that can be shown.
pub trait Shown {
    ghost shown: { Self → List ℕ };

    /// Writes the value inside an attribute's quotes.
    fn show<S: Store>(&self, out: &mut Escaped<'_, S, Quote>)
        ensures same_pen { out.new.pen.ghost_name ≡ out.old.pen.ghost_name }
        ensures same_quote { out.new.escape ≡ out.old.escape }
        ensures wrote { state S.Store out.new.pen.now ≡ after_escaped (state S.Store out.old.pen.now) (escape_value out.old.escape) (shown self.now) };
}

/// A text that is shown as it is.
#[derive(Clone, Copy, PartialEq, Eq, PartialOrd, Ord, Debug)]
pub struct Fixed<'a>(pub &'a [u8]);

impl<'a> Shown for Fixed<'a> {
    ghost shown = { λ v. v.0.now };

    fn show<S: Store>(&self, out: &mut Escaped<'_, S, Quote>) {
        out.write(self.0);
    }
}
