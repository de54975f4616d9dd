//! Attributes of a start tag: one writer for every kind of value.

ghost use Rattle.std.specs.Prelude.{◌≡◌, [], ◌∷◌};
ghost use Rattle.markup.specs.Pens.{after};
ghost use Rattle.markup.specs.State.{state};
ghost use Rattle.markup.specs.Attributes.{attribute, attributes_then};

use crate::escapes::Escaped;
use crate::pens::Pen;
use crate::quotes::Quote;
use crate::values::Shown;
use stores::Store;

// Kept: the pen and the quote apart, since all but the value is written unescaped and callers keep the pen.
/// A space, the name, an equals sign, and the value escaped and in quotes.
pub fn write_attribute<S: Store, V: Shown>(pen: &mut Pen<S>, quote: Quote, name: &[u8], value: &V)
    ensures { state S.Store pen.new ≡ after (state S.Store pen.old) (attributes_then (attribute quote name.now (V.Shown.shown value.now) ∷ []) []) }
{
    pen.byte(b' ');
    pen.bytes(name);
    pen.byte(b'=');
    pen.byte(quote.mark());
    value.show(&mut Escaped { pen, escape: quote });
    pen.byte(quote.mark());
}
