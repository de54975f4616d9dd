//! Lists of shown values, joined by a separator.

ghost use Rattle.std.specs.Prelude.{◌≡◌};
ghost use Rattle.markup.specs.Lists.{joined_by};

use crate::escapes::Escaped;
use crate::quotes::Quote;
use crate::values::Shown;
use stores::Store;

/// Values one after the other, with the separator between two of them.
#[derive(Clone, Copy, PartialEq, Eq, Debug)]
pub struct Joined<'a, V> {
    pub items: &'a [V],
    pub separator: &'static [u8],
}

impl<'a, V: Shown> Shown for Joined<'a, V> {
    ghost shown = { λ v. joined_by v.separator.now V.Shown.shown v.items.now };

    fn show<S: Store>(&self, out: &mut Escaped<'_, S, Quote>) {
        if let Some((first, further)) = self.items.split_first() {
            first.show(out);
            for item in further {
                out.write(self.separator);
                item.show(out);
            }
        }
    }
}
