//! Values with a default. Such a value is first of all one that can be shown; it is left out exactly when it is its default.

ghost use Rattle.std.specs.Prelude.{◌≡◌, Bool, []};
ghost use Rattle.std.specs.Float.Ieee.{eq};
ghost use Rattle.std.specs.Str.{bytes_eq};
ghost use Rattle.markup.specs.Attributes.{attribute, attributes_then, unless};
ghost use Rattle.markup.specs.Numbers.{shown_bare};
ghost use Rattle.markup.specs.Pens.{after};
ghost use Rattle.markup.specs.State.{state};

use crate::attributes::write_attribute;
use crate::escapes::Escaped;
use crate::pens::Pen;
use crate::quotes::Quote;
use crate::values::{Fixed, Shown};
use stores::Store;

/// A value with a default.
pub trait Elidable: Shown {
    ghost plain: { Self → Bool };

    /// Whether it is its default.
    fn is_default(&self) -> bool
        ensures { result ≡ plain self.now };
}

/// An attribute, unless its value is the default.
pub fn write_unless_default<S: Store, V: Elidable>(
    pen: &mut Pen<S>,
    quote: Quote,
    name: &[u8],
    value: &V,
)
    ensures { state S.Store pen.new ≡ after (state S.Store pen.old) (attributes_then (unless (V.Elidable.plain value.now) (attribute quote name.now (V.Shown.shown value.now))) []) }
{
    if !value.is_default() {
        write_attribute(pen, quote, name, value);
    }
}

/// A value, and the one that is left out.
#[derive(Clone, Copy, PartialEq, Eq, Debug)]
pub struct WithDefault<V> {
    pub value: V,
    pub default: V,
}

/// A bare number with its default.
pub type Number = WithDefault<f32>;

/// A keyword, and the one that is left out.
pub type Keyword = WithDefault<Fixed<'static>>;

impl<V: Shown> Shown for WithDefault<V> {
    ghost shown = { λ v. V.Shown.shown v.value };

    fn show<S: Store>(&self, out: &mut Escaped<'_, S, Quote>) {
        self.value.show(out);
    }
}

impl<V: Shown + PartialEq> Elidable for WithDefault<V> {
    ghost plain = { λ v. V.PartialEq.eq v.value v.default };

    fn is_default(&self) -> bool {
        self.value == self.default
    }
}

/// A number is shown bare and left out where it equals its default as a float does; a keyword is shown as it is and left out
/// where it is the same word.
pub fn defaults_stand()
    ensures numbers_shown { (v : _) → ⟦<WithDefault<f32> as Shown>⟧.shown v ≡ shown_bare v.value }
    ensures keywords_shown { (v : _) → ⟦<WithDefault<Fixed<'static>> as Shown>⟧.shown v ≡ v.value.0.now }
    ensures numbers { (v : _) → ⟦<WithDefault<f32> as Elidable>⟧.plain v ≡ eq v.value v.default }
    ensures keywords { (v : _) → ⟦<WithDefault<Fixed<'static>> as Elidable>⟧.plain v ≡ bytes_eq v.value.0.now v.default.0.now }
{}
