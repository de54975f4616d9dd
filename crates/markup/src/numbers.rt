//! Numbers that can be shown: whole, bare, and rounded at a precision.
//!
//! Their texts are those of the crate `digits`. A number that `digits` refuses shows nothing; the checks of a call refuse it
//! before anything is written.

ghost use Rattle.std.specs.Prelude.{◌≡◌, decimal};
ghost use Rattle.digits.specs.Numerals.{text_of};
ghost use Rattle.digits.specs.Outcomes.{shown as outcome};
ghost use Rattle.markup.specs.Numbers.{text_or_none, shown_bare, shown_rounded};

use crate::escapes::Escaped;
use crate::quotes::Quote;
use crate::values::Shown;
use digits::{NumberFault, Numeral};
use stores::Store;

impl Shown for Numeral {
    ghost shown = { text_of };

    fn show<S: Store>(&self, out: &mut Escaped<'_, S, Quote>) {
        out.write(self.text());
    }
}

// What `digits` answers. A refusal shows nothing.
impl Shown for Result<Numeral, NumberFault> {
    ghost shown = { λ answer. text_or_none (outcome answer) };

    fn show<S: Store>(&self, out: &mut Escaped<'_, S, Quote>) {
        if let Ok(numeral) = self {
            numeral.show(out);
        }
    }
}

/// A whole number, in decimal.
#[derive(Clone, Copy, PartialEq, Eq, Debug)]
pub struct Whole(pub u64);

impl Shown for Whole {
    ghost shown = { λ v. decimal v.0 };

    fn show<S: Store>(&self, out: &mut Escaped<'_, S, Quote>) {
        digits::whole(self.0).show(out);
    }
}

// A float is shown bare, as Rust's `Display` shows it.
impl Shown for f32 {
    ghost shown = { shown_bare };

    fn show<S: Store>(&self, out: &mut Escaped<'_, S, Quote>) {
        digits::bare(*self).show(out);
    }
}

/// A float rounded at a precision.
#[derive(Clone, Copy, PartialEq, Debug)]
pub struct Rounded {
    pub value: f32,
    pub precision: u8,
}

impl Shown for Rounded {
    ghost shown = { λ v. shown_rounded v.precision v.value };

    fn show<S: Store>(&self, out: &mut Escaped<'_, S, Quote>) {
        digits::rounded(self.value, self.precision).show(out);
    }
}
