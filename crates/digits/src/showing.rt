// Floats as text, bare and rounded.
//
// Bare: the decimal with the fewest digits that reads back as the same f32, of those the nearest one, of two as near
// the larger; minus zero is `-0`. Rounded at a precision: a whole number in full, any other number rounded to that many
// decimals in f32 arithmetic and then shown bare. A call refuses a number outside its domain.
ghost use Rattle.std.specs.Prelude.{◌≡◌, ◌≤◌, true};
ghost use Rattle.digits.specs.Bare.{bare as bare-text};
ghost use Rattle.digits.specs.Magnitudes.{bare_domain, rounded_domain};
ghost use Rattle.digits.specs.Numerals.{text_of};
ghost use Rattle.digits.specs.Outcomes.{bare_outcome, rounded_outcome, shown};
ghost use Rattle.digits.specs.Rounded.{rounded as rounded-at, whole_text};

use crate::numerals::Numeral;
use crate::rounding::{Bounded, Precision};
use crate::scaled::take_apart;
use crate::spelling::Decimal;

/// Why a number has no text.
#[derive(Clone, Copy, PartialEq, Eq, Debug)]
pub enum NumberFault {
    OutsideDomain,
    PrecisionAboveEight,
}

// 2 ^ 40, the largest magnitude that is shown.
const MOST: f32 = 1099511627776.0;

// The f32 nearest to 10 ^ -8, the smallest magnitude above zero that is shown bare. Its bits are 322BCC77.
const LEAST: f32 = 1e-8;

/// Whether a float is shown bare: a zero, or of a magnitude from `LEAST` to `MOST`. No NaN is.
pub fn is_shown_bare(x: f32) -> bool
    ensures { result ≡ bare_domain x }
{
    let size = x.abs();
    size <= MOST && (x == 0.0 || LEAST <= size)
}

/// Whether a float is shown rounded: of a magnitude up to `MOST`. No NaN is.
pub fn is_shown_rounded(x: f32) -> bool
    ensures { result ≡ rounded_domain x }
{
    x.abs() <= MOST
}

// The bare text of a float of the domain.
fn shortest(x: f32) -> Numeral
    requires { bare_domain x ≡ true }
    ensures { text_of result ≡ bare-text x }
{
    if x == 0.0 {
        return Decimal {
            negative: x.is_sign_negative(),
            units: 0,
            places: 0,
        }
        .spelled();
    }
    let parts = take_apart(x);
    let (units, place) = parts.search_places();
    Decimal {
        negative: parts.negative,
        units: units as u64 * 10u64.pow(12u32.saturating_sub(place)),
        places: place.saturating_sub(12),
    }
    .spelled()
}

/// A float as a bare number.
pub fn bare(x: f32) -> Result<Numeral, NumberFault>
    ensures { shown result ≡ bare_outcome x }
{
    if is_shown_bare(x) {
        Ok(shortest(x))
    } else {
        Err(NumberFault::OutsideDomain)
    }
}

impl Bounded {
    // Its text where it counts as whole: the whole part in full, with a minus unless it is zero.
    fn whole_text(self) -> Numeral
        ensures { text_of result ≡ whole_text self.value }
    {
        let whole = self.whole_part();
        Decimal {
            negative: self.value.is_sign_negative() && whole != 0,
            units: whole,
            places: 0,
        }
        .spelled()
    }

    // Its rounded text.
    #[tactic(auto, using(crate::proofs::RoundedText::rounded_whole, crate::proofs::RoundedText::rounded_other))]
    fn rounded_text(self, precision: Precision) -> Numeral
        ensures { text_of result ≡ rounded-at precision.decimals self.value }
    {
        if self.counts_as_whole() {
            self.whole_text()
        } else {
            shortest(self.rounded_value(precision))
        }
    }
}

/// A float as a rounded number, with at most `precision` decimals.
pub fn rounded(x: f32, precision: u8) -> Result<Numeral, NumberFault>
    ensures { shown result ≡ rounded_outcome precision x }
{
    let precision = Precision::try_from(precision)?;
    let number = Bounded::try_from(x)?;
    Ok(number.rounded_text(precision))
}
