//! The static library of `digits`, for programs in other languages: two calls, and no others.
//!
//! The numeral is written to where the caller points, and the answer says whether there is one. A refused number leaves
//! it as it was.
#![tactic(auto)]

ghost use Rattle.std.specs.Prelude.{◌≡◌};
ghost use Rattle.digits.specs.Numerals.{text_of};
ghost use Rattle.digits.specs.Outcomes.{bare_outcome, rounded_outcome, shown, LeftWith};

use digits::numerals::Numeral;
use digits::showing::{NumberFault, bare, rounded};

// Writes the numeral to `out`, if there is one, and says whether there is.
fn hand_over(answer: Result<Numeral, NumberFault>, out: &mut Numeral) -> bool
    ensures { LeftWith (shown answer) (text_of out.old) result (text_of out.new) }
{
    match answer {
        Ok(numeral) => {
            *out = numeral;
            true
        }
        Err(_) => false,
    }
}

// Kept: C has no `Result`, so each call answers a bool beside the numeral that it writes (the C interface).
/// A float as a bare number.
#[unsafe(no_mangle)]
pub extern "C" fn digits_bare(x: f32, out: &mut Numeral) -> bool
    ensures { LeftWith (bare_outcome x) (text_of out.old) result (text_of out.new) }
{
    hand_over(bare(x), out)
}

/// A float as a rounded number.
#[unsafe(no_mangle)]
pub extern "C" fn digits_rounded(x: f32, precision: u8, out: &mut Numeral) -> bool
    ensures { LeftWith (rounded_outcome precision x) (text_of out.old) result (text_of out.new) }
{
    hand_over(rounded(x, precision), out)
}
