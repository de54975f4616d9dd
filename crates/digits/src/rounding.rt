// The arithmetic of rounded numbers: whole numbers, and numbers rounded to some decimals, each step one f32 operation.
ghost use Rattle.std.specs.Float.Ieee as Ieee;
ghost use Rattle.std.specs.Float.{binary32};
ghost use Rattle.std.specs.Prelude.{◌≡◌, ◌≤◌, ◌<◌, true, false, MatchResult};
ghost use Rattle.digits.specs.Magnitudes.{rounded_domain};
ghost use Rattle.digits.specs.Rounded.{is_whole, power_of_ten, rounded_value, whole_part};

use crate::showing::{NumberFault, is_shown_rounded};
use std::num::{nearest_u32_to_f32, truncating_f32_to_u64};

// 4 * 2 ^ -149. A fraction above zero up to here counts as none.
const TINY: f32 = 5.6e-45;

// The highest precision.
const MOST_PRECISE: u8 = 8;

// How many decimals a number is rounded to.
#[derive(Clone, Copy)]
pub(crate) struct Precision {
    pub decimals: u8,
    pub ghost in_range: { decimals ≤ 8 },
}

impl TryFrom<u8> for Precision {
    type Error = NumberFault;

    ghost use Rattle.digits.specs.declared.showing.NumberFault.TheVariants.{PrecisionAboveEight};

    ghost try_from_gives = { λ decimals r. MatchResult r (λ p. p.decimals ≡ decimals) (λ fault. (fault ≡ PrecisionAboveEight) × (8 < decimals)) };

    fn try_from(decimals: u8) -> Result<Self, NumberFault> {
        if decimals > MOST_PRECISE {
            return Err(NumberFault::PrecisionAboveEight);
        }
        Ok(Precision { decimals })
    }
}

impl Precision {
    // 10 to the precision, which is an f32.
    fn power_of_ten(self) -> f32
        ensures { result ≡ power_of_ten self.decimals }
    {
        nearest_u32_to_f32(10u32.pow(self.decimals as u32))
    }
}

// A float that is shown rounded.
#[derive(Clone, Copy)]
pub(crate) struct Bounded {
    pub value: f32,
    pub ghost bounded: { rounded_domain value ≡ true },
}

impl TryFrom<f32> for Bounded {
    type Error = NumberFault;

    ghost use Rattle.digits.specs.declared.showing.NumberFault.TheVariants.{OutsideDomain};

    ghost try_from_gives = { λ value r. MatchResult r (λ x. x.value ≡ value) (λ fault. (fault ≡ OutsideDomain) × (rounded_domain value ≡ false)) };

    fn try_from(value: f32) -> Result<Self, NumberFault> {
        if !is_shown_rounded(value) {
            return Err(NumberFault::OutsideDomain);
        }
        Ok(Bounded { value })
    }
}

impl Bounded {
    // Rounded to some decimals, halves away from zero.
    pub(crate) fn rounded_value(self, precision: Precision) -> f32
        ensures { result ≡ rounded_value precision.decimals self.value }
    {
        let power = precision.power_of_ten();
        (self.value * power).round() / power
    }

    // Whether it counts as whole: its fraction is zero, or above zero and at most `TINY`.
    pub(crate) fn counts_as_whole(self) -> bool
        ensures { result ≡ is_whole self.value }
    {
        let fraction = self.value.fract();
        0.0 <= fraction && fraction <= TINY
    }

    // The whole part of the magnitude.
    pub(crate) fn whole_part(self) -> u64
        ensures { result ≡ whole_part self.value }
    {
        truncating_f32_to_u64(self.value.abs())
    }
}
