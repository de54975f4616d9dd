// The search for the shortest decimal, place by place from 10 ^ 12 down to 10 ^ -16.
//
// The place `i` is worth 10 ^ (12 - i). At each place the float and one unit of the place are brought to one scale,
// worked out afresh from one: the float is its significand times the `gap`, the distance to the next float above,
// and a decimal of the place is a multiple of the `step`. At most two multiples can read back as the float and be
// the nearest: the one just below it and the one just above.
ghost use Rattle.std.specs.Prelude.{◌≡◌, ◌*◌, ◌^◌, ◌<◌, ◌≤◌};
ghost use Rattle.digits.specs.Scaled.{gap, step, units_at, within, FirstUnits};

use crate::scaled::Scaled;

// The significand of a power of two: the floats below it are twice as close as those above.
const POWER_OF_TWO: u32 = 0x80_0000;

// A float at one place, in one scale: it is `significand` times `gap`, and a unit of the place is `step`.
#[derive(Clone, Copy)]
struct Place {
    significand: u32,
    gap: u128,
    step: u128,
    ghost short: { significand < 2 ^ 24 },
    ghost narrow: { gap ≤ 2 ^ 72 },
    ghost some: { 0 < step },
    ghost small: { step ≤ 2 ^ 96 },
}

impl Place {
    // The float.
    fn exact(self) -> u128
        ensures value { result ≡ self.significand * self.gap }
        ensures small { result ≤ 2 ^ 96 }
    {
        self.significand as u128 * self.gap
    }

    // Whether `number` reads back as the float. Half way to the next float, it does where the significand is even.
    fn reads_back(self, number: u128) -> bool
        requires { number ≤ 2 ^ 100 }
        ensures { result ≡ within self.significand number self.gap }
    {
        let exact = self.exact();
        let gap = self.gap;
        let even = self.significand % 2 == 0;
        let not_above = if even {
            2 * number <= 2 * exact + gap
        } else {
            2 * number < 2 * exact + gap
        };
        let not_below = if self.significand == POWER_OF_TWO {
            4 * exact <= 4 * number + gap
        } else if even {
            2 * exact <= 2 * number + gap
        } else {
            2 * exact < 2 * number + gap
        };
        not_above && not_below
    }

    // The units of the place that read back: of the multiples of `step` below and above the float the nearer one,
    // of two as near the one above, and 0 where none reads back.
    fn nearest_units(self) -> u128
        ensures { result ≡ units_at self.significand self.gap self.step }
    {
        let exact = self.exact();
        let units = exact / self.step;
        let rest = exact % self.step;
        let low = self.reads_back(exact - rest);
        let high = self.reads_back(exact - rest + self.step);
        if high && (self.step <= 2 * rest || !low) {
            units + 1
        } else if low {
            units
        } else {
            0
        }
    }
}

impl Scaled {
    // The float's gap at a place.
    fn gap_at(self, place: u32) -> u128
        requires { place ≤ 28 }
        ensures value { result ≡ gap self.power place }
        ensures small { result ≤ 2 ^ 72 }
    {
        2u128.pow(self.power.saturating_sub(149)) * 10u128.pow(place.saturating_sub(12))
    }

    // One unit of a place.
    fn step_at(self, place: u32) -> u128
        ensures value { result ≡ step self.power place }
        ensures small { result ≤ 2 ^ 96 }
        ensures some { 0 < result }
    {
        2u128.pow(149u32.saturating_sub(self.power)) * 10u128.pow(12u32.saturating_sub(place))
    }

    // The units that read back at a place, and 0 where none do. Inlined, the search is a twentieth faster.
    #[inline(always)]
    fn nearest_at(self, place: u32) -> u128
        requires { place ≤ 28 }
        ensures { result ≡ units_at self.significand (gap self.power place) (step self.power place) }
    {
        Place {
            significand: self.significand,
            gap: self.gap_at(place),
            step: self.step_at(place),
        }
        .nearest_units()
    }

    // The first place at which some units read back, and those units. At the last place some always do.
    pub(crate) fn search_places(self) -> (u128, u32)
        ensures { FirstUnits self.significand self.power result.0 result.1 }
    {
        // Kept: as `(0..28).map(..).find(..).unwrap_or_else(..)` the proof did not close (`search` at `returns`).
        for place in 0..28 {
            let units = self.nearest_at(place);
            if units > 0 {
                return (units, place);
            }
        }
        (self.nearest_at(28), 28)
    }
}
