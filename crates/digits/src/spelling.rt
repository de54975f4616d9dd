// Whole numbers and decimals spelled out, from the last digit to the first.
ghost use Rattle.std.specs.Prelude.{◌≡◌, ◌+◌, ◌/◌, ◌%◌, ◌^◌, ◌<◌, ◌≤◌, [], ◌∷◌, ◌++◌, length, decimal};
ghost use Rattle.digits.specs.Decimals.{figures, pointed, spelling};
ghost use Rattle.digits.specs.Numerals.{text_of};

use crate::numerals::Numeral;

// Puts the last digit of a number before the text, and gives what is left of the number.
fn digit_before(numeral: &mut Numeral, number: u64) -> u64
    requires { length (text_of numeral.old) < 32 }
    ensures text { text_of numeral.new ≡ (48 + number % 10) ∷ text_of numeral.old }
    ensures rest { result ≡ number / 10 }
{
    numeral.before(b'0' + (number % 10) as u8);
    number / 10
}

// Puts a whole number before the text.
fn whole_before(numeral: &mut Numeral, number: u64)
    requires { length (text_of numeral.old) + length (decimal number) ≤ 32 }
    ensures { text_of numeral.new ≡ decimal number ++ text_of numeral.old }
{
    let mut rest = number;
    while rest >= 10 {
        rest = digit_before(numeral, rest);
    }
    digit_before(numeral, rest);
}

// Puts the last `count` digits of a number before the text, and gives what is left of the number.
#[tactic(auto, using(crate::proofs::Lengths::lengths))]
fn figures_before(numeral: &mut Numeral, number: u64, count: u32) -> u64
    requires { length (text_of numeral.old) + count ≤ 32 }
    ensures text { text_of numeral.new ≡ figures count number ++ text_of numeral.old }
    ensures rest { result ≡ number / 10 ^ count }
{
    let mut rest = number;
    for _place in 0..count {
        rest = digit_before(numeral, rest);
    }
    rest
}

/// A whole number in decimal.
#[tactic(auto, using(crate::proofs::Lengths::lengths))]
pub fn whole(number: u64) -> Numeral
    ensures { text_of result ≡ decimal number }
{
    let mut numeral = Numeral::empty();
    whole_before(&mut numeral, number);
    numeral
}

// The decimal `units` / 10 ^ `places`, with a minus where it is negative.
#[derive(Clone, Copy)]
pub(crate) struct Decimal {
    pub negative: bool,
    pub units: u64,
    pub places: u32,
    pub ghost below: { units < 2 ^ 41 },
    pub ghost short: { places ≤ 16 },
}

#[tactic(auto, using(crate::proofs::Lengths::lengths))]
impl Decimal {
    // Its plain text.
    pub(crate) fn spelled(self) -> Numeral
        ensures { text_of result ≡ spelling self.negative self.units self.places }
    {
        let mut numeral = Numeral::empty();
        let whole_part = self.fraction_before(&mut numeral);
        whole_before(&mut numeral, whole_part);
        if self.negative {
            numeral.before(b'-');
        }
        numeral
    }

    // Puts the point and the digits behind it before the empty text, unless there are none, and gives the whole part.
    fn fraction_before(self, numeral: &mut Numeral) -> u64
        requires { text_of numeral.old ≡ [] }
        ensures text { text_of numeral.new ≡ pointed self.places self.units }
        ensures whole { result ≡ self.units / 10 ^ self.places }
    {
        if self.places == 0 {
            return self.units;
        }
        let whole_part = figures_before(numeral, self.units, self.places);
        numeral.before(b'.');
        whole_part
    }
}
