// A float taken apart: its sign, its 24 binary digits, and the power of two that they stand at.
ghost use Rattle.std.specs.Float.Ieee as Ieee;
ghost use Rattle.std.specs.Prelude.{◌≡◌, ◌^◌, ◌<◌, ◌≤◌, true, false};
ghost use Rattle.digits.specs.Magnitudes.{least, most};
ghost use Rattle.digits.specs.Scaled.{Parts};
ghost use Rattle.std.specs.Float.{float_with_sign};

// `significand` * 2 ^ `power` of 2 ^ -149ths.
#[derive(Clone, Copy)]
pub(crate) struct Scaled {
    pub negative: bool,
    pub significand: u32,
    pub power: u32,
    pub ghost short: { significand < 2 ^ 24 },
    pub ghost above: { 99 ≤ power },
    pub ghost below: { power ≤ 166 },
}

// The fields of the bits. All 24 digits are there, since the least float shown bare is well above the subnormal ones.
pub(crate) fn take_apart(x: f32) -> Scaled
    requires small { Ieee.le (float_with_sign false x) most ≡ true }
    requires large { Ieee.le least (float_with_sign false x) ≡ true }
    ensures { Parts x result.negative result.significand result.power }
{
    let bits = x.to_bits();
    Scaled {
        negative: bits >= 0x8000_0000,
        significand: 0x80_0000 + bits % 0x80_0000,
        power: bits % 0x8000_0000 / 0x80_0000 - 1,
    }
}
