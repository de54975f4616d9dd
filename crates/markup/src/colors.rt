//! Colours, as `#rrggbb`.

ghost use Rattle.std.specs.Prelude.{◌≡◌, ◌<◌};
ghost use Rattle.markup.specs.Colors.{hex_digit, hex_color};

use crate::escapes::Escaped;
use crate::quotes::Quote;
use crate::values::Shown;
use drawing::rows::Color;
use stores::Store;

/// The small hexadecimal digit of a number.
pub fn hex_digit(number: u8) -> u8
    requires { number < 16 }
    ensures { result ≡ hex_digit number }
{
    if number < 10 {
        b'0' + number
    } else {
        b'a' + (number - 10)
    }
}

impl Shown for Color {
    ghost shown = { λ c. hex_color c.red c.green c.blue };

    fn show<S: Store>(&self, out: &mut Escaped<'_, S, Quote>) {
        // Kept: as the definition has it; a loop over the three parts is no shorter and wants an invariant.
        out.write(&[
            b'#',
            hex_digit(self.red / 16),
            hex_digit(self.red % 16),
            hex_digit(self.green / 16),
            hex_digit(self.green % 16),
            hex_digit(self.blue / 16),
            hex_digit(self.blue % 16),
        ]);
    }
}
