// Numbers as text: bare, rounded and whole.
//
// Each call gives a numeral, a small fixed value that holds the text, or refuses. What the texts are,
// how they read back as floats, and that no other text would do, is defined in specs/ and proved.
// Nothing here allocates.
#![tactic(auto)]

pub mod numerals;
mod places;
mod rounding;
mod scaled;
pub mod showing;
pub mod spelling;
pub mod theorems;

pub use numerals::Numeral;
pub use showing::{NumberFault, bare, rounded};
pub use spelling::whole;

#[cfg(test)]
mod tests;
