//! The rule for numbers: shown, and within the range of their attribute.
//!
//! A number that passes is one that `digits` shows: rounded or bare, as its attribute has it.

ghost use Rattle.std.specs.Prelude.{◌≡◌};
ghost use Rattle.checks.specs.Numbers.{shown_in, in_range, number_verdict};

use digits::showing::{is_shown_bare, is_shown_rounded};
use drawing::faults::{NumberFault, ValueFault};

/// Which numbers an attribute takes. All but the rounded ones are shown bare.
#[derive(Clone, Copy)]
pub enum Domain {
    Rounded,
    Bare,
    Fraction,
    AboveZero,
    AtLeastOne,
    AtLeastZero,
}

fn is_shown(domain: Domain, x: f32) -> bool
    ensures { result ≡ shown_in domain x }
{
    match domain {
        Domain::Rounded => is_shown_rounded(x),
        _ => is_shown_bare(x),
    }
}

fn is_in_range(domain: Domain, x: f32) -> bool
    ensures { result ≡ in_range domain x }
{
    match domain {
        Domain::Rounded | Domain::Bare => true,
        Domain::Fraction => (0.0..=1.0).contains(&x),
        Domain::AboveZero => 0.0 < x,
        Domain::AtLeastOne => 1.0 <= x,
        Domain::AtLeastZero => 0.0 <= x,
    }
}

/// A number of a domain.
#[tactic(auto, unfolding(crate::specs::Numbers::number_verdict))]
pub fn number(domain: Domain, x: f32) -> Result<(), ValueFault>
    ensures { result ≡ number_verdict domain x }
{
    if !is_shown(domain, x) {
        return Err(ValueFault::Number(NumberFault::OutsideDomain));
    }
    if !is_in_range(domain, x) {
        return Err(ValueFault::Number(NumberFault::OutOfRange));
    }
    Ok(())
}
