//! A verdict with the place it was found in.

ghost use Rattle.std.specs.Prelude.{◌≡◌};
ghost use Rattle.checks.specs.Verdicts.{found_in};

use drawing::faults::Found;

/// The same verdict; a fault now names its place.
pub fn found_at<P: Drop, F>(place: P, verdict: Result<(), F>) -> Result<(), Found<P, F>>
    ensures { result ≡ found_in place verdict }
{
    verdict.map_err(|fault| Found { place, fault })
}
