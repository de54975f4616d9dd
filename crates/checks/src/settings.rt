//! The rule for a call's options: precisions of at most 8, and a prefix of at most 32 id bytes.

ghost use Rattle.std.specs.Prelude.{◌≡◌};
ghost use Rattle.checks.specs.Settings.{prefix_stands, settings_stand};

use crate::ids::has_id_bytes;
use drawing::options::WriteOptions;

/// The largest precision, and the most bytes of a prefix.
const FINEST: u8 = 8;

const LONGEST_PREFIX: usize = 32;

fn is_prefix(prefix: &[u8]) -> bool
    ensures { result ≡ prefix_stands prefix.now }
{
    prefix.len() <= LONGEST_PREFIX && has_id_bytes(prefix)
}

/// Whether a call may be made with these options.
pub fn are_settings(options: &WriteOptions) -> bool
    ensures { result ≡ settings_stand options.now }
{
    options.coordinates_precision <= FINEST
        && options.transforms_precision <= FINEST
        && is_prefix(options.prefix())
}
