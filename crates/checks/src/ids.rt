//! The rule for ids: at most 64 bytes, each an ASCII letter, a digit, `_`, `-`, `.` or `:`. An id that is referred to
//! is not empty.

ghost use Rattle.std.specs.Prelude.{◌≡◌};
ghost use Rattle.checks.specs.Ids.{id_byte, id_bytes, id_verdict, id_in, reference_verdict};

use crate::verdicts::found_at;
use drawing::faults::{AttributeFault, IdFault, ValueFault};
use drawing::names::AId;

/// The most bytes of an id.
const LONGEST: usize = 64;

pub fn is_id_byte(byte: u8) -> bool
    ensures { result ≡ id_byte byte }
{
    matches!(byte, b'A'..=b'Z' | b'a'..=b'z' | b'0'..=b'9' | b'_' | b'-' | b'.' | b':')
}

pub fn has_id_bytes(bytes: &[u8]) -> bool
    ensures { result ≡ id_bytes bytes.now }
{
    bytes.iter().all(|byte| is_id_byte(*byte))
}

/// An id, which may be empty.
#[tactic(auto, unfolding(crate::specs::Ids::id_verdict))]
pub fn id(bytes: &[u8]) -> Result<(), ValueFault>
    ensures { result ≡ id_verdict bytes.now }
{
    if bytes.len() > LONGEST {
        return Err(ValueFault::Id(IdFault::TooLong));
    }
    if !has_id_bytes(bytes) {
        return Err(ValueFault::Id(IdFault::BadByte));
    }
    Ok(())
}

/// An id that is referred to, which may not be empty.
#[tactic(auto, unfolding(crate::specs::Ids::reference_verdict))]
pub fn reference(bytes: &[u8]) -> Result<(), ValueFault>
    ensures { result ≡ reference_verdict bytes.now }
{
    if bytes.is_empty() {
        return Err(ValueFault::Id(IdFault::Missing));
    }
    id(bytes)
}

/// An id in an attribute.
#[tactic(auto, unfolding(crate::specs::Ids::id_in))]
pub fn id_at(attribute: AId, bytes: &[u8]) -> Result<(), AttributeFault>
    ensures { result ≡ id_in attribute bytes.now }
{
    Ok(found_at(attribute, id(bytes))?)
}
