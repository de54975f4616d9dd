//! Theorems about plates, each named by the contract of a function.

ghost use Rattle.plates.specs.Known.{Known};
ghost use Rattle.plates.specs.Promise.{ClosesAfterAll};

/// After any calls on a new plate, close succeeds exactly as many times running as elements are open, and adds exactly the
/// closing marks: it never lacks room.
pub fn closes_after_all()
    ensures { ClosesAfterAll }
{}

/// Known texts and limits.
pub fn known_texts()
    ensures { Known }
{}
