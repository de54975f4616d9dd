//! What a plate's bytes read as.

ghost use Rattle.plates.specs.Forests.{ReadsAfterAll};

/// After any calls on a new plate, the bytes held and the closing marks are the rendering of the element list that the
/// accepted calls have made; and once everything open is closed, what is held reads by XML 1.0 as that list and as nothing
/// else.
pub fn reads_after_all()
    ensures { ReadsAfterAll }
{}
