//! A plate's state. It stands in a file of its own, so that definitions may name it.

ghost use Rattle.std.specs.Prelude.{◌≡◌, ◌≤◌, false, length};

use crate::elements::{Element, Stage};
use arrayvec::ArrayVec;
use markup::pens::Pen;

/// How many elements may be open.
pub(crate) const DEEPEST: usize = 32;

/// The open elements stand outermost first, and are at most 32. Between calls nothing counts as lost.
#[derive(Drop)]
pub struct Plate<S> {
    pub(crate) pen: Pen<S>,
    pub(crate) names: ArrayVec<Element, DEEPEST>,
    pub(crate) stage: Stage,
    ghost deep: { length names.items ≤ 32 },
    ghost clean: { pen.lost ≡ false },
}
