//! Adding to a list, within the room that a script has.

use scripts::cursors::Words;
use scripts::failures::{Expected, Failure};

/// The most entries of any list: well above every limit of a drawing, so that a script can also break it.
pub const MOST: usize = 100_000;

/// Whether so many entries more, so many times, still have room.
fn has_room(held: usize, more: usize, times: usize) -> bool {
    more.checked_mul(times)
        .and_then(|all| held.checked_add(all))
        .is_some_and(|all| all <= MOST)
}

/// Adds entries to a list, so many times over.
pub fn append<T: Copy>(
    words: &Words,
    list: &mut Vec<T>,
    more: &[T],
    times: usize,
) -> Result<(), Failure> {
    if !has_room(list.len(), more.len(), times) {
        return Err(words.ended(Expected::Room));
    }
    for _ in 0..times {
        list.extend_from_slice(more)?;
    }
    Ok(())
}
