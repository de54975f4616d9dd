//! Stores: where the bytes of a plate go.
//!
//! A store means a list of bytes held and a capacity that never changes and is never exceeded. `put` adds one byte at
//! the end and refuses exactly when the store is full; `cut` keeps the first bytes and refuses exactly when fewer are
//! held; neither touches what lies beyond the store's reach; the questions tell the capacity, the count held and the
//! byte at a place. Questions and refusals alter nothing. [`Page`](pages::Page) and [`Roll`](rolls::Roll) lay the bytes
//! out in a caller's buffer.
#![tactic(auto)]

ghost use Rattle.std.specs.Prelude.{◌≡◌, ℕ, ◌≤◌, List, [], length};
ghost use Rattle.stores.specs.Meaning.{Put, Cut, ByteAt};

mod buffers;
pub mod pages;
pub mod rolls;

// Kept: two types, since put refuses only as `Full` and cut only as `Short`; one enum of both would say less.
/// Refused: the store holds as many bytes as it can.
#[derive(Clone, Copy, Debug, PartialEq, Eq)]
pub struct Full;

/// Refused: the store holds fewer bytes than were to be kept.
#[derive(Clone, Copy, Debug, PartialEq, Eq)]
pub struct Short;

/// A store, by the bytes that it holds, how many it can hold, and the bytes beyond its reach.
pub trait Store {
    ghost held: { Self → List ℕ };

    ghost capacity: { Self → ℕ };

    ghost beyond: { Self → List ℕ } = { λ _. [] };

    ghost within: { (s : Self) → length (held s) ≤ capacity s };

    /// Adds one byte at the end, or refuses a full store.
    fn put(&mut self, byte: u8) -> Result<(), Full>
        ensures sized { capacity self.new ≡ capacity self.old }
        ensures cases { Put (held self.old) (capacity self.old) byte (held self.new) result }
        ensures beyond { beyond self.new ≡ beyond self.old };

    /// Keeps the first `count` bytes, or refuses where fewer are held.
    fn cut(&mut self, count: usize) -> Result<(), Short>
        ensures sized { capacity self.new ≡ capacity self.old }
        ensures cases { Cut (held self.old) count (held self.new) result }
        ensures beyond { beyond self.new ≡ beyond self.old };

    /// How many bytes it can hold.
    fn size(&self) -> usize
        ensures { result ≡ capacity self.now };

    /// How many bytes it holds.
    fn count(&self) -> usize
        ensures { result ≡ length (held self.now) };

    /// The byte at a place, or none past the end.
    fn byte(&self, place: usize) -> Option<u8>
        ensures { ByteAt (held self.now) place result };
}
