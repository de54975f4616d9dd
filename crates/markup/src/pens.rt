//! A pen writes to a store and never fails: past the end it only remembers that something was lost.
//!
//! A call marks where it begins, writes, and settles. Where a byte was lost, or the bytes owed afterwards would not fit,
//! settling cuts the store back to the mark, so that a call writes all of its bytes or none.

ghost use Rattle.std.specs.Prelude.{◌≡◌, ℕ, ◌-◌, ◌≤◌, false, List, [], length, is_ok};
ghost use Rattle.markup.specs.Pens.{pen, step, after, fits, settled, all_fit, called};
ghost use Rattle.markup.specs.State.{state};

use stores::{Full, Store};

/// A store that is written to, and whether a byte found no room since the last call was settled.
#[derive(Drop)]
pub struct Pen<S> {
    pub store: S,
    // Kept: a flag, for no value stands beside it, and the definitions have it as a Bool.
    pub lost: bool,
}

impl<S: Store> Pen<S> {
    /// A pen over a store, which is emptied.
    pub fn new(mut store: S) -> Pen<S>
        ensures { state S.Store result ≡ pen [] (S.Store.capacity store) false }
    {
        let _ = store.cut(0);
        Pen { store, lost: false }
    }

    /// One byte, held where there is room, else lost.
    pub fn byte(&mut self, byte: u8)
        ensures { state S.Store self.new ≡ step (state S.Store self.old) byte }
    {
        if self.store.put(byte).is_err() {
            self.lost = true;
        }
    }

    /// Bytes as they are.
    pub fn bytes(&mut self, bytes: &[u8])
        ensures { state S.Store self.new ≡ after (state S.Store self.old) bytes.now }
    {
        for byte in bytes {
            self.byte(*byte);
        }
    }

    /// Where a call begins: how many bytes are held.
    pub fn mark(&self) -> usize
        ensures { result ≡ length (S.Store.held self.now.store) }
    {
        self.store.count()
    }

    /// Ends a call. Where a byte was lost, or `owed` more bytes would not fit, cuts the store back to the first `mark` bytes.
    pub fn settle(&mut self, mark: usize, owed: usize) -> Result<(), Full>
        ensures told { is_ok result ≡ fits (state S.Store self.old) owed }
        ensures done { mark ≤ length (S.Store.held self.old.store) → state S.Store self.new ≡ settled (state S.Store self.old) mark owed }
        ensures clean { self.new.lost ≡ false }
    {
        let left = self.store.size() - self.store.count();
        if self.lost || left < owed {
            let _ = self.store.cut(mark);
            self.lost = false;
            return Err(Full);
        }
        Ok(())
    }

    /// A call: what `writing` writes, where that and the `owed` bytes after it fit, else nothing.
    pub fn call<W: Writing>(&mut self, writing: &W, owed: usize) -> Result<(), Full>
        ensures told { is_ok result ≡ all_fit (state S.Store self.old) (W.bytes writing.now) owed }
        ensures done { state S.Store self.new ≡ called (state S.Store self.old) (W.bytes writing.now) owed }
        ensures clean { self.new.lost ≡ false }
    {
        let mark = self.mark();
        writing.write(self);
        self.settle(mark, owed)
    }

    /// The store, with what it holds.
    pub fn into_store(self) -> S
        ensures { result ≡ self.store }
    {
        let Pen { store, lost: _ } = self;
        store
    }
}

/// What a call writes.
pub trait Writing {
    ghost bytes: { Self → List ℕ };

    fn write<S: Store>(&self, pen: &mut Pen<S>)
        ensures { state S.Store pen.new ≡ after (state S.Store pen.old) (bytes self.now) };
}
