//! A page: the bytes held stand at the start of the buffer, and zeros follow them.
//!
//! The page's size is the buffer's length, but at most 1,048,576; bytes beyond are never touched.

ghost use Rattle.std.specs.Prelude.{◌≡◌, ◌<◌, ◌≤◌, [], ◌∷◌, ◌++◌, length, drop, OnSome};
ghost use Rattle.stores.specs.Meaning.{ByteAt};
ghost use Rattle.stores.specs.Reach.{reach};
ghost use Rattle.stores.specs.Seen.{size_of, seen_empty, seen_with, seen_within, front};
ghost use Rattle.stores.specs.Pages.{page_image};

use crate::buffers::{clear, reach_of};
use crate::{Full, Short, Store};
use std::marker::Model;

// Kept: a length beside the buffer, which the caller lends, since the library has no heap.
/// A page over a buffer that is lent.
#[derive(Drop)]
pub struct Page<'a> {
    buffer: &'a mut [u8],
    size: usize,
    len: usize,
}

impl<'a> Model for Page<'a> {
    ghost use Rattle.std.specs.Prelude.{◌-◌, take, drop};
    ghost use Rattle.stores.specs.Seen.{Seen};
    ghost use Rattle.stores.specs.Pages.{IsPage};

    ghost Value = { Seen };

    ghost view = { λ p. record { held = take p.len p.buffer.now; room = p.size - p.len; beyond = drop p.size p.buffer.now } };

    ghost invariant = { λ p. IsPage p.size p.len p.buffer.now };
}

impl<'a> Page<'a> {
    /// An empty page over a buffer.
    pub fn new(buffer: &'a mut [u8]) -> Page<'a>
        ensures { result ≡ seen_empty (reach buffer.old) (drop (reach buffer.old) buffer.old) }
    {
        let size = reach_of(buffer);
        clear(buffer, size);
        Page {
            buffer,
            size,
            len: 0,
        }
    }

    /// The bytes held.
    pub fn text(&self) -> &[u8]
        ensures held { result.now ≡ self.now.held }
        ensures most { length result.now ≤ 1048576 }
    {
        &self.buffer[..self.len]
    }

    /// The whole buffer, as the page laid it out.
    pub fn image(&self) -> &[u8]
        ensures image { result.now ≡ page_image (size_of self.now) self.now.held self.now.beyond }
        ensures reach { size_of self.now ≡ reach result.now }
    {
        &self.buffer[..]
    }

    // The writes of `cut`, each of which leaves a page.

    // The last byte is cleared.
    fn clear_last(&mut self)
        requires { 0 < length self.old.held }
        ensures { self.new ≡ seen_with self.old (front self.old.held ++ 0 ∷ []) }
    {
        let last = self.len - 1;
        self.buffer[last] = 0;
    }

    // A zero byte at the end is no longer counted.
    fn count_down(&mut self)
        requires { self.old.held ≡ front self.old.held ++ 0 ∷ [] }
        ensures { self.new ≡ seen_with self.old (front self.old.held) }
    {
        self.len -= 1;
    }
}

impl<'a> Store for Page<'a> {
    ghost held = { λ p. p.held };

    ghost capacity = { size_of };

    ghost beyond = { λ p. p.beyond };

    ghost within = { seen_within };

    fn put(&mut self, byte: u8) -> Result<(), Full> {
        if self.len >= self.size {
            return Err(Full);
        }
        self.buffer[self.len] = byte;
        self.len += 1;
        Ok(())
    }

    // Kept: byte by byte from the last one back, and no `fill`, so that after each single write the page lays out a text: the bytes kept, and
    // more of the old ones (the order of writes is promised).
    fn cut(&mut self, count: usize) -> Result<(), Short> {
        if count > self.count() {
            return Err(Short);
        }
        while self.count() > count {
            self.clear_last();
            self.count_down();
        }
        Ok(())
    }

    fn size(&self) -> usize
        ensures size { result ≡ size_of self.now }
        ensures most { result ≤ 1048576 }
    {
        self.size
    }

    fn count(&self) -> usize
        ensures count { result ≡ length self.now.held }
        ensures most { result ≤ 1048576 }
    {
        self.text().len()
    }

    fn byte(&self, place: usize) -> Option<u8>
        ensures byte { ByteAt self.now.held place result }
        ensures near { OnSome result (place < 1048576) }
    {
        self.text().get(place).copied()
    }
}
