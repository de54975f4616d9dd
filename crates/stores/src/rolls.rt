//! A roll: records of 64 bytes with no header. A record's first byte counts its text bytes, 0 to 63; the text follows,
//! and zeros fill the rest. A record is full before the next begins.
//!
//! The size is 63 for each whole record among the first 1,048,576 bytes; bytes after those records are never touched.

ghost use Rattle.std.specs.Prelude.{◌≡◌, ℕ, ◌+◌, ◌*◌, ◌/◌, ◌%◌, ◌<◌, ◌≤◌, [], ◌∷◌, ◌++◌, length, take, drop, OnSome};
ghost use Rattle.stores.specs.Meaning.{ByteAt};
ghost use Rattle.stores.specs.Reach.{reach};
ghost use Rattle.stores.specs.Seen.{size_of, seen_empty, seen_with, seen_within, front};
ghost use Rattle.stores.specs.Rolls.{records_of, roll_image, roll_text, read_roll, RollReadsBack};

use crate::buffers::{clear, reach_of};
use crate::{Full, Short, Store};
use std::marker::Model;

/// The bytes of a record, and those of its text.
const RECORD: usize = 64;

const TEXT: usize = 63;

// Kept: a length beside the buffer, which the caller lends, since the library has no heap.
// Kept: a struct beside `Page`, with which it shares what callers see (`Seen`), but no line of put, cut or byte that writes or reads.
/// A roll over a buffer that is lent.
#[derive(Drop)]
pub struct Roll<'a> {
    buffer: &'a mut [u8],
    records: usize,
    len: usize,
    // Asked for after each write through `buffer`; the invariant below is asked for only where the roll is next used whole.
    ghost laid: { take (64 * records) buffer.now ≡ roll_image records (roll_text records buffer.now) },
}

impl<'a> Model for Roll<'a> {
    ghost use Rattle.std.specs.Prelude.{◌-◌, ◌*◌, drop};
    ghost use Rattle.stores.specs.Seen.{Seen};
    ghost use Rattle.stores.specs.Rolls.{roll_text, IsRoll};

    ghost Value = { Seen };

    ghost view = { λ r. record { held = roll_text r.records r.buffer.now; room = 63 * r.records - r.len; beyond = drop (64 * r.records) r.buffer.now } };

    ghost invariant = { λ r. IsRoll r.records r.len r.buffer.now };
}

/// Where the record begins that has the byte at a place of the text, and where that byte stands.
fn spot(place: usize) -> (usize, usize)
    requires { place < 1048576 }
    ensures record { result.0 ≡ 64 * (place / 63) }
    ensures byte { result.1 ≡ 64 * (place / 63) + (place % 63 + 1) }
{
    let record = RECORD * (place / TEXT);
    (record, record + (place % TEXT + 1))
}

impl<'a> Roll<'a> {
    /// An empty roll over a buffer.
    pub fn new(buffer: &'a mut [u8]) -> Roll<'a>
        ensures { result ≡ seen_empty (63 * (reach buffer.old / 64)) (drop (64 * (reach buffer.old / 64)) buffer.old) }
    {
        let records = reach_of(buffer) / RECORD;
        clear(buffer, RECORD * records);
        Roll {
            buffer,
            records,
            len: 0,
        }
    }

    /// The whole buffer, as the roll laid it out.
    pub fn image(&self) -> &[u8]
        ensures image { result.now ≡ roll_image (records_of self.now) self.now.held ++ self.now.beyond }
        ensures sized { size_of self.now ≡ 63 * (reach result.now / 64) }
        ensures reads { read_roll result.now ≡ self.now.held }
    {
        &self.buffer[..]
    }

    /// The records alone.
    pub fn records(&self) -> &[u8]
        ensures image { result.now ≡ roll_image (records_of self.now) self.now.held }
        ensures sized { 64 * size_of self.now ≡ 63 * length result.now }
        ensures most { length result.now ≤ 1048576 }
    {
        &self.buffer[..RECORD * self.records]
    }

    // The writes of `put` and `cut`, each of which leaves a roll.

    // The count goes up, over a zero byte.
    fn count_up(&mut self)
        requires { 0 < self.old.room }
        ensures { self.new ≡ seen_with self.old (self.old.held ++ 0 ∷ []) }
    {
        let (record, _) = spot(self.len);
        self.buffer[record] = (self.len % TEXT + 1) as u8;
        self.len += 1;
    }

    // The last byte becomes another one.
    fn set_last(&mut self, byte: u8)
        requires { 0 < length self.old.held }
        ensures { self.new ≡ seen_with self.old (front self.old.held ++ byte ∷ []) }
    {
        let (_, place) = spot(self.len - 1);
        self.buffer[place] = byte;
    }

    // The count goes down, from a zero byte.
    fn count_down(&mut self)
        requires { self.old.held ≡ front self.old.held ++ 0 ∷ [] }
        ensures { self.new ≡ seen_with self.old (front self.old.held) }
    {
        let last = self.len - 1;
        let (record, _) = spot(last);
        self.buffer[record] = (last % TEXT) as u8;
        self.len = last;
    }
}

impl<'a> Store for Roll<'a> {
    ghost held = { λ r. r.held };

    ghost capacity = { size_of };

    ghost beyond = { λ r. r.beyond };

    ghost within = { seen_within };

    fn put(&mut self, byte: u8) -> Result<(), Full> {
        if self.len >= TEXT * self.records {
            return Err(Full);
        }
        self.count_up();
        self.set_last(byte);
        Ok(())
    }

    // Kept: byte by byte from the last one back, and no `fill`, so that after each single write the records lay out a text: the bytes kept,
    // and more of the old ones (the order of writes is promised).
    fn cut(&mut self, count: usize) -> Result<(), Short> {
        if count > self.count() {
            return Err(Short);
        }
        while self.count() > count {
            self.set_last(0);
            self.count_down();
        }
        Ok(())
    }

    fn size(&self) -> usize
        ensures size { result ≡ size_of self.now }
        ensures whole { result ≡ 63 * (result / 63) }
        ensures most { result ≤ 1032192 }
    {
        TEXT * self.records
    }

    fn count(&self) -> usize
        ensures count { result ≡ length self.now.held }
        ensures most { result ≤ 1032192 }
    {
        self.len
    }

    fn byte(&self, place: usize) -> Option<u8>
        ensures byte { ByteAt self.now.held place result }
        ensures near { OnSome result (place < 1032192) }
    {
        if place >= self.len {
            return None;
        }
        Some(self.buffer[spot(place).1])
    }
}

/// The theorem that the reader of a roll's raw bytes gives back any text that was laid out, whatever lies beyond.
pub fn roll_reads_back()
    ensures { RollReadsBack }
{}
