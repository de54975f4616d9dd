//! A sheet: the lists of a drawing, owned, and the statements that add to them.

ghost use Rattle.std.specs.Mem.{FitsInMemory};

use crate::entries::{Entry, take_entries};
use crate::lists::{MOST, append};
use crate::rows::{Row, take_row};
use drawing::rows::{
    BaseGradient, BaselineShift, FontFamily, Group, Image, Path, PathSegment, Place, Stop, Text,
    TextChunk, TextSpan,
};
use drawing::tables::{Drawing, Node};
use scripts::cursors::{Words, take_number};
use scripts::failures::{Expected, Failure};
use std::alloc::Global;

#[derive(Drop)]
pub struct Sheet {
    nodes: Vec<Node>,
    groups: Vec<Group>,
    paths: Vec<Path>,
    images: Vec<Image>,
    texts: Vec<Text>,
    chunks: Vec<TextChunk>,
    spans: Vec<TextSpan>,
    segments: Vec<PathSegment>,
    numbers: Vec<f32>,
    references: Vec<Place>,
    families: Vec<FontFamily>,
    shifts: Vec<BaselineShift>,
    gradients: Vec<BaseGradient>,
    stops: Vec<Stop>,
    pool: Vec<u8>,
}

/// Adds a row, so many times over.
fn add_row<R: Row>(
    list: &mut Vec<R>,
    pool: &mut Vec<u8>,
    times: usize,
    words: &mut Words,
) -> Result<(), Failure>
    requires { FitsInMemory R.row }
{
    let row = take_row(words, pool)?;
    append(words, list, &[row], times)
}

/// Adds the entries of a line, so many times over.
fn add_entries<E: Entry + Drop>(
    list: &mut Vec<E>,
    pool: &mut Vec<u8>,
    times: usize,
    words: &mut Words,
) -> Result<(), Failure> {
    let entries = take_entries(words, pool)?;
    append(words, list, entries.as_slice(), times)
}

/// Adds the bytes of the words of a line, so many times over.
fn add_texts(pool: &mut Vec<u8>, times: usize, words: &mut Words) -> Result<(), Failure> {
    let mut bytes = Vec::new(words.heap);
    for word in words.by_ref() {
        bytes.extend_from_slice(word)?;
    }
    append(words, pool, bytes.as_slice(), times)
}

impl Sheet {
    /// No entries.
    pub fn new(heap: Global) -> Sheet {
        Sheet {
            nodes: Vec::new(heap),
            groups: Vec::new(heap),
            paths: Vec::new(heap),
            images: Vec::new(heap),
            texts: Vec::new(heap),
            chunks: Vec::new(heap),
            spans: Vec::new(heap),
            segments: Vec::new(heap),
            numbers: Vec::new(heap),
            references: Vec::new(heap),
            families: Vec::new(heap),
            shifts: Vec::new(heap),
            gradients: Vec::new(heap),
            stops: Vec::new(heap),
            pool: Vec::new(heap),
        }
    }

    /// The drawing that these lists are.
    pub fn drawing(&self) -> Drawing<'_> {
        Drawing {
            nodes: self.nodes.as_slice(),
            groups: self.groups.as_slice(),
            paths: self.paths.as_slice(),
            images: self.images.as_slice(),
            texts: self.texts.as_slice(),
            chunks: self.chunks.as_slice(),
            spans: self.spans.as_slice(),
            segments: self.segments.as_slice(),
            numbers: self.numbers.as_slice(),
            references: self.references.as_slice(),
            families: self.families.as_slice(),
            shifts: self.shifts.as_slice(),
            gradients: self.gradients.as_slice(),
            stops: self.stops.as_slice(),
            pool: self.pool.as_slice(),
        }
    }

    /// Adds what the rest of a line says to the list that its first word names, if it names one.
    fn add(&mut self, name: &[u8], times: usize, words: &mut Words) -> Option<Result<(), Failure>> {
        let pool = &mut self.pool;
        Some(match name {
            b"nodes" => add_row(&mut self.nodes, pool, times, words),
            b"groups" => add_row(&mut self.groups, pool, times, words),
            b"paths" => add_row(&mut self.paths, pool, times, words),
            b"images" => add_row(&mut self.images, pool, times, words),
            b"texts" => add_row(&mut self.texts, pool, times, words),
            b"chunks" => add_row(&mut self.chunks, pool, times, words),
            b"spans" => add_row(&mut self.spans, pool, times, words),
            b"segments" => add_entries(&mut self.segments, pool, times, words),
            b"numbers" => add_entries(&mut self.numbers, pool, times, words),
            b"references" => add_entries(&mut self.references, pool, times, words),
            b"families" => add_entries(&mut self.families, pool, times, words),
            b"shifts" => add_entries(&mut self.shifts, pool, times, words),
            b"gradients" => add_row(&mut self.gradients, pool, times, words),
            b"stops" => add_row(&mut self.stops, pool, times, words),
            b"pool" => add_texts(pool, times, words),
            _ => return None,
        })
    }

    /// `N LIST ..`, after `repeat`
    fn add_repeated(&mut self, words: &mut Words) -> Result<(), Failure> {
        let times = take_number(words, MOST as u64, Expected::Times)? as usize;
        let name = words.word(Expected::List)?;
        self.add(name, times, words)
            .unwrap_or_else(|| Err(words.instead(Expected::List, name)))
    }

    /// Reads a statement that begins with a word, if it is one of a table.
    pub fn read(&mut self, name: &[u8], words: &mut Words) -> Option<Result<(), Failure>> {
        match name {
            b"repeat" => Some(self.add_repeated(words)),
            _ => self.add(name, 1, words),
        }
    }
}
