//! The words of a line, read byte by byte.
//!
//! A word is plain, or stands in double quotes with the escapes `\"`, `\\`, `\n`, `\r`, `\t` and `\xHH`. Spaces and tabs
//! part words.

use crate::failures::{Expected, Failure, at_line_end, at_word};
use crate::numbers::{hex_byte, hex_value};
use std::alloc::Global;

/// Where in a line the reader is.
#[derive(Clone, Copy)]
enum Stage {
    Between,
    Plain,
    Quoted,
    /// After a backslash.
    Escape,
    /// After `\x`.
    High,
    /// After `\x` and a digit.
    Low(u8),
    /// After a closing quote.
    Closed,
}

/// The words that are whole, and the one that is being read.
#[derive(Drop)]
struct Reader {
    heap: Global,
    /// The number of the line.
    line: usize,
    words: Vec<Vec<u8>>,
    word: Vec<u8>,
    stage: Stage,
}

impl Reader {
    fn new(heap: Global, line: usize) -> Reader {
        Reader {
            heap,
            line,
            words: Vec::new(heap),
            word: Vec::new(heap),
            stage: Stage::Between,
        }
    }

    /// The failure at a byte that cannot stand there.
    fn instead(&self, expected: Expected, byte: u8) -> Failure {
        at_word(self.heap, self.line, expected, &[byte])
    }

    /// The failure where the line ends too early.
    fn ended(&self, expected: Expected) -> Failure {
        at_line_end(self.line, expected)
    }

    fn add(&mut self, byte: u8, stage: Stage) -> Result<Stage, Failure> {
        self.word.push(byte)?;
        Ok(stage)
    }

    fn end_word(&mut self, stage: Stage) -> Result<Stage, Failure> {
        let word = std::mem::replace(&mut self.word, Vec::new(self.heap));
        self.words.push(word)?;
        Ok(stage)
    }

    fn escape(&mut self, byte: u8) -> Result<Stage, Failure> {
        match byte {
            b'"' | b'\\' => self.add(byte, Stage::Quoted),
            b'n' => self.add(b'\n', Stage::Quoted),
            b'r' => self.add(b'\r', Stage::Quoted),
            b't' => self.add(b'\t', Stage::Quoted),
            b'x' => Ok(Stage::High),
            _ => Err(self.instead(Expected::Escape, byte)),
        }
    }

    fn high(&mut self, byte: u8) -> Result<Stage, Failure> {
        match hex_value(byte) {
            Some(_) => Ok(Stage::Low(byte)),
            None => Err(self.instead(Expected::HexDigit, byte)),
        }
    }

    fn low(&mut self, high: u8, byte: u8) -> Result<Stage, Failure> {
        match hex_byte(high, byte) {
            Some(said) => self.add(said, Stage::Quoted),
            None => Err(self.instead(Expected::HexDigit, byte)),
        }
    }

    /// Takes a byte, and says where the reader is after it.
    fn take(&mut self, byte: u8) -> Result<Stage, Failure> {
        match (self.stage, byte) {
            (Stage::Between | Stage::Closed, b' ' | b'\t') => Ok(Stage::Between),
            (Stage::Between, b'"') => Ok(Stage::Quoted),
            (Stage::Plain, b' ' | b'\t') => self.end_word(Stage::Between),
            (Stage::Plain, b'"') | (Stage::Closed, _) => Err(self.instead(Expected::Blank, byte)),
            (Stage::Between | Stage::Plain, _) => self.add(byte, Stage::Plain),
            (Stage::Quoted, b'"') => self.end_word(Stage::Closed),
            (Stage::Quoted, b'\\') => Ok(Stage::Escape),
            (Stage::Quoted, _) => self.add(byte, Stage::Quoted),
            (Stage::Escape, _) => self.escape(byte),
            (Stage::High, _) => self.high(byte),
            (Stage::Low(high), _) => self.low(high, byte),
        }
    }

    fn end_line(mut self) -> Result<Vec<Vec<u8>>, Failure> {
        match self.stage {
            Stage::Between | Stage::Closed => Ok(self.words),
            Stage::Plain => {
                self.end_word(Stage::Between)?;
                Ok(self.words)
            }
            Stage::Quoted => Err(self.ended(Expected::ClosingQuote)),
            Stage::Escape => Err(self.ended(Expected::Escape)),
            Stage::High | Stage::Low(_) => Err(self.ended(Expected::HexDigit)),
        }
    }
}

/// The words of a line of some number.
pub fn words_of(heap: Global, number: usize, line: &[u8]) -> Result<Vec<Vec<u8>>, Failure> {
    let mut reader = Reader::new(heap, number);
    for byte in line {
        reader.stage = reader.take(*byte)?;
    }
    reader.end_line()
}
