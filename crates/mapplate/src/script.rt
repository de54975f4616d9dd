//! A whole script: its store, and its calls with the numbers of their lines.

use crate::statements::{Call, Statement, StoreChoice, read_statement};
use scripts::cursors::Words;
use scripts::failures::{Expected, Failure, at_script_end};
use scripts::words::words_of;
use std::alloc::Global;

/// A call, and the number of its line.
#[derive(Drop)]
pub struct Line {
    pub number: usize,
    pub call: Call,
}

/// A script as it was read.
#[derive(Drop)]
pub struct Script {
    pub store: StoreChoice,
    pub lines: Vec<Line>,
}

/// Whether a line says nothing: it is blank, or a comment.
fn is_silent(line: &[u8]) -> bool {
    let said = line.iter().find(|byte| !matches!(byte, b' ' | b'\t'));
    matches!(said, None | Some(b'#'))
}

/// A script as far as it is read. Its store comes before any call.
#[derive(Drop)]
struct Reader {
    heap: Global,
    store: Option<StoreChoice>,
    lines: Vec<Line>,
}

impl Reader {
    fn new(heap: Global) -> Reader {
        Reader {
            heap,
            store: None,
            lines: Vec::new(heap),
        }
    }

    /// Adds the statement of a line that begins with some word; the store comes first, and once.
    fn add(&mut self, words: &Words, word: &[u8], statement: Statement) -> Result<(), Failure> {
        match (self.store, statement) {
            (None, Statement::Store(store)) => self.store = Some(store),
            (Some(_), Statement::Store(_)) => return Err(words.instead(Expected::OneStore, word)),
            (None, Statement::Call(_)) => return Err(words.instead(Expected::FirstStore, word)),
            (Some(_), Statement::Call(call)) => self.lines.push(Line {
                number: words.line,
                call,
            })?,
        }
        Ok(())
    }

    /// Reads the line of some number.
    fn read_line(&mut self, number: usize, line: &[u8]) -> Result<(), Failure> {
        let said = words_of(self.heap, number, line)?;
        let mut words = Words::new(self.heap, number, said.as_slice());
        let statement = read_statement(&mut words)?;
        match said.first() {
            Some(word) => self.add(&words, word.as_slice(), statement),
            None => Ok(()),
        }
    }
}

/// Reads a script whole. A line ends at a line feed, or at a carriage return and a line feed.
pub fn read_script(heap: Global, text: &[u8]) -> Result<Script, Failure> {
    let mut reader = Reader::new(heap);
    let mut last = 0;
    for (number, line) in (1..).zip(text.split(|byte| *byte == b'\n')) {
        let line = line.strip_suffix(b"\r").unwrap_or(line);
        last = number;
        if !is_silent(line) {
            reader.read_line(number, line)?;
        }
    }
    match reader.store {
        Some(store) => Ok(Script {
            store,
            lines: reader.lines,
        }),
        None => Err(at_script_end(last, Expected::FirstStore)),
    }
}
