//! The words of a line, taken one after the other.

ghost use Rattle.std.specs.Prelude.{◌≡◌, ℕ, ◌≤◌, List, [], length, map, ◌==◌, Some, IfOk, OnOk};
ghost use Rattle.std.specs.Fn.{FnOnceReturnsAt};
ghost use Rattle.std.specs.Iterator.{YieldsFirstRef, item_count};
ghost use Rattle.scripts.specs.Cursors.{left, Takes, FewerLeft};
ghost use Rattle.scripts.specs.Failures.{TellsWord};
ghost use Rattle.scripts.specs.declared.failures.Failure.TheVariants as Failure;
ghost use Rattle.scripts.specs.declared.failures.Found.TheVariants as Found;

use crate::failures::{Expected, Failure, at_line_end, at_word};
use crate::floats::float_said;
use crate::numbers::number;
use std::alloc::Global;

/// The words of a line that are still to be read.
#[derive(Drop)]
pub struct Words<'a> {
    pub heap: Global,
    /// The number of the line.
    pub line: usize,
    pub rest: &'a [Vec<u8>],
}

impl<'a> Iterator for Words<'a> {
    type Item = &'a [u8];

    ghost next_gives = { YieldsFirstRef left };

    ghost remaining = { item_count left };

    fn next(&mut self) -> Option<&'a [u8]> {
        let (word, rest) = self.rest.split_first()?;
        self.rest = rest;
        Some(word.as_slice())
    }
}

impl<'a> Words<'a> {
    /// The words of a line of some number.
    pub fn new(heap: Global, line: usize, words: &'a [Vec<u8>]) -> Words<'a>
        ensures line { result.line ≡ line }
        ensures left { left result ≡ map (λ v. v.items) words.now }
    {
        Words {
            heap,
            line,
            rest: words,
        }
    }

    /// No word is left.
    pub fn is_empty(&self) -> bool
        ensures { result ≡ (length (left self.now) == 0) }
    {
        self.rest.is_empty()
    }

    /// The failure at a word that says something else than was expected.
    pub fn instead(&self, expected: Expected, word: &[u8]) -> Failure
        ensures { TellsWord self.now.line expected word.now result }
    {
        at_word(self.heap, self.line, expected, word)
    }

    /// The failure where a word was expected and none came.
    pub fn ended(&self, expected: Expected) -> Failure
        ensures { result ≡ Failure.Script (record { line = self.now.line; expected = expected; found = Found.LineEnd }) }
    {
        at_line_end(self.line, expected)
    }

    /// The next word, which has to come.
    pub fn word(&mut self, expected: Expected) -> Result<&'a [u8], Failure>
        ensures taken { IfOk result (λ word. Takes self.old word.now self.new) }
        ensures fewer { OnOk result (FewerLeft self.old self.new) }
    {
        self.next().ok_or_else(|| self.ended(expected))
    }

    /// What the next word says to its reader.
    pub fn said<T, F: FnOnce(&[u8]) -> Option<T>>(
        &mut self,
        expected: Expected,
        read: F,
    ) -> Result<T, Failure>
        requires { F.IsAlwaysCallable read }
        ensures read { IfOk result (λ value. (word : List ℕ) × Takes self.old word self.new × FnOnceReturnsAt F.FnOnce read word (Some value)) }
        ensures fewer { OnOk result (FewerLeft self.old self.new) }
    {
        let word = self.word(expected)?;
        read(word).ok_or_else(|| self.instead(expected, word))
    }

    /// No word is left.
    pub fn end(&mut self) -> Result<(), Failure>
        ensures { OnOk result (left self.old ≡ []) }
    {
        match self.next() {
            None => Ok(()),
            Some(word) => Err(self.instead(Expected::LineEnd, word)),
        }
    }
}

/// A number of at most `most`.
pub fn take_number(words: &mut Words, most: u64, expected: Expected) -> Result<u64, Failure>
    ensures bound { IfOk result (λ n. n ≤ most) }
    ensures fewer { OnOk result (FewerLeft words.old words.new) }
{
    words.said(expected, |word| number(word, most))
}

/// A float, as a decimal or by its bits.
pub fn take_float(words: &mut Words) -> Result<f32, Failure>
    ensures { OnOk result (FewerLeft words.old words.new) }
{
    words.said(Expected::Float, float_said)
}

/// `true` or `false`
pub fn take_flag(words: &mut Words) -> Result<bool, Failure>
    ensures { OnOk result (FewerLeft words.old words.new) }
{
    words.said(Expected::Flag, |word| match word {
        b"true" => Some(true),
        b"false" => Some(false),
        _ => None,
    })
}
