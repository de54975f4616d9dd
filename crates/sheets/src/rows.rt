//! Rows by their fields: a name and a value for each, in any order. What is left out is as in the default row, and of two
//! values for one field the later holds.

ghost use Rattle.std.specs.Prelude.{OnOk};
ghost use Rattle.scripts.specs.Cursors.{FewerLeft};
ghost use Rattle.scripts.specs.Failures.{TellsWord};
ghost use Rattle.scripts.specs.declared.failures.Expected.TheVariants as Expected;
ghost use Rattle.scripts.specs.declared.failures.Fields.{Fields};

use scripts::cursors::Words;
use scripts::failures::{Expected, Failure, Fields};

// Kept: the words and the pool apart: 64 calls of readers pass the words alone and 53 both, and a struct of both would be taken apart
// at each of the 64.
/// A struct of a drawing that is read field by field.
pub trait Row: Copy + Default {
    /// Whose fields a message names.
    const WANTED: Fields;

    /// Reads the value of a field.
    fn set(&mut self, name: &[u8], words: &mut Words, pool: &mut Vec<u8>) -> Result<(), Failure>
        ensures { OnOk result (FewerLeft words.old words.new) };

    /// The failure at a word that names no field.
    fn no_field(words: &Words, name: &[u8]) -> Failure
        ensures { (fields : Fields) × TellsWord words.now.line (Expected.Field fields) name.now result }
    {
        words.instead(Expected::Field(Self::WANTED), name)
    }
}

/// The fields up to the end of the line.
pub fn take_row<R: Row>(words: &mut Words, pool: &mut Vec<u8>) -> Result<R, Failure> {
    let mut row = R::default();
    while let Some(name) = words.next() {
        row.set(name, words, pool)?;
    }
    Ok(row)
}

/// The fields up to a closing brace.
pub fn take_fields<R: Row>(words: &mut Words, pool: &mut Vec<u8>) -> Result<R, Failure>
    ensures { OnOk result (FewerLeft words.old words.new) }
{
    let mut row = R::default();
    loop {
        match words.word(Expected::Field(R::WANTED))? {
            b"}" => return Ok(row),
            name => row.set(name, words, pool)?,
        }
    }
}

/// `{ FIELDS }`
pub fn take_struct<R: Row>(words: &mut Words, pool: &mut Vec<u8>) -> Result<R, Failure>
    ensures { OnOk result (FewerLeft words.old words.new) }
{
    match words.word(Expected::OpeningBrace)? {
        b"{" => take_fields(words, pool),
        word => Err(words.instead(Expected::OpeningBrace, word)),
    }
}
