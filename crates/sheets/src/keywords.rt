//! Words that name the cases of an enum, looked up once for all such enums.

ghost use Rattle.std.specs.Prelude.{◌≡◌, ℕ, List, OnOk};
ghost use Rattle.scripts.specs.Cursors.{FewerLeft};
ghost use Rattle.sheets.specs.Lookups.{Named};

use scripts::cursors::Words;
use scripts::failures::{Expected, Failure, Keywords};

/// An enum whose cases hold nothing and have words.
// Kept: two methods, since one match from words to cases would want a proof of `Named` for each of 18 enums, in place of one.
pub trait Keyword: Copy + 'static {
    ghost spelled: { Self → List ℕ };

    ghost listed: { List Self };

    /// Whose cases a message names.
    const WANTED: Keywords;

    /// The word of a case.
    fn word(self) -> &'static [u8]
        ensures { result.now ≡ spelled self };

    /// All cases.
    fn cases() -> &'static [Self]
        ensures { result.now ≡ listed };
}

/// The case of a word; none exactly where no case has it.
pub fn named<K: Keyword>(word: &[u8]) -> Option<K>
    ensures { Named K.Keyword.spelled K.Keyword.listed word.now result }
{
    K::cases().iter().copied().find(|case| case.word() == word)
}

/// The case of an enum.
pub fn take_case<K: Keyword>(words: &mut Words) -> Result<K, Failure>
    ensures { OnOk result (FewerLeft words.old words.new) }
{
    let word = words.word(Expected::Case(K::WANTED))?;
    named(word).ok_or_else(|| words.instead(Expected::Case(K::WANTED), word))
}
