//! The options of the calls that follow an `options` statement.

ghost use Rattle.std.specs.Prelude.{◌≡◌, ◌≤◌, true, [], None, length, codes, MatchOption, OnOk};
ghost use Rattle.drawing.specs.Options.{defaults, prefix_of};
ghost use Rattle.scripts.specs.Cursors.{left, FewerLeft};

use drawing::options::WriteOptions;
use scripts::cursors::{Words, take_number};
use scripts::failures::{Expected, Failure};

/// The options as a script says them: the prefix, which is owned here, and the others.
#[derive(Drop)]
pub struct Settings {
    pub prefix: Option<Vec<u8>>,
    pub others: WriteOptions<'static>,
}

/// The defaults of a call.
impl Default for Settings {
    ghost is_default = { λ settings. settings ≡ record { prefix = None; others = defaults } };

    fn default() -> Settings {
        Settings {
            prefix: None,
            others: WriteOptions::new(),
        }
    }
}

fn take_precision(words: &mut Words) -> Result<u8, Failure>
    ensures { OnOk result (FewerLeft words.old words.new) }
{
    Ok(take_number(words, 255, Expected::Precision)? as u8)
}

fn take_prefix(words: &mut Words) -> Result<Vec<u8>, Failure>
    ensures { OnOk result (FewerLeft words.old words.new) }
{
    let word = words.word(Expected::Prefix)?;
    Ok(Vec::from_slice(words.heap, word)?)
}

impl Settings {
    /// Sets the option of a name to what the words say.
    pub fn set(&mut self, name: &[u8], words: &mut Words) -> Result<(), Failure>
        ensures taken { OnOk result (length (left words.new) ≤ length (left words.old)) }
        ensures preserve { OnOk result (name.now ≡ codes "preserve" → self.new.others.preserve_text ≡ true) }
        ensures single { OnOk result (name.now ≡ codes "single" → self.new.others.use_single_quote ≡ true) }
    {
        let others = &mut self.others;
        match name {
            b"prefix" => self.prefix = Some(take_prefix(words)?),
            b"preserve" => others.preserve_text = true,
            b"coordinates" => others.coordinates_precision = take_precision(words)?,
            b"transforms" => others.transforms_precision = take_precision(words)?,
            b"single" => others.use_single_quote = true,
            _ => return Err(words.instead(Expected::OptionName, name)),
        }
        Ok(())
    }

    /// The same options, as a call takes them.
    pub fn write_options(&self) -> WriteOptions<'_>
        ensures prefix { MatchOption self.now.prefix (prefix_of result ≡ []) (λ p. prefix_of result ≡ p.items) }
        ensures preserve_text { result.preserve_text ≡ self.now.others.preserve_text }
        ensures coordinates { result.coordinates_precision ≡ self.now.others.coordinates_precision }
        ensures transforms { result.transforms_precision ≡ self.now.others.transforms_precision }
        ensures quote { result.use_single_quote ≡ self.now.others.use_single_quote }
    {
        WriteOptions {
            id_prefix: self.prefix.as_deref(),
            ..self.others
        }
    }
}
