//! The statements of a script: one function reads each.

ghost use Rattle.std.specs.Prelude.{◌≡◌, IfSome};
ghost use Rattle.plates.specs.Elements.{element_name};

use crate::settings::Settings;
use plates::elements::Element;
use scripts::cursors::{Words, take_number};
use scripts::failures::{Expected, Failure};
use std::fmt;

/// The longest buffer that a script may ask for.
const LONGEST: u64 = 16_777_216;

/// Where the bytes of a plate go.
#[derive(Clone, Copy)]
pub enum StoreKind {
    Page,
    Roll,
}

impl fmt::Display for StoreKind {
    fn fmt<W: fmt::Write>(&self, f: &mut fmt::Formatter<W>) -> fmt::Result {
        f.write_str(match self {
            StoreKind::Page => "page",
            StoreKind::Roll => "roll",
        })
    }
}

/// The store that a script asks for.
#[derive(Clone, Copy)]
pub struct StoreChoice {
    pub kind: StoreKind,
    /// The length of the buffer.
    pub length: usize,
}

/// What a line says.
#[derive(Drop)]
pub enum Statement {
    Store(StoreChoice),
    Call(Call),
}

/// What a line asks of the plate.
#[derive(Drop)]
pub enum Call {
    /// How the calls that follow are to write.
    Options(Settings),
    Open(Element, Vec<u8>),
    Close,
}

fn take_size(words: &mut Words) -> Result<usize, Failure> {
    Ok(take_number(words, LONGEST, Expected::Size)? as usize)
}

// Kept: the words of `Display` again; a list of the kinds to search would name each kind a third time.
fn store_kind(word: &[u8]) -> Option<StoreKind> {
    match word {
        b"page" => Some(StoreKind::Page),
        b"roll" => Some(StoreKind::Roll),
        _ => None,
    }
}

/// `store page SIZE` or `store roll SIZE`
fn store_statement(words: &mut Words) -> Result<StoreChoice, Failure> {
    let kind = words.said(Expected::StoreKind, store_kind)?;
    let length = take_size(words)?;
    words.end()?;
    Ok(StoreChoice { kind, length })
}

/// `options [prefix WORD] [preserve] [coordinates N] [transforms N] [single]`
fn options_statement(words: &mut Words) -> Result<Call, Failure> {
    let mut settings = Settings::default();
    while let Some(name) = words.next() {
        settings.set(name, words)?;
    }
    Ok(Call::Options(settings))
}

// Kept: a match of names would say each name of `Element::name` again; the list says only which elements there are.
const ELEMENTS: [Element; 7] = [
    Element::Svg,
    Element::G,
    Element::Defs,
    Element::Mask,
    Element::Pattern,
    Element::LinearGradient,
    Element::RadialGradient,
];

/// The element of a name.
fn element_named(name: &[u8]) -> Option<Element>
    ensures { IfSome result (λ element. element_name element ≡ name.now) }
{
    ELEMENTS
        .iter()
        .copied()
        .find(|element| element.name() == name)
}

/// `open NAME [ID]`
fn open_statement(words: &mut Words) -> Result<Call, Failure> {
    let element = words.said(Expected::ElementName, element_named)?;
    let id = Vec::from_slice(words.heap, words.next().unwrap_or_default())?;
    words.end()?;
    Ok(Call::Open(element, id))
}

/// `close`
fn close_statement(words: &mut Words) -> Result<Call, Failure> {
    words.end()?;
    Ok(Call::Close)
}

/// The statement of a line.
pub fn read_statement(words: &mut Words) -> Result<Statement, Failure> {
    let word = words.word(Expected::PlateStatement)?;
    Ok(match word {
        b"store" => Statement::Store(store_statement(words)?),
        b"options" => Statement::Call(options_statement(words)?),
        b"open" => Statement::Call(open_statement(words)?),
        b"close" => Statement::Call(close_statement(words)?),
        _ => return Err(words.instead(Expected::PlateStatement, word)),
    })
}
