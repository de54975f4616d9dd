//! One entry of a row: a value, the rule that looks at it, and the attribute that a fault names.
//!
//! A row is walked once for each rule. The walk lets pass what another rule looks at; so a row's entries stand in one
//! place, in their order.

ghost use Rattle.std.specs.Prelude.{◌≡◌, None, length};
ghost use Rattle.std.specs.Fn.{FnReturnsAt};
ghost use Rattle.checks.specs.Verdicts.{verdict_of};
ghost use Rattle.checks.specs.Entries.{judged, rule_of, entry_verdict, lies, moves_first, row_in, place_in, at_most, first_at, each, Fields};
ghost use Rattle.checks.specs.declared.entries.Rule.{Rule};
ghost use Rattle.checks.specs.Meant.{meant, ChecksFields, list_fields};
ghost use Rattle.checks.specs.Rows.{number_field};

use crate::families::has_plain_bytes;
use crate::ids::{id, reference};
use crate::numbers::{Domain, number};
use crate::texts::{is_span, is_text};
use drawing::faults::{AttributeFault, ValueFault};
use drawing::names::AId;
use drawing::rows::{PathSegment, Place};
use drawing::tables::{Drawing, part};

/// The rules that look at the values of a row, in their order.
#[derive(Clone, Copy, PartialEq, Eq)]
pub enum Rule {
    Place,
    Id,
    Empty,
    Number,
    Text,
    Family,
}

/// A value that one rule looks at.
#[derive(Clone, Copy)]
pub enum Entry<'a> {
    /// A row of a list of that length.
    Row {
        length: usize,
        row: usize,
    },
    /// A place in a list of that length.
    Place {
        length: usize,
        place: Place,
    },
    /// A count that has a limit.
    AtMost {
        limit: usize,
        count: usize,
    },
    /// An id, which may be empty.
    OwnId(&'a [u8]),
    /// An id that is referred to.
    ReferencedId(&'a [u8]),
    /// The count of a list or a name that may not be empty.
    NotEmpty(usize),
    /// Path data, which begins with a move.
    BeginsWithMove(&'a [PathSegment]),
    Number(Domain, f32),
    Text(&'a [u8]),
    /// A span of a text.
    Span {
        text: &'a [u8],
        start: usize,
        end: usize,
    },
    /// The name of a family.
    FamilyName(&'a [u8]),
}

fn verdict_of(holds: bool, fault: ValueFault) -> Result<(), ValueFault>
    ensures { result ≡ verdict_of holds fault }
{
    if holds { Ok(()) } else { Err(fault) }
}

fn is_within(length: usize, place: Place) -> bool
    ensures { result ≡ lies length place }
{
    place.start <= length && place.count <= length - place.start
}

fn is_first_a_move(segments: &[PathSegment]) -> bool
    ensures { result ≡ moves_first segments.now }
{
    matches!(segments, [PathSegment::MoveTo(_), ..])
}

impl Entry<'_> {
    /// The rule that looks at it.
    #[inline(always)]
    fn rule(&self) -> Rule
        ensures { result ≡ rule_of (meant self.now) }
    {
        match *self {
            Entry::Row { .. } | Entry::Place { .. } | Entry::AtMost { .. } => Rule::Place,
            Entry::OwnId(_) | Entry::ReferencedId(_) => Rule::Id,
            Entry::NotEmpty(_) | Entry::BeginsWithMove(_) => Rule::Empty,
            Entry::Number(..) => Rule::Number,
            Entry::Text(_) | Entry::Span { .. } => Rule::Text,
            Entry::FamilyName(_) => Rule::Family,
        }
    }

    /// What its rule says of it.
    #[inline(always)]
    fn verdict(&self) -> Result<(), ValueFault>
        ensures { result ≡ entry_verdict (meant self.now) }
    {
        match *self {
            Entry::Row { length, row } => verdict_of(row < length, ValueFault::Place),
            Entry::Place { length, place } => {
                verdict_of(is_within(length, place), ValueFault::Place)
            }
            Entry::AtMost { limit, count } => verdict_of(count <= limit, ValueFault::Place),
            Entry::OwnId(bytes) => id(bytes),
            Entry::ReferencedId(bytes) => reference(bytes),
            Entry::NotEmpty(count) => verdict_of(0 < count, ValueFault::Empty),
            Entry::BeginsWithMove(segments) => {
                verdict_of(is_first_a_move(segments), ValueFault::Empty)
            }
            Entry::Number(domain, x) => number(domain, x),
            Entry::Text(bytes) => verdict_of(is_text(bytes), ValueFault::Text),
            Entry::Span { text, start, end } => {
                verdict_of(is_span(text, start, end), ValueFault::Text)
            }
            Entry::FamilyName(bytes) => verdict_of(has_plain_bytes(bytes), ValueFault::Family),
        }
    }
}

/// One rule on its walk over the rows of a drawing.
#[derive(Clone, Copy)]
pub struct Checker<'d> {
    pub drawing: &'d Drawing<'d>,
    pub rule: Rule,
}

impl Checker<'_> {
    /// An entry that stands in an attribute, or in none.
    #[inline(always)]
    #[tactic(auto, using(crate::proofs::Rules::same_rule), unfolding(crate::specs::Entries::judged))]
    pub fn check_entry(&self, attribute: Option<AId>, value: Entry) -> Result<(), AttributeFault>
        ensures { result ≡ judged self.now.rule attribute (meant value.entry) }
    {
        if self.rule != value.rule() {
            return Ok(());
        }
        value
            .verdict()
            .map_err(|fault| AttributeFault { attribute, fault })
    }

    /// A row of a list.
    pub fn check_row<T>(&self, list: &[T], row: usize) -> Result<(), AttributeFault>
        ensures { result ≡ judged self.now.rule None (row_in (length list.now) row) }
    {
        self.check_entry(
            None,
            Entry::Row {
                length: list.len(),
                row,
            },
        )
    }

    /// A place in a list.
    pub fn check_place<T>(&self, list: &[T], place: Place) -> Result<(), AttributeFault>
        ensures { result ≡ judged self.now.rule None (place_in (length list.now) place) }
    {
        self.check_entry(
            None,
            Entry::Place {
                length: list.len(),
                place,
            },
        )
    }

    /// A count that has a limit.
    pub fn check_count(&self, limit: usize, count: usize) -> Result<(), AttributeFault>
        ensures { result ≡ judged self.now.rule None (at_most limit count) }
    {
        self.check_entry(None, Entry::AtMost { limit, count })
    }

    /// A number in an attribute.
    pub fn check_number(&self, attribute: AId, domain: Domain, x: f32) -> Result<(), AttributeFault>
        ensures { result ≡ first_at self.now.rule (number_field attribute domain x) }
    {
        self.check_entry(Some(attribute), Entry::Number(domain, x))
    }

    /// A place in a list, and each item that it names.
    pub fn check_list<T, F: Fn(&T) -> Result<(), AttributeFault>>(
        &self,
        list: &[T],
        place: Place,
        check: F,
    ) -> Result<(), AttributeFault>
        requires { F.IsAlwaysCallable check }
        ensures { (fields : T → Fields)
            → ChecksFields (FnReturnsAt F.Fn check) self.now.rule fields
            → result ≡ first_at self.now.rule (list_fields fields list.now place) }
    {
        self.check_place(list, place)?;
        check_each(part(list, place), check)
    }
}

/// Each item of a list, in order. Whatever entries `check` goes through at an item, the answer is their first fault.
pub fn check_each<T, F: Fn(&T) -> Result<(), AttributeFault>>(
    items: &[T],
    check: F,
) -> Result<(), AttributeFault>
    requires { F.IsAlwaysCallable check }
    ensures { (rule : Rule) (fields : T → Fields)
        → ChecksFields (FnReturnsAt F.Fn check) rule fields
        → result ≡ first_at rule (each fields items.now) }
{
    for item in items {
        check(item)?;
    }
    Ok(())
}
