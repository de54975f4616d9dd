//! The record of a run, as bytes.

ghost use Rattle.std.specs.Prelude.{◌≡◌, ◌++◌, OnOk};
ghost use Rattle.mapplate.specs.Record.{opened, shown_attribute, shown_node, refusal};

use crate::failures::Failure;
use drawing::faults::Fault;
use drawing::names::AId;
use plates::elements::Element;
use scripts::numbers::hex_digit;
use scripts::quoting::push_quoted;
use std::io::Write;
use stores::Store;

/// The bytes of a roll's record, and how many of its text bytes stand in a group.
const RECORD: usize = 64;

const GROUP: usize = 9;

/// The byte that fills the buffer before the store is made.
pub const FILL: u8 = 0xA5;

/// `open NAME` with the quoted id, if any.
// Kept: names and words are bytes, which `write!` does not take.
pub fn put_open(out: &mut Vec<u8>, element: Element, id: &[u8]) -> Result<(), Failure>
    ensures { OnOk result (out.new.items ≡ out.old.items ++ opened element id.now) }
{
    out.extend_from_slice(b"open ")?;
    out.extend_from_slice(element.name())?;
    if !id.is_empty() {
        out.push(b' ')?;
        push_quoted(out, id)?;
    }
    Ok(())
}

fn put_attribute(out: &mut Vec<u8>, attribute: Option<AId>) -> Result<(), Failure>
    ensures { OnOk result (out.new.items ≡ out.old.items ++ shown_attribute attribute) }
{
    let Some(name) = attribute else {
        return Ok(());
    };
    out.extend_from_slice(b", attribute ")?;
    out.extend_from_slice(name.name())?;
    Ok(())
}

fn put_node(out: &mut Vec<u8>, node: Option<usize>) -> Result<(), Failure>
    ensures { OnOk result (out.new.items ≡ out.old.items ++ shown_node node) }
{
    if let Some(node) = node {
        write!(out, ", node {node}")?;
    }
    Ok(())
}

/// A fault's number and word, and its attribute and node where there are such.
pub fn put_fault(out: &mut Vec<u8>, fault: Fault) -> Result<(), Failure>
    ensures { OnOk result (out.new.items ≡ out.old.items ++ refusal fault) }
{
    let number = fault.number();
    write!(out, ": refused, {number} ")?;
    out.extend_from_slice(fault.word())?;
    put_attribute(out, fault.attribute())?;
    put_node(out, fault.node())?;
    out.extend_from_slice(b"\n")?;
    Ok(())
}

/// The bytes held, as they are.
// A store shows its bytes one by one, since those of a roll do not lie side by side.
pub fn put_text<S: Store>(out: &mut Vec<u8>, store: &S) -> Result<(), Failure>
    ensures { OnOk result (out.new.items ≡ out.old.items ++ S.Store.held store.now) }
{
    out.extend((0..store.count()).map_while(|place| store.byte(place)))?;
    Ok(())
}

/// A byte as two hexadecimal digits.
// Kept: digit by digit, since with `write!` and `{:02x}` a run that fills a roll takes more than twice as many instructions.
fn put_hex(out: &mut Vec<u8>, byte: u8) -> Result<(), Failure> {
    out.extend_from_slice(&[hex_digit(byte / 16), hex_digit(byte % 16)])?;
    Ok(())
}

/// A record: its count, and its text bytes in groups.
fn put_record(out: &mut Vec<u8>, index: usize, record: &[u8]) -> Result<(), Failure> {
    write!(out, "record {index}: ")?;
    if let Some((count, bytes)) = record.split_first() {
        put_hex(out, *count)?;
        for group in bytes.chunks(GROUP) {
            out.extend_from_slice(b" ")?;
            for byte in group {
                put_hex(out, *byte)?;
            }
        }
    }
    out.extend_from_slice(b"\n")?;
    Ok(())
}

/// How many records come before those that are empty to the end.
fn used_records(records: &[u8]) -> usize {
    records
        .chunks(RECORD)
        .rposition(|record| !record.starts_with(&[0]))
        .map_or(0, |last| last + 1)
}

/// The records of a roll, the empty ones at the end in one line.
pub fn put_records(out: &mut Vec<u8>, records: &[u8]) -> Result<(), Failure> {
    let used = used_records(records);
    let all = records.len() / RECORD;
    out.extend_from_slice(b"records:\n")?;
    for (index, record) in records.chunks(RECORD).enumerate().take(used) {
        put_record(out, index, record)?;
    }
    if used < all {
        put_empty(out, used, all - 1)?;
    }
    Ok(())
}

/// The empty records from the first to the last.
fn put_empty(out: &mut Vec<u8>, first: usize, last: usize) -> Result<(), Failure> {
    if first == last {
        writeln!(out, "record {first}: empty")?;
    } else {
        writeln!(out, "records {first} to {last}: empty")?;
    }
    Ok(())
}

/// How many bytes lie beyond the store's reach, and whether they are as they were.
pub fn put_beyond(out: &mut Vec<u8>, image: &[u8], reach: usize) -> Result<(), Failure> {
    let beyond = image.get(reach..).unwrap_or_default();
    let count = beyond.len();
    let same = beyond.iter().filter(|byte| **byte == FILL).count();
    if same == count {
        writeln!(out, "beyond: {count} bytes, unchanged")?;
    } else {
        writeln!(out, "beyond: {count} bytes, {same} unchanged")?;
    }
    Ok(())
}
