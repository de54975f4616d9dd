//! Running a script: its calls on a plate over its store, with the record of what came of each.

use crate::failures::Failure;
use crate::record::{FILL, put_beyond, put_fault, put_open, put_records, put_text};
use crate::script::{Line, Script};
use crate::statements::{Call, StoreChoice, StoreKind};
use drawing::faults::Fault;
use drawing::options::WriteOptions;
use plates::elements::Element;
use plates::plates::Plate;
use std::alloc::Global;
use std::io::Write;
use stores::Store;
use stores::pages::Page;
use stores::rolls::Roll;

/// The first line: the store with its size, and the length of its buffer.
fn put_store<S: Store>(out: &mut Vec<u8>, choice: StoreChoice, store: &S) -> Result<(), Failure> {
    writeln!(
        out,
        "store {}, size {}, buffer {}",
        choice.kind,
        store.size(),
        choice.length
    )?;
    Ok(())
}

fn put_text_part<S: Store>(out: &mut Vec<u8>, store: &S) -> Result<(), Failure> {
    out.extend_from_slice(b"text:\n")?;
    put_text(out, store)?;
    out.extend_from_slice(b"\n")?;
    Ok(())
}

/// A plate, and the record of what came of the calls on it.
#[derive(Drop)]
struct Recorded<'o, S> {
    out: &'o mut Vec<u8>,
    plate: Plate<S>,
}

impl<S: Store> Recorded<'_, S> {
    /// What came of a call.
    fn answer(&mut self, answer: Result<(), Fault>) -> Result<(), Failure> {
        match answer {
            Ok(()) => {
                let held = self.plate.held();
                let owed = self.plate.closing_marks();
                writeln!(self.out, ": accepted, held {held}, closing {owed}")?;
                Ok(())
            }
            Err(fault) => put_fault(self.out, fault),
        }
    }

    fn open(&mut self, options: &WriteOptions, element: Element, id: &[u8]) -> Result<(), Failure> {
        put_open(self.out, element, id)?;
        let answer = self.plate.open(options, element, id);
        self.answer(answer)
    }

    fn close(&mut self) -> Result<(), Failure> {
        self.out.extend_from_slice(b"close")?;
        let answer = self.plate.close();
        self.answer(answer)
    }

    fn number(&mut self, number: usize) -> Result<(), Failure> {
        write!(self.out, "line {number}: ")?;
        Ok(())
    }

    /// Makes the calls of a script.
    fn calls(&mut self, lines: &[Line]) -> Result<(), Failure> {
        let mut options = WriteOptions::new();
        for line in lines {
            match &line.call {
                Call::Options(settings) => options = settings.write_options(),
                Call::Open(element, id) => {
                    self.number(line.number)?;
                    self.open(&options, *element, id.as_slice())?;
                }
                Call::Close => {
                    self.number(line.number)?;
                    self.close()?;
                }
            }
        }
        Ok(())
    }

    /// What the plate has come to.
    fn counts(&mut self) -> Result<(), Failure> {
        let depth = self.plate.depth();
        let held = self.plate.held();
        let owed = self.plate.closing_marks();
        writeln!(
            self.out,
            "open elements {depth}\nheld {held}\nclosing marks {owed}"
        )?;
        Ok(())
    }
}

/// Runs a script on a new plate over a store, and gives the store back with its text in the record.
fn run<S: Store + Drop>(out: &mut Vec<u8>, store: S, script: &Script) -> Result<S, Failure> {
    put_store(out, script.store, &store)?;
    let plate = Plate::new(store);
    let mut recorded = Recorded { out, plate };
    recorded.calls(script.lines.as_slice())?;
    recorded.counts()?;
    let Recorded { out, plate } = recorded;
    let store = plate.into_store();
    put_text_part(out, &store)?;
    Ok(store)
}

/// Runs a script, and gives its record.
pub fn record_of(heap: Global, script: &Script) -> Result<Vec<u8>, Failure> {
    let mut out = Vec::new(heap);
    let mut buffer = vec![in heap; FILL; script.store.length]?;
    match script.store.kind {
        StoreKind::Page => {
            let page = run(&mut out, Page::new(buffer.as_mut_slice()), script)?;
            put_beyond(&mut out, page.image(), page.size())?;
        }
        StoreKind::Roll => {
            let roll = run(&mut out, Roll::new(buffer.as_mut_slice()), script)?;
            put_records(&mut out, roll.records())?;
            put_beyond(&mut out, roll.image(), roll.records().len())?;
        }
    }
    Ok(out)
}
