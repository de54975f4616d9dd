//! mapplate: runs a script of calls on a plate, and prints the record of the run.
//!
//! The script comes from standard input. It is read whole and understood whole before the first call, so that a script
//! with an error has its message on standard error, nothing on standard output, and the status 1.
#![tactic(auto)]

mod failures;
mod record;
mod runs;
mod script;
mod settings;
mod statements;

use crate::failures::Failure;
use crate::runs::record_of;
use crate::script::read_script;
use std::io::{Read, Write};
use std::process::ExitCode;

/// The whole of standard input.
fn input(rt: &HostRuntime) -> Result<Vec<u8>, Failure> {
    let mut text = Vec::new(rt.alloc());
    rt.stdin().read_to_end(&mut text)?;
    Ok(text)
}

fn work(rt: &HostRuntime) -> Result<(), Failure> {
    let heap = rt.alloc();
    let text = input(rt)?;
    let script = read_script(heap, text.as_slice())?;
    let record = record_of(heap, &script)?;
    rt.stdout().write_all(record.as_slice())?;
    Ok(())
}

fn main(rt: HostRuntime) -> ExitCode {
    match work(&rt) {
        Ok(()) => ExitCode::SUCCESS,
        Err(failure) => {
            let _ = eprintln!(rt; "{failure}");
            ExitCode::FAILURE
        }
    }
}
