//! Runs AMD64 guests under a schedule and prints what became of them.
//!
//! With the words `run IMAGE SCRIPT` it runs the events of a script on the plain machine of an image, prints the line of
//! each dump as it comes, and then the report; with `trace IMAGE SCRIPT` it prints a block of lines for each event; with
//! `audit IMAGE SCRIPT` it prints the verdict: whether the run keeps the rules of maintenance, else its first breach; with
//! `made SEED SIZE` it makes an image and a script, runs and audits them, and prints a summary. The job itself is `svm_run` in
//! `top.rt`, over any shelf of files and any sink of bytes: its contract compares every answer, every printed byte and the bus
//! with one definition, `outcome_of` in `specs/Outcome.antt`. `main` makes the real files, the bus and its devices, the real
//! output and the counters, calls it, prints the usage text behind a refusal of the words, and ends with the status's exit code.
#![tactic(auto)]

ghost use Rattle.std.specs.Prelude.{◌≡◌, ◌<◌};

mod dumps;
mod inputs;
mod made;
mod no_devices;
mod printing;
mod report;
mod running;
mod status;
mod status_line;
mod summary;
mod top;
mod tracing;
mod unwatched;
mod usage;
mod words;

use byte_shelf::{FileShelf, StdSink};
use host_memory::counted_from;
use port_bus::{Bus, FileDevice, MemoryDevice, PortDevice};
use status::Status;
use std::alloc::{AllocError, Global};
use std::env;
use std::io::ErrorKind;
use std::marker::Brand;
use std::process::ExitCode;
use std::sync::ledger::{Blank, Ledger};
use top::svm_run;
use usage::usage;

fn main(rt: HostRuntime) -> ExitCode {
    let status = start(&rt);
    if matches!(status, Status::Words) {
        print_usage(&rt);
    }
    ExitCode::from(status.code())
}

/// Prints the usage text behind a refusal of the words. Where there is no memory for it, or the print fails, no more is
/// printed.
fn print_usage(rt: &HostRuntime) {
    if let Ok(text) = usage(rt.alloc()) {
        let _ = print!(rt; "{text}");
    }
}

/// Takes the words. One that is not text is none of the words that the program knows.
fn start(rt: &HostRuntime) -> Status {
    let args = match env::args(rt) {
        Ok(args) => args,
        Err(error) if error.kind() == ErrorKind::OutOfMemory => return Status::NoMemory,
        Err(_) => return Status::Words,
    };
    let Ok(words) = args.skip(1).collect(rt.alloc()) else {
        return Status::NoMemory;
    };
    run_words(rt, words)
}

/// Makes the real objects, and runs.
fn run_words(rt: &HostRuntime, words: Vec<String>) -> Status {
    match open(rt, &words) {
        Ok(status) => status,
        Err(AllocError) => Status::NoMemory,
    }
}

/// The device that is a file; those before it are in memory.
const FILE_DEVICE: u8 = 15;

/// The file of that device.
const DEVICE_FILE: &str = "port15.out";

/// Makes the shelf and the sink, and runs.
fn open(rt: &HostRuntime, words: &Vec<String>) -> Result<Status, AllocError> {
    let words: Vec<&str> = words.iter().map(|w| w.as_str()).collect(rt.alloc())?;
    run::<Brand, Brand>(rt, &words, Blank::new(1), Blank::new(1))
}

/// Makes the counters of reads and of entries, the bus of fifteen devices in memory, which never fail, and one over a file,
/// and the real objects, and does the job.
fn run<L: Ledger, M: Ledger>(
    rt: &HostRuntime,
    words: &[&str],
    reads: Blank,
    entries: Blank,
) -> Result<Status, AllocError>
    requires reads { reads.name ≡ L.name }
    requires read_parts { reads.parts ≡ L.parts }
    requires read_some { 0 < reads.parts }
    requires entries { entries.name ≡ M.name }
    requires entry_parts { entries.parts ≡ M.parts }
    requires entry_some { 0 < entries.parts }
{
    let alloc = rt.alloc();
    let mut devices: Vec<Box<dyn PortDevice>> = Vec::new(alloc);
    for _place in 0..FILE_DEVICE {
        devices.push(Box::new(alloc, MemoryDevice::new(alloc, Vec::new(alloc)))?)?;
    }
    let name = String::from_str(alloc, DEVICE_FILE)?;
    devices.push(Box::new(alloc, FileDevice::new(rt.clone()?, alloc, name))?)?;
    let Ok(mut bus) = Bus::new(alloc, devices) else {
        return Ok(Status::NoMemory);
    };
    let mut shelf = FileShelf::new(rt.clone()?);
    let mut sink = StdSink::new(rt.clone()?);
    let mut steps = counted_from::<L>(reads);
    let mut entries = counted_from::<M>(entries);
    Ok(svm_run(
        alloc,
        words,
        &mut shelf,
        &mut bus,
        &mut sink,
        &mut steps,
        &mut entries,
    ))
}

#[cfg(test)]
mod audit_tests;
#[cfg(test)]
mod made_tests;
#[cfg(test)]
mod tests;
