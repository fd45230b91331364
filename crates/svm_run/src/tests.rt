// Jobs over a shelf and a sink in memory, some of whose calls fail. The texts are worked out by hand from the formats.
ghost use Rattle.std.specs.Prelude.{◌≡◌, ◌<◌, length};

use crate::status::{InputFault, OutsideFault, Status};
use crate::top::svm_run;
use byte_shelf::{MemoryShelf, MemorySink};
use host_memory::counted_from;
use image_format::ImageReason;
use port_bus::{Bus, MemoryDevice, PortDevice, Ports};
use script_format::ScriptReason;
use std::alloc::{AllocError, Global};
use std::marker::Brand;
use std::process::Abort;
use std::sync::ledger::{Blank, Ledger};
use std::test::Fail;

/// The header of an image of one guest for one processor.
const HEADER: [u8; 16] = [
    0x53, 0x56, 0x4d, 0x49, 0x4d, 0x41, 0x47, 0x45, 1, 0, 1, 1, 0, 0, 0, 0,
];

fn push_segment(image: &mut Vec<u8>, address: u16, bytes: &[u8]) -> Result<(), AllocError>
    requires { length bytes.now < 256 }
{
    let [low, high] = address.to_le_bytes();
    image.extend_from_slice(&[low, high, 0, 0, 0, 0, 0, 0])?;
    image.extend_from_slice(&[bytes.len() as u8, 0, 0, 0, 0, 0, 0, 0])?;
    image.extend_from_slice(bytes)
}

/// A job: its words, the code at 5000h of the one vcpu, the table entry of linear page 6, the script, and the calls of the
/// shelf, the sink and device 1 that fail.
#[derive(Clone, Copy)]
pub struct Job<'a> {
    pub words: &'a [&'a str],
    pub code: &'a [u8],
    pub entry: u32,
    pub script: &'a str,
    pub shelf_fails: Option<u64>,
    pub sink_fails: Option<u64>,
    pub device_fails: Option<u64>,
}

/// The image of a job: a guest of 16 pages and five segments, with one vcpu.
fn image_of(alloc: Global, job: Job<'_>) -> Result<Vec<u8>, AllocError>
    requires code { length job.code.now < 256 }
{
    let mut image = Vec::from_slice(alloc, &HEADER)?;
    image.extend_from_slice(&[1, 0, 0, 0, 16, 0, 0, 0, 5, 0, 0, 0, 0, 0, 0, 0])?;
    // CR3, RIP and RFLAGS.
    let mut vcpu = [0; 64];
    vcpu[1] = 0x10;
    vcpu[9] = 0x50;
    vcpu[24] = 2;
    image.extend_from_slice(&vcpu)?;
    let [a, b, c, d] = job.entry.to_le_bytes();
    push_segment(&mut image, 0x1000, &[7, 0x20, 0, 0, 0, 0, 0, 0])?;
    push_segment(&mut image, 0x2000, &[7, 0x30, 0, 0, 0, 0, 0, 0])?;
    push_segment(&mut image, 0x3000, &[7, 0x40, 0, 0, 0, 0, 0, 0])?;
    let entries = [7, 0x50, 0, 0, 0, 0, 0, 0, a, b, c, d, 0, 0, 0, 0];
    push_segment(&mut image, 0x4028, &entries)?;
    push_segment(&mut image, 0x5000, job.code)?;
    Ok(image)
}

const RUN: [&str; 3] = ["run", "one.img", "one.script"];

const TRACE: [&str; 3] = ["trace", "one.img", "one.script"];

pub const HALT: Job<'static> = Job {
    words: &RUN,
    code: &[0xf4],
    entry: 0x6007,
    script: "place 0 0 0\nrun 0 1\n",
    shelf_fails: None,
    sink_fails: None,
    device_fails: None,
};

fn calls(alloc: Global, call: Option<u64>) -> Result<Vec<u64>, AllocError> {
    let mut calls = Vec::new(alloc);
    if let Some(call) = call {
        calls.push(call)?;
    }
    Ok(calls)
}

fn shelf_of(alloc: Global, job: Job<'_>) -> Result<MemoryShelf, AllocError>
    requires { length job.code.now < 256 }
{
    let image = image_of(alloc, job)?;
    let script = Vec::from_slice(alloc, job.script.as_bytes())?;
    let short = Vec::from_slice(alloc, &HEADER[..15])?;
    let image_name = String::from_str(alloc, "one.img")?;
    let short_name = String::from_str(alloc, "short.img")?;
    let script_name = String::from_str(alloc, "one.script")?;
    let names = vec![in alloc; image_name, short_name, script_name]?;
    let files = vec![in alloc; image, short, script]?;
    Ok(MemoryShelf::new(names, files, calls(alloc, job.shelf_fails)?))
}

/// The status of a job, what the sink has received, and how many writes to ports went out.
fn done<L: Ledger, M: Ledger>(
    rt: &impl Abort,
    alloc: Global,
    job: Job<'_>,
    reads: Blank,
    entries: Blank,
) -> Result<(Status, MemorySink, usize), AllocError>
    requires code { length job.code.now < 256 }
    requires reads { reads.name ≡ L.name }
    requires read_parts { reads.parts ≡ L.parts }
    requires read_some { 0 < reads.parts }
    requires entries { entries.name ≡ M.name }
    requires entry_parts { entries.parts ≡ M.parts }
    requires entry_some { 0 < entries.parts }
{
    let mut shelf = shelf_of(alloc, job)?;
    let mut sink = MemorySink::new(alloc, calls(alloc, job.sink_fails)?);
    let mut devices: Vec<Box<dyn PortDevice>> = Vec::new(alloc);
    for device in 0..16u8 {
        let failing = if device == 1 { job.device_fails } else { None };
        devices.push(Box::new(alloc, MemoryDevice::new(alloc, calls(alloc, failing)?))?)?;
    }
    assert!(rt; devices.len() == 16);
    let Ok(mut bus) = Bus::new(alloc, devices) else {
        return Err(AllocError);
    };
    let mut steps = counted_from::<L>(reads);
    let mut entries = counted_from::<M>(entries);
    let status = svm_run(
        alloc,
        job.words,
        &mut shelf,
        &mut bus,
        &mut sink,
        &mut steps,
        &mut entries,
    );
    Ok((status, sink, bus.writes().len()))
}

/// Does a job and checks how it ends: its status, all that the sink has received, and how many writes to ports went out.
pub fn ends_as(
    rt: &impl Abort,
    alloc: Global,
    job: Job<'_>,
    status: Status,
    text: &str,
    writes: usize,
) -> Result<(), AllocError> {
    assert!(rt; job.code.len() < 256);
    let (found, sink, written) = done::<Brand, Brand>(
        rt,
        alloc,
        job,
        Blank::new(1),
        Blank::new(1),
    )?;
    assert!(rt; found == status, "{found:?}");
    assert!(rt; sink.bytes() == text.as_bytes(), "{text}");
    assert!(rt; written == writes, "{text}");
    Ok(())
}

const RIGHT: &str =
    "events 2\nguest 0 live\nvcpu 0.0 l1 halted rip=5001 rfl=2 cr0=80010033 cr3=1000 cr4=a0 efer=d00\n";

/// The same with a block for each event: the fetch sets the accessed bits of four entries.
const TRACED: &str =
    "event 0 place 0 0.0\nevent 1 run 0 0.0\nvcpu 0.0 l1 halted rip=5001 rfl=2 cr0=80010033 cr3=1000 cr4=a0 efer=d00\nmem 0 at=1000 bytes=27\nmem 0 at=2000 bytes=27\nmem 0 at=3000 bytes=27\nmem 0 at=4028 bytes=27\nevents 2\nguest 0 live\nvcpu 0.0 l1 halted rip=5001 rfl=2 cr0=80010033 cr3=1000 cr4=a0 efer=d00\n";

#[test]
fn jobs_end_as_the_formats_say(rt: HostRuntime) -> Result<(), Fail> {
    let table = [
        (HALT, Status::Done, RIGHT, 0),
        (
            Job {
                words: &TRACE,
                ..HALT
            },
            Status::Done,
            TRACED,
            0,
        ),
        (
            Job {
                words: &TRACE,
                sink_fails: Some(0),
                ..HALT
            },
            Status::OutsideFault(OutsideFault::Write),
            "",
            0,
        ),
        (
            Job {
                words: &TRACE,
                sink_fails: Some(1),
                ..HALT
            },
            Status::OutsideFault(OutsideFault::Write),
            "event 0 place 0 0.0\n",
            0,
        ),
        (
            Job {
                words: &["walk", "a", "b"],
                ..HALT
            },
            Status::Words,
            "refused words\n",
            0,
        ),
        (
            Job {
                words: &["run", "no.img", "one.script"],
                ..HALT
            },
            Status::Input(InputFault::Missing { script: false }),
            "refused missing image\n",
            0,
        ),
        (
            Job {
                words: &["run", "one.img", "no.script"],
                ..HALT
            },
            Status::Input(InputFault::Missing { script: true }),
            "refused missing script\n",
            0,
        ),
        (
            Job {
                words: &["run", "one.script", "one.script"],
                ..HALT
            },
            Status::Input(InputFault::Image {
                place: 0,
                reason: ImageReason::Magic,
            }),
            "refused image place=0 reason=Magic\n",
            0,
        ),
        (
            Job {
                words: &["run", "short.img", "one.script"],
                ..HALT
            },
            Status::Input(InputFault::Image {
                place: 15,
                reason: ImageReason::Short,
            }),
            "refused image place=15 reason=Short\n",
            0,
        ),
        (
            Job {
                script: "place 0 0 0\nplace 0 0 8\n",
                ..HALT
            },
            Status::Input(InputFault::Script {
                line: 2,
                reason: ScriptReason::Vcpu,
            }),
            "refused script line=2 reason=Vcpu\n",
            0,
        ),
        (
            Job {
                shelf_fails: Some(1),
                ..HALT
            },
            Status::OutsideFault(OutsideFault::Read),
            "fault read\n",
            0,
        ),
        (
            Job {
                sink_fails: Some(0),
                ..HALT
            },
            Status::OutsideFault(OutsideFault::Write),
            "",
            0,
        ),
        (
            Job {
                words: &["run", "short.img", "one.script"],
                sink_fails: Some(0),
                ..HALT
            },
            Status::Input(InputFault::Image {
                place: 15,
                reason: ImageReason::Short,
            }),
            "",
            0,
        ),
        (
            Job {
                code: &[0x0f, 0xff],
                ..HALT
            },
            Status::LeftProfile,
            "events 2\nguest 0 ended Unlisted value=ff vcpu=0 event=1\nvcpu 0.0 l1 ready rip=5000 rfl=2 cr0=80010033 cr3=1000 cr4=a0 efer=d00\n",
            0,
        ),
        (
            Job {
                code: &[0xe6, 0x10, 0xe6, 0x10, 0xf4],
                script: "place 0 0 0\nrun 0 3\n",
                device_fails: Some(1),
                ..HALT
            },
            Status::OutsideFault(OutsideFault::Device { device: 1 }),
            "fault device 1\n",
            1,
        ),
        (
            Job {
                script: "place 0 0 0\nfeed 1 7\n",
                device_fails: Some(0),
                ..HALT
            },
            Status::OutsideFault(OutsideFault::Device { device: 1 }),
            "fault device 1\n",
            0,
        ),
    ];
    for (job, status, text, writes) in table {
        ends_as(&rt, rt.alloc(), job, status, text, writes)?;
    }
    Ok(())
}

#[test]
fn dumps_are_printed_at_their_events(rt: HostRuntime) -> Result<(), Fail> {
    let outs = Job {
        code: &[0xe6, 0x10, 0xe6, 0x10, 0xf4],
        ..HALT
    };
    let table = [
        // In the midst and at the end: the fetch has set the A bit of the entry.
        (
            Job {
                script: "place 0 0 0\ndump 0 0x4028 8\nrun 0 1\ndump 0 0x4028 0x9\n",
                ..HALT
            },
            Status::Done,
            "dump event=1 guest=0 at=4028 bytes=0750000000000000\ndump event=3 guest=0 at=4028 bytes=275000000000000007\nevents 4\nguest 0 live\nvcpu 0.0 l1 halted rip=5001 rfl=2 cr0=80010033 cr3=1000 cr4=a0 efer=d00\n",
            0,
        ),
        // Of a guest that was ended.
        (
            Job {
                code: &[0x0f, 0xff],
                script: "dump 0 65535 1\nplace 0 0 0\nrun 0 1\ndump 0 0x5000 2\n",
                ..HALT
            },
            Status::LeftProfile,
            "dump event=0 guest=0 at=ffff bytes=00\ndump event=3 guest=0 at=5000 bytes=0fff\nevents 4\nguest 0 ended Unlisted value=ff vcpu=0 event=2\nvcpu 0.0 l1 ready rip=5000 rfl=2 cr0=80010033 cr3=1000 cr4=a0 efer=d00\n",
            0,
        ),
        // A device that fails behind a dump.
        (
            Job {
                script: "place 0 0 0\nrun 0 1\ndump 0 0x5000 1\nrun 0 1\n",
                device_fails: Some(1),
                ..outs
            },
            Status::OutsideFault(OutsideFault::Device { device: 1 }),
            "dump event=2 guest=0 at=5000 bytes=e6\nfault device 1\n",
            1,
        ),
        // The sink fails at the first dump, at the second, and at the report.
        (
            Job {
                script: "place 0 0 0\nrun 0 1\ndump 0 0x5000 1\nrun 0 2\n",
                sink_fails: Some(0),
                ..outs
            },
            Status::OutsideFault(OutsideFault::Write),
            "",
            1,
        ),
        (
            Job {
                script: "place 0 0 0\ndump 0 0 1\nrun 0 1\ndump 0 0x5001 1\nrun 0 1\ndump 0 0 1\n",
                sink_fails: Some(1),
                ..outs
            },
            Status::OutsideFault(OutsideFault::Write),
            "dump event=1 guest=0 at=0 bytes=00\n",
            1,
        ),
        (
            Job {
                script: "place 0 0 0\nrun 0 2\ndump 0 0x5000 4\n",
                sink_fails: Some(1),
                ..outs
            },
            Status::OutsideFault(OutsideFault::Write),
            "dump event=3 guest=0 at=5000 bytes=e610e610\n",
            2,
        ),
    ];
    for (job, status, text, writes) in table {
        ends_as(&rt, rt.alloc(), job, status, text, writes)?;
    }
    Ok(())
}
