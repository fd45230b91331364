// Verdicts on small runs, worked out by hand from the rules of maintenance.
ghost use Rattle.std.specs.Prelude.{◌≡◌, ◌<◌, length};

use crate::images::image_of;
use crate::verdicts::audit;
use host_memory::counted_from;
use image_format::parse_image;
use port_bus::{Bus, MemoryDevice, PortDevice};
use script_format::parse_script;
use std::alloc::{AllocError, Global};
use std::marker::Brand;
use std::process::Abort;
use std::sync::ledger::{Blank, Ledger};
use std::test::Fail;
use svm_model::{Breach, CpuId, Frame, GuestId, Outcome, RunEnd, Stale, TurnId, VcpuId, Verdict};

/// A run: the guest's code, the bytes of its frame 7, the script, and the call of device 1 that fails.
#[derive(Clone, Copy)]
struct Run<'a> {
    code: &'a [u8],
    moved: &'a [u8],
    script: &'a str,
    device_fails: Option<u64>,
}

/// A breach by a linear translation: the event, the page, the frame that was kept for it, and what the walk comes to.
#[derive(Clone, Copy)]
struct StaleAt {
    event: u32,
    page: u64,
    kept: u64,
    plain: Outcome,
}

#[derive(Clone, Copy)]
enum Wanted {
    Keeps(u32),
    Breach(StaleAt),
    Refused(RunEnd),
}

/// The vcpu is placed and takes three turns.
const THREE: &str = "place 0 0 0\nrun 0 3\n";

const HALT: Run<'static> = Run {
    code: &[0xf4],
    moved: &[0xf4],
    script: "place 0 0 0\nrun 0 1\n",
    device_fails: None,
};

/// MOV of 7007h to the entry of linear page 6, and reads of a byte there.
const MOVED_TABLE: Run<'static> = Run {
    code: &[
        0xc7, 0x04, 0x25, 0x30, 0x60, 0x00, 0x00, 0x07, 0x70, 0x00, 0x00, 0x8a, 0x04, 0x25, 0x00,
        0x60, 0x00, 0x00, 0x8a, 0x04, 0x25, 0x00, 0x60, 0x00, 0x00,
    ],
    script: THREE,
    ..HALT
};

/// MOV of 7007h to the entry of linear page 5, on which OUT comes in frame 7.
const MOVED_CODE: Run<'static> = Run {
    code: &[
        0xc7, 0x04, 0x25, 0x28, 0x60, 0x00, 0x00, 0x07, 0x70, 0x00, 0x00, 0xf4,
    ],
    moved: &[0, 0, 0, 0, 0, 0, 0, 0, 0, 0, 0, 0xe6, 0x10],
    script: THREE,
    ..HALT
};

/// The first walk that finds frame 7 sets its accessed bit.
const FRAME_7: Outcome = Outcome::Frame {
    frame: Frame(7),
    changed: true,
};

const STALE_TABLE: StaleAt = StaleAt {
    event: 2,
    page: 6,
    kept: 4,
    plain: FRAME_7,
};

const STALE_CODE: StaleAt = StaleAt {
    event: 2,
    page: 5,
    kept: 5,
    plain: FRAME_7,
};

const FAILED: Wanted = Wanted::Refused(RunEnd::Device { device: 1 });

fn is_breach(breach: &Breach, wanted: &StaleAt) -> bool {
    let Stale::Translation { kept, plain } = breach.stale else {
        return false;
    };
    let guest = GuestId(0);
    let turn = TurnId {
        vcpu: VcpuId { guest, index: 0 },
        cpu: CpuId(0),
        event: wanted.event,
    };
    let is_linear = kept.asid == 0 && !kept.nested;
    let is_same = kept.page.0 == wanted.page && kept.leaf.frame.0 == wanted.kept;
    breach.turn == turn && is_linear && is_same && plain == wanted.plain
}

fn is_wanted(found: &Result<Verdict, RunEnd>, wanted: &Wanted) -> bool {
    match (found, wanted) {
        (Ok(Verdict::Keeps { events }), Wanted::Keeps(right)) => events == right,
        (Ok(Verdict::Breach(breach)), Wanted::Breach(right)) => is_breach(breach, right),
        (Err(end), Wanted::Refused(right)) => end == right,
        _ => false,
    }
}

/// The calls of device 1 that fail, and none of any other device.
fn failing_calls(alloc: Global, device: u8, fails: Option<u64>) -> Result<Vec<u64>, AllocError> {
    let mut failing = Vec::new(alloc);
    if let (1, Some(call)) = (device, fails) {
        failing.push(call)?;
    }
    Ok(failing)
}

fn audited<L: Ledger>(
    rt: &impl Abort,
    alloc: Global,
    run: Run<'_>,
    reads: Blank,
) -> Result<Result<Verdict, RunEnd>, AllocError>
    requires code { length run.code.now < 256 }
    requires moved { length run.moved.now < 256 }
    requires reads { reads.name ≡ L.name }
    requires parts { reads.parts ≡ L.parts }
    requires some { 0 < reads.parts }
{
    let bytes = image_of(alloc, run.code, run.moved)?;
    let Ok(image) = parse_image(alloc, &bytes) else {
        return Err(AllocError);
    };
    let Ok(script) = parse_script(alloc, run.script.as_bytes(), &image) else {
        return Err(AllocError);
    };
    let mut devices: Vec<Box<dyn PortDevice>> = Vec::new(alloc);
    for device in 0..16u8 {
        let failing = failing_calls(alloc, device, run.device_fails)?;
        devices.push(Box::new(alloc, MemoryDevice::new(alloc, failing))?)?;
    }
    assert!(rt; devices.len() == 16);
    let Ok(mut bus) = Bus::new(alloc, devices) else {
        return Err(AllocError);
    };
    let mut steps = counted_from::<L>(reads);
    match audit(alloc, &image, &script, &mut bus, &mut steps) {
        Err(RunEnd::NoMemory) => Err(AllocError),
        found => Ok(found),
    }
}

#[test]
fn verdicts_are_those_of_the_rules(rt: HostRuntime) -> Result<(), Fail> {
    let table = [
        (HALT, Wanted::Keeps(2)),
        // The first breach is told, and not the next one.
        (MOVED_TABLE, Wanted::Breach(STALE_TABLE)),
        // INVLPG of page 6 behind the MOV.
        (
            Run {
                code: &[
                    0xc7, 0x04, 0x25, 0x30, 0x60, 0x00, 0x00, 0x07, 0x70, 0x00, 0x00, 0x0f, 0x01,
                    0x3c, 0x25, 0x00, 0x60, 0x00, 0x00, 0x8a, 0x04, 0x25, 0x00, 0x60, 0x00, 0x00,
                ],
                ..MOVED_TABLE
            },
            Wanted::Keeps(4),
        ),
        // A fetch.
        (MOVED_CODE, Wanted::Breach(STALE_CODE)),
        // The device fails in the event of the breach, before it, and would fail behind it.
        (
            Run {
                device_fails: Some(0),
                ..MOVED_CODE
            },
            FAILED,
        ),
        (
            Run {
                code: &[
                    0xe6, 0x10, 0xc7, 0x04, 0x25, 0x30, 0x60, 0x00, 0x00, 0x07, 0x70, 0x00, 0x00,
                    0x8a, 0x04, 0x25, 0x00, 0x60, 0x00, 0x00,
                ],
                device_fails: Some(0),
                ..MOVED_TABLE
            },
            FAILED,
        ),
        (
            Run {
                script: "place 0 0 0\nrun 0 2\nfeed 1 7\n",
                device_fails: Some(0),
                ..MOVED_TABLE
            },
            Wanted::Breach(STALE_TABLE),
        ),
    ];
    for (run, wanted) in table {
        let (code, moved) = (run.code, run.moved);
        assert!(rt; code.len() < 256 && moved.len() < 256);
        let found = audited::<Brand>(&rt, rt.alloc(), run, Blank::new(1))?;
        assert!(rt; is_wanted(&found, &wanted));
    }
    Ok(())
}
