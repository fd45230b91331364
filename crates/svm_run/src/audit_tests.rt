// Audits, whose verdicts are worked out by hand from the rules of maintenance.

use crate::status::{OutsideFault, Status};
use crate::tests::{HALT, Job, ends_as};
use std::test::Fail;

const AUDIT: [&str; 3] = ["audit", "one.img", "one.script"];

/// MOV of 7007h to the entry of linear page 6, which is mapped to its table in frame 4, and a read of a byte there.
const STALE: Job<'static> = Job {
    words: &AUDIT,
    entry: 0x4007,
    code: &[
        0xc7, 0x04, 0x25, 0x30, 0x60, 0x00, 0x00, 0x07, 0x70, 0x00, 0x00, 0x8a, 0x04, 0x25, 0x00,
        0x60, 0x00, 0x00,
    ],
    script: "place 0 0 0\nrun 0 2\n",
    ..HALT
};

#[test]
fn audits_end_in_a_verdict(rt: HostRuntime) -> Result<(), Fail> {
    let table = [
        (
            Job {
                words: &AUDIT,
                ..HALT
            },
            Status::Done,
            "keeps events=2\n",
        ),
        (
            STALE,
            Status::Breach,
            "breach event=2 cpu=0 vcpu=0.0 translation asid=0 page=6 kept=4 plain=frame:7\n",
        ),
        (
            Job {
                sink_fails: Some(0),
                ..STALE
            },
            Status::OutsideFault(OutsideFault::Write),
            "",
        ),
        // OUT 10h, AL.
        (
            Job {
                code: &[0xe6, 0x10],
                device_fails: Some(0),
                ..STALE
            },
            Status::OutsideFault(OutsideFault::Device { device: 1 }),
            "fault device 1\n",
        ),
    ];
    for (job, status, text) in table {
        ends_as(&rt, rt.alloc(), job, status, text, 0)?;
    }
    Ok(())
}
