// Tables from volume 2, 'Advanced Programmable Interrupt Controller (APIC)'.

use crate::{Apic, Ipi, Written, targets};

/// Offsets and what they read after reset, the ID being 3.
#[rattlefmt::skip]
const FRESH: [(u16, Option<u32>); 40] = [
    (0x000, None), (0x010, None), (0x020, Some(0x0300_0000)), (0x030, Some(0x5_0014)), (0x040, None), (0x070, None),
    (0x080, Some(0)), (0x084, None), (0x08f, None), (0x090, None), (0x0a0, Some(0)), (0x0b0, Some(0)), (0x0c0, None),
    (0x0d0, Some(0)), (0x0e0, Some(0xffff_ffff)), (0x0f0, Some(0xff)), (0x100, Some(0)), (0x170, Some(0)),
    (0x174, None), (0x180, Some(0)), (0x1f0, Some(0)), (0x200, Some(0)), (0x270, Some(0)), (0x280, Some(0)),
    (0x290, None), (0x2f0, None), (0x300, Some(0)), (0x310, Some(0)), (0x320, Some(0x1_0000)), (0x330, Some(0x1_0000)),
    (0x370, Some(0x1_0000)), (0x380, Some(0)), (0x390, Some(0)), (0x3a0, None), (0x3d0, None), (0x3e0, Some(0)),
    (0x3f0, None), (0x400, None), (0xff0, None), (0x1020, None),
];

#[test]
fn an_apic_reads_as_after_reset(rt: HostRuntime) {
    let apic = Apic::new(3);
    assert_eq!(rt; apic.id(), 3);
    for (offset, value) in &FRESH {
        assert!(rt; apic.read(*offset, 7) == *value, "offset {offset}");
    }
}

/// Offsets, what is written there, whether that is supported, and what is read behind it.
#[rattlefmt::skip]
const WRITES: [(u16, u32, bool, Option<u32>); 36] = [
    (0x020, 0xffff_ffff, true, Some(0x0500_0000)), (0x030, 0, true, Some(0x5_0014)),
    (0x080, 0xffff_ff25, true, Some(0x25)), (0x0a0, 0xff, true, Some(0x25)), (0x0b0, 1, true, Some(0)),
    (0x0d0, 0x1234_5678, true, Some(0x1200_0000)),
    (0x0e0, 0xefff_ffff, false, Some(0xffff_ffff)), (0x0e0, 0, true, Some(0x0fff_ffff)),
    (0x0e0, 0x1000_0000, false, Some(0x0fff_ffff)), (0x0e0, 0xf000_0000, true, Some(0xffff_ffff)),
    (0x0f0, 0xffff_ffff, true, Some(0x1ff)), (0x0f0, 0x130, true, Some(0x130)),
    (0x100, 0xffff_ffff, true, Some(0)), (0x180, 1, true, Some(0)), (0x270, 0xffff_ffff, true, Some(0)),
    (0x280, 1, true, Some(0)), (0x310, 0xffff_ffff, true, Some(0xff00_0000)),
    (0x320, 0xffff_ffff, true, Some(0x3_00ff)), (0x330, 0xffff_ffff, true, Some(0x1_00ff)),
    (0x370, 0xfffe_ffff, true, Some(0xff)), (0x320, 0x1_0040, true, Some(0x1_0040)),
    (0x380, 100, true, Some(100)), (0x390, 5, true, Some(100)), (0x3e0, 0xffff_ffff, true, Some(0xb)),
    (0x3e0, 0x4, true, Some(0)),
    (0x300, 0x200, false, Some(0)), (0x300, 0x300, false, Some(0)), (0x300, 0x500, false, Some(0)),
    (0x300, 0x600, false, Some(0)), (0x300, 0x700, false, Some(0)),
    (0x024, 1, false, None), (0x090, 1, false, None), (0x0c0, 1, false, None), (0x290, 1, false, None),
    (0x3f0, 1, false, None), (0x480, 1, false, None),
];

/// What is written to ICR's low half, and the vector, mode, logical, shorthand of what is sent.
#[rattlefmt::skip]
const COMMANDS: [(u32, u8, u8, bool, u8); 6] = [
    (0x0000_0031, 0x31, 0, false, 0), (0x0000_0942, 0x42, 1, true, 0), (0x000c_44ff, 0xff, 4, false, 3),
    (0x0004_0020, 0x20, 0, false, 1), (0x0008_0800, 0, 0, true, 2), (0xfff3_f0ff, 0xff, 0, false, 0),
];

#[test]
fn writes_keep_what_is_offered(rt: HostRuntime) {
    let mut apic = Apic::new(5);
    for (number, (offset, value, is_stored, read)) in WRITES.iter().enumerate() {
        let wanted = if *is_stored {
            Written::Stored
        } else {
            Written::Unsupported
        };
        assert!(rt; apic.write(*offset, *value, 9) == wanted, "write {number}");
        assert!(rt; apic.read(*offset, 9) == *read, "read {number}");
    }
    assert_eq!(rt; apic.write(0x310, 0x7fff_ffff, 0), Written::Stored);
    for (number, (value, vector, mode, logical, shorthand)) in COMMANDS.iter().enumerate() {
        let ipi = Ipi {
            vector: *vector,
            mode: *mode,
            logical: *logical,
            shorthand: *shorthand,
            destination: 0x7f,
        };
        assert!(rt;
            apic.write(0x300, *value, 0) == Written::Send(ipi),
            "command {number}"
        );
        assert!(rt; apic.read(0x300, 0) == Some(*value), "ICR {number}");
    }
}

#[derive(Clone, Copy)]
enum Step {
    Accept(u8),
    Priority(u8),
    Take(Option<u8>),
    Write(u16, u32),
}

/// Steps, and the pending vector and PPR behind each.
#[rattlefmt::skip]
const STEPS: [(Step, Option<u8>, u32); 25] = [
    // not enabled
    (Step::Accept(0x40), None, 0), (Step::Write(0xf0, 0x1ff), None, 0),
    // vectors below 16
    (Step::Accept(0), None, 0), (Step::Accept(15), None, 0), (Step::Take(None), None, 0),
    // 16 is of class 1
    (Step::Accept(16), Some(16), 0), (Step::Priority(0x0f), Some(16), 0x0f), (Step::Priority(0x10), None, 0x10),
    // the highest, where its class is above that of TPR
    (Step::Accept(0x52), Some(0x52), 0x10), (Step::Accept(0x35), Some(0x52), 0x10),
    (Step::Priority(0x50), None, 0x50), (Step::Take(None), None, 0x50), (Step::Priority(0x4f), Some(0x52), 0x4f),
    // in service it holds off its own class
    (Step::Take(Some(0x52)), None, 0x50), (Step::Accept(0x5f), None, 0x50), (Step::Priority(0x5a), None, 0x5a),
    (Step::Accept(0xff), Some(0xff), 0x5a), (Step::Take(Some(0xff)), None, 0xf0),
    // the highest one in service ends first
    (Step::Write(0xb0, 0), None, 0x5a), (Step::Priority(0), None, 0x50), (Step::Write(0xb0, 0), Some(0x5f), 0),
    (Step::Take(Some(0x5f)), None, 0x50), (Step::Write(0xb0, 7), Some(0x35), 0), (Step::Write(0xb0, 0), Some(0x35), 0),
    // what was accepted stays where the APIC is no longer enabled
    (Step::Write(0xf0, 0xff), Some(0x35), 0),
];

#[test]
fn interrupts_are_given_by_priority(rt: HostRuntime) {
    let mut apic = Apic::new(0);
    for (number, (step, pending, priority)) in STEPS.iter().enumerate() {
        match *step {
            Step::Accept(vector) => apic.accept(vector),
            Step::Priority(tpr) => apic.set_priority(tpr),
            Step::Take(vector) => assert!(rt; apic.take() == vector, "take {number}"),
            Step::Write(offset, value) => {
                assert!(rt;
                    apic.write(offset, value, 0) == Written::Stored,
                    "write {number}"
                )
            }
        }
        assert!(rt; apic.pending() == *pending, "pending {number}");
        assert!(rt; apic.read(0xa0, 0) == Some(*priority), "PPR {number}");
    }
}

#[test]
fn vectors_stand_in_their_registers(rt: HostRuntime) {
    let mut apic = Apic::new(0);
    assert_eq!(rt; apic.write(0xf0, 0x100, 0), Written::Stored);
    for vector in [16, 0x1f, 0x20, 0x7e, 0xff] {
        apic.accept(vector);
    }
    assert_eq!(rt; apic.take(), Some(0xff));
    assert_eq!(rt; apic.read(0x200, 0), Some(0x8001_0000));
    assert_eq!(rt; apic.read(0x210, 0), Some(1));
    assert_eq!(rt; apic.read(0x230, 0), Some(0x4000_0000));
    assert_eq!(rt; apic.read(0x270, 0), Some(0));
    assert_eq!(rt; apic.read(0x170, 0), Some(0x8000_0000));
    let copy = Apic::from_parts(7, &apic.copied().parts());
    assert_eq!(rt; copy.id(), 7);
    assert_eq!(rt; copy.parts().irr, apic.parts().irr);
    assert_eq!(rt; copy.parts().isr, apic.parts().isr);
    assert_eq!(rt; copy.read(0xf0, 0), Some(0x100));
}

/// The timer's word, the divide register and the initial count, all from event 10 on; an event, the current count there,
/// whether the timer rings, and the register of vectors 20h to 3Fh behind it.
#[rattlefmt::skip]
const TIMERS: [(u32, u32, u32, u32, u32, bool, u32); 27] = [
    // once, at the end of the run
    (0x30, 0xb, 3, 10, 3, false, 0), (0x30, 0xb, 3, 9, 3, false, 0), (0x30, 0xb, 3, 12, 1, false, 0),
    (0x30, 0xb, 3, 13, 0, true, 0x1_0000), (0x30, 0xb, 3, 16, 0, false, 0),
    // periodic
    (0x2_0030, 0xb, 3, 10, 3, false, 0), (0x2_0030, 0xb, 3, 12, 1, false, 0),
    (0x2_0030, 0xb, 3, 13, 3, true, 0x1_0000), (0x2_0030, 0xb, 3, 15, 1, false, 0),
    (0x2_0030, 0xb, 3, 310, 3, true, 0x1_0000),
    // each divisor: 2, 4, 8, 16, 32, 64, 128, 1
    (0x30, 0, 2, 14, 0, true, 0x1_0000), (0x30, 1, 2, 18, 0, true, 0x1_0000), (0x30, 2, 2, 26, 0, true, 0x1_0000),
    (0x30, 3, 2, 42, 0, true, 0x1_0000), (0x30, 8, 2, 74, 0, true, 0x1_0000), (0x30, 9, 2, 138, 0, true, 0x1_0000),
    (0x30, 10, 2, 266, 0, true, 0x1_0000), (0x30, 11, 2, 12, 0, true, 0x1_0000),
    (0x30, 0, 2, 13, 1, false, 0), (0x30, 10, 2, 265, 1, false, 0), (0x2_0030, 1, 2, 26, 2, true, 0x1_0000),
    // masked, a vector below 16, a count of 0, and the longest run
    (0x1_0030, 0xb, 3, 13, 0, false, 0), (0x3_0030, 0xb, 3, 16, 3, false, 0), (0x0f, 0xb, 3, 13, 0, false, 0),
    (0x30, 0xb, 0, 10, 0, false, 0), (0x2_0030, 0xb, 0, 11, 0, false, 0),
    (0x30, 10, 0xffff_ffff, 0xffff_ffff, 0xfe00_0000, false, 0),
];

#[test]
fn the_timer_counts_events(rt: HostRuntime) {
    for (number, (word, divide, count, event, current, rings, vectors)) in TIMERS
        .iter()
        .enumerate()
    {
        let mut apic = Apic::new(0);
        for (offset, value) in [
            (0xf0, 0x1ff),
            (0x320, *word),
            (0x3e0, *divide),
            (0x380, *count),
        ] {
            assert_eq!(rt; apic.write(offset, value, 10), Written::Stored);
        }
        assert!(rt;
            apic.read(0x390, *event) == Some(*current),
            "count {number}"
        );
        assert!(rt; apic.expire(*event) == *rings, "timer {number}");
        assert!(rt;
            apic.read(0x210, *event) == Some(*vectors),
            "vectors {number}"
        );
    }
}

#[test]
fn a_timer_that_is_not_enabled_does_not_ring(rt: HostRuntime) {
    let mut apic = Apic::new(0);
    for (offset, value) in [(0x320, 0x30), (0x3e0, 0xb), (0x380, 1)] {
        assert_eq!(rt; apic.write(offset, value, 0), Written::Stored);
    }
    assert!(rt; !apic.expire(1) && apic.read(0x210, 1) == Some(0));
}

/// Mode, logical, shorthand and destination of what APIC 1 of four sends, and its targets.
type Sent = (u8, bool, u8, u8, u8);

/// In the flat model the LDRs are 1, 2, 4 and 8.
#[rattlefmt::skip]
const FLAT: [Sent; 16] = [
    // by ID
    (0, false, 0, 2, 0b0100), (0, false, 0, 9, 0), (0, false, 0, 255, 0b1111), (4, false, 0, 3, 0b1000),
    // by LDR
    (0, true, 0, 0x05, 0b0101), (0, true, 0, 0x10, 0), (0, true, 0, 255, 0b1111), (4, true, 0, 0xfc, 0b1100),
    // self, all, all but self
    (0, false, 1, 3, 0b0010), (0, true, 2, 0, 0b1111), (4, false, 3, 0, 0b1101), (0, false, 3, 255, 0b1101),
    // lowest priority: the least PPR of those that are enabled, then the least ID
    (1, true, 0, 0x0e, 0b0010), (1, true, 0, 0x0c, 0b0100), (1, false, 3, 0, 0b0100), (1, false, 0, 3, 0),
];

/// In the cluster model they are 11h, 12h, 21h and 22h.
#[rattlefmt::skip]
const CLUSTERS: [Sent; 8] = [
    (0, true, 0, 0x13, 0b0011), (0, true, 0, 0x23, 0b1100), (0, true, 0, 0x21, 0b0100), (0, true, 0, 0x33, 0),
    (0, true, 0, 0x10, 0), (0, true, 0, 0xff, 0b1111), (0, false, 0, 0x01, 0b0010), (1, true, 0, 0x13, 0b0010),
];

/// An APIC of this ID, model and LDR, with this task priority and SVR.
fn apic_of(id: u8, dfr: u32, ldr: u32, tpr: u8, svr: u32) -> Apic {
    let mut apic = Apic::new(id);
    let _ = apic.write(0xe0, dfr, 0);
    let _ = apic.write(0xd0, ldr << 24, 0);
    let _ = apic.write(0xf0, svr, 0);
    apic.set_priority(tpr);
    apic
}

fn ipi_of(sent: &Sent) -> Ipi {
    Ipi {
        vector: 0x30,
        mode: sent.0,
        logical: sent.1,
        shorthand: sent.2,
        destination: sent.3,
    }
}

#[test]
fn interrupts_go_to_their_targets(rt: HostRuntime) {
    let flat = [
        apic_of(0, 0xffff_ffff, 1, 0x40, 0x1ff),
        apic_of(1, 0xffff_ffff, 2, 0x20, 0x1ff),
        apic_of(2, 0xffff_ffff, 4, 0x20, 0x1ff),
        apic_of(3, 0xffff_ffff, 8, 0x10, 0xff),
    ];
    for (number, sent) in FLAT.iter().enumerate() {
        assert!(rt; targets(&ipi_of(sent), 1, &flat) == sent.4, "flat {number}");
    }
    let clusters = [
        apic_of(0, 0, 0x11, 0x40, 0x1ff),
        apic_of(1, 0, 0x12, 0x20, 0x1ff),
        apic_of(2, 0, 0x21, 0x10, 0x1ff),
        apic_of(3, 0, 0x22, 0x10, 0x1ff),
    ];
    for (number, sent) in CLUSTERS.iter().enumerate() {
        assert!(rt;
            targets(&ipi_of(sent), 1, &clusters) == sent.4,
            "clusters {number}"
        );
    }
}
