use super::*;
use std::test::*;
use svm_model::{
    Breach, CpuId, Event, Field, Frame, GuestId, Leaf, LinearPage, Outcome, PageSize, Remembered,
    Stale, TurnId, VcpuId, Verdict,
};

const SECOND: VcpuId = VcpuId {
    guest: GuestId(3),
    index: 7,
};

// Events, the vcpu that ran, and the line.
#[rattlefmt::skip]
const EVENTS: [(u32, Event, Option<VcpuId>, &[u8]); 8] = [
    (0, Event::Place { cpu: CpuId(7), vcpu: SECOND }, None, b"event 0 place 7 3.7\n"),
    (1, Event::Run { cpu: CpuId(2) }, Some(SECOND), b"event 1 run 2 3.7\n"),
    (10, Event::Run { cpu: CpuId(0) }, None, b"event 10 run 0 none\n"),
    (1_048_575, Event::Feed { device: 15, value: 0xdead }, None, b"event 1048575 feed 15 dead\n"),
    (4, Event::Irq { vcpu: SECOND, vector: 0x2f }, None, b"event 4 irq 3.7 2f\n"),
    (5, Event::Nmi { vcpu: SECOND }, None, b"event 5 nmi 3.7\n"),
    (6, Event::Unplug { device: 12 }, None, b"event 6 unplug 12\n"),
    (7, Event::Dump { guest: GuestId(3), address: 0x1000, length: 256 }, None, b"event 7 dump 3\n"),
];

#[test]
fn events_as_text(rt: HostRuntime) -> Result<(), Fail> {
    for (number, event, ran, line) in &EVENTS {
        let text = event_text(rt.alloc(), *number, *event, *ran)
            .ok()
            .ok_or("a line")?;
        assert_eq!(rt; text.as_slice(), *line);
    }
    Ok(())
}

// Bytes as they were and as they are, which begin at 4096 in guest 2, and the lines.
const CHANGES: [(&[u8], &[u8], &[u8]); 6] = [
    (b"", b"", b""),
    (b"abcd", b"abcd", b""),
    (
        b"abcdef",
        b"aBCdEf",
        b"mem 2 at=1001 bytes=4243\nmem 2 at=1004 bytes=45\n",
    ),
    (
        b"abcd",
        b"Abc\x05",
        b"mem 2 at=1000 bytes=41\nmem 2 at=1003 bytes=05\n",
    ),
    (b"ab", b"\x00\xff", b"mem 2 at=1000 bytes=00ff\n"),
    (
        b"0123456789abcdefX",
        b"0123456789abcdef\x10",
        b"mem 2 at=1010 bytes=10\n",
    ),
];

#[test]
fn changes_as_text(rt: HostRuntime) -> Result<(), Fail> {
    for (old, new, lines) in &CHANGES {
        if old.len() != new.len() {
            return Err("as many bytes".into());
        }
        let text = memory_text(rt.alloc(), GuestId(2), 4096, old, new)
            .ok()
            .ok_or("lines")?;
        assert_eq!(rt; text.as_slice(), *lines);
    }
    Ok(())
}

const TURN: TurnId = TurnId {
    vcpu: SECOND,
    cpu: CpuId(5),
    event: 1_048_575,
};

/// A translation that was kept of linear page 0x12345 as frame 0x2a.
const KEPT: Remembered = Remembered {
    asid: 10,
    nested: false,
    page: LinearPage(0x1_2345),
    leaf: Leaf {
        frame: Frame(0x2a),
        size: PageSize::Small,
        global: false,
        writable: true,
        user: true,
        executable: true,
        dirty: false,
    },
};

const NESTED: Remembered = Remembered {
    nested: true,
    ..KEPT
};

// What is stale in the turn, and the lines of these breaches.
#[rattlefmt::skip]
const BREACHES: [(Stale, &[u8]); 6] = [
    (Stale::Translation { kept: KEPT, plain: Outcome::Frame { frame: Frame(0x2b), changed: true } },
        b"breach event=1048575 cpu=5 vcpu=3.7 translation asid=10 page=12345 kept=2a plain=frame:2b\n"),
    (Stale::Translation { kept: KEPT, plain: Outcome::Frame { frame: Frame(0x2a), changed: true } },
        b"breach event=1048575 cpu=5 vcpu=3.7 translation asid=10 page=12345 kept=2a plain=changed\n"),
    (Stale::Translation { kept: NESTED, plain: Outcome::Fault { code: 0x1_0000_0005 } },
        b"breach event=1048575 cpu=5 vcpu=3.7 nested asid=10 page=12345 kept=2a plain=fault:100000005\n"),
    (Stale::Translation { kept: NESTED, plain: Outcome::End },
        b"breach event=1048575 cpu=5 vcpu=3.7 nested asid=10 page=12345 kept=2a plain=end\n"),
    (Stale::Field { group: 11, vmcb: 0xb000, field: Field::BackingPage, held: 0xc000, found: 0 },
        b"breach event=1048575 cpu=5 vcpu=3.7 field group=11 at=b000 offset=e0 held=c000 found=0\n"),
    (Stale::Field { group: 0, vmcb: 0, field: Field::CrIntercepts, held: 0x10, found: 0xffff_ffff },
        b"breach event=1048575 cpu=5 vcpu=3.7 field group=0 at=0 offset=0 held=10 found=ffffffff\n"),
];

#[test]
fn breaches_as_text(rt: HostRuntime) -> Result<(), Fail> {
    for (stale, line) in &BREACHES {
        let breach = Breach {
            turn: TURN,
            stale: *stale,
        };
        let text = verdict_text(rt.alloc(), &Verdict::Breach(breach))
            .ok()
            .ok_or("a line")?;
        assert_eq!(rt; text.as_slice(), *line);
    }
    Ok(())
}

// Numbers of events in which the rules were kept, and the lines.
const KEEPS: [(u32, &[u8]); 2] = [
    (0, b"keeps events=0\n"),
    (1_048_576, b"keeps events=1048576\n"),
];

#[test]
fn what_keeps_as_text(rt: HostRuntime) -> Result<(), Fail> {
    for (events, line) in &KEEPS {
        let text = verdict_text(rt.alloc(), &Verdict::Keeps { events: *events })
            .ok()
            .ok_or("a line")?;
        assert_eq!(rt; text.as_slice(), *line);
    }
    Ok(())
}
