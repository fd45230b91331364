ghost use Rattle.std.specs.Prelude.{IfOk};
ghost use Rattle.svm_model.specs.Formats.LawfulImages.{IsLawfulImage};

use super::*;
use image_format::{Image, parse_image};
use std::alloc::Global;
use std::test::*;
use svm_model::{CpuId, Event, GuestId, VcpuId};

// An image of so many processors, with a guest of one page for each number of vcpus.
fn image_of(alloc: Global, cpus: u8, guests: &[u8]) -> Result<Image, Fail>
    ensures { IfOk result IsLawfulImage }
{
    let count = u8::try_from(guests.len())?;
    let mut bytes = Vec::from_slice(alloc, b"SVMIMAGE\x01\x00")?;
    bytes.extend_from_slice(&[count, cpus, 0, 0, 0, 0])?;
    for vcpus in guests {
        bytes.extend_from_slice(&[*vcpus, 0, 0, 0, 1, 0, 0, 0, 0, 0, 0, 0, 0, 0, 0, 0])?;
        for _ in 0..*vcpus {
            // All is 0 but bit 1 of RFLAGS.
            bytes.extend_from_slice(&[0; 24])?;
            bytes.push(2)?;
            bytes.extend_from_slice(&[0; 39])?;
        }
    }
    Ok(parse_image(alloc, &bytes)?)
}

// Scripts for an image of one processor and one vcpu: how many lines say something, and how many events they are.
#[rattlefmt::skip]
const SCRIPTS: [(&[u8], usize, u32); 25] = [
    (b"place 0 0 0\nrun 0 1\n", 2, 2),
    (b"place 0 0 0\r\nrun 0 1\r\n", 2, 2),
    (b"place 0 0 0\nrun 0 7", 2, 8),
    (b"\t place \t0  0\t\t0 \n", 1, 1),
    (b"", 0, 0),
    (b"\n\n\r\n \t\n", 0, 0),
    // A comment has any bytes.
    (b"#\n#run 0 1\n \t#\xff\x00 \x7f\r\r\nrun 0 2\n", 1, 2),
    (b"run 0 5 \n#", 1, 5),
    (b"#\r", 0, 0),
    (b"run 0x0 0x10\n", 1, 16),
    (b"run 0x00000000000000000000 0x00000000000000000001\n", 1, 1),
    (b"run 0 0xaF\nrun 0 0xAf\n", 2, 350),
    (b"run 0 10\nrun 0 99", 2, 109),
    (b"run 0 1048576\n", 1, 1_048_576),
    (b"run 0 1048575\nplace 0 0 0", 2, 1_048_576),
    (b"run 0 0x100000\n# no more", 1, 1_048_576),
    (b"feed 0 4294967295\nfeed 15 0\nunplug 0xf\nunplug 15\n", 4, 4),
    // The guest has 4096 bytes.
    (b"dump 0 0 1\ndump 0 0 256\n", 2, 2),
    (b"dump 0 4095 1\n dump 0x0 0xf00 0x100\n", 2, 2),
    (b"run 0 1048575\ndump 0 3840 256", 2, 1_048_576),
    (b"each 1\neach 0x10\nrun 0 3\n", 3, 20),
    (b"each 1048576", 1, 1_048_576),
    (b"run 0 1\n\neach 1048574\nnmi 0 0\n", 3, 1_048_576),
    (b"irq 0 0 16\nirq 0 0 255\n irq 0x0 0x0 0x80", 3, 3),
    (b"nmi 0 0\nrun 0 1048574\nirq 0 0 32", 3, 1_048_576),
];

#[test]
fn scripts_are_read(rt: HostRuntime) -> Result<(), Fail> {
    let image = image_of(rt.alloc(), 1, &[1])?;
    for (bytes, lines, events) in &SCRIPTS {
        let script = parse_script(rt.alloc(), bytes, &image)?;
        assert_eq!(rt; (script.lines.len(), script.events), (*lines, *events));
    }
    Ok(())
}

// Scripts that are refused for the same image: the line, and the reason.
#[rattlefmt::skip]
const REFUSED: [(&[u8], u32, ScriptReason); 145] = [
    (b"run 0 1\r", 1, ScriptReason::Bytes),
    (b"run 0 1\r\r\n", 1, ScriptReason::Bytes),
    (b"run 0\r 1\n", 1, ScriptReason::Bytes),
    (b"\x01\n", 1, ScriptReason::Bytes),
    (b"run 0 1\n\n\xff \n", 3, ScriptReason::Bytes),
    (b"place 0 0 0 # \x7f\n", 1, ScriptReason::Bytes),
    (b"plaze \x80\n", 1, ScriptReason::Bytes),
    (b"plaze 0 0 0\n", 1, ScriptReason::Word),
    (b"plac 0 0 0\n", 1, ScriptReason::Word),
    (b"places 0 0 0\n", 1, ScriptReason::Word),
    (b"Run 0 1\n", 1, ScriptReason::Word),
    (b"run# 0 1\n", 1, ScriptReason::Word),
    (b"place\n", 1, ScriptReason::Words),
    (b"place 0 0\n", 1, ScriptReason::Words),
    (b"place 0 0 0 0\n", 1, ScriptReason::Words),
    (b"place 0 0 0 #\n", 1, ScriptReason::Words),
    (b"place x\n", 1, ScriptReason::Words),
    (b"run 0\n", 1, ScriptReason::Words),
    (b"run 0 1 1\n", 1, ScriptReason::Words),
    (b"place x 0 0\n", 1, ScriptReason::Number),
    (b"place 0 x 0\n", 1, ScriptReason::Number),
    (b"place 0 0 x\n", 1, ScriptReason::Number),
    (b"place 00 0 0\n", 1, ScriptReason::Number),
    (b"place 01 0 0\n", 1, ScriptReason::Number),
    (b"place 0x 0 0\n", 1, ScriptReason::Number),
    (b"place 0X1 0 0\n", 1, ScriptReason::Number),
    (b"place 0xg 0 0\n", 1, ScriptReason::Number),
    (b"place 1a 0 0\n", 1, ScriptReason::Number),
    (b"place +1 0 0\n", 1, ScriptReason::Number),
    (b"place -1 0 0\n", 1, ScriptReason::Number),
    // 2 ^ 64 and one less.
    (b"place 18446744073709551616 0 0\n", 1, ScriptReason::Number),
    (b"place 18446744073709551615 0 0\n", 1, ScriptReason::Cpu),
    (b"place 0x10000000000000000 0 0\n", 1, ScriptReason::Number),
    (b"place 0xffffffffffffffff 0 0\n", 1, ScriptReason::Cpu),
    (b"place 0x000000000000000001 0 0\n", 1, ScriptReason::Cpu),
    (b"feeds 0 0\n", 1, ScriptReason::Word),
    (b"feed 0\n", 1, ScriptReason::Words),
    (b"feed 0 0 0\n", 1, ScriptReason::Words),
    (b"feed 16 x\n", 1, ScriptReason::Number),
    (b"feed x 0\n", 1, ScriptReason::Number),
    (b"feed 16 4294967296\n", 1, ScriptReason::Device),
    (b"feed 15 4294967296\n", 1, ScriptReason::Value),
    (b"feed 15 0x100000000\n", 1, ScriptReason::Value),
    (b"unplug\n", 1, ScriptReason::Words),
    (b"unplug 0 0\n", 1, ScriptReason::Words),
    (b"unplug x\n", 1, ScriptReason::Number),
    (b"unplug 16\n", 1, ScriptReason::Device),
    (b"unplug 256\n", 1, ScriptReason::Device),
    (b"run 0 1048576\nfeed 0 0\n", 2, ScriptReason::Events),
    // Of a dump: the number of the words, each number, and then guest, length and address.
    (b"dump 0 0 1 \x7f\n", 1, ScriptReason::Bytes),
    (b"dumps 0 0 1\n", 1, ScriptReason::Word),
    (b"dump\n", 1, ScriptReason::Words),
    (b"dump 0 0\n", 1, ScriptReason::Words),
    (b"dump 1 0 x 0\n", 1, ScriptReason::Words),
    (b"dump x 0 1\n", 1, ScriptReason::Number),
    (b"dump 0 x 1\n", 1, ScriptReason::Number),
    (b"dump 1 0 x\n", 1, ScriptReason::Number),
    (b"dump 1 18446744073709551616 0\n", 1, ScriptReason::Number),
    (b"dump 1 0 0\n", 1, ScriptReason::Guest),
    (b"dump 1 0 1\n", 1, ScriptReason::Guest),
    (b"dump 256 0 1\n", 1, ScriptReason::Guest),
    (b"dump 18446744073709551615 0 1\n", 1, ScriptReason::Guest),
    (b"dump 0 0 0\n", 1, ScriptReason::Length),
    (b"dump 0 0 257\n", 1, ScriptReason::Length),
    (b"dump 0 4096 0\n", 1, ScriptReason::Length),
    (b"dump 0 18446744073709551615 257\n", 1, ScriptReason::Length),
    (b"dump 0 0 65537\n", 1, ScriptReason::Length),
    (b"dump 0 4096 1\n", 1, ScriptReason::Address),
    (b"dump 0 4095 2\n", 1, ScriptReason::Address),
    (b"dump 0 3841 256\n", 1, ScriptReason::Address),
    (b"dump 0 18446744073709551615 1\n", 1, ScriptReason::Address),
    (b"dump 0 18446744073709551360 256\n", 1, ScriptReason::Address),
    (b"run 0 1048576\ndump 0 4096 1\n", 2, ScriptReason::Address),
    (b"run 0 1048576\ndump 0 0 1\n", 2, ScriptReason::Events),
    // Of rounds.
    (b"each 0 \x7f\n", 1, ScriptReason::Bytes),
    (b"eaches 1\n", 1, ScriptReason::Word),
    (b"each\n", 1, ScriptReason::Words),
    (b"each x 0\n", 1, ScriptReason::Words),
    (b"each 0 1\n", 1, ScriptReason::Words),
    (b"each x\n", 1, ScriptReason::Number),
    (b"each 01\n", 1, ScriptReason::Number),
    (b"each 18446744073709551616\n", 1, ScriptReason::Number),
    (b"each 0\n", 1, ScriptReason::Count),
    (b"each 1048577\n", 1, ScriptReason::Count),
    (b"each 4294967297\n", 1, ScriptReason::Count),
    (b"each 18446744073709551615\n", 1, ScriptReason::Count),
    (b"run 0 1\neach 1048577\n", 2, ScriptReason::Count),
    (b"run 0 1\neach 1048576\n", 2, ScriptReason::Events),
    (b"each 1048576\nrun 0 1\n", 2, ScriptReason::Events),
    // Of interrupts: the number of the words, each number, and then guest, vcpu and vector.
    (b"irq 1 \x7f\n", 1, ScriptReason::Bytes),
    (b"irqs 0 0 16\n", 1, ScriptReason::Word),
    (b"IRQ 0 0 16\n", 1, ScriptReason::Word),
    (b"irq\n", 1, ScriptReason::Words),
    (b"irq 0\n", 1, ScriptReason::Words),
    (b"irq 0 0\n", 1, ScriptReason::Words),
    (b"irq x 0 16 0\n", 1, ScriptReason::Words),
    (b"irq x 0 16\n", 1, ScriptReason::Number),
    (b"irq 1 x 15\n", 1, ScriptReason::Number),
    (b"irq 1 8 x\n", 1, ScriptReason::Number),
    (b"irq 1 0 18446744073709551616\n", 1, ScriptReason::Number),
    (b"irq 1 8 15\n", 1, ScriptReason::Guest),
    (b"irq 1 0 16\n", 1, ScriptReason::Guest),
    (b"irq 256 0 16\n", 1, ScriptReason::Guest),
    (b"irq 18446744073709551615 0 16\n", 1, ScriptReason::Guest),
    (b"irq 0 1 15\n", 1, ScriptReason::Vcpu),
    (b"irq 0 256 16\n", 1, ScriptReason::Vcpu),
    (b"irq 0 0 0\n", 1, ScriptReason::Vector),
    (b"irq 0 0 15\n", 1, ScriptReason::Vector),
    (b"irq 0 0 256\n", 1, ScriptReason::Vector),
    (b"irq 0 0 272\n", 1, ScriptReason::Vector),
    (b"irq 0 0 18446744073709551615\n", 1, ScriptReason::Vector),
    (b"run 0 1048576\nirq 0 0 15\n", 2, ScriptReason::Vector),
    (b"run 0 1048576\nirq 0 0 16\n", 2, ScriptReason::Events),
    (b"nmi 1 \x7f\n", 1, ScriptReason::Bytes),
    (b"nmis 0 0\n", 1, ScriptReason::Word),
    (b"nmi\n", 1, ScriptReason::Words),
    (b"nmi 0\n", 1, ScriptReason::Words),
    (b"nmi x 0 2\n", 1, ScriptReason::Words),
    (b"nmi x 0\n", 1, ScriptReason::Number),
    (b"nmi 1 x\n", 1, ScriptReason::Number),
    (b"nmi 1 8\n", 1, ScriptReason::Guest),
    (b"nmi 256 0\n", 1, ScriptReason::Guest),
    (b"nmi 0 1\n", 1, ScriptReason::Vcpu),
    (b"nmi 0 256\n", 1, ScriptReason::Vcpu),
    (b"run 0 1048576\nnmi 0 1\n", 2, ScriptReason::Vcpu),
    (b"run 0 1048576\nnmi 0 0\n", 2, ScriptReason::Events),
    // A number is told before a value, and the values in their order.
    (b"place 1 1 x\n", 1, ScriptReason::Number),
    (b"run 1 x\n", 1, ScriptReason::Number),
    (b"place 1 1 8\n", 1, ScriptReason::Cpu),
    (b"place 0 1 8\n", 1, ScriptReason::Guest),
    (b"place 0 256 0\n", 1, ScriptReason::Guest),
    (b"place 0 0 8\n", 1, ScriptReason::Vcpu),
    (b"place 0 0 256\n", 1, ScriptReason::Vcpu),
    (b"place 256 0 0\n", 1, ScriptReason::Cpu),
    (b"run 1 0\n", 1, ScriptReason::Cpu),
    (b"run 0 0\n", 1, ScriptReason::Count),
    (b"run 0 1048577\n", 1, ScriptReason::Count),
    (b"run 0 4294967297\n", 1, ScriptReason::Count),
    // The number of events comes last.
    (b"run 0 1048576\nrun 0 1048577\n", 2, ScriptReason::Count),
    (b"run 0 1048576\nrun 1 1\n", 2, ScriptReason::Cpu),
    (b"run 0 1048576\nrun 0 1048576\n", 2, ScriptReason::Events),
    (b"run 0 1048576\n\n\nplace 0 0 0\n", 4, ScriptReason::Events),
    // The first line counts.
    (b"run 0 1\nplaze\nplace\n", 2, ScriptReason::Word),
    (b"\r\n# a\n\nplace\nplaze\n", 4, ScriptReason::Words),
    (b"run 0 1048576\nrun 0 1\nplaze\n", 2, ScriptReason::Events),
];

#[test]
fn lines_are_refused(rt: HostRuntime) -> Result<(), Fail> {
    let image = image_of(rt.alloc(), 1, &[1])?;
    for (bytes, line, reason) in &REFUSED {
        let refusal = ScriptRefusal::Bad {
            line: *line,
            reason: *reason,
        };
        assert_eq!(rt;
            parse_script(rt.alloc(), bytes, &image).err(),
            Some(refusal)
        );
    }
    Ok(())
}

// Lines for an image of two processors, and two guests of one and three vcpus: each names a vcpu by its guest and its
// number, and one more of either is not there.
#[test]
fn names_are_those_of_the_image(rt: HostRuntime) -> Result<(), Fail> {
    let image = image_of(rt.alloc(), 2, &[1, 3])?;
    let script = parse_script(rt.alloc(), b"place 1 1 2\nirq 1 2 16\nnmi 1 2", &image)?;
    assert_eq!(rt; script.events, 3);
    for (bytes, reason) in [
        (b"place 1 0 1".as_slice(), ScriptReason::Vcpu),
        (b"place 1 2 0".as_slice(), ScriptReason::Guest),
        (b"irq 0 1 16".as_slice(), ScriptReason::Vcpu),
        (b"irq 2 0 16".as_slice(), ScriptReason::Guest),
        (b"nmi 0 1".as_slice(), ScriptReason::Vcpu),
        (b"nmi 2 0".as_slice(), ScriptReason::Guest),
    ] {
        let refusal = parse_script(rt.alloc(), bytes, &image).err();
        assert_eq!(rt; refusal, Some(ScriptRefusal::Bad { line: 1, reason }));
    }
    Ok(())
}

// Scripts with rounds, and the number of processors: how many events they are, or the line that goes past the most.
#[rattlefmt::skip]
const ROUNDS: [(u8, &[u8], Result<u32, u32>); 10] = [
    (2, b"each 1\n", Ok(2)),
    (3, b"each 5\nrun 2 4\neach 0x2\n", Ok(25)),
    (3, b"each 349525\nrun 2 1\n", Ok(1_048_576)),
    (3, b"each 349526\n", Err(1)),
    (8, b"each 131072\n", Ok(1_048_576)),
    (8, b"each 131073\n", Err(1)),
    (8, b"each 1048576\n", Err(1)),
    (8, b"each 131072\nnmi 0 0\n", Err(2)),
    (8, b"run 7 1\neach 131072\n", Err(2)),
    (8, b"run 7 8\neach 131071\n", Ok(1_048_576)),
];

#[test]
fn rounds_are_counted(rt: HostRuntime) -> Result<(), Fail> {
    for (cpus, bytes, outcome) in &ROUNDS {
        let image = image_of(rt.alloc(), *cpus, &[1])?;
        let script = parse_script(rt.alloc(), bytes, &image);
        match *outcome {
            Ok(events) => assert_eq!(rt; script?.events, events),
            Err(line) => {
                let reason = ScriptReason::Events;
                assert_eq!(rt; script.err(), Some(ScriptRefusal::Bad { line, reason }));
            }
        }
    }
    Ok(())
}

#[test]
fn too_long_is_told_first(rt: HostRuntime) -> Result<(), Fail> {
    let image = image_of(rt.alloc(), 1, &[1])?;
    let mut bytes = vec![in rt.alloc(); b'#'; 1_048_576]?;
    let script = parse_script(rt.alloc(), &bytes, &image)?;
    assert_eq!(rt; script.events, 0);
    bytes.push(b'#')?;
    let long = ScriptRefusal::Bad {
        line: 0,
        reason: ScriptReason::TooLong,
    };
    assert_eq!(rt; parse_script(rt.alloc(), &bytes, &image).err(), Some(long));
    Ok(())
}

#[test]
fn events_by_number(rt: HostRuntime) -> Result<(), Fail> {
    let run = |cpu| Event::Run { cpu: CpuId(cpu) };
    let vcpu = VcpuId {
        guest: GuestId(0),
        index: 0,
    };
    let place = Event::Place {
        cpu: CpuId(1),
        vcpu,
    };
    let dump = Event::Dump {
        guest: GuestId(0),
        address: 0xf01,
        length: 255,
    };
    let irq = Event::Irq { vcpu, vector: 255 };
    let nmi = Event::Nmi { vcpu };
    let runs = [run(0), run(1), run(1), run(2), place, dump, run(1)];
    let rounds = [
        run(1),
        run(0),
        run(1),
        run(2),
        run(0),
        run(1),
        run(2),
        irq,
        run(0),
        run(1),
        run(2),
        nmi,
    ];
    let alone = [irq, run(0), run(0), nmi, run(0), run(0), run(0)];
    for (cpus, bytes, events) in [
        (
            3,
            b"run 0 1\nrun 1 2\n\nrun 2 1\n#\nplace 1 0 0\ndump 0 0xf01 255\nrun 1 1\n".as_slice(),
            runs.as_slice(),
        ),
        (
            3,
            b"run 1 1\neach 2\nirq 0 0 255\neach 1\nnmi 0 0".as_slice(),
            rounds.as_slice(),
        ),
        (
            1,
            b"irq 0 0 255\neach 2\nnmi 0 0\neach 3".as_slice(),
            alone.as_slice(),
        ),
    ] {
        let image = image_of(rt.alloc(), cpus, &[1])?;
        let script = parse_script(rt.alloc(), bytes, &image)?;
        assert_eq!(rt; script.events as usize, events.len());
        for number in 0..events.len() {
            assert_eq!(rt;
                script.event_at(number as u32, image.cpus),
                Some(events[number])
            );
        }
        assert_eq!(rt; script.event_at(script.events, image.cpus), None);
        assert_eq!(rt; script.event_at(u32::MAX, image.cpus), None);
    }
    Ok(())
}

#[test]
fn refusals_as_text(rt: HostRuntime) -> Result<(), Fail> {
    let refusal = ScriptRefusal::Bad {
        line: 17,
        reason: ScriptReason::Guest,
    };
    let text = format!(in rt.alloc(); "{refusal}, {}", ScriptRefusal::NoMemory)?;
    assert_eq!(rt; text.as_str(), "line 17: Guest, no memory");
    Ok(())
}
