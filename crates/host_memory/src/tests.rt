ghost use Rattle.std.specs.Prelude.{◌≡◌, ◌<◌};
ghost use Rattle.svm_model.specs.Memory.Bytes.{IsWithin};

use crate::{GuestWindow, HostMemory, OutsideMemory, Steps, counted_from};
use std::alloc::{AllocError, Global};
use std::marker::Brand;
use std::process::Abort;
use std::sync::ledger::{Blank, Ledger};

const LOWER: GuestWindow = GuestWindow {
    base: 0,
    size: 4096,
};

const UPPER: GuestWindow = GuestWindow {
    base: 4096,
    size: 4096,
};

/// An address, a length, the answer and the first two bytes after the read.
type Row = (u64, u8, Result<(), OutsideMemory>, [u8; 2]);

#[test]
fn reads_and_writes_in_windows(rt: HostRuntime) -> Result<(), AllocError> {
    write_and_read::<Brand, HostRuntime>(&rt, rt.alloc(), Blank::new(1))
}

/// Writes the last 8 bytes of the lower window and the first 16 of the upper, and reads in both.
#[tactic(auto, using(svm_model::proofs::WindowLemmas::windows))]
fn write_and_read<L: Ledger, R: Abort>(
    rt: &R,
    alloc: Global,
    blank: Blank,
) -> Result<(), AllocError>
    requires name { blank.name ≡ L.name }
    requires parts { blank.parts ≡ L.parts }
    requires some { 0 < blank.parts }
{
    let mut steps: Steps<L> = counted_from(blank);
    let mut memory = HostMemory::new(alloc, 2)?;
    let from = [1, 2, 3, 4, 5, 6, 7, 8, 9, 10, 11, 12, 13, 14, 15, 16];
    let outside = Err(OutsideMemory { address: 4096 });
    assert_eq!(rt; memory.write_guest(LOWER, 4088, &from, 8), Ok(()));
    assert_eq!(rt; memory.write_guest(UPPER, 0, &from, 16), Ok(()));
    assert_eq!(rt; memory.write_guest(LOWER, 4089, &from, 8), outside);
    // Of the 8 bytes at 4092 the upper 4 lie outside.
    let upper = [
        (4092, 8, outside, [0xff, 0xff]),
        (5000, 1, Err(OutsideMemory { address: 5000 }), [0xff, 0xff]),
        (14, 2, Ok(()), [15, 16]),
        (15, 2, Ok(()), [16, 0]),
        (4088, 8, Ok(()), [0, 0]),
    ];
    let lower = [
        (4087, 2, Ok(()), [0, 1]),
        (4095, 1, Ok(()), [8, 0xff]),
        (4095, 2, outside, [0xff, 0xff]),
    ];
    read_all(rt, &memory, UPPER, &upper, &mut steps);
    read_all(rt, &memory, LOWER, &lower, &mut steps);
    Ok(())
}

fn read_all<L: Ledger, R: Abort>(
    rt: &R,
    memory: &HostMemory,
    window: GuestWindow,
    rows: &[Row],
    steps: &mut Steps<L>,
)
    requires { IsWithin window memory.now.bytes }
{
    for &(address, length, answer, front) in rows {
        assert!(rt; 1 <= length && length <= 16);
        let mut into = [0xff; 16];
        let read = memory.read_guest(window, address, length, &mut into, steps);
        assert_eq!(rt; read, answer, "at {address}");
        assert_eq!(rt; [into[0], into[1]], front, "at {address}");
    }
}
