// Walks whose answers are worked out by hand from volume 2, 'Long-Mode Page Translation' and 'Page-Fault Exception'.
ghost use Rattle.std.specs.Prelude.{◌≡◌, ◌<◌};
ghost use Rattle.svm_model.specs.Memory.Bytes.{IsWithin};

use crate::{Leaf, PageSize, Paging, Walked, walk};
use host_memory::{GuestWindow, HostMemory, OutsideMemory, Steps, counted_from};
use std::alloc::{AllocError, Global};
use std::marker::Brand;
use std::process::Abort;
use std::sync::ledger::{Blank, Ledger};
use svm_model::{Access, Frame, Kind, LinearPage};

/// Four pages of tables, levels 4 to 1, behind a page that is another's.
const WINDOW: GuestWindow = GuestWindow {
    base: 0x1000,
    size: 0x4000,
};

/// The page's indexes are 1, 2, 3 and 4, so its entries stand at 8, 1010h, 2018h and 3020h.
const PAGE: LinearPage = LinearPage(0x808_0604);

const PAGING: Paging = Paging {
    root: 0,
    write_protect: true,
    no_execute: true,
    page_global: true,
};

const READ: Access = Access {
    page: PAGE,
    kind: Kind::Read,
    user: false,
};

const WRITE: Access = Access {
    page: PAGE,
    kind: Kind::Write,
    user: false,
};

const FETCH: Access = Access {
    page: PAGE,
    kind: Kind::Fetch,
    user: false,
};

const USER_READ: Access = Access {
    page: PAGE,
    kind: Kind::Read,
    user: true,
};

const USER_WRITE: Access = Access {
    page: PAGE,
    kind: Kind::Write,
    user: true,
};

const LEAF: Leaf = Leaf {
    frame: Frame(0xabcde),
    size: PageSize::Small,
    global: false,
    writable: true,
    user: true,
    executable: true,
    dirty: false,
};

/// The entries of levels 4 to 1 before the walk, what it takes, its answer, and the entries after it.
#[derive(Clone, Copy)]
struct Row {
    entries: [u64; 4],
    paging: Paging,
    access: Access,
    answer: Walked,
    after: [u64; 4],
}

const NOT_ENABLED: Paging = Paging {
    no_execute: false,
    page_global: false,
    ..PAGING
};

const NOT_PROTECTED: Paging = Paging {
    write_protect: false,
    ..PAGING
};

const NO_EXECUTE: u64 = 0x8000_0000_0000_0000;

/// Leaves, with whether an entry changes: a walk sets A, and D in the leaf of a write.
#[rattlefmt::skip]
const FOUND: [([u64; 4], Paging, Access, Leaf, bool, [u64; 4]); 8] = [
    ([0x1007, 0x2007, 0x3007, 0xabcd_e007], PAGING, READ, LEAF, true, [0x1027, 0x2027, 0x3027, 0xabcd_e027]),
    ([0x1027, 0x2027, 0x3007, 0xabcd_e007], PAGING, USER_WRITE, Leaf { dirty: true, ..LEAF }, true, [0x1027, 0x2027, 0x3027, 0xabcd_e067]),
    ([0x1027, 0x2027, 0x3027, 0xabcd_e067], PAGING, WRITE, Leaf { dirty: true, ..LEAF }, false, [0x1027, 0x2027, 0x3027, 0xabcd_e067]),
    // The rights are those that every entry gives.
    ([0x1003, 0x2005, NO_EXECUTE | 0x3007, 0xabcd_e007], PAGING, READ, Leaf { writable: false, user: false, executable: false, ..LEAF }, true,
        [0x1023, 0x2025, NO_EXECUTE | 0x3027, 0xabcd_e027]),
    // A supervisor may write a read-only page where CR0.WP is 0.
    ([0x1027, 0x2027, 0x3027, 0xabcd_e025], NOT_PROTECTED, WRITE, Leaf { writable: false, dirty: true, ..LEAF }, true, [0x1027, 0x2027, 0x3027, 0xabcd_e065]),
    // G counts where CR4.PGE is 1.
    ([0x1027, 0x2027, 0x3027, 0xabcd_e127], NOT_ENABLED, FETCH, LEAF, false, [0x1027, 0x2027, 0x3027, 0xabcd_e127]),
    // A page of 2 MiB and one of 1 GiB, whose leaves have bit 12, the PAT bit.
    ([0x1007, 0x2007, 0x4060_1087, 0], PAGING, WRITE, Leaf { frame: Frame(0x40604), size: PageSize::Large, dirty: true, ..LEAF }, true, [0x1027, 0x2027, 0x4060_10e7, 0]),
    ([0x1007, 0x80_c000_1183, 0, 0], PAGING, READ, Leaf { frame: Frame(0x80c_0604), size: PageSize::Huge, global: true, user: false, ..LEAF }, true, [0x1027, 0x80_c000_11a3, 0, 0]),
];

/// Page faults, which change nothing, with their error codes: P 0, R/W 1, U/S 2, RSV 3, I/D 4.
#[rattlefmt::skip]
const FAULTS: [([u64; 4], Paging, Access, u32); 14] = [
    // Not present.
    ([0x1007, 0x2007, 0x3007, 0xabcd_e006], PAGING, READ, 0),
    ([0, 0x2007, 0x3007, 0xabcd_e007], PAGING, USER_WRITE, 6),
    ([0x1007, 0x2006, 0x3007, 0xabcd_e007], PAGING, FETCH, 0x10),
    ([0x1007, 0x2006, 0x3007, 0xabcd_e007], NOT_ENABLED, FETCH, 0),
    // Not allowed.
    ([0x1007, 0x2007, 0x3007, 0xabcd_e003], PAGING, USER_READ, 5),
    ([0x1007, 0x2007, 0x3007, 0xabcd_e005], PAGING, WRITE, 3),
    ([0x1007, 0x2007, 0x3007, 0xabcd_e005], NOT_PROTECTED, USER_WRITE, 7),
    ([0x1007, 0x2007, 0x3007, NO_EXECUTE | 0xabcd_e007], PAGING, FETCH, 0x11),
    // A reserved bit: NX with EFER.NXE 0; PS at level 4; bits 13 and 20 of 2 MiB; bit 29 of 1 GiB; bit 40.
    ([0x1007, 0x2007, 0x3007, NO_EXECUTE | 0xabcd_e007], NOT_ENABLED, READ, 9),
    ([0x1087, 0x2007, 0x3007, 0xabcd_e007], PAGING, READ, 9),
    ([0x1007, 0x2007, 0x4060_2087, 0], PAGING, READ, 9),
    ([0x1007, 0x2007, 0x4070_0087, 0], PAGING, READ, 9),
    ([0x1007, 0x2000_0087, 0, 0], PAGING, READ, 9),
    ([0x1007, 0x2007, 0x100_0000_3007, 0xabcd_e007], PAGING, USER_WRITE, 0xf),
];

/// A table that lies outside the memory, from the entry's first byte on.
const OUTSIDE: Row = Row {
    entries: [0x1007, 0x7007, 0, 0],
    paging: PAGING,
    access: WRITE,
    answer: Walked::Ended(OutsideMemory { address: 0x7018 }),
    after: [0x1007, 0x7007, 0, 0],
};

#[test]
fn walks_as_the_manual_says(rt: HostRuntime) -> Result<(), AllocError> {
    walk_all::<Brand, HostRuntime>(&rt, rt.alloc(), Blank::new(1))
}

fn walk_all<L: Ledger, R: Abort>(rt: &R, alloc: Global, blank: Blank) -> Result<(), AllocError>
    requires name { blank.name ≡ L.name }
    requires parts { blank.parts ≡ L.parts }
    requires some { 0 < blank.parts }
{
    let mut steps: Steps<L> = counted_from(blank);
    for (entries, paging, access, leaf, changed, after) in FOUND {
        let answer = Walked::Leaf { leaf, changed };
        let row = Row {
            entries,
            paging,
            access,
            answer,
            after,
        };
        walk_row(rt, alloc, row, &mut steps)?;
    }
    for (entries, paging, access, code) in FAULTS {
        let answer = Walked::PageFault { code };
        let row = Row {
            entries,
            paging,
            access,
            answer,
            after: entries,
        };
        walk_row(rt, alloc, row, &mut steps)?;
    }
    walk_row(rt, alloc, OUTSIDE, &mut steps)
}

#[tactic(auto, using(svm_model::proofs::WindowLemmas::windows))]
fn walk_row<L: Ledger, R: Abort>(
    rt: &R,
    alloc: Global,
    row: Row,
    steps: &mut Steps<L>,
) -> Result<(), AllocError> {
    let mut memory = HostMemory::new(alloc, 5)?;
    put_entries(&mut memory, row.entries);
    let answer = walk(&mut memory, WINDOW, &row.paging, row.access, steps);
    assert_eq!(rt; answer, row.answer, "before {:?}", row.entries);
    assert_eq!(rt;
        entries_in(&memory, steps),
        row.after,
        "before {:?}",
        row.entries
    );
    Ok(())
}

#[tactic(auto, using(svm_model::proofs::WindowLemmas::windows))]
fn put_entries(memory: &mut HostMemory, entries: [u64; 4])
    requires { IsWithin WINDOW memory.old.bytes }
    ensures { IsWithin WINDOW memory.new.bytes }
{
    let [top, third, second, last] = entries;
    put(memory, 0x8, top);
    put(memory, 0x1010, third);
    put(memory, 0x2018, second);
    put(memory, 0x3020, last);
}

#[tactic(auto, using(svm_model::proofs::WindowLemmas::windows))]
fn put(memory: &mut HostMemory, address: u64, bits: u64)
    requires { IsWithin WINDOW memory.old.bytes }
    ensures { IsWithin WINDOW memory.new.bytes }
{
    let [a, b, c, d, e, f, g, h] = bits.to_le_bytes();
    let _ = memory.write_guest(
        WINDOW,
        address,
        &[a, b, c, d, e, f, g, h, 0, 0, 0, 0, 0, 0, 0, 0],
        8,
    );
}

fn entries_in<L: Ledger>(memory: &HostMemory, steps: &mut Steps<L>) -> [u64; 4]
    requires { IsWithin WINDOW memory.now.bytes }
{
    [
        entry_in(memory, 0x8, steps),
        entry_in(memory, 0x1010, steps),
        entry_in(memory, 0x2018, steps),
        entry_in(memory, 0x3020, steps),
    ]
}

fn entry_in<L: Ledger>(memory: &HostMemory, address: u64, steps: &mut Steps<L>) -> u64
    requires { IsWithin WINDOW memory.now.bytes }
{
    let mut into = [0; 16];
    let _ = memory.read_guest(WINDOW, address, 8, &mut into, steps);
    let [a, b, c, d, e, f, g, h, ..] = into;
    u64::from_le_bytes([a, b, c, d, e, f, g, h])
}
