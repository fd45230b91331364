// Walks over both levels whose answers are worked out by hand from volume 2, 'Nested Paging'.
ghost use Rattle.std.specs.Prelude.{◌≡◌, ◌<◌};
ghost use Rattle.svm_model.specs.Memory.Bytes.{IsWithin};

use crate::{Nested, Nesting, Paging, Pass, nested_walk};
use arrayvec::ArrayVec;
use host_memory::{GuestWindow, HostMemory, OutsideMemory, Steps, counted_from};
use std::alloc::{AllocError, Global};
use std::marker::Brand;
use std::process::Abort;
use std::sync::ledger::{Blank, Ledger};
use svm_model::{Access, Frame, Kind, Leaf, LinearPage, PageSize, Walked};

/// Eight pages of tables, behind a page that is another's: the outer levels 4 to 1, then the guest's levels 4 to 1.
const WINDOW: GuestWindow = GuestWindow {
    base: 0x1000,
    size: 0x8000,
};

/// The page's indexes are 1, 2, 3 and 4. The guest's tables are its pages 10h to 13h, so its entries have the addresses
/// 10008h, 11010h, 12018h and 13020h, and by the outer tables stand at 4008h, 5010h, 6018h and 7020h.
const PAGE: LinearPage = LinearPage(0x808_0604);

const GUEST: Paging = Paging {
    root: 0x10000,
    write_protect: true,
    no_execute: true,
    page_global: true,
};

const OUTER: Nesting = Nesting {
    root: 0,
    no_execute: true,
    bar: None,
};

const READ: Access = Access {
    page: PAGE,
    kind: Kind::Read,
    user: false,
};

const WRITE: Access = Access {
    page: PAGE,
    kind: Kind::Write,
    user: false,
};

const FETCH: Access = Access {
    page: PAGE,
    kind: Kind::Fetch,
    user: false,
};

const NO_EXECUTE: u64 = 0x8000_0000_0000_0000;

/// A word's place and its bits.
type Word = (u64, u64);

/// The words before a walk: the outer tables' upper levels and a page of 2 MiB, the entries for the guest's tables and for
/// its page 14h, and the guest's own entries. No A or D bit is set.
#[rattlefmt::skip]
const BEFORE: &'static [Word] = &[
    (0x0000, 0x1007), (0x1000, 0x2007), (0x2000, 0x3007), (0x2008, 0x4060_0087),
    (0x3080, 0x4007), (0x3088, 0x5007), (0x3090, 0x6007), (0x3098, 0x7007), (0x30a0, 0xabc_d007),
    (0x4008, 0x11007), (0x5010, 0x12007), (0x6018, 0x13007), (0x7020, 0x14007),
];

/// The marks of passes of the guest's four tables, which are writes.
#[rattlefmt::skip]
const FIRST_PASSED: &'static [Word] = &[(0x0000, 0x1027), (0x1000, 0x2027), (0x2000, 0x3027), (0x3080, 0x4067)];

#[rattlefmt::skip]
const TABLES_PASSED: &'static [Word] = &[
    (0x0000, 0x1027), (0x1000, 0x2027), (0x2000, 0x3027), (0x3080, 0x4067), (0x3088, 0x5067), (0x3090, 0x6067), (0x3098, 0x7067),
];

/// The marks of the guest's own entries at a read.
#[rattlefmt::skip]
const GUEST_READ: &'static [Word] = &[(0x4008, 0x11027), (0x5010, 0x12027), (0x6018, 0x13027), (0x7020, 0x14027)];

const NONE: &'static [Word] = &[];

const LEAF: Leaf = Leaf {
    frame: Frame(0xabcd),
    size: PageSize::Small,
    global: false,
    writable: true,
    user: true,
    executable: true,
    dirty: false,
};

/// Words that differ before the walk, its access, what it answers, how many passes it tells and what the last of them comes
/// to where it does not find a leaf, and the words that it changes.
#[derive(Clone, Copy)]
struct Row {
    before: &'static [Word],
    access: Access,
    outer: Nesting,
    answer: Nested,
    passes: usize,
    stopped: Option<Walked>,
    after: [&'static [Word]; 3],
}

const ROW: Row = Row {
    before: NONE,
    access: READ,
    outer: OUTER,
    answer: Nested::Leaf {
        leaf: LEAF,
        guest_frame: Frame(0x14),
        changed: true,
    },
    passes: 5,
    stopped: None,
    after: [TABLES_PASSED, GUEST_READ, &[(0x30a0, 0xabc_d027)]],
};

#[rattlefmt::skip]
const ROWS: [Row; 15] = [
    // A read marks both levels.
    ROW,
    // So does a write, with D in both leaves.
    Row {
        access: WRITE,
        answer: Nested::Leaf { leaf: Leaf { dirty: true, ..LEAF }, guest_frame: Frame(0x14), changed: true },
        after: [TABLES_PASSED, &[(0x4008, 0x11027), (0x5010, 0x12027), (0x6018, 0x13027), (0x7020, 0x14067)], &[(0x30a0, 0xabc_d067)]],
        ..ROW
    },
    // The rights are those of both levels: the guest's leaf is read-only, dirty and global, the outer one dirty and not executable.
    Row {
        before: &[(0x7020, 0x14145), (0x30a0, NO_EXECUTE | 0xabc_d067)],
        answer: Nested::Leaf { leaf: Leaf { global: true, writable: false, executable: false, dirty: true, ..LEAF }, guest_frame: Frame(0x14), changed: true },
        after: [TABLES_PASSED, &[(0x4008, 0x11027), (0x5010, 0x12027), (0x6018, 0x13027), (0x7020, 0x14165)], NONE],
        ..ROW
    },
    // Dirty in the guest alone is not dirty.
    Row {
        before: &[(0x7020, 0x14067)],
        after: [TABLES_PASSED, &[(0x4008, 0x11027), (0x5010, 0x12027), (0x6018, 0x13027)], &[(0x30a0, 0xabc_d027)]],
        ..ROW
    },
    // The guest's page 234h passes through an outer page of 2 MiB.
    Row {
        before: &[(0x7020, 0x23_4007)],
        answer: Nested::Leaf { leaf: Leaf { frame: Frame(0x40634), ..LEAF }, guest_frame: Frame(0x234), changed: true },
        after: [TABLES_PASSED, &[(0x4008, 0x11027), (0x5010, 0x12027), (0x6018, 0x13027), (0x7020, 0x23_4027)], &[(0x2008, 0x4060_00a7)]],
        ..ROW
    },
    // The guest's page has 2 MiB, and so has the outer one: a table less is passed.
    Row {
        before: &[(0x6018, 0x20_0087)],
        answer: Nested::Leaf { leaf: Leaf { frame: Frame(0x40604), size: PageSize::Large, ..LEAF }, guest_frame: Frame(0x204), changed: true },
        passes: 4,
        after: [
            &[(0x0000, 0x1027), (0x1000, 0x2027), (0x2000, 0x3027), (0x3080, 0x4067), (0x3088, 0x5067), (0x3090, 0x6067)],
            &[(0x4008, 0x11027), (0x5010, 0x12027), (0x6018, 0x20_00a7)],
            &[(0x2008, 0x4060_00a7)],
        ],
        ..ROW
    },
    // A table is passed as a write, here to a page that may only be read: bit 33, and the entry's address.
    Row {
        before: &[(0x3088, 0x5005)],
        answer: Nested::NestedFault { code: 0x2_0000_0007, address: 0x11010 },
        passes: 2,
        stopped: Some(Walked::PageFault { code: 7 }),
        after: [FIRST_PASSED, NONE, NONE],
        ..ROW
    },
    // The final page is not there: bit 32, and its first byte. The guest's marks are made by then.
    Row {
        before: &[(0x30a0, 0xabc_d006)],
        access: WRITE,
        answer: Nested::NestedFault { code: 0x1_0000_0006, address: 0x14000 },
        stopped: Some(Walked::PageFault { code: 6 }),
        after: [TABLES_PASSED, &[(0x4008, 0x11027), (0x5010, 0x12027), (0x6018, 0x13027), (0x7020, 0x14067)], NONE],
        ..ROW
    },
    // The final page is passed by the kind of the access.
    Row {
        before: &[(0x30a0, NO_EXECUTE | 0xabc_d007)],
        access: FETCH,
        answer: Nested::NestedFault { code: 0x1_0000_0015, address: 0x14000 },
        stopped: Some(Walked::PageFault { code: 0x15 }),
        after: [TABLES_PASSED, GUEST_READ, NONE],
        ..ROW
    },
    // The page that is not passed on.
    Row {
        outer: Nesting { bar: Some(Frame(0x14)), ..OUTER },
        answer: Nested::Bar { leaf: Leaf { frame: Frame(0x14), ..LEAF }, changed: true },
        passes: 4,
        after: [TABLES_PASSED, GUEST_READ, NONE],
        ..ROW
    },
    // Page faults of the guest's tables: not present, and not writable. Its entries stay, the outer ones are marked.
    Row {
        before: &[(0x5010, 0x12006)],
        answer: Nested::PageFault { code: 0 },
        passes: 2,
        after: [FIRST_PASSED, &[(0x3088, 0x5067)], NONE],
        ..ROW
    },
    Row {
        before: &[(0x7020, 0x14005)],
        access: WRITE,
        answer: Nested::PageFault { code: 3 },
        passes: 4,
        after: [TABLES_PASSED, NONE, NONE],
        ..ROW
    },
    // A table of the guest outside the memory, and one of the outer level.
    Row {
        before: &[(0x3088, 0x9007)],
        answer: Nested::Ended(OutsideMemory { address: 0x9010 }),
        passes: 2,
        after: [FIRST_PASSED, &[(0x3088, 0x9067)], NONE],
        ..ROW
    },
    Row {
        outer: Nesting { root: 0x9000, ..OUTER },
        answer: Nested::Ended(OutsideMemory { address: 0x9000 }),
        passes: 1,
        stopped: Some(Walked::Ended(OutsideMemory { address: 0x9000 })),
        after: [NONE, NONE, NONE],
        ..ROW
    },
    // The guest's level 2 is the outer level 1. Its entry at 3018h leads to the guest's page 3, and is that page's own outer
    // entry too: the next pass marks it after it was read, and the guest's mark leaves that D bit.
    Row {
        before: &[(0x3090, 0x3007), (0x3018, 0x3007), (0x3020, 0x14007)],
        after: [
            &[(0x0000, 0x1027), (0x1000, 0x2027), (0x2000, 0x3027), (0x3080, 0x4067), (0x3088, 0x5067), (0x3090, 0x3067)],
            &[(0x4008, 0x11027), (0x5010, 0x12027), (0x3018, 0x3067), (0x3020, 0x14027)],
            &[(0x30a0, 0xabc_d027)],
        ],
        ..ROW
    },
];

#[test]
fn walks_over_both_levels(rt: HostRuntime) -> Result<(), AllocError> {
    walk_all::<Brand, HostRuntime>(&rt, rt.alloc(), Blank::new(1))
}

fn walk_all<L: Ledger, R: Abort>(rt: &R, alloc: Global, blank: Blank) -> Result<(), AllocError>
    requires name { blank.name ≡ L.name }
    requires parts { blank.parts ≡ L.parts }
    requires some { 0 < blank.parts }
{
    let mut steps: Steps<L> = counted_from(blank);
    for (number, row) in ROWS.iter().enumerate() {
        walk_row(rt, alloc, number, row, &mut steps)?;
    }
    Ok(())
}

#[tactic(auto, using(svm_model::proofs::WindowLemmas::windows))]
fn walk_row<L: Ledger, R: Abort>(
    rt: &R,
    alloc: Global,
    number: usize,
    row: &Row,
    steps: &mut Steps<L>,
) -> Result<(), AllocError> {
    let mut memory = HostMemory::new(alloc, 9)?;
    let mut passes: ArrayVec<Pass, 5> = ArrayVec::new();
    put_words(&mut memory, BEFORE);
    put_words(&mut memory, row.before);
    let answer = nested_walk(
        &mut memory,
        WINDOW,
        &GUEST,
        &row.outer,
        row.access,
        &mut passes,
        steps,
    );
    assert_eq!(rt; answer, row.answer, "row {number}");
    assert_eq!(rt; passes.len(), row.passes, "row {number}");
    check_passes(rt, number, row, passes.as_slice());
    check_words(rt, &memory, number, row, BEFORE, steps);
    check_words(rt, &memory, number, row, row.before, steps);
    Ok(())
}

/// Each pass but one that stops the walk finds a leaf.
fn check_passes<R: Abort>(rt: &R, number: usize, row: &Row, passes: &[Pass]) {
    for (place, pass) in passes.iter().enumerate() {
        match pass.walked {
            Walked::Leaf { .. } => {
                assert!(rt;
                    place + 1 < passes.len() || row.stopped.is_none(),
                    "row {number}"
                );
            }
            stopped => assert_eq!(rt; Some(stopped), row.stopped, "row {number}"),
        }
    }
}

/// The word that the last of the lists has at a place.
fn word_in(words: &[Word], place: u64, otherwise: u64) -> u64 {
    for &(at, bits) in words {
        if at == place {
            return bits;
        }
    }
    otherwise
}

/// Each of the words is what the row says of it.
fn check_words<L: Ledger, R: Abort>(
    rt: &R,
    memory: &HostMemory,
    number: usize,
    row: &Row,
    words: &[Word],
    steps: &mut Steps<L>,
)
    requires { IsWithin WINDOW memory.now.bytes }
{
    for &(place, bits) in words {
        let before = word_in(row.before, place, bits);
        let [first, second, third] = row.after;
        let after = word_in(
            third,
            place,
            word_in(second, place, word_in(first, place, before)),
        );
        assert_eq!(rt;
            memory.read_number(WINDOW, place, steps),
            Ok(after),
            "row {number}, the word at {place}"
        );
    }
}

#[tactic(auto, using(svm_model::proofs::WindowLemmas::windows))]
fn put_words(memory: &mut HostMemory, words: &[Word])
    requires { IsWithin WINDOW memory.old.bytes }
    ensures { IsWithin WINDOW memory.new.bytes }
{
    for &(place, bits) in words {
        let [a, b, c, d, e, f, g, h] = bits.to_le_bytes();
        let bytes = [a, b, c, d, e, f, g, h, 0, 0, 0, 0, 0, 0, 0, 0];
        let _ = memory.write_guest(WINDOW, place, &bytes, 8);
    }
}
