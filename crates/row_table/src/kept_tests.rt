// A kept row is answered for its own bytes alone.
use crate::{Decoded, Kept, KeptRows, decode};
use std::test::*;

/// ADD RAX, 12345678h and what stands after it.
const FIRST: [u8; 16] = [
    0x48, 0x05, 0x78, 0x56, 0x34, 0x12, 0x90, 0x90, 0, 0, 0, 0, 0, 0, 0, 0,
];

/// The same with another last byte: ADD RAX, 13345678h. Both have one place.
const CHANGED: [u8; 16] = [
    0x48, 0x05, 0x78, 0x56, 0x34, 0x13, 0x90, 0x90, 0, 0, 0, 0, 0, 0, 0, 0,
];

/// The first one before other bytes.
const BEFORE_OTHERS: [u8; 16] = [
    0x48, 0x05, 0x78, 0x56, 0x34, 0x12, 0xf4, 0xc3, 1, 2, 3, 4, 5, 6, 7, 8,
];

/// The answer with its row, and not a reference to it.
fn answer(kept: Kept) -> Decoded {
    match kept {
        Kept::Row { row, length } => Decoded::Row { row: *row, length },
        Kept::More => Decoded::More,
        Kept::Unlisted { byte } => Decoded::Unlisted { byte },
    }
}

/// The immediate of a row, or 0.
fn immediate(kept: Kept) -> u64 {
    match kept {
        Kept::Row { row, .. } => row.immediate,
        _ => 0,
    }
}

#[test]
fn answers_for_its_own_bytes(rt: HostRuntime) {
    let mut rows = KeptRows::new(rt.alloc());
    for _ in 0..2 {
        assert_eq!(rt; immediate(rows.decode(&FIRST, 15)), 0x1234_5678);
        assert_eq!(rt; immediate(rows.decode(&CHANGED, 15)), 0x1334_5678);
    }
    let first = decode(&FIRST);
    assert_eq!(rt; answer(rows.decode(&FIRST, 15)), first);
    assert_eq!(rt; answer(rows.decode(&BEFORE_OTHERS, 15)), first);
    assert_eq!(rt; answer(rows.decode(&FIRST, 6)), first);
    assert_eq!(rt; answer(rows.decode(&FIRST, 5)), Decoded::More);
    assert_eq!(rt;
        answer(rows.decode(&[0x06; 16], 15)),
        Decoded::Unlisted { byte: 0x06 }
    );
}
