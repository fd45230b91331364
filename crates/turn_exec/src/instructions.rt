// An instruction in its turn.

use svm_model::{Facts, PlannedAccess, Row};

/// An instruction in its turn: what is known there, its row, and the address of the next instruction.
#[derive(Clone, Copy)]
pub struct Instruction<'f, 'r> {
    pub facts: &'f Facts,
    pub row: &'r Row,
    pub next_rip: u64,
}

/// The accesses of a row: its plan, the words that were read by it, and the numbers of the parts that are there.
#[derive(Clone, Copy)]
pub struct RowAccesses<'p, 'v, 'n> {
    pub plan: &'p [PlannedAccess],
    pub values: &'v [u64; 8],
    pub numbers: &'n [u8; 8],
}
