//! The table of instruction rows: which bytes are which instruction, and what memory it accesses.
//!
//! `decode` reads bytes against the listed forms. Its contract speaks of the forms alone: a row stands at the front of
//! the bytes, or some form goes on from them, or a byte is the first with which no form goes on. It is pure over a slice
//! and keeps nothing. The forms stand as one list, a line each in the manual's order, in `svm_model`, on which the crate
//! stands; definitions and code both read it there. What a form is stands there also as a relation between bytes and row
//! (`specs/Instructions/Spelling.antt`), of which `decode`'s contract speaks too. `plan` lists the data accesses of a row, in order, as
//! `specs/Instructions/Planning.antt` has them. `lock_is_undefined` tests a LOCK prefix; the other calls look a form up in
//! the columns of the list. The machines use `decode`'s and `plan`'s clauses.
#![tactic(auto)]

mod bare_rows;
mod columns;
mod decoding;
mod fields;
mod first_lines;
mod input;
mod kept;
mod locking;
mod planning;
mod prefixes;
mod table;

pub use bare_rows::is_bare;
pub use columns::{
    columns_agree, counts_by_cl, has_immediate, has_one_operand, is_reversed, is_user_row,
    names_dx, operand_width, takes_lock,
};
pub use decoding::decode;
pub use kept::{Kept, KeptRows};
pub use locking::{destination, lock_is_undefined};
pub use planning::{plan, single_access};
pub use svm_model::{
    Decoded, Form, Op, Operand, PlannedAccess, Registers, Row, Segment, Touch, Width,
};

#[cfg(test)]
mod kept_tests;
#[cfg(test)]
mod plan_tests;
#[cfg(test)]
mod tests;
