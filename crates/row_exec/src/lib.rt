//! Executing a decoded user row: what it does to the registers, and the values that it writes to memory.
//!
//! It stands on svm_model, whose `specs/Instructions/Apply.antt` says, in the terms of volume 3, what each row does, one equation a
//! row; on flag_math, which computes results and flags; on row_table, which tells a form's operands; and on
//! register_file, the one place where registers are read and written. The contract that the layer above uses is that of
//! `apply`: where `applied` gives a new state, registers and results are that state and the answer is Done; where it gives
//! a fault, that fault is the answer and nothing is changed. `write_register` is offered to the executor of system rows.
#![tactic(auto)]

mod applying;
mod arithmetic;
mod bit_rows;
mod branches;
mod conditions;
mod flag_rows;
mod moves;
mod multiply_rows;
mod shift_rows;
mod sources;
mod widths;

pub use applying::apply;
pub use register_file::write_register;
pub use row_table::{is_user_row, lock_is_undefined};
pub use svm_model::{
    Applied, Cause, Flags, Form, Op, Operand, Registers, Row, Segment, Trap, Width,
};

#[cfg(test)]
mod tests;
