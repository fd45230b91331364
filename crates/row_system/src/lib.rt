//! What a system row does to the registers, and what it asks for beyond them.
//!
//! It stands on svm_model, whose `specs/Instructions/SystemRows.antt` says, in the terms of volume 3, what each row does,
//! one equation a row, and whose `specs/Instructions/Guards.antt` says which faults come before its intercept; on
//! register_file, the one place where general registers are read and written; and on row_table, which tells a form's
//! operands. The contracts that the layer above uses are those of `refusal` and `system`, one equation each. What a row
//! asks for, as a read of a port or a delivery, is done by who calls.
#![tactic(auto)]

mod control_registers;
mod cpuid;
mod debug_registers;
mod flags;
mod guards;
mod msrs;
mod ports;
mod registers;
mod system_rows;
mod tables;

pub use guards::{refusal, writes_special};
pub use ports::{port_bytes, port_of};
pub use svm_model::{Facts, Outside, Registers, Row, Trap};
pub use system_rows::system;

#[cfg(test)]
mod tests;
