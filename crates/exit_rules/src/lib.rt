//! Which intercepts of a VMCB make its guest exit, and what the exit tells (volume 2, 'Instruction Intercepts', 'IOIO
//! Intercepts', 'MSR Intercepts', 'Exception Intercepts', 'SVM Intercept Exit Codes').
//!
//! The definitions are `specs/Svm/Intercepts.antt` of svm_model, where the intercept of a row stands in its line of
//! `specs/Instructions/Guards.antt`.
#![tactic(auto)]

mod maps;
mod rows;
mod traps;

pub use maps::{
    MapBytes, by_msr, by_port, has_msr, has_port, msr_bit, msr_byte, msr_exit, port_exit,
    ports_bytes,
};
pub use rows::by_row;
pub use svm_model::{Exit, Field, Row, Trap};
pub use traps::by_trap;
pub use vmcb_layout::Fields;

#[cfg(test)]
mod tests;
