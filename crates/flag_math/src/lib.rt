//! Arithmetic with the status flags: sums, differences, logic, shifts and rotations, multiplications and divisions of
//! operands of 8, 16, 32 and 64 bits.
//!
//! It stands on svm_model, whose `specs/Instructions/StatusFlags.antt`, `specs/Instructions/Shifts.antt` and `specs/Instructions/Products.antt` say over whole
//! numbers what each operation gives, in the terms of volume 3, and `specs/Instructions/Rflags.antt` where the flags stand in
//! RFLAGS. The contract that the layer above uses is one equation a call: the result and the flags are those of the
//! definition of that name, as `sum_of` and `flags_of_sum`. Operands fit the width, which each call requires.
#![tactic(auto)]

mod bitwise;
mod divisions;
mod products;
mod rflags;
mod shifts;
mod signs;
mod sums;
mod width;

pub use bitwise::logic;
pub use divisions::divide;
pub use products::multiply;
pub use rflags::{flags_in, with_flags};
pub use shifts::shift;
pub use sums::{add, sub};
pub use svm_model::{Flags, LogicKind, NoQuotient, ShiftKind, Width};
pub use width::is_negative;

#[cfg(test)]
mod tests;
