//! The register file, and the operands of a row in it: registers by width and number, operands that are read and written
//! in registers or by planned accesses, and the addresses of operands in memory.
//!
//! It stands on svm_model, whose `specs/Instructions/Operands.antt` and `specs/Instructions/Addresses.antt` say what each call gives, and on
//! flag_math, which says where the status flags stand in RFLAGS. The contract that the layers above use is one equation
//! a call, with the definition of that name. `row_table` takes the addresses from here, and `row_exec` the rest; no
//! other code of a user row reads or writes registers.
#![tactic(auto)]

mod addresses;
mod general;
mod operands;
mod status;

pub use addresses::{effective_address, is_on_stack, linear_address};
pub use general::{RBP, RCX, RSP, cut, register_value, whole_register, write_register};
pub use operands::{
    ACCUMULATOR, RDX, is_memory, operand_value, register_named, upper_accumulator, write_operand,
    write_operand_at,
};
pub use status::{read_flags, write_carry, write_direction, write_flags, write_rip};
pub use svm_model::{Flags, Operand, Registers, Width};
