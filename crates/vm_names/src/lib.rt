//! The names that all layers share: guests, processors, vcpus, pages, accesses, events and ends, and a vcpu's registers
//! with the names of their bits.
//!
//! The types stand in `svm_model`, where the definitions speak of them; this crate offers them to code. It adds the bits
//! of the control registers as `bitflags` types, whose calls are exact, the exceptions that instructions raise, and the
//! test of canonical addresses.
#![tactic(auto)]

mod addresses;
mod control_bits;
mod traps;

pub use addresses::{first_byte_decides, is_canonical};
pub use control_bits::{Cr0Bits, Cr4Bits, EferBits};
pub use svm_model::{
    Access, Cause, CpuId, Effect, End, Ended, Event, Frame, GuestId, Kind, LinearPage, NoMemory,
    Registers, RunEnd, Segment, Trap, VcpuId,
};
pub use traps::{DIVIDE_ERROR, GENERAL_PROTECTION, INVALID_OPCODE};
