//! Host memory, which all guests share, behind counted reads.
//!
//! `HostMemory` is one run of bytes. A guest reads and writes in its window of it alone, by guest-physical addresses,
//! 1 to 16 bytes a call; `Steps` counts the reads. The crate stands on svm_model, whose `specs/Memory/Bytes.antt` says what a
//! window holds. The contracts that the layers above use: `read_guest` gives the window's bytes or the first address
//! outside and ticks once, `read_number` does so for eight bytes as a number, and `write_guest` puts bytes into the window
//! and changes no byte outside it (`SameOutside`).
#![tactic(auto)]

mod memory;
mod steps;

pub use memory::HostMemory;
pub use steps::{Steps, counted_from};
pub use svm_model::{GuestWindow, OutsideMemory};

#[cfg(test)]
mod tests;
