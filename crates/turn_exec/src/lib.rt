//! The one executor of turns, over any way to translate.
//!
//! A turn's code is generic over what it reaches (`Reach`): each call is one step of the turn's course, so each function has one
//! clause, that some steps lead from what the turn wanted before them to what is left of it. `GuestTurn` reaches a guest's
//! memory by a translator, its ports and its APIC; `take_turn` is the whole turn over it, and is what machines use: memory, what
//! stands about the vcpu, the vcpu and how the turn comes out are those of the course, played with a walk for each access.
//! A turn in L2 is under a `Control`, the fields of its VMCB, which say what leaves the guest; one in L1 is under none. The crate
//! stands on the rows, user and system, the delivery of events, the intercepts of a VMCB, host memory and the ports.
#![tactic(auto)]

mod accesses;
mod apics;
mod control;
mod faults;
mod fetch;
mod frames;
mod guest_turn;
mod instructions;
mod intercepts;
mod parts;
mod plans;
mod reach;
mod registers;
mod system_rows;
mod translator;
mod turns;
mod user_rows;
mod words;
mod works;

pub use accesses::{access, part, write_access};
pub use apics::Apics;
pub use control::{Control, asid, asks, takes_interrupts};
pub use faults::{deliver_event, fault, stopped};
pub use fetch::instruction;
pub use guest_turn::{GuestTurn, Outward};
pub use instructions::{Instruction, RowAccesses};
pub use reach::Reach;
pub use system_rows::system_row;
pub use translator::Translator;
pub use turns::take_turn;
pub use words::{Words, return_in_turn};
pub use works::turn;
