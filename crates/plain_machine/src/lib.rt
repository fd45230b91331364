//! The plain machine: guests run by the definition itself.
//!
//! It walks from the root at each access and keeps no copy of a table, so it owes no premise to the rules for flushes: what
//! it does at each event is what `svm_model` says of a world (`specs/Machine/World.antt`), for every image and schedule. A turn is
//! that of the one executor, over a way to translate that keeps nothing, and one who watches is told what it does. The guests' memories are windows of one host memory,
//! one behind another; a turn touches that of its guest alone. A vcpu in L2 reads the fields of its VMCB from memory at each
//! turn. The crate stands on host memory, the page walk, the VMCB's checks and switches, and the executor. The layer above uses that `open` gives the image's world, and that `event` gives the world and the
//! effect of the plain event, with a bound on counted reads, and tells a `Watch` of it.
#![tactic(auto)]

mod changes;
mod loading;
mod lookups;
mod machine;
mod opening;
mod placing;
mod sending;
mod slots;
mod switches;
mod timers;
mod turns;
mod walking;
mod watching;

pub use apic_state::Apic;
pub use machine::PlainMachine;
pub use watch::{Unwatched, Watch};
