//! Counts of faults, which give an answer that blames an object its cause.
//!
//! It stands on no other crate. An object that may fail counts its faults in a number of 64 bits that never falls, and
//! stands still at its last value, where it counts as risen (`Rose` in specs/Causes.antt). `Calls` numbers the calls of an
//! object in memory and fails at chosen ones, so that tests can make any call fail.
//!
//! The layer above uses `Calls::fails`: it answers whether the call of that number is among those chosen, and its count
//! rises exactly then.
#![tactic(auto)]

mod calls;

pub use calls::Calls;
