//! Where the fields of a virtual machine control block lie, their values in memory, and the groups of its clean bits
//! (volume 2, 'VMCB Layout', 'VMCB Clean Bits').
//!
//! The layout is the table `LAYOUT` of svm_model, which the definitions cite too (`specs/Svm/VmcbLayout.antt`, `Vmcb.antt`).
//! `Fields` is a value for each field, and each fits its field's width: that is an invariant of the type. The contracts
//! that the layers above use: `read_fields` is `fields_at` by 34 reads, and by none where the VMCB is not all there; `get`
//! and `put` are one field of it, by one read or write, and `put` changes no byte of any other; `put_fields` writes several.
#![tactic(auto)]

mod access;
mod fields;
mod groups;
mod pieces;
mod places;
mod reads;

pub use access::{get, put, put_fields};
pub use fields::Fields;
pub use groups::group_fields;
pub use places::place;
pub use reads::{read_fields, read_inside};
pub use svm_model::Field;

#[cfg(test)]
mod tests;
