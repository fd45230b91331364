//! The walk over both levels of tables: from the guest's CR3 down to the leaf of a linear page, with each guest-physical
//! address passed through the outer tables before it is used.
//!
//! It stands on svm_model, whose `specs/Memory/NestedPaging.antt` says what such a walk is, in the terms of volume 2,
//! 'Nested Paging'; on page_walk, whose `walk` makes the passes and whose steps take the guest's level; and on
//! host_memory. The contract that the layers above use is that of `nested_walk`: its answer, the memory after it and the
//! passes that it tells are those of `walked_over`, no byte outside the guest's window changes, and it makes 28 counted
//! reads at most.
#![tactic(auto)]

mod descent;
mod last_page;
mod marks;
mod passes;
mod walked_so_far;
mod walks;

pub use svm_model::{Nested, Nesting, Paging, Pass};
pub use walks::nested_walk;

#[cfg(test)]
mod tests;
