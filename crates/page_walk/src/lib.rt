//! The page walk over a guest's memory: from CR3 down four levels of tables to the leaf of a linear page.
//!
//! It stands on svm_model, whose `specs/Memory/PageTables.antt` says what a walk is, in the terms of volume 2, 'Long-Mode Page
//! Translation' and 'Page-Protection Checks', and on host_memory, by whose counted reads alone it learns a table's
//! bytes. The contract that the layers above use is that of `walk`: its answer and the memory after it are those of
//! `walked`, no byte outside the guest's window changes, it reads 4 entries at most, and a fault changes nothing.
//! `EntryBits` names an entry's bits for whoever reads or writes tables. The steps of a walk are offered apart too, as a walk
//! whose tables' addresses pass through outer tables takes them one by one.
#![tactic(auto)]

mod bits;
mod entry;
mod path;
mod path_bits;
mod walks;

pub use bits::EntryBits;
pub use entry::{Lookup, ends_path, index_of, look_up, page_fault};
pub use path::{address_in, is_allowed, is_new, leaf_at};
pub use path_bits::{PathBits, bits_with};
pub use svm_model::{Entry, Leaf, Nested, PageSize, Paging, Walked};
pub use walks::{answer_of, leaf_marks, walk, write_entry};

#[cfg(test)]
mod tests;
