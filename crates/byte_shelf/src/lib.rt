//! Sources and sinks of bytes, for a program that reads whole files and writes text.
//!
//! It stands on fault_counts. `Shelf` and `Sink` are traits: what a caller proves over them holds for the files and the
//! output of the system (`FileShelf`, `StdSink`) as for objects in memory (`MemoryShelf`, `MemorySink`), which tell their
//! content and fail at chosen calls. Each object counts its faults, so that an answer that blames one has a cause.
//!
//! The layer above uses `read_all` and `write_all`. `read_all` answers what `whole_file limit (file_of files name)` says:
//! the bytes, that the name is missing, or that the file is too long; apart from that only a fault that was counted, or
//! want of memory. `write_all` appends the whole piece, or it is refused and a proper prefix was written (`IsCutShort`).
#![tactic(auto)]

mod answers;
mod memory_shelf;
mod memory_sink;
mod outside;
mod shelf;
mod sink;

pub use answers::{Failed, Opened, ReadAll, SinkRefusal};
pub use memory_shelf::MemoryShelf;
pub use memory_sink::MemorySink;
pub use outside::{FileShelf, StdSink};
pub use shelf::{Shelf, read_all};
pub use sink::{Sink, write_all};
