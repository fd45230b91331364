//! The printed text: one function for each kind of line, and the printed names of reasons.
//!
//! A report has the number of events, then for each guest its line, the lines of its vcpus and those of its writes to ports.
//! Besides, an event may print a line: that of a dump. A traced run prints a block for each event: the line of the event, and
//! among others the lines of the bytes of memory that it changed. The verdict on whether a run keeps the rules of maintenance
//! is one line. Each function here makes such a line, or lines of one kind, as bytes, with line feeds; numbers are decimal, or
//! hexadecimal in lower case without leading zeros. A `Tracer` is a second copy of the memory of all guests, with which a
//! traced run finds what changed: it compares a page, has the lines printed, and puts the new bytes into the copy. The crate
//! stands on the definitions of `svm_model`, on `image_format` for what an image says, and on `vmcb_layout` for where a field
//! lies; the contract that the layer above uses is that each text is the line of that definition, and that the copy begins as
//! the image's world and has the pages that were put into it. Want of memory is the one refusal, and nothing is left then.
#![tactic(auto)]

mod changes;
mod dumps;
mod events;
mod lines;
mod outputs;
mod reasons;
mod tracer;
mod verdicts;

pub use changes::memory_text;
pub use dumps::dump_text;
pub use events::event_text;
pub use lines::{events_text, guest_text, vcpu_text};
pub use outputs::{out_text, outs_text};
pub use reasons::{image_reason_name, script_reason_name};
pub use tracer::Tracer;
pub use verdicts::verdict_text;

#[cfg(test)]
mod tests;
