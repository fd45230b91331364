//! Reads a script: the text that says which events come, in their order.
//!
//! Offered are `parse_script`, `Script` with `event_at`, and `ScriptRefusal`. The crate stands on `svm_model`, which
//! defines by `script_of` what the bytes of a script say for an image; on `image_format` for the image, whose
//! processors, guests and vcpus a script names; and on `thiserror` for the refusal's text. A line is one event that
//! comes so many times, or, where its `each` is true, so many rounds of one run on each processor of the image. The
//! layer above uses two contracts: `parse_script` answers the script that `script_of` gives, or the very line and reason
//! at which it refuses the bytes, and each script is lawful (`IsLawful`); `event_at` answers the event of any number on
//! the image's processors, by halving. In clauses a `Script` is svm_model's record of that name. The reading is straight
//! down, a function for each definition, and ends for any bytes.
#![tactic(auto)]

mod commands;
mod events;
mod lines;
mod numbers;
mod parsing;
mod refusal;
mod script;
mod values;
mod words;

pub use parsing::parse_script;
pub use refusal::ScriptRefusal;
pub use script::Script;
pub use svm_model::{ScriptLine, ScriptReason};

#[cfg(test)]
mod tests;
