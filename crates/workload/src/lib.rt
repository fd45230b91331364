//! Generated input: an image and a script that are made from a seed and a size, for trying and measuring the machine without
//! files.
//!
//! Offered are `made_image`, `made_script` and the `GUEST` that they name. It has four vcpus on two processors, each of which adds numbers to RAX
//! and halts. The crate stands on `svm_model`, `image_format` and `script_format`, whose types these are. The layer above uses
//! one contract each: the image and the script are those of the definitions (specs/Generated.antt), and are lawful. They are
//! refused only for want of memory.
#![tactic(auto)]

mod image;
mod script;

pub use image::made_image;
pub use script::{GUEST, made_script};

#[cfg(test)]
mod tests;
