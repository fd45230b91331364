//! Reads an image: the file that says which guests there are, what their memory holds and how their vcpus start.
//!
//! Offered are `parse_image`, the types of what it reads, and `ImageRefusal`; and, for images that are made without bytes,
//! how a vcpu starts (`start_registers`). The crate stands on `svm_model`, which
//! defines by `image_of` what the bytes of an image say; on `byteorder` for the numbers; and on `thiserror` for the
//! refusal's text. The layer above uses one contract: `parse_image` answers the image that `image_of` gives of the
//! bytes, or the very place and reason at which it refuses them, and each image is lawful (`IsLawfulImage`). In clauses
//! an `Image` is svm_model's record of that name, so that no clause above speaks of a `Vec`. The reading is straight
//! down, a function for each definition, and ends for any bytes.
#![tactic(auto)]

mod fields;
mod guest;
mod image;
mod parsing;
mod refusal;
mod segment;
mod source;
mod vcpu;

pub use image::{GuestImage, Image, SegmentImage};
pub use parsing::parse_image;
pub use refusal::ImageRefusal;
pub use svm_model::ImageReason;
pub use vcpu::{Start, start_registers, start_tr, table_register};

#[cfg(test)]
mod tests;
