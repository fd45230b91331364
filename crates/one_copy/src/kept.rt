// What is kept of a walk.
ghost use Rattle.std.specs.Prelude.{◌<◌, ◌^◌};

use svm_model::{Access, Leaf};

/// The leaf that a walk found, and what it was found for.
#[derive(Clone, Copy)]
pub struct Kept {
    pub asid: u32,
    pub access: Access,
    pub leaf: Leaf,
    /// A physical address has 40 bits.
    pub ghost frame: { leaf.frame.0 < 2 ^ 28 },
}
