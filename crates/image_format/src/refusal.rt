// Why there is no image.

ghost use Rattle.std.specs.Prelude.{◌≡◌};
ghost use Rattle.image_format.specs.declared.refusal.ImageRefusal.TheVariants.{NoMemory};

use crate::source::Source;
use std::alloc::{AllocError, AllocFailed};
use svm_model::ImageReason;
use thiserror::Error;

/// Why bytes were not made an image.
#[derive(Clone, Copy, Debug, PartialEq, Eq, Error)]
pub enum ImageRefusal {
    /// The bytes are no image: the first place where one can tell, and the reason.
    #[error("byte {place}: {reason:?}")]
    Bad { place: u32, reason: ImageReason },
    /// There is no memory for what they say.
    #[error("no memory")]
    NoMemory,
}

impl From<AllocError> for ImageRefusal {
    ghost from_gives = { λ _ e. e ≡ NoMemory };

    fn from(_error: AllocError) -> ImageRefusal {
        ImageRefusal::NoMemory
    }
}

impl<T: Drop> From<AllocFailed<T>> for ImageRefusal {
    ghost from_gives = { λ _ e. e ≡ NoMemory };

    fn from(_error: AllocFailed<T>) -> ImageRefusal {
        ImageRefusal::NoMemory
    }
}

/// What stands at a place is refused.
pub fn refused_at(source: Source, reason: ImageReason) -> ImageRefusal
    ensures { result ≡ ImageRefusal.Bad source.entry.place reason }
{
    ImageRefusal::Bad {
        place: source.place,
        reason,
    }
}
