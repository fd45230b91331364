// Why there is no script.

ghost use Rattle.std.specs.Prelude.{◌≡◌};
ghost use Rattle.script_format.specs.declared.refusal.ScriptRefusal.TheVariants.{NoMemory};

use std::alloc::{AllocError, AllocFailed};
use svm_model::ScriptReason;
use thiserror::Error;

/// Why bytes were not made a script.
#[derive(Clone, Copy, Debug, PartialEq, Eq, Error)]
pub enum ScriptRefusal {
    /// The bytes are no script: the first line that is refused, counted from 1, and the reason. A script that is too
    /// long is refused at line 0.
    #[error("line {line}: {reason:?}")]
    Bad { line: u32, reason: ScriptReason },
    /// There is no memory for what they say.
    #[error("no memory")]
    NoMemory,
}

impl From<AllocError> for ScriptRefusal {
    ghost from_gives = { λ _ e. e ≡ NoMemory };

    fn from(_error: AllocError) -> ScriptRefusal {
        ScriptRefusal::NoMemory
    }
}

impl<T: Drop> From<AllocFailed<T>> for ScriptRefusal {
    ghost from_gives = { λ _ e. e ≡ NoMemory };

    fn from(_error: AllocFailed<T>) -> ScriptRefusal {
        ScriptRefusal::NoMemory
    }
}
