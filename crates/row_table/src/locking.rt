// The operand that a row changes, and the LOCK prefix.
ghost use Rattle.std.specs.Prelude.{◌≡◌};
ghost use Rattle.svm_model.specs.Instructions.Locking.{lock_is_undefined};
ghost use Rattle.svm_model.specs.Instructions.Sources.{destination};

use crate::columns::{is_reversed, takes_lock};
use register_file::{is_memory, register_named};
use svm_model::{Operand, Row};

/// The operand that a row changes, or the first of those that it compares.
pub fn destination(row: &Row) -> Operand
    ensures { result ≡ destination row.now }
{
    if is_reversed(row.form) {
        register_named(row.register)
    } else {
        row.operand
    }
}

/// Whether the row has a LOCK prefix where none may stand, which is #UD: its instruction takes none, or its destination
/// is a register (volume 3, 'Lock Prefix'). Rows other than user rows take none.
#[tactic(auto, unfolding(svm_model::specs::Instructions::Locking::lock_is_undefined))]
pub fn lock_is_undefined(row: &Row) -> bool
    ensures { result ≡ lock_is_undefined row.now }
{
    row.lock && !(takes_lock(row) && is_memory(destination(row)))
}
