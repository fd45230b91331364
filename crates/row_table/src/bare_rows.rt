// Rows that touch no memory.
ghost use Rattle.std.specs.Prelude.{◌≡◌, ℕ, true, false, None, []};
ghost use Rattle.svm_model.specs.Instructions.Planning.{planned, stack_access};
ghost use Rattle.svm_model.specs.declared.register_file.Registers.{Registers as RegistersRecord};

use crate::planning::operand_touch;
use register_file::is_memory;
use svm_model::{Op, Row};

/// Whether an instruction pushes or pops.
#[tactic(auto, unfolding(svm_model::specs::Instructions::Planning::stack_access))]
fn uses_stack(op: Op) -> bool
    ensures { (r : RegistersRecord) → result ≡ false → stack_access op r ≡ None }
{
    matches!(
        op,
        Op::Call | Op::Leave | Op::Pop | Op::Popfq | Op::Push | Op::Pushfq | Op::Ret
    )
}

/// Whether a row touches no memory: it has no operand there, or is LEA, which takes the operand's address alone; and it neither
/// pushes nor pops. Then its plan has no access.
#[tactic(auto, unfolding(svm_model::specs::Instructions::Planning::planned, svm_model::specs::Instructions::Planning::operand_accesses, svm_model::specs::Instructions::Planning::is_lgdt_or_lidt))]
pub fn is_bare(row: &Row) -> bool
    ensures { (r : RegistersRecord) (next : ℕ) → result ≡ true → planned row.now r next ≡ [] }
{
    if uses_stack(row.op) {
        return false;
    }
    let takes_address = matches!(row.op, Op::Lea) && operand_touch(row).is_none();
    takes_address || !is_memory(row.operand)
}
