// LGDT, LIDT, INVLPG and SWAPGS (volume 3, 'LGDT', 'LIDT', 'INVLPG', 'SWAPGS').
ghost use Rattle.std.specs.Prelude.{◌≡◌, ◌<◌, ◌^◌, List, OnErr, IfOk, ℕ, slice_index};
ghost use Rattle.svm_model.specs.Instructions.ControlRows.{drops_page, loads_table, swapped};
ghost use Rattle.svm_model.specs.Instructions.Operands.{state};
ghost use Rattle.svm_model.specs.Instructions.SystemState.{Fits, asking, systemic};
ghost use Rattle.row_system.specs.Moving.{MovesOn};

use crate::registers::step_over;
use register_file::linear_address;
use svm_model::{Op, Outside, Registers, Row, Trap};
use vm_names::{GENERAL_PROTECTION, is_canonical};

/// LGDT and LIDT. The first value is the limit, of 16 bits, and the second the base.
pub fn load_table(
    op: Op,
    registers: &mut Registers,
    next_rip: u64,
    values: &[u64; 8],
) -> Result<Outside, Trap>
    ensures answer { (results : List ℕ) → loads_table op next_rip values.now (state registers.old results) ≡ systemic result registers.new results }
    ensures fits { IfOk result Fits }
    ensures kept { OnErr result (registers.new ≡ registers.old) }
    ensures moves_on { IfOk result (MovesOn next_rip registers.new) }
{
    let limit = (values[0] % 0x1_0000) as u32;
    let base = values[1];
    if !is_canonical(base) {
        return Err(GENERAL_PROTECTION);
    }
    if op == Op::Lgdt {
        registers.gdtr.limit = limit;
        registers.gdtr.base = base;
    } else {
        registers.idtr.limit = limit;
        registers.idtr.base = base;
    }
    step_over(registers, next_rip);
    Ok(Outside::None)
}

/// INVLPG. An address that is not canonical has no translation.
pub fn drop_page(row: &Row, registers: &mut Registers, next_rip: u64) -> Outside
    ensures answer { (results : List ℕ) → drops_page row.now next_rip (state registers.old results) ≡ asking result (state registers.new results) }
    ensures fits { Fits result }
    ensures moves_on { MovesOn next_rip registers.new result }
{
    let address = linear_address(row.operand, registers, next_rip);
    step_over(registers, next_rip);
    if is_canonical(address) {
        Outside::DropPage { address }
    } else {
        Outside::None
    }
}

/// SWAPGS.
pub fn swap_gs(registers: &mut Registers)
    ensures { registers.new ≡ swapped registers.old }
{
    let base = registers.gs.base;
    registers.gs.base = registers.kernel_gs;
    registers.kernel_gs = base;
}
