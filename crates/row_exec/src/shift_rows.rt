// Rows that shift and rotate.
ghost use Rattle.std.specs.Prelude.{◌≡◌};
ghost use Rattle.svm_model.specs.Instructions.Operands.{state};
ghost use Rattle.svm_model.specs.Instructions.ShiftRows.{counts_by_cl, count_of, shifts};

use flag_math::shift;
use register_file::{
    RCX, cut, operand_value, read_flags, register_value, write_flags, write_operand, write_rip,
};
use row_table::counts_by_cl;
use svm_model::{Registers, Row, ShiftKind, Width};

fn count_of(row: &Row, registers: &Registers) -> u8
    ensures { result ≡ count_of row.now registers.now }
{
    if counts_by_cl(row.form) {
        register_value(registers, Width::W8, RCX, false) as u8
    } else {
        cut(Width::W8, row.immediate) as u8
    }
}

/// ROL, ROR, SHL, SHR and SAR.
#[tactic(auto, unfolding(svm_model::specs::Instructions::ShiftRows::shifts))]
pub fn apply_shift(
    kind: ShiftKind,
    row: &Row,
    registers: &mut Registers,
    next_rip: u64,
    values: &[u64; 8],
    results: &mut [u64; 8],
)
    ensures { state registers.new results.new ≡ shifts kind row.now next_rip values.now (state registers.old results.old) }
{
    let value = operand_value(row.width, row.operand, registers, values);
    let count = count_of(row, registers);
    let before = read_flags(registers);
    let (result, flags) = shift(row.width, kind, value, count, before);
    write_operand(row.width, row.operand, result, registers, results);
    write_flags(registers, flags);
    write_rip(registers, next_rip);
}
