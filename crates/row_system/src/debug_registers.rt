// MOV DR (volume 2, 'Debug Registers').
ghost use Rattle.std.specs.Prelude.{◌≡◌, List, ℕ};
ghost use Rattle.svm_model.specs.Instructions.ControlRows.{debug_value, moves_debug, with_debug};
ghost use Rattle.svm_model.specs.Instructions.Operands.{state};
ghost use Rattle.svm_model.specs.Instructions.SystemState.{Fits, asking};
ghost use Rattle.row_system.specs.Moving.{MovesOn};

use crate::guards::{special_operand, writes_special};
use crate::registers::step_over;
use register_file::write_operand;
use svm_model::{End, Outside, Registers, Row, Width};

/// DR7: L0 to G3, LE, GE and GD are not offered: bits 7:0 and 13.
const BREAKPOINTS: u64 = 0x20ff;

fn debug_value(register: u8, registers: &Registers) -> u64
    ensures { result ≡ debug_value register registers.now }
{
    if register == 6 {
        registers.dr6
    } else {
        registers.dr7
    }
}

/// Writes DR6 or DR7. Breakpoints are not offered.
fn write_debug(register: u8, value: u64, registers: &mut Registers, next_rip: u64) -> Outside
    ensures answer { (results : List ℕ) → with_debug register value next_rip (state registers.old results) ≡ asking result (state registers.new results) }
    ensures fits { Fits result }
    ensures moves_on { MovesOn next_rip registers.new result }
{
    if register == 6 {
        registers.dr6 = value;
        step_over(registers, next_rip);
        return Outside::None;
    }
    if value & BREAKPOINTS != 0 {
        return Outside::Ends(End::Mode { rule: 6 });
    }
    registers.dr7 = value;
    step_over(registers, next_rip);
    Outside::None
}

/// MOV DR.
pub fn move_debug(
    row: &Row,
    registers: &mut Registers,
    next_rip: u64,
    results: &mut [u64; 8],
) -> Outside
    ensures answer { moves_debug row.now next_rip (state registers.old results.old) ≡ asking result (state registers.new results.new) }
    ensures fits { Fits result }
    ensures moves_on { MovesOn next_rip registers.new result }
{
    if writes_special(row.form) {
        let value = special_operand(row, registers);
        return write_debug(row.register, value, registers, next_rip);
    }
    let value = debug_value(row.register, registers);
    write_operand(Width::W64, row.operand, value, registers, results);
    step_over(registers, next_rip);
    Outside::None
}
