// MOV CR (volume 2, 'CR0 Register', 'CR2 and CR3 Registers', 'CR4 Register', 'CR8 (Task Priority Register, TPR)').
ghost use Rattle.std.specs.Prelude.{◌≡◌, IsTrue, List, ℕ};
ghost use Rattle.svm_model.specs.Instructions.Guards.{special_operand, writes_special};
ghost use Rattle.svm_model.specs.Instructions.ControlRows.{control_value, flush_of_cr4, moves_control, with_control, with_cr0, with_cr4};
ghost use Rattle.svm_model.specs.Instructions.Operands.{state};
ghost use Rattle.svm_model.specs.Instructions.SystemState.{Fits, asking};
ghost use Rattle.row_system.specs.Moving.{MovesOn};

use crate::guards::{special_operand, writes_special};
use crate::registers::step_over;
use bitflags::Flags as _;
use register_file::write_operand;
use svm_model::{End, Facts, Outside, Registers, Row, Width};
use vm_names::{Cr0Bits, Cr4Bits};

/// CR0.ET, bit 4, which is always 1.
const EXTENSION_TYPE: u64 = 1 << 4;

/// What a control register holds. CR8 is the class of the task priority.
fn control_value(register: u8, facts: &Facts, registers: &Registers) -> u64
    ensures { result ≡ control_value register facts.now registers.now }
{
    match register {
        0 => registers.cr0,
        2 => registers.cr2,
        3 => registers.cr3,
        4 => registers.cr4,
        _ => u64::from(facts.tpr / 16),
    }
}

/// Writes CR0. Without paging, and with checks of alignment, the guest leaves the modes that are offered.
fn write_cr0(value: u64, registers: &mut Registers, next_rip: u64) -> Outside
    ensures answer { (results : List ℕ) → with_cr0 value next_rip (state registers.old results) ≡ asking result (state registers.new results) }
    ensures fits { Fits result }
    ensures moves_on { MovesOn next_rip registers.new result }
{
    let cr0 = Cr0Bits(value);
    if !cr0.contains(Cr0Bits::PAGING) || cr0.contains(Cr0Bits::ALIGNMENT_MASK) {
        return Outside::Ends(End::Mode { rule: 1 });
    }
    registers.cr0 = value | EXTENSION_TYPE;
    step_over(registers, next_rip);
    Outside::None
}

/// What a write of CR4 drops: a change of PGE all linear translations.
fn flush_of_cr4(old: u64, new: u64) -> Outside
    ensures { result ≡ flush_of_cr4 old new }
{
    if old / 0x80 % 2 == new / 0x80 % 2 {
        Outside::None
    } else {
        Outside::DropAsid
    }
}

/// Writes CR4. Without PAE the guest leaves the modes that are offered.
fn write_cr4(value: u64, registers: &mut Registers, next_rip: u64) -> Outside
    ensures answer { (results : List ℕ) → with_cr4 value next_rip (state registers.old results) ≡ asking result (state registers.new results) }
    ensures fits { Fits result }
    ensures moves_on { MovesOn next_rip registers.new result }
{
    if !Cr4Bits(value).contains(Cr4Bits::PHYSICAL_ADDRESS_EXTENSION) {
        return Outside::Ends(End::Mode { rule: 2 });
    }
    let flush = flush_of_cr4(registers.cr4, value);
    registers.cr4 = value;
    step_over(registers, next_rip);
    flush
}

/// Writes a control register with a value that it takes. CR3 drops the translations that are not global; CR8 asks for a
/// priority.
fn write_control(register: u8, value: u64, registers: &mut Registers, next_rip: u64) -> Outside
    ensures answer { (results : List ℕ) → with_control register value next_rip (state registers.old results) ≡ asking result (state registers.new results) }
    ensures fits { Fits result }
    ensures moves_on { MovesOn next_rip registers.new result }
{
    match register {
        0 => write_cr0(value, registers, next_rip),
        2 => {
            registers.cr2 = value;
            step_over(registers, next_rip);
            Outside::None
        }
        3 => {
            registers.cr3 = value;
            step_over(registers, next_rip);
            Outside::DropLocal
        }
        4 => write_cr4(value, registers, next_rip),
        _ => {
            step_over(registers, next_rip);
            Outside::Priority {
                value: (value % 16) as u8,
            }
        }
    }
}

/// MOV CR.
pub fn move_control(
    row: &Row,
    registers: &mut Registers,
    next_rip: u64,
    results: &mut [u64; 8],
    facts: &Facts,
) -> Outside
    ensures answer { moves_control row.now next_rip facts.now (state registers.old results.old) ≡ asking result (state registers.new results.new) }
    ensures fits { Fits result }
    ensures moves_on { MovesOn next_rip registers.new result }
{
    if writes_special(row.form) {
        let value = special_operand(row, registers);
        return write_control(row.register, value, registers, next_rip);
    }
    let value = control_value(row.register, facts, registers);
    write_operand(Width::W64, row.operand, value, registers, results);
    step_over(registers, next_rip);
    Outside::None
}
