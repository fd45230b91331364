// The operands of a row: read and written in registers, or by planned accesses.
ghost use Rattle.std.specs.Prelude.{◌≡◌, ◌^◌, ◌<◌};
ghost use Rattle.svm_model.specs.Instructions.Widths.{bits};
ghost use Rattle.svm_model.specs.Instructions.Operands.{state, operand_value, with_operand_at, with_operand, is_memory, register_named, upper_accumulator};

use crate::general::{cut, register_value, write_register};
use svm_model::{Operand, Registers, Width};

/// AL, AX, EAX or RAX.
pub const ACCUMULATOR: Operand = Operand::Register {
    index: 0,
    high: false,
};

/// DX, EDX or RDX.
pub const RDX: Operand = Operand::Register {
    index: 2,
    high: false,
};

/// What goes with the accumulator to hold twice its width: AH, DX, EDX or RDX.
pub fn upper_accumulator(width: Width) -> Operand
    ensures { result ≡ upper_accumulator width }
{
    match width {
        Width::W8 => Operand::Register {
            index: 0,
            high: true,
        },
        _ => RDX,
    }
}

/// The register that a row's reg field names: 16 to 19 are AH, CH, DH and BH.
pub fn register_named(register: u8) -> Operand
    ensures { result ≡ register_named register }
{
    if register < 16 {
        Operand::Register {
            index: register,
            high: false,
        }
    } else {
        Operand::Register {
            index: register - 16,
            high: true,
        }
    }
}

/// Whether the operand is in memory.
pub fn is_memory(operand: Operand) -> bool
    ensures { result ≡ is_memory operand }
{
    matches!(operand, Operand::Memory { .. })
}

/// An operand's value: of a register, or what the row's first access read.
pub fn operand_value(
    width: Width,
    operand: Operand,
    registers: &Registers,
    values: &[u64; 8],
) -> u64
    ensures value { result ≡ operand_value width operand registers.now values.now }
    ensures fits { result < 2 ^ bits width }
{
    match operand {
        Operand::Register { index, high } => register_value(registers, width, index, high),
        Operand::Memory { .. } => cut(width, values[0]),
        Operand::None => 0,
    }
}

/// Writes an operand: a register, or memory by the access of this number.
pub fn write_operand_at(
    place: usize,
    width: Width,
    operand: Operand,
    value: u64,
    registers: &mut Registers,
    results: &mut [u64; 8],
)
    requires { place < 8 }
    ensures registers { registers.new ≡ (with_operand_at place width operand value (state registers.old results.old)).registers }
    ensures results { results.new ≡ (with_operand_at place width operand value (state registers.old results.old)).results }
{
    match operand {
        Operand::Register { index, high } => write_register(registers, width, index, high, value),
        Operand::Memory { .. } => results[place] = cut(width, value),
        Operand::None => {}
    }
}

/// Writes an operand: a register, or memory by the row's first access.
pub fn write_operand(
    width: Width,
    operand: Operand,
    value: u64,
    registers: &mut Registers,
    results: &mut [u64; 8],
)
    ensures registers { registers.new ≡ (with_operand width operand value (state registers.old results.old)).registers }
    ensures results { results.new ≡ (with_operand width operand value (state registers.old results.old)).results }
{
    write_operand_at(0, width, operand, value, registers, results);
}
