// Rows that set flags, and rows that do nothing.
ghost use Rattle.std.specs.Prelude.{◌≡◌, []};
ghost use Rattle.svm_model.specs.Instructions.Operands.{state};
ghost use Rattle.svm_model.specs.Instructions.FlagRows.{sets_carry, complements_carry, sets_direction, does_nothing};

use register_file::{read_flags, write_carry, write_direction, write_rip};
use svm_model::Registers;

/// STC and CLC.
pub fn apply_carry(carry: bool, registers: &mut Registers, next_rip: u64)
    ensures { registers.new ≡ (sets_carry carry next_rip (state registers.old [])).registers }
{
    write_carry(registers, carry);
    write_rip(registers, next_rip);
}

/// CMC.
pub fn apply_complemented_carry(registers: &mut Registers, next_rip: u64)
    ensures { registers.new ≡ (complements_carry next_rip (state registers.old [])).registers }
{
    let flags = read_flags(registers);
    write_carry(registers, !flags.cf);
    write_rip(registers, next_rip);
}

/// STD and CLD.
pub fn apply_direction(direction: bool, registers: &mut Registers, next_rip: u64)
    ensures { registers.new ≡ (sets_direction direction next_rip (state registers.old [])).registers }
{
    write_direction(registers, direction);
    write_rip(registers, next_rip);
}

/// NOP and the fences.
pub fn apply_nothing(registers: &mut Registers, next_rip: u64)
    ensures { registers.new ≡ (does_nothing next_rip (state registers.old [])).registers }
{
    write_rip(registers, next_rip);
}
