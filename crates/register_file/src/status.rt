// RIP, and the flags of RFLAGS (volume 1, 'Flags Register').
ghost use Rattle.std.specs.Prelude.{◌≡◌, []};
ghost use Rattle.svm_model.specs.Instructions.Operands.{state, flags_of, after_flags, at_rip};
ghost use Rattle.svm_model.specs.Instructions.FlagRows.{with_carry, with_direction};

use flag_math::{flags_in, with_flags};
use svm_model::{Flags, Registers};

/// The status flags.
pub fn read_flags(registers: &Registers) -> Flags
    ensures { result ≡ flags_of registers.now }
{
    flags_in(registers.rflags)
}

/// Sets the status flags. All other bits of RFLAGS stay.
pub fn write_flags(registers: &mut Registers, flags: Flags)
    ensures { registers.new ≡ (after_flags flags (state registers.old [])).registers }
{
    registers.rflags = with_flags(registers.rflags, flags);
}

/// The next instruction is there.
pub fn write_rip(registers: &mut Registers, rip: u64)
    ensures { registers.new ≡ (at_rip rip (state registers.old [])).registers }
{
    registers.rip = rip;
}

/// Sets CF.
pub fn write_carry(registers: &mut Registers, carry: bool)
    ensures { registers.new ≡ (with_carry carry (state registers.old [])).registers }
{
    let flags = Flags {
        cf: carry,
        ..read_flags(registers)
    };
    write_flags(registers, flags);
}

/// DF, bit 10 of RFLAGS.
const DIRECTION_FLAG: u64 = 1 << 10;

/// Sets DF.
pub fn write_direction(registers: &mut Registers, direction: bool)
    ensures { registers.new ≡ (with_direction direction (state registers.old [])).registers }
{
    registers.rflags = if direction {
        registers.rflags | DIRECTION_FLAG
    } else {
        registers.rflags & !DIRECTION_FLAG
    };
}
