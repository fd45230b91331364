// How the rows go on, and the registers in pairs that they read and write.
ghost use Rattle.std.specs.Prelude.{◌≡◌, []};
ghost use Rattle.svm_model.specs.Instructions.ControlRows.{pair_of, with_pair};
ghost use Rattle.svm_model.specs.Instructions.Operands.{state};
ghost use Rattle.svm_model.specs.Instructions.SystemState.{at_next};

use register_file::{whole_register, write_register};
use svm_model::{Registers, Width};

/// The number of RAX.
pub const RAX: u8 = 0;

/// The number of RDX.
pub const RDX: u8 = 2;

/// The number of RBX.
pub const RBX: u8 = 3;

/// The instruction is behind, and with it the interrupt shadow of the one before.
pub fn step_over(registers: &mut Registers, next_rip: u64)
    ensures { registers.new ≡ (at_next next_rip (state registers.old [])).registers }
{
    registers.rip = next_rip;
    registers.shadow = false;
}

/// The 64 bits that stand in EDX and EAX.
pub fn pair_of(registers: &Registers) -> u64
    ensures { result ≡ pair_of registers.now }
{
    let high = whole_register(registers, RDX) % 0x1_0000_0000;
    let low = whole_register(registers, RAX) % 0x1_0000_0000;
    high * 0x1_0000_0000 + low
}

/// Writes 64 bits into EDX and EAX.
pub fn write_pair(registers: &mut Registers, value: u64)
    ensures { registers.new ≡ (with_pair value (state registers.old [])).registers }
{
    write_register(registers, Width::W32, RAX, false, value % 0x1_0000_0000);
    write_register(registers, Width::W32, RDX, false, value / 0x1_0000_0000);
}
