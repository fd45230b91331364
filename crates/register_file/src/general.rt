// General registers by width and number (volume 1, 'Byte Registers', 'Zero-Extension of 32-Bit Results').
ghost use Rattle.std.specs.Prelude.{◌≡◌, ◌^◌, ◌<◌, []};
ghost use Rattle.svm_model.specs.Instructions.Widths.{bits};
ghost use Rattle.svm_model.specs.Instructions.Operands.{state, part_of, merged, cut, register_value, whole_register, with_register};

use svm_model::{Registers, Width};

/// The number of RCX.
pub const RCX: u8 = 1;

/// The number of RSP.
pub const RSP: u8 = 4;

/// The number of RBP.
pub const RBP: u8 = 5;

/// The low bits of a value.
pub fn cut(width: Width, value: u64) -> u64
    ensures value { result ≡ cut width value }
    ensures fits { result < 2 ^ bits width }
{
    match width {
        Width::W8 => value % 0x100,
        Width::W16 => value % 0x1_0000,
        Width::W32 => value % 0x1_0000_0000,
        Width::W64 => value,
    }
}

/// The whole of a register, by the low four bits of its number.
pub fn whole_register(registers: &Registers, index: u8) -> u64
    ensures { result ≡ whole_register index registers.now }
{
    registers.general[index as usize % 16]
}

fn part_of(width: Width, high: bool, whole: u64) -> u64
    ensures value { result ≡ part_of width high whole }
    ensures fits { result < 2 ^ bits width }
{
    match width {
        Width::W8 if high => whole / 0x100 % 0x100,
        _ => cut(width, whole),
    }
}

/// The low bits of a register, or its bits 15:8 where `high` is set and the width is 8 bits.
pub fn register_value(registers: &Registers, width: Width, index: u8, high: bool) -> u64
    ensures value { result ≡ register_value width index high registers.now }
    ensures fits { result < 2 ^ bits width }
{
    part_of(width, high, whole_register(registers, index))
}

/// A register after a write of a part: 8 and 16 bits leave the rest, and 32 bits clear the upper half.
fn merged(width: Width, high: bool, whole: u64, value: u64) -> u64
    requires { value < 2 ^ bits width }
    ensures { result ≡ merged width high whole value }
{
    match width {
        Width::W8 if high => whole / 0x1_0000 * 0x1_0000 + value * 0x100 + whole % 0x100,
        Width::W8 => whole / 0x100 * 0x100 + value,
        Width::W16 => whole / 0x1_0000 * 0x1_0000 + value,
        Width::W32 | Width::W64 => value,
    }
}

/// Writes the low bits of a register, or its bits 15:8, with a value that is cut to the width.
pub fn write_register(registers: &mut Registers, width: Width, index: u8, high: bool, value: u64)
    ensures { registers.new ≡ (with_register width index high value (state registers.old [])).registers }
{
    let whole = whole_register(registers, index);
    registers.general[index as usize % 16] = merged(width, high, whole, cut(width, value));
}
