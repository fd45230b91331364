// ModRM, SIB and displacement.
ghost use Rattle.std.specs.Prelude.{◌≡◌, ◌<◌, ◌≤◌};
ghost use Rattle.svm_model.specs.Instructions.InstructionBytes.{Reads};
ghost use Rattle.svm_model.specs.Instructions.ModRm.{extended_8, extended_32, displacement_at, sib_at, operand_at, is_high, register_operand, register_code, size_of_mode, scale_of};

use crate::input::Input;
use svm_model::{Displacement, Operand, Rex, Unread};

pub fn extended_8(byte: u8) -> u64
    ensures { result ≡ extended_8 byte }
{
    if byte < 0x80 {
        u64::from(byte)
    } else {
        u64::from(byte) + 0xffff_ffff_ffff_ff00
    }
}

pub fn extended_32(double: u32) -> u64
    ensures { result ≡ extended_32 double }
{
    if double < 0x8000_0000 {
        u64::from(double)
    } else {
        u64::from(double) + 0xffff_ffff_0000_0000
    }
}

#[tactic(auto, unfolding(svm_model::specs::Instructions::ModRm::displacement_at))]
fn read_displacement(input: &mut Input, size: Displacement) -> Result<u64, Unread>
    ensures { Reads result input.new.rest.now (displacement_at size input.old.rest.now) }
{
    match size {
        Displacement::Absent => Ok(0),
        Displacement::Small => Ok(extended_8(input.byte()?)),
        Displacement::Large => Ok(extended_32(input.double()?)),
    }
}

/// The displacement that mod asks for.
fn size_of_mode(mode: u8) -> Displacement
    ensures { result ≡ size_of_mode mode }
{
    match mode {
        1 => Displacement::Small,
        2 => Displacement::Large,
        _ => Displacement::Absent,
    }
}

/// The factor of an index, or 1 where there is none.
fn scale_of(index: Option<u8>, sib: u8) -> u8
    ensures { result ≡ scale_of index sib }
{
    if index.is_none() {
        return 1;
    }
    match sib / 64 {
        0 => 1,
        1 => 2,
        2 => 4,
        _ => 8,
    }
}

/// Reads the operand of a SIB byte, under mod.
#[tactic(auto, unfolding(svm_model::specs::Instructions::ModRm::sib_at))]
fn read_sib(input: &mut Input, segment: u8, rex: Rex, mode: u8) -> Result<Operand, Unread>
    requires index { rex.index ≤ 8 }
    requires base { rex.base ≤ 8 }
    ensures { Reads result input.new.rest.now (sib_at segment rex mode input.old.rest.now) }
{
    let sib = input.byte()?;
    let scaled = sib / 8 % 8 + rex.index;
    let index = if scaled == 4 { None } else { Some(scaled) };
    let baseless = mode == 0 && sib % 8 == 5;
    let base = if baseless {
        None
    } else {
        Some(sib % 8 + rex.base)
    };
    let size = if baseless {
        Displacement::Large
    } else {
        size_of_mode(mode)
    };
    let displacement = read_displacement(input, size)?;
    Ok(Operand::Memory {
        base,
        index,
        scale: scale_of(index, sib),
        displacement,
        next: false,
        segment,
    })
}

/// Whether the number is that of AH, CH, DH or BH, among registers of 8 bits (`small`).
fn is_high(rex: Rex, small: bool, number: u8) -> bool
    ensures { result ≡ is_high rex small number }
{
    small && !rex.given && number >= 4
}

/// A register as an operand.
pub fn register_operand(rex: Rex, small: bool, number: u8) -> Operand
    requires number { number < 8 }
    requires base { rex.base ≤ 8 }
    ensures { result ≡ register_operand rex small number }
{
    if is_high(rex, small, number) {
        Operand::Register {
            index: number - 4,
            high: true,
        }
    } else {
        Operand::Register {
            index: number + rex.base,
            high: false,
        }
    }
}

/// The code of a register that reg names.
pub fn register_code(rex: Rex, small: bool, number: u8) -> u8
    requires number { number < 8 }
    requires register { rex.register ≤ 8 }
    ensures { result ≡ register_code rex small number }
{
    if is_high(rex, small, number) {
        number + 12
    } else {
        number + rex.register
    }
}

/// Reads the operand that mod and r/m name.
#[tactic(auto, unfolding(svm_model::specs::Instructions::ModRm::operand_at))]
pub fn read_rm(
    input: &mut Input,
    segment: u8,
    rex: Rex,
    small: bool,
    modrm: u8,
) -> Result<Operand, Unread>
    requires index { rex.index ≤ 8 }
    requires base { rex.base ≤ 8 }
    ensures { Reads result input.new.rest.now (operand_at segment rex small modrm input.old.rest.now) }
{
    let mode = modrm / 64;
    let number = modrm % 8;
    if mode == 3 {
        return Ok(register_operand(rex, small, number));
    }
    if number == 4 {
        return read_sib(input, segment, rex, mode);
    }
    let relative = mode == 0 && number == 5;
    let base = if relative {
        None
    } else {
        Some(number + rex.base)
    };
    let size = if relative {
        Displacement::Large
    } else {
        size_of_mode(mode)
    };
    let displacement = read_displacement(input, size)?;
    Ok(Operand::Memory {
        base,
        index: None,
        scale: 1,
        displacement,
        next: relative,
        segment,
    })
}
