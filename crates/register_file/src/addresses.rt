// The addresses of operands in memory.
ghost use Rattle.std.specs.Prelude.{◌≡◌};
ghost use Rattle.svm_model.specs.Instructions.Operands.{register_or_zero, effective_address};
ghost use Rattle.svm_model.specs.Instructions.Addresses.{segment_base, linear_address, is_stack_register, is_on_stack};

use crate::general::{RBP, RSP, whole_register};
use svm_model::{Operand, Registers};

/// A base or an index, or 0 where there is none.
fn register_or_zero(register: Option<u8>, registers: &Registers) -> u64
    ensures { result ≡ register_or_zero register registers.now }
{
    match register {
        Some(index) => whole_register(registers, index),
        None => 0,
    }
}

/// The effective address of a memory operand, without the base of a segment (volume 1, 'Effective Addresses').
pub fn effective_address(operand: Operand, next_rip: u64, registers: &Registers) -> u64
    ensures { result ≡ effective_address operand next_rip registers.now }
{
    match operand {
        Operand::Memory {
            base,
            index,
            scale,
            displacement,
            next,
            ..
        } => {
            let scaled = register_or_zero(index, registers).wrapping_mul(u64::from(scale));
            register_or_zero(base, registers)
                .wrapping_add(scaled)
                .wrapping_add(displacement)
                .wrapping_add(if next { next_rip } else { 0 })
        }
        _ => 0,
    }
}

/// The base of FS or GS, where the operand has their prefix.
fn segment_base(operand: Operand, registers: &Registers) -> u64
    ensures { result ≡ segment_base operand registers.now }
{
    match operand {
        Operand::Memory { segment: 4, .. } => registers.fs.base,
        Operand::Memory { segment: 5, .. } => registers.gs.base,
        _ => 0,
    }
}

/// The linear address of a memory operand (volume 3, 'Segment-Override Prefixes').
pub fn linear_address(operand: Operand, registers: &Registers, next_rip: u64) -> u64
    ensures { result ≡ linear_address operand registers.now next_rip }
{
    effective_address(operand, next_rip, registers).wrapping_add(segment_base(operand, registers))
}

/// RSP or RBP.
fn is_stack_register(register: Option<u8>) -> bool
    ensures { result ≡ is_stack_register register }
{
    match register {
        Some(index) => index == RSP || index == RBP,
        None => false,
    }
}

/// Whether an operand is in the stack segment: its base is RSP or RBP, and no prefix names FS or GS.
pub fn is_on_stack(operand: Operand) -> bool
    ensures { result ≡ is_on_stack operand }
{
    match operand {
        Operand::Memory { base, segment, .. } => segment == 0 && is_stack_register(base),
        _ => false,
    }
}
