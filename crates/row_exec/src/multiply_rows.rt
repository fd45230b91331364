// Rows that multiply and divide.
ghost use Rattle.std.specs.Prelude.{◌≡◌, ◌^◌, ◌<◌};
ghost use Rattle.svm_model.specs.Instructions.Widths.{bits};
ghost use Rattle.svm_model.specs.Instructions.Operands.{state};
ghost use Rattle.svm_model.specs.Instructions.Apply.{answer_of, state_after};
ghost use Rattle.svm_model.specs.Instructions.MultiplyRows.{with_accumulators, multiplies, factor_of, multiplies_into_register, has_one_operand, multiplies_signed, divides};

use flag_math::{divide, multiply};
use register_file::{
    ACCUMULATOR, cut, operand_value, read_flags, register_named, upper_accumulator, write_flags,
    write_operand, write_rip,
};
use row_table::{has_immediate, has_one_operand};
use svm_model::{Applied, Registers, Row, Width};
use vm_names::DIVIDE_ERROR;

/// Writes the accumulator and what goes with it: AX, DX:AX, EDX:EAX or RDX:RAX.
fn write_accumulators(
    width: Width,
    high: u64,
    low: u64,
    registers: &mut Registers,
    results: &mut [u64; 8],
)
    ensures registers { registers.new ≡ (with_accumulators width high low (state registers.old results.old)).registers }
    ensures results { results.new ≡ (with_accumulators width high low (state registers.old results.old)).results }
{
    write_operand(width, ACCUMULATOR, low, registers, results);
    write_operand(width, upper_accumulator(width), high, registers, results);
}

/// MUL, and IMUL with one operand.
#[tactic(auto, unfolding(svm_model::specs::Instructions::MultiplyRows::multiplies))]
pub fn apply_multiplication(
    signed: bool,
    row: &Row,
    registers: &mut Registers,
    next_rip: u64,
    values: &[u64; 8],
    results: &mut [u64; 8],
)
    ensures { state registers.new results.new ≡ multiplies signed row.now next_rip values.now (state registers.old results.old) }
{
    let left = operand_value(row.width, ACCUMULATOR, registers, values);
    let right = operand_value(row.width, row.operand, registers, values);
    let before = read_flags(registers);
    let (low, high, flags) = multiply(row.width, signed, left, right, before);
    write_accumulators(row.width, high, low, registers, results);
    write_flags(registers, flags);
    write_rip(registers, next_rip);
}

/// What IMUL with two or three operands multiplies r/m by: its register, or its immediate.
fn factor_of(row: &Row, registers: &Registers, values: &[u64; 8]) -> u64
    ensures value { result ≡ factor_of row.now registers.now values.now }
    ensures fits { result < 2 ^ bits row.now.width }
{
    if has_immediate(row.form) {
        cut(row.width, row.immediate)
    } else {
        operand_value(row.width, register_named(row.register), registers, values)
    }
}

/// IMUL with two or three operands.
#[tactic(auto, unfolding(svm_model::specs::Instructions::MultiplyRows::multiplies_into_register))]
fn apply_multiplication_into_register(
    row: &Row,
    registers: &mut Registers,
    next_rip: u64,
    values: &[u64; 8],
    results: &mut [u64; 8],
)
    ensures { state registers.new results.new ≡ multiplies_into_register row.now next_rip values.now (state registers.old results.old) }
{
    let left = operand_value(row.width, row.operand, registers, values);
    let right = factor_of(row, registers, values);
    let before = read_flags(registers);
    let (low, _, flags) = multiply(row.width, true, left, right, before);
    write_operand(
        row.width,
        register_named(row.register),
        low,
        registers,
        results,
    );
    write_flags(registers, flags);
    write_rip(registers, next_rip);
}

/// IMUL.
#[tactic(auto, unfolding(svm_model::specs::Instructions::MultiplyRows::multiplies_signed))]
pub fn apply_signed_multiplication(
    row: &Row,
    registers: &mut Registers,
    next_rip: u64,
    values: &[u64; 8],
    results: &mut [u64; 8],
)
    ensures { state registers.new results.new ≡ multiplies_signed row.now next_rip values.now (state registers.old results.old) }
{
    if has_one_operand(row.form) {
        apply_multiplication(true, row, registers, next_rip, values, results);
    } else {
        apply_multiplication_into_register(row, registers, next_rip, values, results);
    }
}

/// DIV and IDIV.
#[tactic(auto, unfolding(svm_model::specs::Instructions::MultiplyRows::divides))]
pub fn apply_division(
    signed: bool,
    row: &Row,
    registers: &mut Registers,
    next_rip: u64,
    values: &[u64; 8],
    results: &mut [u64; 8],
) -> Applied
    ensures answer { result ≡ answer_of (divides signed row.now next_rip values.now (state registers.old results.old)) }
    ensures state { state registers.new results.new ≡ state_after (state registers.old results.old) (divides signed row.now next_rip values.now (state registers.old results.old)) }
{
    let high = operand_value(row.width, upper_accumulator(row.width), registers, values);
    let low = operand_value(row.width, ACCUMULATOR, registers, values);
    let divisor = operand_value(row.width, row.operand, registers, values);
    let Ok((quotient, remainder)) = divide(row.width, signed, high, low, divisor) else {
        return Applied::Fault(DIVIDE_ERROR);
    };
    write_accumulators(row.width, remainder, quotient, registers, results);
    write_rip(registers, next_rip);
    Applied::Done
}
