// Rows of arithmetic and logic.
ghost use Rattle.std.specs.Prelude.{◌≡◌};
ghost use Rattle.svm_model.specs.Instructions.Operands.{state};
ghost use Rattle.svm_model.specs.Instructions.Arithmetic.{adds, subtracts, compares, combines, tests_bits, not_inverts, negates, increments, decrements};

use crate::sources::{destination_value, source_value};
use crate::widths::ones;
use flag_math::{add, logic, sub};
use register_file::{operand_value, read_flags, write_flags, write_operand, write_rip};
use row_table::destination;
use svm_model::{Flags, LogicKind, Registers, Row};

/// ADD, and ADC with CF as the carry.
#[tactic(auto, unfolding(svm_model::specs::Instructions::Arithmetic::adds))]
pub fn apply_sum(
    carry: bool,
    row: &Row,
    registers: &mut Registers,
    next_rip: u64,
    values: &[u64; 8],
    results: &mut [u64; 8],
)
    ensures { state registers.new results.new ≡ adds carry row.now next_rip values.now (state registers.old results.old) }
{
    let left = destination_value(row, registers, values);
    let right = source_value(row, registers, values);
    let (sum, flags) = add(row.width, left, right, carry);
    write_operand(row.width, destination(row), sum, registers, results);
    write_flags(registers, flags);
    write_rip(registers, next_rip);
}

/// SUB, and SBB with CF as the borrow.
#[tactic(auto, unfolding(svm_model::specs::Instructions::Arithmetic::subtracts))]
pub fn apply_difference(
    borrow: bool,
    row: &Row,
    registers: &mut Registers,
    next_rip: u64,
    values: &[u64; 8],
    results: &mut [u64; 8],
)
    ensures { state registers.new results.new ≡ subtracts borrow row.now next_rip values.now (state registers.old results.old) }
{
    let left = destination_value(row, registers, values);
    let right = source_value(row, registers, values);
    let (difference, flags) = sub(row.width, left, right, borrow);
    write_operand(row.width, destination(row), difference, registers, results);
    write_flags(registers, flags);
    write_rip(registers, next_rip);
}

/// CMP.
#[tactic(auto, unfolding(svm_model::specs::Instructions::Arithmetic::compares))]
pub fn apply_comparison(
    row: &Row,
    registers: &mut Registers,
    next_rip: u64,
    values: &[u64; 8],
    results: &mut [u64; 8],
)
    ensures { state registers.new results.new ≡ compares row.now next_rip values.now (state registers.old results.old) }
{
    let left = destination_value(row, registers, values);
    let right = source_value(row, registers, values);
    let (_, flags) = sub(row.width, left, right, false);
    write_flags(registers, flags);
    write_rip(registers, next_rip);
}

/// AND, OR and XOR.
#[tactic(auto, unfolding(svm_model::specs::Instructions::Arithmetic::combines))]
pub fn apply_logic(
    kind: LogicKind,
    row: &Row,
    registers: &mut Registers,
    next_rip: u64,
    values: &[u64; 8],
    results: &mut [u64; 8],
)
    ensures { state registers.new results.new ≡ combines kind row.now next_rip values.now (state registers.old results.old) }
{
    let left = destination_value(row, registers, values);
    let right = source_value(row, registers, values);
    let before = read_flags(registers);
    let (result, flags) = logic(row.width, kind, left, right, before);
    write_operand(row.width, destination(row), result, registers, results);
    write_flags(registers, flags);
    write_rip(registers, next_rip);
}

/// TEST.
#[tactic(auto, unfolding(svm_model::specs::Instructions::Arithmetic::tests_bits))]
pub fn apply_test(
    row: &Row,
    registers: &mut Registers,
    next_rip: u64,
    values: &[u64; 8],
    results: &mut [u64; 8],
)
    ensures { state registers.new results.new ≡ tests_bits row.now next_rip values.now (state registers.old results.old) }
{
    let left = destination_value(row, registers, values);
    let right = source_value(row, registers, values);
    let before = read_flags(registers);
    let (_, flags) = logic(row.width, LogicKind::And, left, right, before);
    write_flags(registers, flags);
    write_rip(registers, next_rip);
}

/// NOT.
#[tactic(auto, unfolding(svm_model::specs::Instructions::Arithmetic::not_inverts))]
pub fn apply_not(
    row: &Row,
    registers: &mut Registers,
    next_rip: u64,
    values: &[u64; 8],
    results: &mut [u64; 8],
)
    ensures { state registers.new results.new ≡ not_inverts row.now next_rip values.now (state registers.old results.old) }
{
    let value = operand_value(row.width, row.operand, registers, values);
    let turned = ones(row.width) - value;
    write_operand(row.width, row.operand, turned, registers, results);
    write_rip(registers, next_rip);
}

/// NEG.
#[tactic(auto, unfolding(svm_model::specs::Instructions::Arithmetic::negates))]
pub fn apply_negation(
    row: &Row,
    registers: &mut Registers,
    next_rip: u64,
    values: &[u64; 8],
    results: &mut [u64; 8],
)
    ensures { state registers.new results.new ≡ negates row.now next_rip values.now (state registers.old results.old) }
{
    let value = operand_value(row.width, row.operand, registers, values);
    let (negative, flags) = sub(row.width, 0, value, false);
    write_operand(row.width, row.operand, negative, registers, results);
    write_flags(registers, flags);
    write_rip(registers, next_rip);
}

/// INC.
#[tactic(auto, unfolding(svm_model::specs::Instructions::Arithmetic::increments))]
pub fn apply_increment(
    row: &Row,
    registers: &mut Registers,
    next_rip: u64,
    values: &[u64; 8],
    results: &mut [u64; 8],
)
    ensures { state registers.new results.new ≡ increments row.now next_rip values.now (state registers.old results.old) }
{
    let value = operand_value(row.width, row.operand, registers, values);
    let cf = read_flags(registers).cf;
    let (sum, flags) = add(row.width, value, 1, false);
    write_operand(row.width, row.operand, sum, registers, results);
    write_flags(registers, Flags { cf, ..flags });
    write_rip(registers, next_rip);
}

/// DEC.
#[tactic(auto, unfolding(svm_model::specs::Instructions::Arithmetic::decrements))]
pub fn apply_decrement(
    row: &Row,
    registers: &mut Registers,
    next_rip: u64,
    values: &[u64; 8],
    results: &mut [u64; 8],
)
    ensures { state registers.new results.new ≡ decrements row.now next_rip values.now (state registers.old results.old) }
{
    let value = operand_value(row.width, row.operand, registers, values);
    let cf = read_flags(registers).cf;
    let (difference, flags) = sub(row.width, value, 1, false);
    write_operand(row.width, row.operand, difference, registers, results);
    write_flags(registers, Flags { cf, ..flags });
    write_rip(registers, next_rip);
}
