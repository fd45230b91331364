// Rows that test bits, and rows that exchange.
ghost use Rattle.std.specs.Prelude.{◌≡◌};
ghost use Rattle.svm_model.specs.Instructions.Operands.{state};
ghost use Rattle.svm_model.specs.Instructions.BitRows.{selected_bit, changed_bit, written_back, bt_copies_bit, changes_bit, exchanges, exchanges_and_adds, compares_and_exchanges};

use crate::sources::source_value;
use crate::widths::bit_count;
use flag_math::{add, sub};
use register_file::{
    ACCUMULATOR, is_memory, operand_value, register_named, write_carry, write_flags, write_operand,
    write_rip,
};
use svm_model::{Op, Registers, Row};

/// The bit that a row names, by its place.
fn selected_bit(row: &Row, registers: &Registers, values: &[u64; 8]) -> u64
    ensures { result ≡ selected_bit row.now registers.now values.now }
{
    let offset = source_value(row, registers, values) % bit_count(row.width);
    1 << offset
}

/// BT.
#[tactic(auto, unfolding(svm_model::specs::Instructions::BitRows::bt_copies_bit))]
pub fn apply_bit_test(
    row: &Row,
    registers: &mut Registers,
    next_rip: u64,
    values: &[u64; 8],
    results: &mut [u64; 8],
)
    ensures { state registers.new results.new ≡ bt_copies_bit row.now next_rip values.now (state registers.old results.old) }
{
    let value = operand_value(row.width, row.operand, registers, values);
    let bit = selected_bit(row, registers, values);
    write_carry(registers, value & bit == bit);
    write_rip(registers, next_rip);
}

/// What becomes of an operand whose bit was copied to CF.
fn changed_bit(op: Op, value: u64, bit: u64) -> u64
    ensures { result ≡ changed_bit op value bit }
{
    match op {
        Op::Bts => value | bit,
        Op::Btr => value & !bit,
        Op::Btc => value ^ bit,
        _ => value,
    }
}

/// BTS, BTR and BTC.
#[tactic(auto, unfolding(svm_model::specs::Instructions::BitRows::changes_bit))]
pub fn apply_bit_change(
    op: Op,
    row: &Row,
    registers: &mut Registers,
    next_rip: u64,
    values: &[u64; 8],
    results: &mut [u64; 8],
)
    ensures { state registers.new results.new ≡ changes_bit op row.now next_rip values.now (state registers.old results.old) }
{
    let value = operand_value(row.width, row.operand, registers, values);
    let bit = selected_bit(row, registers, values);
    let changed = changed_bit(op, value, bit);
    write_operand(row.width, row.operand, changed, registers, results);
    write_carry(registers, value & bit == bit);
    write_rip(registers, next_rip);
}

/// XCHG.
#[tactic(auto, unfolding(svm_model::specs::Instructions::BitRows::exchanges))]
pub fn apply_exchange(
    row: &Row,
    registers: &mut Registers,
    next_rip: u64,
    values: &[u64; 8],
    results: &mut [u64; 8],
)
    ensures { state registers.new results.new ≡ exchanges row.now next_rip values.now (state registers.old results.old) }
{
    let named = register_named(row.register);
    let left = operand_value(row.width, row.operand, registers, values);
    let right = operand_value(row.width, named, registers, values);
    write_operand(row.width, row.operand, right, registers, results);
    write_operand(row.width, named, left, registers, results);
    write_rip(registers, next_rip);
}

/// XADD.
#[tactic(auto, unfolding(svm_model::specs::Instructions::BitRows::exchanges_and_adds))]
pub fn apply_exchange_and_add(
    row: &Row,
    registers: &mut Registers,
    next_rip: u64,
    values: &[u64; 8],
    results: &mut [u64; 8],
)
    ensures { state registers.new results.new ≡ exchanges_and_adds row.now next_rip values.now (state registers.old results.old) }
{
    let named = register_named(row.register);
    let left = operand_value(row.width, row.operand, registers, values);
    let right = operand_value(row.width, named, registers, values);
    let (sum, flags) = add(row.width, left, right, false);
    write_operand(row.width, named, left, registers, results);
    write_operand(row.width, row.operand, sum, registers, results);
    write_flags(registers, flags);
    write_rip(registers, next_rip);
}

/// Writes memory with its own value. A register keeps all its bits.
fn write_back(row: &Row, value: u64, registers: &mut Registers, results: &mut [u64; 8])
    ensures registers { registers.new ≡ (written_back row.now value (state registers.old results.old)).registers }
    ensures results { results.new ≡ (written_back row.now value (state registers.old results.old)).results }
{
    if is_memory(row.operand) {
        write_operand(row.width, row.operand, value, registers, results);
    }
}

/// CMPXCHG.
#[tactic(auto, unfolding(svm_model::specs::Instructions::BitRows::compares_and_exchanges))]
pub fn apply_compare_and_exchange(
    row: &Row,
    registers: &mut Registers,
    next_rip: u64,
    values: &[u64; 8],
    results: &mut [u64; 8],
)
    ensures { state registers.new results.new ≡ compares_and_exchanges row.now next_rip values.now (state registers.old results.old) }
{
    let expected = operand_value(row.width, ACCUMULATOR, registers, values);
    let value = operand_value(row.width, row.operand, registers, values);
    let (_, flags) = sub(row.width, expected, value, false);
    if expected == value {
        let new = operand_value(row.width, register_named(row.register), registers, values);
        write_operand(row.width, row.operand, new, registers, results);
    } else {
        write_back(row, value, registers, results);
        write_operand(row.width, ACCUMULATOR, value, registers, results);
    }
    write_flags(registers, flags);
    write_rip(registers, next_rip);
}
