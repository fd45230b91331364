// The destination and the source of a row with two operands, by its form.
ghost use Rattle.std.specs.Prelude.{◌≡◌, ◌^◌, ◌<◌};
ghost use Rattle.svm_model.specs.Instructions.Widths.{bits};
ghost use Rattle.svm_model.specs.Instructions.Sources.{is_reversed, has_immediate, source_operand, destination_value, source_value};

use register_file::{cut, operand_value, register_named};
use row_table::{destination, has_immediate, is_reversed};
use svm_model::{Operand, Registers, Row};

/// The operand that is the source, where it is no immediate.
fn source_operand(row: &Row) -> Operand
    ensures { result ≡ source_operand row.now }
{
    if is_reversed(row.form) {
        row.operand
    } else {
        register_named(row.register)
    }
}

/// The value of the operand that is changed, or of the first of those that are compared.
pub fn destination_value(row: &Row, registers: &Registers, values: &[u64; 8]) -> u64
    ensures value { result ≡ destination_value row.now registers.now values.now }
    ensures fits { result < 2 ^ bits row.now.width }
{
    operand_value(row.width, destination(row), registers, values)
}

pub fn source_value(row: &Row, registers: &Registers, values: &[u64; 8]) -> u64
    ensures value { result ≡ source_value row.now registers.now values.now }
    ensures fits { result < 2 ^ bits row.now.width }
{
    if has_immediate(row.form) {
        cut(row.width, row.immediate)
    } else {
        operand_value(row.width, source_operand(row), registers, values)
    }
}
