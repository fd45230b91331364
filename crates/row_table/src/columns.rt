// What the table says of a form: the look-ups in its columns.
ghost use Rattle.std.specs.Prelude.{◌≡◌, ◌<◌};
ghost use Rattle.svm_model.specs.Instructions.Locking.{lock_stands, takes_lock};
ghost use Rattle.svm_model.specs.Instructions.MultiplyRows.{has_one_operand};
ghost use Rattle.svm_model.specs.Instructions.RowColumns.{ColumnsAgree};
ghost use Rattle.svm_model.specs.Instructions.RowNumbers.{form_number};
ghost use Rattle.svm_model.specs.Instructions.RowTable.{line_at, line_of, operands_of, is_rm, is_reg, is_immediate};
ghost use Rattle.svm_model.specs.Instructions.ShiftRows.{counts_by_cl};
ghost use Rattle.svm_model.specs.Instructions.Sources.{is_reversed, has_immediate, names_dx, rm_code, width_by, operand_width};
ghost use Rattle.svm_model.specs.Instructions.UserRows.{is_user_row};

use crate::table::lines;
use svm_model::{Form, LockUse, Op, OperandCode, OperandCodes, Row, RowLine, Width};

/// The number of a form, which is that of its line.
#[tactic(auto, unfolding(svm_model::specs::Instructions::RowNumbers::form_number))]
fn number(form: Form) -> usize
    ensures value { result ≡ form_number form }
    ensures bound { result < 137 }
{
    form as usize
}

/// The line of this number.
#[tactic(auto, unfolding(svm_model::specs::Instructions::RowTable::line_at))]
fn line_at(number: usize) -> RowLine
    requires { number < 137 }
    ensures { result ≡ line_at number }
{
    lines()[number]
}

/// The line of a form.
fn line_of(form: Form) -> RowLine
    ensures { result ≡ line_of form }
{
    line_at(number(form))
}

/// The operands that a form names.
fn operands_of(form: Form) -> OperandCodes
    ensures { result ≡ operands_of form }
{
    line_of(form).operands
}

/// Whether r/m names the operand, a register or memory.
fn is_rm(code: OperandCode) -> bool
    ensures { result ≡ is_rm code }
{
    matches!(
        code,
        OperandCode::Eb | OperandCode::Ew | OperandCode::Ed | OperandCode::Eq | OperandCode::Ev
    )
}

/// Whether reg names the operand, a general register.
fn is_reg(code: OperandCode) -> bool
    ensures { result ≡ is_reg code }
{
    matches!(code, OperandCode::Gb | OperandCode::Gv)
}

fn is_immediate(code: OperandCode) -> bool
    ensures { result ≡ is_immediate code }
{
    matches!(
        code,
        OperandCode::Ib | OperandCode::Ibs | OperandCode::Iw | OperandCode::Iz | OperandCode::Iv
    )
}

/// Whether the reg field names the destination, and r/m the source.
#[tactic(auto, unfolding(svm_model::specs::Instructions::Sources::is_reversed))]
pub fn is_reversed(form: Form) -> bool
    ensures { result ≡ is_reversed form }
{
    let operands = operands_of(form);
    is_reg(operands.first) && is_rm(operands.second)
}

/// Whether the source is an immediate.
#[tactic(auto, unfolding(svm_model::specs::Instructions::Sources::has_immediate))]
pub fn has_immediate(form: Form) -> bool
    ensures { result ≡ has_immediate form }
{
    let operands = operands_of(form);
    is_immediate(operands.second) || is_immediate(operands.third)
}

/// Whether the port of IN or OUT stands in DX.
#[tactic(auto, unfolding(svm_model::specs::Instructions::Sources::names_dx))]
pub fn names_dx(form: Form) -> bool
    ensures { result ≡ names_dx form }
{
    let operands = operands_of(form);
    matches!(operands.first, OperandCode::Dx) || matches!(operands.second, OperandCode::Dx)
}

/// Whether the count of a shift stands in CL.
#[tactic(auto, unfolding(svm_model::specs::Instructions::ShiftRows::counts_by_cl))]
pub fn counts_by_cl(form: Form) -> bool
    ensures { result ≡ counts_by_cl form }
{
    matches!(operands_of(form).second, OperandCode::Cl)
}

/// Whether IMUL names one operand alone.
#[tactic(auto, unfolding(svm_model::specs::Instructions::MultiplyRows::has_one_operand))]
pub fn has_one_operand(form: Form) -> bool
    ensures { result ≡ has_one_operand form }
{
    matches!(operands_of(form).second, OperandCode::Absent)
}

/// The operand that r/m names.
fn rm_code(operands: OperandCodes) -> OperandCode
    ensures { result ≡ rm_code operands }
{
    if is_rm(operands.first) {
        operands.first
    } else {
        operands.second
    }
}

/// The width that the letters of an operand say, in a row of this width.
fn width_by(code: OperandCode, width: Width) -> Width
    ensures { result ≡ width_by code width }
{
    match code {
        OperandCode::Eb => Width::W8,
        OperandCode::Ew => Width::W16,
        OperandCode::Ed => Width::W32,
        OperandCode::Eq => Width::W64,
        _ => width,
    }
}

/// The width of the operand that r/m names: that of the row, but for the sources of MOVZX, MOVSX and MOVSXD.
#[tactic(auto, unfolding(svm_model::specs::Instructions::Sources::operand_width))]
pub fn operand_width(row: &Row) -> Width
    ensures { result ≡ operand_width row.now }
{
    width_by(rm_code(operands_of(row.form)), row.width)
}

/// Whether the use of LOCK lets it stand before the instruction.
fn lock_stands(lock: LockUse, op: Op) -> bool
    ensures { result ≡ lock_stands lock op }
{
    match lock {
        LockUse::Refused => false,
        LockUse::Taken => true,
        LockUse::TakenButByCmp => op != Op::Cmp,
    }
}

/// Whether a row may have a LOCK prefix, where its destination is memory (volume 3, 'Lock Prefix').
#[tactic(auto, unfolding(svm_model::specs::Instructions::Locking::takes_lock))]
pub fn takes_lock(row: &Row) -> bool
    ensures { result ≡ takes_lock row.now }
{
    lock_stands(line_of(row.form).lock, row.op)
}

/// Whether an instruction's rows are user rows: all but those that need what is beyond the registers and memory, such as a
/// port, an event or a change of privilege or of paging. User rows come before system rows in `Op`.
#[tactic(auto, using(svm_model::proofs::RowTableLemmas::user_rows_first), unfolding(svm_model::specs::Instructions::RowNumbers::op_number))]
pub fn is_user_row(op: Op) -> bool
    ensures { result ≡ is_user_row op }
{
    (op as usize) < Op::Pause as usize
}

/// The columns of the table agree: what follows the opcode, the operand size and the immediate are those that the operands'
/// letters say, each form's line stands at its number, and an instruction's lines are all user rows or all system rows.
#[tactic(auto, using(svm_model::proofs::RowTableLemmas::columns_agree))]
pub fn columns_agree()
    ensures { ColumnsAgree }
{}
