// What applying a row does.
ghost use Rattle.std.specs.Prelude.{◌≡◌, IsTrue};
ghost use Rattle.svm_model.specs.Instructions.Operands.{state};
ghost use Rattle.svm_model.specs.Instructions.UserRows.{is_user_row};
ghost use Rattle.svm_model.specs.Instructions.Apply.{done_op, applied_op, applied, answer_of, state_after, others_of, MovesOn};

use crate::arithmetic::{
    apply_comparison, apply_decrement, apply_difference, apply_increment, apply_logic,
    apply_negation, apply_not, apply_sum, apply_test,
};
use crate::bit_rows::{
    apply_bit_change, apply_bit_test, apply_compare_and_exchange, apply_exchange,
    apply_exchange_and_add,
};
use crate::branches::{
    apply_call, apply_conditional_jump, apply_jump, apply_leave, apply_pop, apply_push,
    apply_return,
};
use crate::flag_rows::{apply_carry, apply_complemented_carry, apply_direction, apply_nothing};
use crate::moves::{
    apply_cbw, apply_cmovcc, apply_cwd, apply_lea, apply_move, apply_movsx, apply_movzx,
    apply_setcc,
};
use crate::multiply_rows::{apply_division, apply_multiplication, apply_signed_multiplication};
use crate::shift_rows::apply_shift;
use register_file::read_flags;
use row_table::lock_is_undefined;
use svm_model::{Applied, LogicKind, Op, Registers, Row, ShiftKind};
use vm_names::INVALID_OPCODE;

/// Applies a row that never faults.
#[tactic(auto, unfolding(svm_model::specs::Instructions::Apply::done_op))]
#[rattlefmt::skip]
fn apply_done(row: &Row, registers: &mut Registers, next_rip: u64, values: &[u64; 8], results: &mut [u64; 8])
    ensures { state registers.new results.new ≡ done_op row.now.op row.now next_rip values.now (state registers.old results.old) }
{
    let carry = read_flags(registers).cf;
    match row.op {
        Op::Adc => apply_sum(carry, row, registers, next_rip, values, results),
        Op::Add => apply_sum(false, row, registers, next_rip, values, results),
        Op::And => apply_logic(LogicKind::And, row, registers, next_rip, values, results),
        Op::Bt => apply_bit_test(row, registers, next_rip, values, results),
        Op::Btc => apply_bit_change(Op::Btc, row, registers, next_rip, values, results),
        Op::Btr => apply_bit_change(Op::Btr, row, registers, next_rip, values, results),
        Op::Bts => apply_bit_change(Op::Bts, row, registers, next_rip, values, results),
        Op::Cbw => apply_cbw(row, registers, next_rip, values, results),
        Op::Cwd => apply_cwd(row, registers, next_rip, values, results),
        Op::Clc => apply_carry(false, registers, next_rip),
        Op::Cld => apply_direction(false, registers, next_rip),
        Op::Cmc => apply_complemented_carry(registers, next_rip),
        Op::Cmovcc => apply_cmovcc(row, registers, next_rip, values, results),
        Op::Cmp => apply_comparison(row, registers, next_rip, values, results),
        Op::Cmpxchg => apply_compare_and_exchange(row, registers, next_rip, values, results),
        Op::Dec => apply_decrement(row, registers, next_rip, values, results),
        Op::Imul => apply_signed_multiplication(row, registers, next_rip, values, results),
        Op::Inc => apply_increment(row, registers, next_rip, values, results),
        Op::Lea => apply_lea(row, registers, next_rip, results),
        Op::Leave => apply_leave(registers, next_rip, values, results),
        Op::Mov => apply_move(row, registers, next_rip, values, results),
        Op::Movsx | Op::Movsxd => apply_movsx(row, registers, next_rip, values, results),
        Op::Movzx => apply_movzx(row, registers, next_rip, values, results),
        Op::Mul => apply_multiplication(false, row, registers, next_rip, values, results),
        Op::Neg => apply_negation(row, registers, next_rip, values, results),
        Op::Nop | Op::Lfence | Op::Mfence | Op::Sfence => apply_nothing(registers, next_rip),
        Op::Not => apply_not(row, registers, next_rip, values, results),
        Op::Or => apply_logic(LogicKind::Or, row, registers, next_rip, values, results),
        Op::Pop => apply_pop(row, registers, next_rip, values, results),
        Op::Push => apply_push(row, registers, next_rip, values, results),
        Op::Rol => apply_shift(ShiftKind::Rol, row, registers, next_rip, values, results),
        Op::Ror => apply_shift(ShiftKind::Ror, row, registers, next_rip, values, results),
        Op::Shl => apply_shift(ShiftKind::Shl, row, registers, next_rip, values, results),
        Op::Sar => apply_shift(ShiftKind::Sar, row, registers, next_rip, values, results),
        Op::Sbb => apply_difference(carry, row, registers, next_rip, values, results),
        Op::Setcc => apply_setcc(row, registers, next_rip, results),
        Op::Shr => apply_shift(ShiftKind::Shr, row, registers, next_rip, values, results),
        Op::Stc => apply_carry(true, registers, next_rip),
        Op::Std => apply_direction(true, registers, next_rip),
        Op::Sub => apply_difference(false, row, registers, next_rip, values, results),
        Op::Test => apply_test(row, registers, next_rip, values, results),
        Op::Xadd => apply_exchange_and_add(row, registers, next_rip, values, results),
        Op::Xchg => apply_exchange(row, registers, next_rip, values, results),
        Op::Xor => apply_logic(LogicKind::Xor, row, registers, next_rip, values, results),
        _ => {}
    }
}

#[tactic(auto, unfolding(svm_model::specs::Instructions::Apply::applied_op))]
#[rattlefmt::skip]
fn apply_op(row: &Row, registers: &mut Registers, next_rip: u64, values: &[u64; 8], results: &mut [u64; 8]) -> Applied
    ensures answer { result ≡ answer_of (applied_op row.now.op row.now next_rip values.now (state registers.old results.old)) }
    ensures state { state registers.new results.new ≡ state_after (state registers.old results.old) (applied_op row.now.op row.now next_rip values.now (state registers.old results.old)) }
{
    match row.op {
        Op::Call => apply_call(row, registers, next_rip, values, results),
        Op::Div => apply_division(false, row, registers, next_rip, values, results),
        Op::Idiv => apply_division(true, row, registers, next_rip, values, results),
        Op::Jcc => apply_conditional_jump(row, registers, next_rip, results),
        Op::Jmp => apply_jump(row, registers, next_rip, values, results),
        Op::Ret => apply_return(row, registers, values, results),
        _ => {
            apply_done(row, registers, next_rip, values, results);
            Applied::Done
        }
    }
}

/// Applies a row, or refuses its LOCK prefix.
#[tactic(auto, unfolding(svm_model::specs::Instructions::Apply::applied))]
fn apply_row(
    row: &Row,
    registers: &mut Registers,
    next_rip: u64,
    values: &[u64; 8],
    results: &mut [u64; 8],
) -> Applied
    ensures unchanged { (trap : _) → result ≡ Applied.Fault trap → state registers.new results.new ≡ state registers.old results.old }
    ensures answer { result ≡ answer_of (applied row.now next_rip values.now (state registers.old results.old)) }
    ensures state { state registers.new results.new ≡ state_after (state registers.old results.old) (applied row.now next_rip values.now (state registers.old results.old)) }
{
    if lock_is_undefined(row) {
        return Applied::Fault(INVALID_OPCODE);
    }
    apply_op(row, registers, next_rip, values, results)
}

/// Does what a user row does (volume 3, 'General-Purpose Instruction Reference').
///
/// `next_rip` is the address of the next row. `values` are those that the row's planned accesses read, and `results`
/// receives those that they write, each at the access's place in the plan; of a value the low bits of its width count.
/// The answer is a fault where a LOCK prefix stands that may not (#UD), where a branch leads to an address that is not
/// canonical (#GP(0)), and where a division has no quotient that fits (#DE). A fault changes nothing.
#[tactic(auto, using(svm_model::proofs::UserRowLemmas::user_rows))]
pub fn apply(
    row: &Row,
    registers: &mut Registers,
    next_rip: u64,
    values: &[u64; 8],
    results: &mut [u64; 8],
) -> Applied
    requires { IsTrue (is_user_row row.now.op) }
    ensures answer { result ≡ answer_of (applied row.now next_rip values.now (state registers.old results.old)) }
    ensures state { state registers.new results.new ≡ state_after (state registers.old results.old) (applied row.now next_rip values.now (state registers.old results.old)) }

    // A fault changes nothing, and a row nothing but general registers, RIP and RFLAGS.
    ensures unchanged { (trap : _) → result ≡ Applied.Fault trap → state registers.new results.new ≡ state registers.old results.old }
    ensures others { others_of registers.new ≡ others_of registers.old }
    // A row that is done leads on: to the next row, or to its branch's target.
    ensures moves_on { result ≡ Applied.Done → MovesOn row.now next_rip values.now registers.old registers.new }
{
    apply_row(row, registers, next_rip, values, results)
}
