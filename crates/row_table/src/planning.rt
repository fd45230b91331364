// Where a row reads and writes.
ghost use Rattle.std.specs.Prelude.{◌≡◌, ◌≤◌, ◌++◌, ◌+◌, IfSome, [], ◌∷◌, length};
ghost use Rattle.std.specs.List.{All};
ghost use Rattle.svm_model.specs.Instructions.Branches.{popped};
ghost use Rattle.svm_model.specs.Instructions.Operands.{state};
ghost use Rattle.svm_model.specs.Instructions.Sources.{is_reversed, operand_width};
ghost use Rattle.svm_model.specs.Instructions.Planning.{IsQuadAtMost, touch_of, operand_touch, operand_bytes, is_lgdt_or_lidt, memory_accesses, operand_accesses, push_access, pop_access, stack_access, planned};

use crate::columns::{is_reversed, operand_width};
use arrayvec::ArrayVec;
use register_file::{RBP, RSP, is_memory, is_on_stack, linear_address, whole_register};
use svm_model::{Op, PlannedAccess, Registers, Row, Touch, Width};

/// What an instruction does to its memory operand, in the manual's order.
#[tactic(auto, unfolding(svm_model::specs::Instructions::Planning::touch_of))]
#[inline(always)]
fn touch_of(op: Op) -> Option<Touch>
    ensures { result ≡ touch_of op }
{
    match op {
        Op::Adc | Op::Add | Op::And => Some(Touch::Update),
        Op::Bt => Some(Touch::Read),
        Op::Btc | Op::Btr | Op::Bts => Some(Touch::Update),
        Op::Call | Op::Cmovcc | Op::Cmp => Some(Touch::Read),
        Op::Cmpxchg | Op::Dec => Some(Touch::Update),
        Op::Div | Op::Idiv | Op::Imul => Some(Touch::Read),
        Op::Inc => Some(Touch::Update),
        Op::Jmp => Some(Touch::Read),
        Op::Mov => Some(Touch::Write),
        Op::Movsx | Op::Movsxd | Op::Movzx | Op::Mul => Some(Touch::Read),
        Op::Neg | Op::Not | Op::Or => Some(Touch::Update),
        Op::Pop => Some(Touch::Write),
        Op::Push => Some(Touch::Read),
        Op::Rol | Op::Ror | Op::Sar | Op::Sbb => Some(Touch::Update),
        Op::Setcc => Some(Touch::Write),
        Op::Shl | Op::Shr | Op::Sub => Some(Touch::Update),
        Op::Test => Some(Touch::Read),
        Op::Xadd | Op::Xchg | Op::Xor => Some(Touch::Update),
        _ => None,
    }
}

/// What a row does to its memory operand.
#[inline(always)]
pub fn operand_touch(row: &Row) -> Option<Touch>
    ensures { result ≡ operand_touch row.now }
{
    if is_reversed(row.form) {
        Some(Touch::Read)
    } else {
        touch_of(row.op)
    }
}

/// How many bytes an operand in memory has.
#[inline(always)]
fn operand_bytes(row: &Row) -> u8
    ensures value { result ≡ operand_bytes row.now }
    ensures some { 1 ≤ result }
    ensures quad { result ≤ 8 }
{
    match operand_width(row) {
        Width::W8 => 1,
        Width::W16 => 2,
        Width::W32 => 4,
        Width::W64 => 8,
    }
}

/// Whether the row loads the register of a descriptor table.
#[tactic(auto, unfolding(svm_model::specs::Instructions::Planning::is_lgdt_or_lidt))]
fn is_lgdt_or_lidt(op: Op) -> bool
    ensures { result ≡ is_lgdt_or_lidt op }
{
    matches!(op, Op::Lgdt | Op::Lidt)
}

/// Adds the accesses to the memory at an operand's address.
#[inline(always)]
fn plan_memory(row: &Row, address: u64, stack: bool, accesses: &mut ArrayVec<PlannedAccess, 8>)
    requires room { length accesses.now.items ≤ 1 }
    requires lengths { All IsQuadAtMost accesses.now.items }
    ensures lengths { All IsQuadAtMost accesses.new.items }
    ensures few { length accesses.new.items ≤ length accesses.old.items + 2 }
    ensures value { accesses.new.items ≡ accesses.old.items ++ memory_accesses row.now address stack }
{
    if is_lgdt_or_lidt(row.op) {
        accesses.push(PlannedAccess {
            address,
            length: 2,
            touch: Touch::Read,
            stack,
        });
        accesses.push(PlannedAccess {
            address: address.wrapping_add(2),
            length: 8,
            touch: Touch::Read,
            stack,
        });
        return;
    }
    if let Some(touch) = operand_touch(row) {
        accesses.push(PlannedAccess {
            address,
            length: operand_bytes(row),
            touch,
            stack,
        });
    }
}

/// Adds the accesses to the operand.
#[tactic(auto, unfolding(svm_model::specs::Instructions::Planning::operand_accesses))]
#[inline(always)]
fn plan_operand(
    row: &Row,
    registers: &Registers,
    next_rip: u64,
    accesses: &mut ArrayVec<PlannedAccess, 8>,
)
    requires room { length accesses.now.items ≤ 1 }
    requires lengths { All IsQuadAtMost accesses.now.items }
    ensures lengths { All IsQuadAtMost accesses.new.items }
    ensures few { length accesses.new.items ≤ length accesses.old.items + 2 }
    ensures value { accesses.new.items ≡ accesses.old.items ++ operand_accesses row.now registers.now next_rip }
{
    if is_memory(row.operand) {
        let address = linear_address(row.operand, registers, next_rip);
        plan_memory(row, address, is_on_stack(row.operand), accesses);
    }
}

/// A quadword is pushed below RSP.
fn push_access(registers: &Registers) -> PlannedAccess
    ensures value { result ≡ push_access registers.now }
    ensures lengths { IsQuadAtMost result }
{
    PlannedAccess {
        address: whole_register(registers, RSP).wrapping_sub(8),
        length: 8,
        touch: Touch::Write,
        stack: true,
    }
}

/// A quadword is popped from here.
fn pop_access(address: u64) -> PlannedAccess
    ensures value { result ≡ pop_access address }
    ensures lengths { IsQuadAtMost result }
{
    PlannedAccess {
        address,
        length: 8,
        touch: Touch::Read,
        stack: true,
    }
}

/// What an instruction pushes or pops.
#[tactic(auto, unfolding(svm_model::specs::Instructions::Planning::stack_access))]
#[inline(always)]
fn stack_access(op: Op, registers: &Registers) -> Option<PlannedAccess>
    ensures value { result ≡ stack_access op registers.now }
    ensures lengths { IfSome result IsQuadAtMost }
{
    match op {
        Op::Call | Op::Push | Op::Pushfq => Some(push_access(registers)),
        Op::Leave => Some(pop_access(whole_register(registers, RBP))),
        Op::Pop | Op::Popfq | Op::Ret => Some(pop_access(whole_register(registers, RSP))),
        _ => None,
    }
}

/// The registers with RSP as a pop leaves it.
fn after_pop(registers: &Registers) -> Registers
    ensures { result ≡ (popped 0 (state registers.now [])).registers }
{
    let mut after = *registers;
    after.general[RSP as usize] = whole_register(registers, RSP).wrapping_add(8);
    after
}

/// The data accesses of a row, in the order in which the instruction makes them (volume 3, the instruction's entry).
///
/// `next_rip` is the address of the next instruction, and the registers are those before the row. Addresses are linear:
/// the base of FS or GS is in them, they wrap at 64 bits, and they need not be canonical. Lengths are 1 to 8 bytes. An
/// operand in memory is one access, that of LGDT and LIDT two. A push comes after its operand's read, and POP writes its
/// operand after its read of the stack. A register operand, LEA, NOP and INVLPG access no memory; what the delivery of
/// an event, IRETQ and the instructions of SVM access is not planned. Nothing is refused: also a row whose LOCK prefix
/// makes it undefined has its accesses.
#[tactic(auto, unfolding(svm_model::specs::Instructions::Planning::planned))]
#[inline(always)]
pub fn plan(row: &Row, registers: &Registers, next_rip: u64) -> ArrayVec<PlannedAccess, 8>
    ensures exact { result.items ≡ planned row.now registers.now next_rip }
    ensures lengths { All IsQuadAtMost result.items }
    ensures few { length result.items ≤ 3 }
{
    let mut accesses = ArrayVec::new();
    match stack_access(row.op, registers) {
        None => plan_operand(row, registers, next_rip, &mut accesses),
        Some(stack) if stack.touch == Touch::Read => {
            accesses.push(stack);
            plan_operand(row, &after_pop(registers), next_rip, &mut accesses);
        }
        Some(stack) => {
            plan_operand(row, registers, next_rip, &mut accesses);
            accesses.push(stack);
        }
    }
    accesses
}

/// The one access of a row that has its operand in memory and touches it alone, or none: then `plan` tells. It is what most
/// rows with accesses do.
#[inline(always)]
#[tactic(auto, unfolding(svm_model::specs::Instructions::Planning::planned, svm_model::specs::Instructions::Planning::operand_accesses))]
pub fn single_access(row: &Row, registers: &Registers, next_rip: u64) -> Option<PlannedAccess>
    ensures exact { IfSome result (λ access. planned row.now registers.now next_rip ≡ access ∷ []) }
    ensures length { IfSome result IsQuadAtMost }
{
    if stack_access(row.op, registers).is_some() || is_lgdt_or_lidt(row.op) {
        return None;
    }
    if !is_memory(row.operand) {
        return None;
    }
    match operand_touch(row) {
        None => None,
        Some(touch) => Some(PlannedAccess {
            address: linear_address(row.operand, registers, next_rip),
            length: operand_bytes(row),
            touch,
            stack: is_on_stack(row.operand),
        }),
    }
}
