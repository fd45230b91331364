// Rows of the stack and branches.
ghost use Rattle.std.specs.Prelude.{◌≡◌, ◌<◌, ◌≤◌, []};
ghost use Rattle.svm_model.specs.Instructions.Operands.{state};
ghost use Rattle.svm_model.specs.Instructions.Apply.{answer_of, state_after};
ghost use Rattle.svm_model.specs.Instructions.Branches.{with_rsp, pushed, popped, stack_place, operand_or, pushes, pops, leaves, branched, target_of, jumps, jumps_where, calls, returns};

use crate::conditions::condition_holds;
use register_file::{
    RBP, RSP, is_memory, operand_value, read_flags, whole_register, write_operand_at,
    write_register, write_rip,
};
use svm_model::{Applied, Operand, Registers, Row, Width};
use vm_names::{GENERAL_PROTECTION, is_canonical};

fn write_rsp(registers: &mut Registers, value: u64)
    ensures { registers.new ≡ (with_rsp value (state registers.old [])).registers }
{
    write_register(registers, Width::W64, RSP, false, value);
}

/// Pushes a quadword, by the access of this number.
fn push(place: usize, value: u64, registers: &mut Registers, results: &mut [u64; 8])
    requires { place < 8 }
    ensures registers { registers.new ≡ (pushed place value (state registers.old results.old)).registers }
    ensures results { results.new ≡ (pushed place value (state registers.old results.old)).results }
{
    write_rsp(registers, whole_register(registers, RSP).wrapping_sub(8));
    results[place] = value;
}

/// Takes a quadword and so many bytes from the stack.
fn pop(bytes: u64, registers: &mut Registers)
    ensures { registers.new ≡ (popped bytes (state registers.old [])).registers }
{
    let above = whole_register(registers, RSP).wrapping_add(8);
    write_rsp(registers, above.wrapping_add(bytes));
}

/// The number of the access that pushes: it follows the read of a memory operand.
fn stack_place(operand: Operand) -> usize
    ensures place { result ≡ stack_place operand }
    ensures bound { result ≤ 1 }
{
    usize::from(is_memory(operand))
}

/// An operand of 64 bits, or what stands in place of one that the form does not have.
fn operand_or(other: u64, operand: Operand, registers: &Registers, values: &[u64; 8]) -> u64
    ensures { result ≡ operand_or other operand registers.now values.now }
{
    match operand {
        Operand::None => other,
        Operand::Register { .. } | Operand::Memory { .. } => {
            operand_value(Width::W64, operand, registers, values)
        }
    }
}

/// PUSH.
#[tactic(auto, unfolding(svm_model::specs::Instructions::Branches::pushes))]
pub fn apply_push(
    row: &Row,
    registers: &mut Registers,
    next_rip: u64,
    values: &[u64; 8],
    results: &mut [u64; 8],
)
    ensures { state registers.new results.new ≡ pushes row.now next_rip values.now (state registers.old results.old) }
{
    let value = operand_or(row.immediate, row.operand, registers, values);
    push(stack_place(row.operand), value, registers, results);
    write_rip(registers, next_rip);
}

/// POP.
#[tactic(auto, unfolding(svm_model::specs::Instructions::Branches::pops))]
pub fn apply_pop(
    row: &Row,
    registers: &mut Registers,
    next_rip: u64,
    values: &[u64; 8],
    results: &mut [u64; 8],
)
    ensures { state registers.new results.new ≡ pops row.now next_rip values.now (state registers.old results.old) }
{
    pop(0, registers);
    write_operand_at(1, Width::W64, row.operand, values[0], registers, results);
    write_rip(registers, next_rip);
}

/// LEAVE.
#[tactic(auto, unfolding(svm_model::specs::Instructions::Branches::leaves))]
pub fn apply_leave(
    registers: &mut Registers,
    next_rip: u64,
    values: &[u64; 8],
    results: &mut [u64; 8],
)
    ensures { state registers.new results.new ≡ leaves next_rip values.now (state registers.old results.old) }
{
    write_rsp(registers, whole_register(registers, RBP));
    pop(0, registers);
    write_register(registers, Width::W64, RBP, false, values[0]);
    write_rip(registers, next_rip);
}

/// Branches, where the address is canonical.
fn branch(target: u64, registers: &mut Registers) -> Applied
    ensures answer { result ≡ answer_of (branched target (state registers.old [])) }
    ensures registers { registers.new ≡ (state_after (state registers.old []) (branched target (state registers.old []))).registers }
{
    if !is_canonical(target) {
        return Applied::Fault(GENERAL_PROTECTION);
    }
    write_rip(registers, target);
    Applied::Done
}

/// Where CALL and JMP lead.
fn target_of(row: &Row, next_rip: u64, registers: &Registers, values: &[u64; 8]) -> u64
    ensures { result ≡ target_of row.now next_rip registers.now values.now }
{
    let behind = next_rip.wrapping_add(row.immediate);
    operand_or(behind, row.operand, registers, values)
}

/// JMP.
#[tactic(auto, unfolding(svm_model::specs::Instructions::Branches::jumps))]
pub fn apply_jump(
    row: &Row,
    registers: &mut Registers,
    next_rip: u64,
    values: &[u64; 8],
    results: &mut [u64; 8],
) -> Applied
    ensures answer { result ≡ answer_of (jumps row.now next_rip values.now (state registers.old results.old)) }
    ensures state { state registers.new results.new ≡ state_after (state registers.old results.old) (jumps row.now next_rip values.now (state registers.old results.old)) }
{
    let target = target_of(row, next_rip, registers, values);
    branch(target, registers)
}

/// Jcc.
#[tactic(auto, unfolding(svm_model::specs::Instructions::Branches::jumps_where))]
pub fn apply_conditional_jump(
    row: &Row,
    registers: &mut Registers,
    next_rip: u64,
    results: &mut [u64; 8],
) -> Applied
    ensures answer { result ≡ answer_of (jumps_where row.now next_rip (state registers.old results.old)) }
    ensures state { state registers.new results.new ≡ state_after (state registers.old results.old) (jumps_where row.now next_rip (state registers.old results.old)) }
{
    if condition_holds(row.condition, read_flags(registers)) {
        return branch(next_rip.wrapping_add(row.immediate), registers);
    }
    write_rip(registers, next_rip);
    Applied::Done
}

/// CALL.
#[tactic(auto, unfolding(svm_model::specs::Instructions::Branches::calls))]
pub fn apply_call(
    row: &Row,
    registers: &mut Registers,
    next_rip: u64,
    values: &[u64; 8],
    results: &mut [u64; 8],
) -> Applied
    ensures answer { result ≡ answer_of (calls row.now next_rip values.now (state registers.old results.old)) }
    ensures state { state registers.new results.new ≡ state_after (state registers.old results.old) (calls row.now next_rip values.now (state registers.old results.old)) }
{
    let target = target_of(row, next_rip, registers, values);
    if !is_canonical(target) {
        return Applied::Fault(GENERAL_PROTECTION);
    }
    push(stack_place(row.operand), next_rip, registers, results);
    write_rip(registers, target);
    Applied::Done
}

/// RET.
#[tactic(auto, unfolding(svm_model::specs::Instructions::Branches::returns))]
pub fn apply_return(
    row: &Row,
    registers: &mut Registers,
    values: &[u64; 8],
    results: &mut [u64; 8],
) -> Applied
    ensures answer { result ≡ answer_of (returns row.now values.now (state registers.old results.old)) }
    ensures state { state registers.new results.new ≡ state_after (state registers.old results.old) (returns row.now values.now (state registers.old results.old)) }
{
    if !is_canonical(values[0]) {
        return Applied::Fault(GENERAL_PROTECTION);
    }
    pop(row.immediate, registers);
    write_rip(registers, values[0]);
    Applied::Done
}
