// What a system row does (volume 3, 'System Instruction Reference').
ghost use Rattle.std.specs.Prelude.{◌≡◌, IfOk, OnErr};
ghost use Rattle.svm_model.specs.Instructions.Operands.{state};
ghost use Rattle.svm_model.specs.Instructions.SystemRows.{system, system_op};
ghost use Rattle.svm_model.specs.Instructions.SystemState.{Fits, systemic};
ghost use Rattle.row_system.specs.Moving.{MovesOn};

use crate::control_registers::move_control;
use crate::cpuid::identify;
use crate::debug_registers::move_debug;
use crate::flags::{clear_interrupts, pop_flags, push_flags, set_interrupts};
use crate::guards::refusal;
use crate::msrs::{read_named, read_time, write_named};
use crate::ports::{read_port, write_port};
use crate::registers::step_over;
use crate::tables::{drop_page, load_table, swap_gs};
use row_table::lock_is_undefined;
use svm_model::{Facts, Op, Outside, Registers, Row, Trap};
use vm_names::INVALID_OPCODE;

/// What a row does that is not refused.
#[tactic(auto, unfolding(svm_model::specs::Instructions::SystemRows::system_op))]
#[rattlefmt::skip]
fn execute(row: &Row, registers: &mut Registers, next_rip: u64, values: &[u64; 8], results: &mut [u64; 8], facts: &Facts) -> Result<Outside, Trap>
    ensures result { system_op row.now.op row.now next_rip values.now facts.now (state registers.old results.old) ≡ systemic result registers.new results.new }
    ensures fits { IfOk result Fits }
    ensures kept { OnErr result ((registers.new ≡ registers.old) × (results.new ≡ results.old)) }
    ensures moves_on { IfOk result (MovesOn next_rip registers.new) }
{
    match row.op {
        Op::Pause => {
            step_over(registers, next_rip);
            Ok(Outside::None)
        }
        Op::Hlt => {
            step_over(registers, next_rip);
            Ok(Outside::Halt)
        }
        Op::Cli => Ok(clear_interrupts(registers, next_rip)),
        Op::Sti => Ok(set_interrupts(registers, next_rip)),
        Op::Pushfq => {
            push_flags(registers, next_rip, results);
            Ok(Outside::None)
        }
        Op::Popfq => Ok(pop_flags(registers, next_rip, values)),
        Op::Int3 => Ok(Outside::Interrupt { vector: 3, software: false }),
        Op::Int => Ok(Outside::Interrupt { vector: (row.immediate % 0x100) as u8, software: true }),
        Op::Iretq => Ok(Outside::Return),
        Op::In => Ok(read_port(row, registers, next_rip)),
        Op::Out => Ok(write_port(row, registers, next_rip)),
        Op::MovCr => Ok(move_control(row, registers, next_rip, results, facts)),
        Op::MovDr => Ok(move_debug(row, registers, next_rip, results)),
        Op::Rdmsr => read_named(registers, next_rip, facts),
        Op::Wrmsr => write_named(registers, next_rip, facts),
        Op::Cpuid => {
            identify(registers, next_rip, facts);
            Ok(Outside::None)
        }
        Op::Rdtsc => {
            read_time(registers, next_rip, facts);
            Ok(Outside::None)
        }
        Op::Lgdt => load_table(Op::Lgdt, registers, next_rip, values),
        Op::Lidt => load_table(Op::Lidt, registers, next_rip, values),
        Op::Invlpg => Ok(drop_page(row, registers, next_rip)),
        Op::Swapgs => {
            swap_gs(registers);
            step_over(registers, next_rip);
            Ok(Outside::None)
        }
        Op::Vmrun | Op::Vmload | Op::Vmsave | Op::Stgi | Op::Clgi | Op::Invlpga => Ok(Outside::Svm),
        _ => Err(INVALID_OPCODE),
    }
}

/// What a system row does to the registers, and what it asks for beyond them.
///
/// `next_rip` is the address of the next row. `values` are those that the row's planned accesses read, and `results`
/// receives those that they are to write, each at the access's place in the plan. `facts` are what the turn knows beside
/// its vcpu. The answer is a fault where one comes before the row's intercept (`refusal`), where a LOCK prefix stands
/// (#UD), where a row is UD2, VMMCALL or no system row (#UD), where an MSR is not offered or refuses what is written to
/// it (#GP(0)), and where the base of a table is not canonical (#GP(0)). A fault changes nothing.
#[tactic(auto, unfolding(svm_model::specs::Instructions::SystemRows::system))]
pub fn system(
    row: &Row,
    registers: &mut Registers,
    next_rip: u64,
    values: &[u64; 8],
    results: &mut [u64; 8],
    facts: &Facts,
) -> Result<Outside, Trap>
    ensures result { system row.now next_rip values.now facts.now (state registers.old results.old) ≡ systemic result registers.new results.new }
    ensures fits { IfOk result Fits }
    ensures kept { OnErr result ((registers.new ≡ registers.old) × (results.new ≡ results.old)) }
    // A row that is done leads to the next one, but for interrupts, returns, rows of SVM and ends.
    ensures moves_on { IfOk result (MovesOn next_rip registers.new) }
{
    if let Some(trap) = refusal(row, registers) {
        return Err(trap);
    }
    if lock_is_undefined(row) {
        return Err(INVALID_OPCODE);
    }
    execute(row, registers, next_rip, values, results, facts)
}
