// The intercept of a system row in L2.
ghost use Rattle.std.specs.Option.{option_copied};
ghost use Rattle.std.specs.Prelude.{◌≡◌, ◌+◌, ◌≤◌, None, Option, Result, Some};
ghost use Rattle.svm_model.specs.Svm.Intercepts.{msr_place};
ghost use Rattle.svm_model.specs.Turn.Course.{Course};
ghost use Rattle.svm_model.specs.Turn.Faults.{Came as CameRecord};
ghost use Rattle.svm_model.specs.Turn.SystemCourses.{at_msr, is_input as input_test, is_msr_write as msr_write_test, unless_intercepted, unless_map, unless_msrs, unless_ports};
ghost use Rattle.svm_model.specs.declared.turns.Stop.{Stop as StopRecord};
ghost use Rattle.turn_exec.specs.Doing.{doing};
ghost use Rattle.turn_exec.specs.Goes.{Goes};
ghost use Rattle.turn_exec.specs.Intercepted.{unless_found};

use crate::control::Control;
use crate::instructions::Instruction;
use crate::reach::Reach;
use exit_rules::{by_row, has_msr, has_port, msr_bit, msr_byte, msr_exit, port_exit, ports_bytes};
use register_file::whole_register;
use row_system::{port_bytes, port_of};
use svm_model::{End, Exit, Field, Op, Stop, Vcpu};
use vmcb_layout::Fields;

fn is_input(op: Op) -> bool
    ensures { result ≡ input_test op }
{
    matches!(op, Op::In)
}

fn is_msr_write(op: Op) -> bool
    ensures { result ≡ msr_write_test op }
{
    matches!(op, Op::Wrmsr)
}

/// The exit of IN or OUT, where the permission map has a bit set for one of its ports.
fn port_intercept<M: Reach>(
    reach: &mut M,
    control: Option<&Control>,
    vcpu: &Vcpu,
    instruction: &Instruction,
    fields: &Fields,
) -> Result<Option<Exit>, Stop>
    requires room { M.spent reach.old ≤ 4 }
    ensures goes { (next : Result CameRecord StopRecord → Course) (rest : Course) → Goes M.plays reach.old (unless_ports (doing (option_copied control.entry) vcpu.now instruction.now) fields.now next rest) reach.new (unless_found result vcpu.now next rest) }
    ensures spent { M.spent reach.new ≤ M.spent reach.old + 1 }
    ensures parts { M.parts reach.new ≤ M.parts reach.old }
{
    let _ = control;
    if !fields.has_bit(Field::InterceptWordC, 27) {
        return Ok(None);
    }
    let row = instruction.row;
    let port = port_of(row, &vcpu.registers);
    let width = port_bytes(row.width);
    let touched = ports_bytes(fields, port, width);
    match reach.look(touched.address, touched.count) {
        Ok(bytes) => {
            if has_port(&bytes, port, width) {
                let reads = is_input(row.op);
                Ok(Some(port_exit(reads, port, width, instruction.next_rip)))
            } else {
                Ok(None)
            }
        }
        Err(outside) => Err(Stop::Ended(End::OutsideMemory {
            address: outside.address,
        })),
    }
}

/// The exit of RDMSR or WRMSR, where the permission map has its bit set or the MSR is outside the map.
fn msr_intercept<M: Reach>(
    reach: &mut M,
    control: Option<&Control>,
    vcpu: &Vcpu,
    instruction: &Instruction,
    fields: &Fields,
) -> Result<Option<Exit>, Stop>
    requires room { M.spent reach.old ≤ 4 }
    ensures goes { (next : Result CameRecord StopRecord → Course) (rest : Course) → Goes M.plays reach.old (unless_msrs (doing (option_copied control.entry) vcpu.now instruction.now) fields.now next rest) reach.new (unless_found result vcpu.now next rest) }
    ensures spent { M.spent reach.new ≤ M.spent reach.old + 1 }
    ensures parts { M.parts reach.new ≤ M.parts reach.old }
{
    let _ = control;
    if !fields.has_bit(Field::InterceptWordC, 28) {
        return Ok(None);
    }
    let writes = is_msr_write(instruction.row.op);
    let msr = (whole_register(&vcpu.registers, 1) % 0x1_0000_0000) as u32;
    let Some(bit) = msr_bit(msr, writes) else {
        return Ok(Some(msr_exit(writes, instruction.next_rip)));
    };
    match reach.look(msr_byte(fields, bit), 1) {
        Ok(bytes) => {
            if has_msr(bytes[0], bit) {
                Ok(Some(msr_exit(writes, instruction.next_rip)))
            } else {
                Ok(None)
            }
        }
        Err(outside) => Err(Stop::Ended(End::OutsideMemory {
            address: outside.address,
        })),
    }
}

/// The exit of a system row by the intercepts of the VMCB in use, those of the permission maps among them; none in L1. A byte of
/// a map outside the guest's memory ends the guest (volume 2, 'Instruction Intercepts', 'IOIO Intercepts', 'MSR Intercepts').
#[tactic(auto, unfolding(svm_model::specs::Instructions::Guards::guard_of))]
pub fn intercept<M: Reach>(
    reach: &mut M,
    control: Option<&Control>,
    vcpu: &Vcpu,
    instruction: &Instruction,
) -> Result<Option<Exit>, Stop>
    requires room { M.spent reach.old ≤ 4 }
    ensures goes { (next : Result CameRecord StopRecord → Course) (rest : Course) → Goes M.plays reach.old (unless_intercepted (option_copied control.entry) (doing (option_copied control.entry) vcpu.now instruction.now) next rest) reach.new (unless_found result vcpu.now next rest) }
    ensures spent { M.spent reach.new ≤ M.spent reach.old + 1 }
    ensures parts { M.parts reach.new ≤ M.parts reach.old }
{
    let Some(under) = control else {
        return Ok(None);
    };
    let fields = &under.fields;
    if let Some(exit) = by_row(fields, instruction.row, instruction.next_rip) {
        return Ok(Some(exit));
    }
    match instruction.row.op {
        Op::In | Op::Out => port_intercept(reach, control, vcpu, instruction, fields),
        Op::Rdmsr | Op::Wrmsr => msr_intercept(reach, control, vcpu, instruction, fields),
        _ => Ok(None),
    }
}
