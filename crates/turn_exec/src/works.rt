// What a turn does: the first work that is due, and the events that are taken.
ghost use Rattle.std.specs.Option.{option_copied};
ghost use Rattle.std.specs.Prelude.{◌≡◌, ℕ, ◌+◌, ◌<◌, ◌≤◌, Bool, false, None, Option};
ghost use Rattle.svm_model.specs.Turn.Control.{with_live_irq};
ghost use Rattle.svm_model.specs.Turn.Course.{Course};
ghost use Rattle.svm_model.specs.Turn.Faults.{came as came_to, finished as finished_course, Came as CameRecord};
ghost use Rattle.svm_model.specs.Turn.Instruction.{instruction as instruction_course};
ghost use Rattle.svm_model.specs.Turn.Work.{course_of, done as done_course, inject as inject_course, take_interrupt as interrupt_course, take_nmi as nmi_course, take_virtual as virtual_course, taken_by, turn_course};
ghost use Rattle.svm_model.specs.declared.vcpus.Inside.{Inside as InsideRecord};
ghost use Rattle.turn_exec.specs.Goes.{Goes};
ghost use Rattle.svm_model.specs.Svm.Intercepts.{bare_exit as exit_of_code};

use crate::control::{Control, asks, turn_by, virtual_vector};
use crate::faults::{deliver_event, stopped};
use crate::fetch::instruction;
use crate::reach::Reach;
use row_table::KeptRows;
use svm_model::{Cause, Exit, Facts, Field, Inside, Stepped, Trap, Vcpu, Work};
use svm_switch::next_work;

fn event(vector: u8, cause: Cause) -> Trap
    ensures { result ≡ record { vector = vector; code = None; address = None; cause = cause } }
{
    Trap {
        vector,
        code: None,
        address: None,
        cause,
    }
}

/// Delivers an event from the registers as they stand.
fn deliver_now<M: Reach>(
    reach: &mut M,
    control: Option<&Control>,
    vcpu: &mut Vcpu,
    trap: &Trap,
) -> Stepped
    requires room { M.spent reach.old ≤ 64 }
    ensures goes { (next : CameRecord → Course) → Goes M.plays reach.old (taken_by (option_copied control.entry) vcpu.old trap.now next) reach.new (next (came_to vcpu.new result)) }
    ensures spent { M.spent reach.new ≤ M.spent reach.old + 176 }
{
    let from = vcpu.registers;
    deliver_event(reach, control, vcpu, &from, trap, 4)
}

/// Delivers the injection that is held, which is gone.
#[inline(never)]
fn inject<M: Reach>(
    reach: &mut M,
    control: Option<&Control>,
    vcpu: &mut Vcpu,
    stepped: &mut Stepped,
)
    requires went { stepped.old ≡ Stepped.Went }
    requires room { M.spent reach.old ≤ 64 }
    ensures goes { (next : CameRecord → Course) → Goes M.plays reach.old (inject_course (option_copied control.entry) vcpu.old vcpu.old.held next) reach.new (next (came_to vcpu.new stepped.new)) }
    ensures spent { M.spent reach.new ≤ M.spent reach.old + 176 }
{
    if let Some(trap) = vcpu.held {
        vcpu.held = None;
        *stepped = deliver_now(reach, control, vcpu, &trap);
    }
}

/// An exit that tells nothing but its code.
fn left_by(code: u64) -> Stepped
    ensures { result ≡ Stepped.Leaves (exit_of_code code) None }
{
    Stepped::Leaves {
        exit: Exit {
            code,
            info1: 0,
            info2: 0,
            next_rip: 0,
        },
        delivering: None,
    }
}

/// Takes the pending NMI, unless it is intercepted, exit 61h.
#[inline(never)]
fn take_nmi<M: Reach>(
    reach: &mut M,
    control: Option<&Control>,
    vcpu: &mut Vcpu,
    stepped: &mut Stepped,
)
    requires went { stepped.old ≡ Stepped.Went }
    requires room { M.spent reach.old ≤ 64 }
    ensures goes { (next : CameRecord → Course) → Goes M.plays reach.old (nmi_course (option_copied control.entry) vcpu.old next) reach.new (next (came_to vcpu.new stepped.new)) }
    ensures spent { M.spent reach.new ≤ M.spent reach.old + 176 }
{
    if asks(control, Field::InterceptWordC, 1) {
        *stepped = left_by(0x61);
        return;
    }
    vcpu.nmi = false;
    *stepped = deliver_now(reach, control, vcpu, &event(2, Cause::Nmi));
}

/// Takes the interrupt that the APIC gives, unless it is intercepted, exit 60h.
#[inline(never)]
fn take_interrupt<M: Reach>(
    reach: &mut M,
    control: Option<&Control>,
    vcpu: &mut Vcpu,
    interrupt: Option<u8>,
    stepped: &mut Stepped,
)
    requires went { stepped.old ≡ Stepped.Went }
    requires room { M.spent reach.old ≤ 64 }
    ensures goes { (next : CameRecord → Course) → Goes M.plays reach.old (interrupt_course (option_copied control.entry) vcpu.old interrupt next) reach.new (next (came_to vcpu.new stepped.new)) }
    ensures spent { M.spent reach.new ≤ M.spent reach.old + 176 }
{
    let Some(vector) = interrupt else {
        return;
    };
    if asks(control, Field::InterceptWordC, 0) {
        *stepped = left_by(0x60);
        return;
    }
    reach.take();
    *stepped = deliver_now(reach, control, vcpu, &event(vector, Cause::External));
}

/// What a vcpu in a VMCB has, without a virtual interrupt.
fn without_irq(inside: Option<Inside>) -> Option<Inside>
    ensures { result ≡ with_live_irq false inside }
{
    match inside {
        None => None,
        Some(inside) => Some(Inside {
            v_irq: false,
            ..inside
        }),
    }
}

/// Takes the virtual interrupt, unless it is intercepted, exit 64h.
#[inline(never)]
fn take_virtual<M: Reach>(
    reach: &mut M,
    control: Option<&Control>,
    vcpu: &mut Vcpu,
    stepped: &mut Stepped,
)
    requires went { stepped.old ≡ Stepped.Went }
    requires room { M.spent reach.old ≤ 64 }
    ensures goes { (next : CameRecord → Course) → Goes M.plays reach.old (virtual_course (option_copied control.entry) vcpu.old next) reach.new (next (came_to vcpu.new stepped.new)) }
    ensures spent { M.spent reach.new ≤ M.spent reach.old + 176 }
{
    if asks(control, Field::InterceptWordC, 4) {
        *stepped = left_by(0x64);
        return;
    }
    vcpu.inside = without_irq(vcpu.inside);
    let trap = event(virtual_vector(control), Cause::External);
    *stepped = deliver_now(reach, control, vcpu, &trap);
}

/// The instruction at RIP, with what it faults with delivered. How it came out is in `stepped`, unless it went through.
#[inline(always)]
fn execute<M: Reach>(
    reach: &mut M,
    control: Option<&Control>,
    rows: &mut KeptRows,
    facts: &Facts,
    vcpu: &mut Vcpu,
    stepped: &mut Stepped,
)
    requires went { stepped.old ≡ Stepped.Went }
    requires room { M.spent reach.old ≤ 0 }
    requires few { M.parts reach.old < 17 }
    ensures goes { (next : CameRecord → Course) → Goes M.plays reach.old (instruction_course (option_copied control.entry) facts.now vcpu.old (finished_course (option_copied control.entry) vcpu.old next)) reach.new (next (came_to vcpu.new stepped.new)) }
    ensures spent { M.spent reach.new ≤ M.spent reach.old + 225 }
{
    let mut otherwise = Ok(Stepped::Went);
    if instruction(reach, control, rows, facts, vcpu, &mut otherwise) {
        return;
    }
    match otherwise {
        Ok(came) => *stepped = came,
        Err(stop) => *stepped = stopped(reach, control, vcpu, stop),
    }
}

/// The turn of a vcpu: the first work that is due, where its APIC gives this vector. How it came out is in `stepped`, unless
/// it went through: an answer of such a size would be filled and copied in every event.
///
/// At most 225 calls may cost reads: 4 in the fetch of an instruction (two translations and two reads), one at a permission
/// map, 12 in three accesses of two parts each, 32 in a return from a handler, and 176 in four deliveries, of which each has ten accesses of two parts
/// and some reads, 44.
#[inline(always)]
#[tactic(auto, unfolding(svm_model::specs::Turn::Work::course_of))]
pub fn turn<M: Reach>(
    reach: &mut M,
    control: Option<&Control>,
    rows: &mut KeptRows,
    facts: &Facts,
    vcpu: &mut Vcpu,
    interrupt: Option<u8>,
    stepped: &mut Stepped,
)
    requires went { stepped.old ≡ Stepped.Went }
    requires room { M.spent reach.old ≤ 0 }
    requires few { M.parts reach.old < 17 }
    ensures goes { Goes M.plays reach.old (turn_course (option_copied control.entry) facts.now vcpu.old interrupt) reach.new (done_course (came_to vcpu.new stepped.new)) }
    ensures spent { M.spent reach.new ≤ M.spent reach.old + 225 }
{
    match next_work(&turn_by(control, vcpu, interrupt)) {
        Work::Inject => inject(reach, control, vcpu, stepped),
        Work::Nmi => take_nmi(reach, control, vcpu, stepped),
        Work::Interrupt => take_interrupt(reach, control, vcpu, interrupt, stepped),
        Work::Virtual => take_virtual(reach, control, vcpu, stepped),
        Work::Nothing => {}
        Work::Instruction => execute(reach, control, rows, facts, vcpu, stepped),
    }
}
