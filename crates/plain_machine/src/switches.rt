// Rows that move a VMCB, on the plain machine: VMRUN, VMLOAD and VMSAVE read and write it in the guest's memory.
ghost use Rattle.std.specs.Prelude.{◌≡◌, ℕ, ◌+◌, ◌≤◌, List, None, length, slice_index};
ghost use Rattle.svm_model.specs.Machine.MovedVmcbs.{behind_flush, entered_turn, exited_at_once, flush_of as flush_by, moved_by, offered_to_l1, on_broken, on_mode, vmload as loaded_turn, vmrun as vmrun_turn, vmsave as saved_turn};
ghost use Rattle.svm_model.specs.Machine.Notices.{over};
ghost use Rattle.svm_model.specs.Memory.Bytes.{IsWithin, SameOutside, guest_of};
ghost use Rattle.svm_model.specs.Svm.Vmcb.{fields_at, fields_in, value as value_in, v_tpr as tpr_of, v_irq as irq_of, v_gif as gif_of};
ghost use Rattle.svm_model.specs.Svm.VmcbRules.{broken, injection_of, unoffered_mode as mode_of};
ghost use Rattle.svm_model.specs.Svm.VmloadVmsave.{moved_at};
ghost use Rattle.svm_model.specs.Svm.Vmrun.{entered, held_by as held_of, inside_of};
ghost use Rattle.svm_model.specs.Turn.Course.{Board, Told};
ghost use Rattle.svm_model.specs.declared.turns.Space.{Space as SpaceRecord};
ghost use Rattle.svm_model.specs.declared.turns.Stepped.{Stepped as SteppedRecord};
ghost use Rattle.turn_exec.specs.Plays.{IsCause};
ghost use Rattle.turn_exec.specs.declared.guest_turn.Outward.{Outward as OutwardRecord};
ghost use Rattle.plain_machine.specs.Turning.{heard_board, way_by, Adds, Gives, IsGoing, Later};

use crate::walking::leave;
use crate::watching::Walking;
use host_memory::{GuestWindow, HostMemory, Steps};
use std::sync::ledger::Ledger;
use svm_model::{
    Checked, End, Facts, Field, Flush, Injection, Inside, Kept, Offered, Op, Stepped, Trap, Vcpu,
};
use svm_switch::{EXIT_FIELDS, enter, refuse_in_memory, store_refusal, vmload, vmsave};
use turn_exec::Outward;
use vmcb_checks::{check, read_injection, unoffered_mode};
use vmcb_layout::{Fields, read_fields};
use watch::Watch;

/// The event that a legal EVENTINJ holds for the next turn.
fn held_by(injection: Injection) -> Option<Trap>
    ensures { result ≡ held_of injection }
{
    match injection {
        Injection::Event(trap) => Some(trap),
        Injection::None | Injection::Illegal => None,
    }
}

/// What a vcpu in a VMCB has: what VMRUN kept, and V_TPR, V_IRQ and V_GIF.
fn inside_with(kept: Kept, fields: &Fields) -> Inside
    ensures { result ≡ record { kept = kept; v_tpr = tpr_of fields.now; v_irq = irq_of fields.now; v_gif = gif_of fields.now } }
{
    Inside {
        kept,
        v_tpr: (fields.value(Field::VirtualInterrupt) % 0x100) as u8,
        v_irq: fields.has_bit(Field::VirtualInterrupt, 8),
        v_gif: fields.has_bit(Field::VirtualInterrupt, 9),
    }
}

/// A legal VMRUN loads the guest's state, sets GIF, and holds an injection for the next turn (volume 2, 'VMRUN Instruction').
#[tactic(auto, unfolding(svm_model::specs::Svm::Vmrun::entered))]
fn enter_guest(vcpu: &mut Vcpu, fields: &Fields, vmcb: u64, next_rip: u64)
    ensures { vcpu.new ≡ entered fields.now vmcb next_rip vcpu.old }
{
    let kept = enter(&mut vcpu.registers, fields, vmcb, next_rip);
    vcpu.gif = true;
    vcpu.held = held_by(read_injection(fields.value(Field::EventInj)));
    vcpu.inside = Some(inside_with(kept, fields));
}

/// The translations that TLB_CONTROL drops (volume 2, 'TLB Flush').
fn flush_of(control: u8, asid: u32) -> Option<Flush>
    ensures { result ≡ flush_by control asid }
{
    match control {
        1 => Some(Flush::All),
        3 => Some(Flush::Whole { asid }),
        7 => Some(Flush::Local { asid }),
        _ => None,
    }
}

/// The flush that the VMCB asks for.
#[tactic(auto, unfolding(svm_model::specs::Svm::VmcbLayout::layout, svm_model::specs::Svm::VmcbLayout::number_of, svm_model::specs::Svm::VmcbLayout::place_at))]
fn flush_in(fields: &Fields) -> Option<Flush>
    ensures { result ≡ flush_by (value_in fields.now Field.TlbControl) (value_in fields.now Field.Asid) }
{
    let control = fields.value(Field::TlbControl) as u8;
    flush_of(control, fields.value(Field::Asid) as u32)
}

/// A VMRUN of a VMCB that keeps the rules and asks for modes that are offered: the guest is entered behind its flush, which is
/// told.
fn run_offered<'w, W: Watch>(
    walking: &mut Walking<'w, W>,
    vcpu: &mut Vcpu,
    fields: &Fields,
    vmcb: u64,
    next_rip: u64,
    outward: &mut Outward,
)
    requires going { IsGoing outward.old }
    requires few { outward.old.calls ≤ 1000 }
    ensures gives { (space : SpaceRecord) (board : Board) (memory : List ℕ) (before : SteppedRecord) (told : List Told) (last : OutwardRecord) → Later outward.new last →
        Gives (behind_flush (way_by space last) (over memory (heard_board board outward.old) vcpu.old before told) (flush_by (value_in fields.now Field.TlbControl) (value_in fields.now Field.Asid)) (entered_turn vmcb next_rip fields.now))
        memory (heard_board board outward.new) vcpu.new Stepped.Went }
    ensures told { (space : SpaceRecord) (board : Board) (memory : List ℕ) (before : SteppedRecord) (told : List Told) (last : OutwardRecord) → Later outward.new last →
        Adds W.tells walking.old.turn last.refused (behind_flush (way_by space last) (over memory (heard_board board outward.old) vcpu.old before told) (flush_by (value_in fields.now Field.TlbControl) (value_in fields.now Field.Asid)) (entered_turn vmcb next_rip fields.now)).told
        walking.old.watch.now walking.new.watch.now }
    ensures cause { IsCause outward.new.refused None (W.refusals walking.old.watch.now) (W.refusals walking.new.watch.now) }
    ensures none_refused { W.refusals walking.old.watch.now ≤ W.refusals walking.new.watch.now }
    ensures denied { outward.new.denied ≡ outward.old.denied }
    ensures sent { outward.new.sent ≡ outward.old.sent }
    ensures turn { walking.new.turn ≡ walking.old.turn }
    ensures name { walking.new.watch.ghost_name ≡ walking.old.watch.ghost_name }
    ensures passed { Later outward.old outward.new }
{
    let Some(flush) = flush_in(fields) else {
        enter_guest(vcpu, fields, vmcb, next_rip);
        return;
    };
    if walking.tell_flushed(flush, outward) {
        enter_guest(vcpu, fields, vmcb, next_rip);
    }
}

/// A VMRUN of a VMCB that keeps the rules: the guest is entered, or ends where its mode is not offered.
fn run_legal<'w, W: Watch>(
    walking: &mut Walking<'w, W>,
    vcpu: &mut Vcpu,
    fields: &Fields,
    vmcb: u64,
    next_rip: u64,
    outward: &mut Outward,
) -> Stepped
    requires going { IsGoing outward.old }
    requires few { outward.old.calls ≤ 1000 }
    ensures gives { (space : SpaceRecord) (board : Board) (memory : List ℕ) (before : SteppedRecord) (told : List Told) (last : OutwardRecord) → Later outward.new last →
        Gives (on_mode (way_by space last) (over memory (heard_board board outward.old) vcpu.old before told) vmcb next_rip fields.now (mode_of fields.now))
        memory (heard_board board outward.new) vcpu.new result }
    ensures told { (space : SpaceRecord) (board : Board) (memory : List ℕ) (before : SteppedRecord) (told : List Told) (last : OutwardRecord) → Later outward.new last →
        Adds W.tells walking.old.turn last.refused (on_mode (way_by space last) (over memory (heard_board board outward.old) vcpu.old before told) vmcb next_rip fields.now (mode_of fields.now)).told
        walking.old.watch.now walking.new.watch.now }
    ensures cause { IsCause outward.new.refused None (W.refusals walking.old.watch.now) (W.refusals walking.new.watch.now) }
    ensures none_refused { W.refusals walking.old.watch.now ≤ W.refusals walking.new.watch.now }
    ensures denied { outward.new.denied ≡ outward.old.denied }
    ensures sent { outward.new.sent ≡ outward.old.sent }
    ensures turn { walking.new.turn ≡ walking.old.turn }
    ensures name { walking.new.watch.ghost_name ≡ walking.old.watch.ghost_name }
    ensures passed { Later outward.old outward.new }
{
    if let Some(rule) = unoffered_mode(fields) {
        return Stepped::Ends(End::Mode { rule });
    }
    run_offered(walking, vcpu, fields, vmcb, next_rip, outward);
    Stepped::Went
}

/// What this machine offers a guest in L1: 16 address-space identifiers, and flushes by them where the image says so.
fn offered(facts: &Facts) -> Offered
    ensures { result ≡ offered_to_l1 facts.now }
{
    Offered {
        asids: 16,
        flush_by_asid: facts.features & 1 == 1,
    }
}

/// The exit of an illegal VMRUN, with code -1: it is told, and stored in the VMCB (volume 2, 'Canonicalization and Consistency
/// Checks').
#[tactic(auto, using(svm_model::proofs::WindowLemmas::windows))]
fn refuse_guest<'w, W: Watch>(
    walking: &mut Walking<'w, W>,
    memory: &mut HostMemory,
    window: GuestWindow,
    vcpu: &mut Vcpu,
    fields: &mut Fields,
    next_rip: u64,
    outward: &mut Outward,
)
    requires window { IsWithin window memory.old.bytes }
    requires page { slice_index vcpu.old.registers.general 0 + 4096 ≤ window.size }
    requires size { length fields.old.values ≡ 86 }
    requires going { IsGoing outward.old }
    requires few { outward.old.calls ≤ 1000 }
    ensures gives { (space : SpaceRecord) (board : Board) (before : SteppedRecord) (told : List Told) (last : OutwardRecord) → Later outward.new last →
        Gives (exited_at_once (way_by space last) (over (guest_of window memory.old.bytes) (heard_board board outward.old) vcpu.old before told) (slice_index vcpu.old.registers.general 0) next_rip fields.old)
        (guest_of window memory.new.bytes) (heard_board board outward.new) vcpu.new Stepped.Went }
    ensures told { (space : SpaceRecord) (board : Board) (before : SteppedRecord) (told : List Told) (last : OutwardRecord) → Later outward.new last →
        Adds W.tells walking.old.turn last.refused (exited_at_once (way_by space last) (over (guest_of window memory.old.bytes) (heard_board board outward.old) vcpu.old before told) (slice_index vcpu.old.registers.general 0) next_rip fields.old).told
        walking.old.watch.now walking.new.watch.now }
    ensures cause { IsCause outward.new.refused None (W.refusals walking.old.watch.now) (W.refusals walking.new.watch.now) }
    ensures none_refused { W.refusals walking.old.watch.now ≤ W.refusals walking.new.watch.now }
    ensures denied { outward.new.denied ≡ outward.old.denied }
    ensures sent { outward.new.sent ≡ outward.old.sent }
    ensures turn { walking.new.turn ≡ walking.old.turn }
    ensures name { walking.new.watch.ghost_name ≡ walking.old.watch.ghost_name }
    ensures passed { Later outward.old outward.new }
    ensures others { SameOutside window memory.old memory.new }
{
    let vmcb = vcpu.registers.general[0];
    store_refusal(fields);
    if walking.tell_left(vmcb, &EXIT_FIELDS, fields, outward) {
        refuse_in_memory(&mut vcpu.registers, next_rip, fields, memory, window, vmcb);
        leave(vcpu);
    }
}

/// A VMRUN of a VMCB with these fields: an illegal one exits at once.
#[tactic(auto, using(svm_model::proofs::WindowLemmas::windows))]
fn run_found<'w, W: Watch>(
    walking: &mut Walking<'w, W>,
    memory: &mut HostMemory,
    window: GuestWindow,
    facts: &Facts,
    vcpu: &mut Vcpu,
    fields: &mut Fields,
    next_rip: u64,
    outward: &mut Outward,
) -> Stepped
    requires window { IsWithin window memory.old.bytes }
    requires page { slice_index vcpu.old.registers.general 0 + 4096 ≤ window.size }
    requires size { length fields.old.values ≡ 86 }
    requires going { IsGoing outward.old }
    requires few { outward.old.calls ≤ 1000 }
    ensures gives { (space : SpaceRecord) (board : Board) (before : SteppedRecord) (told : List Told) (last : OutwardRecord) → Later outward.new last →
        Gives (on_broken (way_by space last) (over (guest_of window memory.old.bytes) (heard_board board outward.old) vcpu.old before told) (slice_index vcpu.old.registers.general 0) next_rip fields.old (broken fields.old (offered_to_l1 facts.now)))
        (guest_of window memory.new.bytes) (heard_board board outward.new) vcpu.new result }
    ensures told { (space : SpaceRecord) (board : Board) (before : SteppedRecord) (told : List Told) (last : OutwardRecord) → Later outward.new last →
        Adds W.tells walking.old.turn last.refused (on_broken (way_by space last) (over (guest_of window memory.old.bytes) (heard_board board outward.old) vcpu.old before told) (slice_index vcpu.old.registers.general 0) next_rip fields.old (broken fields.old (offered_to_l1 facts.now))).told
        walking.old.watch.now walking.new.watch.now }
    ensures cause { IsCause outward.new.refused None (W.refusals walking.old.watch.now) (W.refusals walking.new.watch.now) }
    ensures none_refused { W.refusals walking.old.watch.now ≤ W.refusals walking.new.watch.now }
    ensures denied { outward.new.denied ≡ outward.old.denied }
    ensures sent { outward.new.sent ≡ outward.old.sent }
    ensures turn { walking.new.turn ≡ walking.old.turn }
    ensures name { walking.new.watch.ghost_name ≡ walking.old.watch.ghost_name }
    ensures passed { Later outward.old outward.new }
    ensures others { SameOutside window memory.old memory.new }
{
    let vmcb = vcpu.registers.general[0];
    if let Checked::Legal = check(fields, offered(facts)) {
        return run_legal(walking, vcpu, fields, vmcb, next_rip, outward);
    }
    refuse_guest(walking, memory, window, vcpu, fields, next_rip, outward);
    Stepped::Went
}

/// VMRUN of the VMCB at the address in rAX, whose fields are told as they are found; the guest ends where its page is not all in
/// memory (volume 2, 'VMRUN Instruction'; volume 3, 'VMRUN').
#[tactic(auto, using(svm_model::proofs::WindowLemmas::windows, crate::proofs::FoundFields::found))]
fn run<'w, W: Watch, L: Ledger>(
    walking: &mut Walking<'w, W>,
    memory: &mut HostMemory,
    window: GuestWindow,
    facts: &Facts,
    vcpu: &mut Vcpu,
    next_rip: u64,
    steps: &mut Steps<L>,
    outward: &mut Outward,
) -> Stepped
    requires window { IsWithin window memory.old.bytes }
    requires going { IsGoing outward.old }
    requires few { outward.old.calls ≤ 900 }
    ensures gives { (space : SpaceRecord) (board : Board) (before : SteppedRecord) (told : List Told) (last : OutwardRecord) → Later outward.new last →
        Gives (vmrun_turn (way_by space last) facts.now (over (guest_of window memory.old.bytes) (heard_board board outward.old) vcpu.old before told) (slice_index vcpu.old.registers.general 0) next_rip (fields_at (guest_of window memory.old.bytes) (slice_index vcpu.old.registers.general 0)))
        (guest_of window memory.new.bytes) (heard_board board outward.new) vcpu.new result }
    ensures told { (space : SpaceRecord) (board : Board) (before : SteppedRecord) (told : List Told) (last : OutwardRecord) → Later outward.new last →
        Adds W.tells walking.old.turn last.refused (vmrun_turn (way_by space last) facts.now (over (guest_of window memory.old.bytes) (heard_board board outward.old) vcpu.old before told) (slice_index vcpu.old.registers.general 0) next_rip (fields_at (guest_of window memory.old.bytes) (slice_index vcpu.old.registers.general 0))).told
        walking.old.watch.now walking.new.watch.now }
    ensures cause { IsCause outward.new.refused None (W.refusals walking.old.watch.now) (W.refusals walking.new.watch.now) }
    ensures none_refused { W.refusals walking.old.watch.now ≤ W.refusals walking.new.watch.now }
    ensures denied { outward.new.denied ≡ outward.old.denied }
    ensures sent { outward.new.sent ≡ outward.old.sent }
    ensures turn { walking.new.turn ≡ walking.old.turn }
    ensures name { walking.new.watch.ghost_name ≡ walking.old.watch.ghost_name }
    ensures passed { Later outward.old outward.new }
    ensures others { SameOutside window memory.old memory.new }
    ensures steps { steps.new ≤ steps.old + 34 }
    ensures later { steps.old ≤ steps.new }
{
    let vmcb = vcpu.registers.general[0];
    match read_fields(memory, window, vmcb, steps) {
        Err(outside) => Stepped::Ends(End::OutsideMemory {
            address: outside.address,
        }),
        Ok(mut fields) => {
            if !walking.tell_found(vmcb, true, &fields, outward) {
                return Stepped::Went;
            }
            run_found(
                walking,
                memory,
                window,
                facts,
                vcpu,
                &mut fields,
                next_rip,
                outward,
            )
        }
    }
}

/// VMLOAD from the VMCB at the address in rAX (volume 3, 'VMLOAD').
#[tactic(auto, using(svm_model::proofs::WindowLemmas::windows))]
fn load<L: Ledger>(
    memory: &HostMemory,
    window: GuestWindow,
    vcpu: &mut Vcpu,
    next_rip: u64,
    steps: &mut Steps<L>,
) -> Stepped
    requires window { IsWithin window memory.now.bytes }
    ensures gives { (board : Board) (before : SteppedRecord) (told : List Told) →
        Gives (loaded_turn (over (guest_of window memory.now.bytes) board vcpu.old before told) (slice_index vcpu.old.registers.general 0) next_rip (moved_at (guest_of window memory.now.bytes) (slice_index vcpu.old.registers.general 0)))
        (guest_of window memory.now.bytes) board vcpu.new result }
    ensures steps { steps.new ≤ steps.old + 34 }
    ensures later { steps.old ≤ steps.new }
{
    let address = vcpu.registers.general[0];
    match vmload(&mut vcpu.registers, memory, window, address, steps) {
        Err(outside) => Stepped::Ends(End::OutsideMemory {
            address: outside.address,
        }),
        Ok(()) => {
            vcpu.registers.rip = next_rip;
            vcpu.registers.shadow = false;
            Stepped::Went
        }
    }
}

/// VMSAVE to the VMCB at the address in rAX (volume 3, 'VMSAVE').
#[tactic(auto, using(svm_model::proofs::WindowLemmas::windows))]
fn save(memory: &mut HostMemory, window: GuestWindow, vcpu: &mut Vcpu, next_rip: u64) -> Stepped
    requires window { IsWithin window memory.old.bytes }
    ensures gives { (board : Board) (before : SteppedRecord) (told : List Told) →
        Gives (saved_turn (over (guest_of window memory.old.bytes) board vcpu.old before told) (slice_index vcpu.old.registers.general 0) next_rip (moved_at (guest_of window memory.old.bytes) (slice_index vcpu.old.registers.general 0)))
        (guest_of window memory.new.bytes) board vcpu.new result }
    ensures others { SameOutside window memory.old memory.new }
{
    let address = vcpu.registers.general[0];
    match vmsave(&vcpu.registers, memory, window, address) {
        Err(outside) => Stepped::Ends(End::OutsideMemory {
            address: outside.address,
        }),
        Ok(()) => {
            vcpu.registers.rip = next_rip;
            vcpu.registers.shadow = false;
            Stepped::Went
        }
    }
}

/// A row that moves the VMCB at the address in rAX: VMLOAD, VMSAVE or VMRUN. In L2 too that is an address of L1's memory.
#[tactic(auto, unfolding(svm_model::specs::Machine::MovedVmcbs::moved_by))]
pub fn move_vmcb<'w, W: Watch, L: Ledger>(
    walking: &mut Walking<'w, W>,
    memory: &mut HostMemory,
    window: GuestWindow,
    facts: &Facts,
    vcpu: &mut Vcpu,
    op: Op,
    next_rip: u64,
    steps: &mut Steps<L>,
    outward: &mut Outward,
) -> Stepped
    requires window { IsWithin window memory.old.bytes }
    requires going { IsGoing outward.old }
    requires few { outward.old.calls ≤ 900 }
    ensures gives { (space : SpaceRecord) (board : Board) (before : SteppedRecord) (told : List Told) (last : OutwardRecord) → Later outward.new last →
        Gives (moved_by op (way_by space last) facts.now (over (guest_of window memory.old.bytes) (heard_board board outward.old) vcpu.old before told) (slice_index vcpu.old.registers.general 0) next_rip)
        (guest_of window memory.new.bytes) (heard_board board outward.new) vcpu.new result }
    ensures told { (space : SpaceRecord) (board : Board) (before : SteppedRecord) (told : List Told) (last : OutwardRecord) → Later outward.new last →
        Adds W.tells walking.old.turn last.refused (moved_by op (way_by space last) facts.now (over (guest_of window memory.old.bytes) (heard_board board outward.old) vcpu.old before told) (slice_index vcpu.old.registers.general 0) next_rip).told
        walking.old.watch.now walking.new.watch.now }
    ensures cause { IsCause outward.new.refused None (W.refusals walking.old.watch.now) (W.refusals walking.new.watch.now) }
    ensures none_refused { W.refusals walking.old.watch.now ≤ W.refusals walking.new.watch.now }
    ensures denied { outward.new.denied ≡ outward.old.denied }
    ensures sent { outward.new.sent ≡ outward.old.sent }
    ensures turn { walking.new.turn ≡ walking.old.turn }
    ensures name { walking.new.watch.ghost_name ≡ walking.old.watch.ghost_name }
    ensures passed { Later outward.old outward.new }
    ensures others { SameOutside window memory.old memory.new }
    ensures steps { steps.new ≤ steps.old + 34 }
    ensures later { steps.old ≤ steps.new }
{
    match op {
        Op::Vmload => load(memory, window, vcpu, next_rip, steps),
        Op::Vmsave => save(memory, window, vcpu, next_rip),
        _ => run(
            walking, memory, window, facts, vcpu, next_rip, steps, outward,
        ),
    }
}
