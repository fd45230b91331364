// The turn of a vcpu of one guest, and what it is among all guests.
ghost use Rattle.std.specs.Prelude.{◌≡◌, ℕ, ◌+◌, ◌<◌, ◌≤◌, Some, None, length, slice_get, slice_set, is_some, OnOk, IfOk, IfErr, IfSome};
ghost use Rattle.svm_model.specs.Memory.Bytes.{AreMarked, IsWithin, SameOutside};
ghost use Rattle.svm_model.specs.Audit.WatchCalls.{notices};
ghost use Rattle.svm_model.specs.Machine.Turns.{end_by as end_of_turn};
ghost use Rattle.port_bus.specs.Causes.{Blames, NoneFell};
ghost use Rattle.watch.specs.Leads.{Leads};
ghost use Rattle.plain_machine.specs.Cuts.{IsCutBy};
ghost use Rattle.plain_machine.specs.GuestTurns.{facts_in, guest_turn, outcome_of, IsOutIn};
ghost use Rattle.plain_machine.specs.Slots.{guest_at, guests_at, layout, layouts, AreInRow, IsSlot};

use crate::sending::spread;
use crate::slots::Slot;
use crate::walking::take_turn;
use crate::watching::Walking;
use apic_state::Apic;
use host_memory::{HostMemory, Steps};
use port_bus::Ports;
use row_table::KeptRows;
use std::sync::ledger::Ledger;
use svm_model::{Ended, Facts, RunEnd, Stepped, Vcpu, VcpuId};
use turn_exec::Outward;
use watch::Watch;

/// Whose turn it is, at which event, on a machine of which features.
#[derive(Clone, Copy)]
pub struct Moment {
    pub vcpu: VcpuId,
    pub event: u32,
    pub features: u32,
}

/// What cut an event off: the refusal, and the number of the outward call that was refused.
#[derive(Clone, Copy)]
pub struct Cut {
    pub end: RunEnd,
    pub call: u64,
}

/// The end that came in a turn; none where the turn was cut off.
fn end_by(moment: &Moment, outward: &Outward, stepped: &Stepped) -> Option<Ended>
    ensures { result ≡ end_of_turn (is_some outward.now.refused) moment.now.vcpu.index moment.now.event stepped.now }
{
    if outward.refused.is_some() {
        return None;
    }
    match stepped {
        Stepped::Ends(end) => Some(Ended {
            end: *end,
            vcpu: moment.vcpu.index,
            event: moment.event,
        }),
        Stepped::Went | Stepped::Leaves { .. } | Stepped::Moves { .. } => None,
    }
}

/// What a turn of the vcpu knows. The time-stamp counter is the event's number and the vcpu's addend.
fn facts_of(moment: &Moment, vcpu: &Vcpu, apic: &Apic) -> Facts
    ensures { result ≡ facts_in moment.now vcpu.now apic.now }
{
    Facts {
        vcpu: moment.vcpu,
        event: moment.event,
        tsc: u64::from(moment.event).wrapping_add(vcpu.registers.tsc_add),
        apic_id: apic.id(),
        features: moment.features,
        tpr: 0,
    }
}

/// Notes the end that came in a turn of a guest that was not ended.
#[inline(always)]
fn note_end(noted: &mut Option<Ended>, ended: Option<Ended>)
    requires { noted.old ≡ None }
    ensures { noted.new ≡ ended }
{
    if ended.is_some() {
        *noted = ended;
    }
}

/// The end that came in a turn, or what cut it off.
fn outcome_of(
    ended: Option<Ended>,
    refused: Option<RunEnd>,
    call: u64,
) -> Result<Option<Ended>, Cut>
    ensures { result ≡ outcome_of ended refused call }
{
    match refused {
        None => Ok(ended),
        Some(end) => Err(Cut { end, call }),
    }
}

/// The turn of a vcpu of a guest; nothing where the guest was ended. At most 6368 reads are counted.
#[tactic(auto, using(svm_model::proofs::WindowLemmas::windows, port_bus::proofs::Counts::counts))]
fn turn_guest<'w, W: Watch, B: Ports, L: Ledger>(
    walking: &mut Walking<'w, W>,
    memory: &mut HostMemory,
    slot: &mut Slot,
    bus: &mut B,
    rows: &mut KeptRows,
    moment: &Moment,
    steps: &mut Steps<L>,
) -> Result<Option<Ended>, Cut>
    requires window { IsWithin slot.old.window memory.old.bytes }
    requires slot { IsSlot (layout slot.old) }
    requires there { moment.now.vcpu.index < length slot.old.vcpus }
    ensures guest { OnOk result (guest_at memory.new.bytes slot.new ≡ (guest_turn None moment.now (B.bus bus.old) (guest_at memory.old.bytes slot.old)).guest) }
    ensures bus { OnOk result (B.bus bus.new ≡ (guest_turn None moment.now (B.bus bus.old) (guest_at memory.old.bytes slot.old)).bus) }
    ensures ended { IfOk result (λ ended. ended ≡ (guest_turn None moment.now (B.bus bus.old) (guest_at memory.old.bytes slot.old)).ended) }
    ensures reached { IfErr result (λ cut. guest_at memory.new.bytes slot.new ≡ (guest_turn (Some cut.call) moment.now (B.bus bus.old) (guest_at memory.old.bytes slot.old)).guest) }
    ensures told { OnOk result (Leads W.tells walking.old.watch.now (notices walking.old.turn (guest_turn None moment.now (B.bus bus.old) (guest_at memory.old.bytes slot.old)).told) walking.new.watch.now) }
    ensures bus_reached { IfErr result (λ cut. B.bus bus.new ≡ (guest_turn (Some cut.call) moment.now (B.bus bus.old) (guest_at memory.old.bytes slot.old)).bus) }
    ensures cut { IfErr result (λ cut. IsCutBy (IsOutIn cut.call moment.now (B.bus bus.old) (guest_at memory.old.bytes slot.old)) (Unit {0}) cut.end (B.bus bus.old) (B.bus bus.new) (W.refusals walking.old.watch.now) (W.refusals walking.new.watch.now)) }
    ensures none_refused { W.refusals walking.old.watch.now ≤ W.refusals walking.new.watch.now }
    ensures name { walking.new.watch.ghost_name ≡ walking.old.watch.ghost_name }
    ensures blamed { IfErr result (λ cut. Blames cut.end (B.faults bus.old) (B.faults bus.new)) }
    ensures none_fell { NoneFell (B.faults bus.old) (B.faults bus.new) }
    ensures layout { layout slot.new ≡ layout slot.old }
    ensures others { SameOutside slot.old.window memory.old memory.new }
    ensures steps { steps.new ≤ steps.old + 6368 }
    ensures later { steps.old ≤ steps.new }
{
    if slot.ended.is_some() {
        return Ok(None);
    }
    let index = usize::from(moment.vcpu.index);
    let vcpu = &mut slot.vcpus[index];
    let apic = &mut slot.apics[index];
    let facts = facts_of(moment, vcpu, apic);
    let mut outward = Outward::new();
    let mut stepped = Stepped::Went;
    take_turn(
        walking,
        memory,
        slot.window,
        bus,
        apic,
        rows,
        &facts,
        vcpu,
        steps,
        &mut outward,
        &mut stepped,
    );
    let ended = end_by(moment, &outward, &stepped);
    note_end(&mut slot.ended, ended);
    spread(slot, moment.vcpu.index, outward.sent);
    outcome_of(ended, outward.refused, outward.calls)
}

/// The turn of a vcpu of one of the guests, whose windows stand in a row. All others stay as they are.
#[tactic(auto, using(svm_model::proofs::WindowLemmas::windows, port_bus::proofs::Counts::counts))]
pub fn turn_in<'w, W: Watch, B: Ports, L: Ledger>(
    walking: &mut Walking<'w, W>,
    memory: &mut HostMemory,
    slots: &mut [Slot],
    bus: &mut B,
    rows: &mut KeptRows,
    moment: &Moment,
    steps: &mut Steps<L>,
) -> Result<Option<Ended>, Cut>
    requires row { AreInRow (length memory.old.bytes) 0 (layouts slots.old) }
    requires there { moment.now.vcpu.guest.0 < length slots.old }
    requires vcpu { IfSome (slice_get slots.old moment.now.vcpu.guest.0) (λ slot. moment.now.vcpu.index < length slot.vcpus) }
    ensures guests { OnOk result (IfSome (slice_get slots.old moment.now.vcpu.guest.0) (λ slot. guests_at memory.new.bytes slots.new
        ≡ slice_set (guests_at memory.old.bytes slots.old) moment.now.vcpu.guest.0 (guest_turn None moment.now (B.bus bus.old) (guest_at memory.old.bytes slot)).guest)) }
    ensures bus { OnOk result (IfSome (slice_get slots.old moment.now.vcpu.guest.0) (λ slot. B.bus bus.new ≡ (guest_turn None moment.now (B.bus bus.old) (guest_at memory.old.bytes slot)).bus)) }
    ensures ended { IfOk result (λ ended. IfSome (slice_get slots.old moment.now.vcpu.guest.0) (λ slot. ended ≡ (guest_turn None moment.now (B.bus bus.old) (guest_at memory.old.bytes slot)).ended)) }
    ensures reached { IfErr result (λ cut. IfSome (slice_get slots.old moment.now.vcpu.guest.0) (λ slot. guests_at memory.new.bytes slots.new
        ≡ slice_set (guests_at memory.old.bytes slots.old) moment.now.vcpu.guest.0 (guest_turn (Some cut.call) moment.now (B.bus bus.old) (guest_at memory.old.bytes slot)).guest)) }
    ensures told { OnOk result (IfSome (slice_get slots.old moment.now.vcpu.guest.0) (λ slot.
        Leads W.tells walking.old.watch.now (notices walking.old.turn (guest_turn None moment.now (B.bus bus.old) (guest_at memory.old.bytes slot)).told) walking.new.watch.now)) }
    ensures bus_reached { IfErr result (λ cut. IfSome (slice_get slots.old moment.now.vcpu.guest.0) (λ slot. B.bus bus.new ≡ (guest_turn (Some cut.call) moment.now (B.bus bus.old) (guest_at memory.old.bytes slot)).bus)) }
    ensures cut { IfErr result (λ cut. IfSome (slice_get slots.old moment.now.vcpu.guest.0) (λ slot.
        IsCutBy (IsOutIn cut.call moment.now (B.bus bus.old) (guest_at memory.old.bytes slot)) (Unit {0}) cut.end (B.bus bus.old) (B.bus bus.new) (W.refusals walking.old.watch.now) (W.refusals walking.new.watch.now))) }
    ensures none_refused { W.refusals walking.old.watch.now ≤ W.refusals walking.new.watch.now }
    ensures name { walking.new.watch.ghost_name ≡ walking.old.watch.ghost_name }
    ensures blamed { IfErr result (λ cut. Blames cut.end (B.faults bus.old) (B.faults bus.new)) }
    ensures none_fell { NoneFell (B.faults bus.old) (B.faults bus.new) }
    ensures layouts { layouts slots.new ≡ layouts slots.old }
    ensures size { length memory.new.bytes ≡ length memory.old.bytes }
    ensures marked { AreMarked memory.old memory.new }
    ensures steps { steps.new ≤ steps.old + 6368 }
    ensures later { steps.old ≤ steps.new }
{
    let slot = &mut slots[usize::from(moment.vcpu.guest.0)];
    turn_guest(walking, memory, slot, bus, rows, moment, steps)
}
