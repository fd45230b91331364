// The plain machine: its guests in one memory, its processors, and what events do.
ghost use Rattle.std.specs.Prelude.{◌≡◌, ℕ, ◌+◌, ◌*◌, ◌/◌, ◌^◌, ◌%◌, ◌<◌, ◌≤◌, Bool, true, false, Some, None, Err, length, is_err, OnOk, OnErr, IfOk, IfErr, IfSome, slice_get};
ghost use Rattle.std.specs.Option.{option_map};
ghost use Rattle.svm_model.specs.Memory.Bytes.{byte_at, page_at};
ghost use Rattle.svm_model.specs.Machine.Guest.{level_in};
ghost use Rattle.svm_model.specs.Formats.LawfulImages.{IsLawfulImage};
ghost use Rattle.svm_model.specs.Formats.Trace.{memory_of};
ghost use Rattle.svm_model.specs.Machine.Events.{event_of, plain_event, placed, changed_guest, guest_with_irq, guest_with_nmi, next_event, with_timers};
ghost use Rattle.svm_model.specs.Audit.WatchCalls.{event_notices, notices, told_notices, turn_in as turn_in_event};
ghost use Rattle.svm_model.specs.Machine.Runs.{reached, reached_of, EndsStay, HandsOverOf, IsOut};
ghost use Rattle.svm_model.specs.Machine.Shapes.{world_shape, image_shape, IsNamed, IsVcpu, IsWellFormed};
ghost use Rattle.svm_model.specs.Machine.Turns.{plain_turn, turn_of};
ghost use Rattle.svm_model.specs.Machine.World.{world_of};
ghost use Rattle.port_bus.specs.Causes.{Blames, NoneFell};
ghost use Rattle.watch.specs.Leads.{Leads};
ghost use Rattle.plain_machine.specs.Cuts.{bus_reached, bus_reached_of, IsCut, IsCutBy, IsCutOf};
ghost use Rattle.plain_machine.specs.Machines.{apic_in, vcpu_in, guest_in};
ghost use Rattle.plain_machine.specs.Marks.{ChangesAreMarked, is_written};
ghost use Rattle.plain_machine.specs.Others.{OthersStay};
ghost use Rattle.plain_machine.specs.Reads.{is_run};

use crate::changes::{interrupt, make_nmi_pending};
use crate::lookups::{apic_at, slot_of, vcpu_at};
use crate::opening::{open_guests, pages_in};
use crate::placing::{none_placed, place_on, placed_at};
use crate::slots::Slot;
use crate::timers::ring_guests;
use crate::turns::{Cut, Moment, turn_in};
use crate::watching::Walking;
use apic_state::Apic;
use host_memory::{HostMemory, OutsideMemory, Steps};
use image_format::Image;
use port_bus::Ports;
use row_table::KeptRows;
use std::alloc::Global;
use std::marker::Model;
use std::sync::ledger::Ledger;
use svm_model::{RunEnd, TurnId, Vcpu};
use vm_names::{CpuId, Effect, Ended, Event, GuestId, NoMemory, Registers, VcpuId};
use watch::Watch;

/// The plain machine. In clauses it is the world that it runs, whether it is stopped, and which pages of its guests are marked
/// as written. The bus of port devices stands beside it.
#[derive(Drop)]
pub struct PlainMachine {
    version: u16,
    features: u32,
    memory: HostMemory,
    guests: Vec<Slot>,
    placing: Vec<Option<VcpuId>>,
    event: u32,
    stopped: bool,
    /// Rows that were decoded before, of which no clause speaks.
    rows: KeptRows,
}

impl Model for PlainMachine {
    ghost use Rattle.std.specs.Prelude.{◌≤◌, length};
    ghost use Rattle.plain_machine.specs.Machines.{Machine};
    ghost use Rattle.plain_machine.specs.Marks.{marks_in};
    ghost use Rattle.plain_machine.specs.Slots.{AreInRow, AreThere, counts, guests_at, layouts};

    ghost Value = { Machine };

    ghost view = { λ m. record {
      world = record {
        version = m.version;
        features = m.features;
        cpus = length m.placing.items;
        guests = guests_at m.memory.bytes m.guests.items;
        placing = m.placing.items;
        event = m.event;
      };
      stopped = m.stopped;
      marks = marks_in m.memory (layouts m.guests.items);
    } };

    ghost invariant = { λ m. AreInRow (length m.memory.bytes) 0 (layouts m.guests.items)
        × AreThere (counts (layouts m.guests.items)) m.placing.items
        × length m.memory.bytes ≤ 335544320 };
}

// The effect of an event in which nothing ran.
const NOTHING: Effect = Effect {
    vcpu: None,
    ended: None,
};

impl PlainMachine {
    /// A turn of a vcpu. One whose guest was ended does nothing.
    #[tactic(auto, using(crate::proofs::Worlds::worlds))]
    fn turn<'w, W: Watch, B: Ports, L: Ledger>(
        &mut self,
        walking: &mut Walking<'w, W>,
        vcpu: VcpuId,
        bus: &mut B,
        steps: &mut Steps<L>,
    ) -> Result<Option<Ended>, Cut>
        requires { IsVcpu (world_shape self.old.world) vcpu }
        ensures world { OnOk result (self.new.world ≡ (plain_turn self.old.world (B.bus bus.old) vcpu).world) }
        ensures bus { OnOk result (B.bus bus.new ≡ (plain_turn self.old.world (B.bus bus.old) vcpu).bus) }
        ensures ended { IfOk result (λ ended. ended ≡ (plain_turn self.old.world (B.bus bus.old) vcpu).ended) }
        ensures reached { IfErr result (λ cut. self.new.world ≡ (turn_of (Some cut.call) self.old.world (B.bus bus.old) vcpu).world) }
        ensures heard { OnOk result (Leads W.tells walking.old.watch.now (notices walking.old.turn (plain_turn self.old.world (B.bus bus.old) vcpu).told) walking.new.watch.now) }
        ensures bus_reached { IfErr result (λ cut. B.bus bus.new ≡ (turn_of (Some cut.call) self.old.world (B.bus bus.old) vcpu).bus) }
        ensures cut { IfErr result (λ cut. IsCutBy (IsOut cut.call self.old.world (B.bus bus.old) vcpu) (Unit {0}) cut.end (B.bus bus.old) (B.bus bus.new) (W.refusals walking.old.watch.now) (W.refusals walking.new.watch.now)) }
        ensures none_refused { W.refusals walking.old.watch.now ≤ W.refusals walking.new.watch.now }
        ensures name { walking.new.watch.ghost_name ≡ walking.old.watch.ghost_name }
        ensures blamed { IfErr result (λ cut. Blames cut.end (B.faults bus.old) (B.faults bus.new)) }
        ensures none_fell { NoneFell (B.faults bus.old) (B.faults bus.new) }
        ensures shape { world_shape self.new.world ≡ world_shape self.old.world }
        ensures number { self.new.world.event ≡ self.old.world.event }
        ensures stopped { self.new.stopped ≡ self.old.stopped }
        ensures marked { ChangesAreMarked self.old self.new }
        ensures steps { steps.new ≤ steps.old + 6368 }
        ensures later { steps.old ≤ steps.new }
    {
        let moment = Moment {
            vcpu,
            event: self.event,
            features: self.features,
        };
        turn_in(
            walking,
            &mut self.memory,
            &mut self.guests,
            bus,
            &mut self.rows,
            &moment,
            steps,
        )
    }

    /// At the start of each event the due timers ring, but those of a guest that was ended.
    #[tactic(auto, using(crate::proofs::Worlds::worlds), unfolding(svm_model::specs::Machine::Events::with_timers))]
    fn ring_timers(&mut self)
        ensures timers { self.new.world ≡ with_timers self.old.world }
        ensures stopped { self.new.stopped ≡ self.old.stopped }
        ensures marked { ChangesAreMarked self.old self.new }
        ensures shape { world_shape self.new.world ≡ world_shape self.old.world }
        ensures number { self.new.world.event ≡ self.old.world.event }
    {
        ring_guests(&mut self.guests, self.event);
    }

    /// Places a vcpu on a processor.
    #[tactic(auto, using(crate::proofs::Worlds::worlds))]
    fn place(&mut self, cpu: CpuId, vcpu: VcpuId)
        requires { IsNamed (world_shape self.old.world) (Event.Place cpu vcpu) }
        ensures { self.new ≡ record self.old { world = placed self.old.world cpu vcpu } }
    {
        place_on(&mut self.placing, cpu, vcpu);
    }

    /// The APIC of a vcpu accepts a vector, unless its guest was ended.
    #[tactic(auto, using(crate::proofs::Worlds::worlds))]
    fn interrupt(&mut self, vcpu: VcpuId, vector: u8)
        requires { IsNamed (world_shape self.old.world) (Event.Irq vcpu vector) }
        ensures accepted { self.new.world ≡ changed_guest self.old.world vcpu (guest_with_irq vcpu.index vector) }
        ensures stopped { self.new.stopped ≡ self.old.stopped }
        ensures marked { ChangesAreMarked self.old self.new }
        ensures shape { world_shape self.new.world ≡ world_shape self.old.world }
        ensures number { self.new.world.event ≡ self.old.world.event }
    {
        interrupt(&mut self.guests, vcpu, vector);
    }

    /// An NMI is pending at a vcpu, unless its guest was ended.
    #[tactic(auto, using(crate::proofs::Worlds::worlds))]
    fn make_nmi_pending(&mut self, vcpu: VcpuId)
        requires { IsNamed (world_shape self.old.world) (Event.Nmi vcpu) }
        ensures pending { self.new.world ≡ changed_guest self.old.world vcpu (guest_with_nmi vcpu.index) }
        ensures stopped { self.new.stopped ≡ self.old.stopped }
        ensures marked { ChangesAreMarked self.old self.new }
        ensures shape { world_shape self.new.world ≡ world_shape self.old.world }
        ensures number { self.new.world.event ≡ self.old.world.event }
    {
        make_nmi_pending(&mut self.guests, vcpu);
    }

    /// The event is over.
    fn finish_event(&mut self)
        requires { self.old.world.event < 1048576 }
        ensures { self.new ≡ record self.old { world = next_event self.old.world } }
    {
        self.event += 1;
    }

    /// The vcpu that is placed on the processor.
    #[tactic(auto, using(crate::proofs::Worlds::worlds))]
    fn placed_on(&self, cpu: CpuId) -> Option<VcpuId>
        requires { IsNamed (world_shape self.now.world) (Event.Run cpu) }
        ensures placed { slice_get self.now.world.placing cpu.0 ≡ Some result }
        ensures there { IfSome result (IsVcpu (world_shape self.now.world)) }
    {
        placed_at(&self.placing, cpu)
    }

    /// A turn of the vcpu that is placed on the processor, or nothing.
    #[tactic(auto, using(port_bus::proofs::Counts::counts, crate::proofs::MarkLemmas::marks), unfolding(svm_model::specs::Machine::Events::event_of, svm_model::specs::Machine::Runs::reached_of, svm_model::specs::Machine::Runs::HandsOverOf, crate::specs::Cuts::bus_reached_of, crate::specs::Cuts::HasTurn))]
    fn run<W: Watch, B: Ports, L: Ledger>(
        &mut self,
        cpu: CpuId,
        bus: &mut B,
        watch: &mut W,
        steps: &mut Steps<L>,
    ) -> Result<Effect, Cut>
        requires named { IsNamed (world_shape self.old.world) (Event.Run cpu) }
        requires few { self.old.world.event < 1048576 }
        ensures world { OnOk result (self.new.world ≡ (event_of self.old.world (B.bus bus.old) (Event.Run cpu)).world) }
        ensures bus { OnOk result (B.bus bus.new ≡ (event_of self.old.world (B.bus bus.old) (Event.Run cpu)).bus) }
        ensures effect { IfOk result (λ effect. effect ≡ (event_of self.old.world (B.bus bus.old) (Event.Run cpu)).effect) }
        ensures told { OnOk result (Leads W.tells watch.old (told_notices (turn_in_event self.old.world (Event.Run cpu) (event_of self.old.world (B.bus bus.old) (Event.Run cpu)).effect.vcpu) (event_of self.old.world (B.bus bus.old) (Event.Run cpu)).told) watch.new) }
        ensures reached { IfErr result (λ cut. self.new.world ≡ reached_of cut.call self.old.world (B.bus bus.old) (Event.Run cpu)) }
        ensures bus_reached { IfErr result (λ cut. B.bus bus.new ≡ bus_reached_of cut.call self.old.world (B.bus bus.old) (Event.Run cpu)) }
        ensures cut { IfErr result (λ cut. IsCutOf cut.call self.old.world (B.bus bus.old) (Event.Run cpu) cut.end (B.bus bus.new) (W.refusals watch.old) (W.refusals watch.new)) }
        ensures none_refused { W.refusals watch.old ≤ W.refusals watch.new }
        ensures blamed { IfErr result (λ cut. Blames cut.end (B.faults bus.old) (B.faults bus.new)) }
        ensures none_fell { NoneFell (B.faults bus.old) (B.faults bus.new) }
        ensures shape { world_shape self.new.world ≡ world_shape self.old.world }
        ensures number { OnOk result (self.new.world.event ≡ self.old.world.event + 1) }
        ensures stopped { self.new.stopped ≡ self.old.stopped }
        ensures marked { ChangesAreMarked self.old self.new }
        ensures steps { steps.new ≤ steps.old + 6368 }
        ensures later { steps.old ≤ steps.new }
    {
        let Some(vcpu) = self.placed_on(cpu) else {
            self.finish_event();
            return Ok(NOTHING);
        };
        let turn = TurnId {
            vcpu,
            cpu,
            event: self.event,
        };
        let mut walking = Walking { watch, turn };
        let ended = match self.turn(&mut walking, vcpu, bus, steps) {
            Ok(ended) => ended,
            Err(cut) => return Err(cut),
        };
        self.finish_event();
        Ok(Effect {
            vcpu: Some(vcpu),
            ended,
        })
    }

    /// Feeds a device.
    #[tactic(auto, using(port_bus::proofs::Counts::counts, crate::proofs::MarkLemmas::marks), unfolding(svm_model::specs::Machine::Events::event_of, svm_model::specs::Machine::Runs::reached_of, svm_model::specs::Machine::Runs::HandsOverOf))]
    fn feed<B: Ports>(&mut self, device: u8, value: u32, bus: &mut B) -> Result<Effect, Cut>
        requires named { IsNamed (world_shape self.old.world) (Event.Feed device value) }
        requires few { self.old.world.event < 1048576 }
        ensures world { OnOk result (self.new.world ≡ (event_of self.old.world (B.bus bus.old) (Event.Feed device value)).world) }
        ensures bus { OnOk result (B.bus bus.new ≡ (event_of self.old.world (B.bus bus.old) (Event.Feed device value)).bus) }
        ensures effect { IfOk result (λ effect. effect ≡ (event_of self.old.world (B.bus bus.old) (Event.Feed device value)).effect) }
        ensures reached { IfErr result (λ cut. self.new.world ≡ reached_of cut.call self.old.world (B.bus bus.old) (Event.Feed device value)) }
        ensures hands_over { IfErr result (λ cut. HandsOverOf cut.call self.old.world (B.bus bus.old) (Event.Feed device value)) }
        ensures kept { OnErr result (B.bus bus.new ≡ B.bus bus.old) }
        ensures blamed { IfErr result (λ cut. Blames cut.end (B.faults bus.old) (B.faults bus.new)) }
        ensures none_fell { NoneFell (B.faults bus.old) (B.faults bus.new) }
        ensures shape { world_shape self.new.world ≡ world_shape self.old.world }
        ensures number { OnOk result (self.new.world.event ≡ self.old.world.event + 1) }
        ensures stopped { self.new.stopped ≡ self.old.stopped }
        ensures marked { ChangesAreMarked self.old self.new }
    {
        match bus.feed_device(device, value) {
            Ok(()) => {
                self.finish_event();
                Ok(NOTHING)
            }
            Err(end) => Err(Cut { end, call: 0 }),
        }
    }

    /// What an event does, before a refusal stops the machine.
    #[tactic(auto, using(port_bus::proofs::Counts::counts, crate::proofs::MarkLemmas::marks), unfolding(svm_model::specs::Machine::Events::event_of, svm_model::specs::Machine::Runs::reached_of, svm_model::specs::Machine::Runs::HandsOverOf, crate::specs::Cuts::bus_reached_of, crate::specs::Cuts::HasTurn))]
    fn happen<W: Watch, B: Ports, L: Ledger>(
        &mut self,
        event: Event,
        bus: &mut B,
        watch: &mut W,
        steps: &mut Steps<L>,
    ) -> Result<Effect, Cut>
        requires named { IsNamed (world_shape self.old.world) event }
        requires few { self.old.world.event < 1048576 }
        ensures world { OnOk result (self.new.world ≡ (event_of self.old.world (B.bus bus.old) event).world) }
        ensures bus { OnOk result (B.bus bus.new ≡ (event_of self.old.world (B.bus bus.old) event).bus) }
        ensures effect { IfOk result (λ effect. effect ≡ (event_of self.old.world (B.bus bus.old) event).effect) }
        ensures told { OnOk result (Leads W.tells watch.old (told_notices (turn_in_event self.old.world event (event_of self.old.world (B.bus bus.old) event).effect.vcpu) (event_of self.old.world (B.bus bus.old) event).told) watch.new) }
        ensures reached { IfErr result (λ cut. self.new.world ≡ reached_of cut.call self.old.world (B.bus bus.old) event) }
        ensures bus_reached { IfErr result (λ cut. B.bus bus.new ≡ bus_reached_of cut.call self.old.world (B.bus bus.old) event) }
        ensures cut { IfErr result (λ cut. IsCutOf cut.call self.old.world (B.bus bus.old) event cut.end (B.bus bus.new) (W.refusals watch.old) (W.refusals watch.new)) }
        ensures none_refused { W.refusals watch.old ≤ W.refusals watch.new }
        ensures blamed { IfErr result (λ cut. Blames cut.end (B.faults bus.old) (B.faults bus.new)) }
        ensures none_fell { NoneFell (B.faults bus.old) (B.faults bus.new) }
        ensures shape { world_shape self.new.world ≡ world_shape self.old.world }
        ensures number { OnOk result (self.new.world.event ≡ self.old.world.event + 1) }
        ensures stopped { self.new.stopped ≡ self.old.stopped }
        ensures marked { ChangesAreMarked self.old self.new }
        ensures steps { steps.new ≤ steps.old + 6368 }
        ensures still { is_run event ≡ false → steps.new ≡ steps.old }
        ensures later { steps.old ≤ steps.new }
    {
        match event {
            Event::Place { cpu, vcpu } => {
                self.place(cpu, vcpu);
                self.finish_event();
                Ok(NOTHING)
            }
            Event::Run { cpu } => self.run(cpu, bus, watch, steps),
            Event::Feed { device, value } => self.feed(device, value, bus),
            Event::Irq { vcpu, vector } => {
                self.interrupt(vcpu, vector);
                self.finish_event();
                Ok(NOTHING)
            }
            Event::Nmi { vcpu } => {
                self.make_nmi_pending(vcpu);
                self.finish_event();
                Ok(NOTHING)
            }
            Event::Unplug { device } => {
                bus.unplug_device(device);
                self.finish_event();
                Ok(NOTHING)
            }
            Event::Dump { .. } => {
                self.finish_event();
                Ok(NOTHING)
            }
        }
    }

    /// Does one event of the schedule: places a vcpu, lets the placed vcpu take one turn, feeds a port device or unplugs it, or
    /// hands an interrupt or an NMI to a vcpu. The turn of a guest that was ended does nothing, so an end stays. At most 6368
    /// reads are counted, as many as a turn may spend, and none where no vcpu may take one. The event names what the image and
    /// the bus have, fewer than 1,048,576 events came before it, and the machine is not stopped.
    ///
    /// One who watches is told each access of the turn that is walked for, with its passes through outer tables before it, each
    /// flush, the fields of each VMCB that are found at a VMRUN or at a turn inside one, and those that a #VMEXIT stores, in the
    /// order in which they come.
    ///
    /// Only a feed, a turn's write to a port, or such a notice may be refused. The answer to the first two is the bus's, which
    /// blames a device only where that counted a fault in this call; the bus is then as it was. A notice is refused only where
    /// the watch counted a refusal in this call. The machine stands where the event had come to when that outward call of it was
    /// refused, with the vcpu before its instruction, and is stopped.
    ///
    /// Each page of which a byte has changed is marked as written, also where the event was cut off.
    #[tactic(auto, using(svm_model::proofs::EndLemmas::ends, crate::proofs::MarkLemmas::marks))]
    pub fn event<W: Watch, B: Ports, L: Ledger>(
        &mut self,
        event: Event,
        bus: &mut B,
        watch: &mut W,
        steps: &mut Steps<L>,
    ) -> Result<Effect, RunEnd>
        requires named { IsNamed (world_shape self.old.world) event }
        requires few { self.old.world.event < 1048576 }
        requires going { self.old.stopped ≡ false }
        ensures world { OnOk result (self.new.world ≡ (plain_event self.old.world (B.bus bus.old) event).world) }
        ensures bus { OnOk result (B.bus bus.new ≡ (plain_event self.old.world (B.bus bus.old) event).bus) }
        ensures effect { IfOk result (λ effect. effect ≡ (plain_event self.old.world (B.bus bus.old) event).effect) }
        ensures stopped { self.new.stopped ≡ is_err result }
        ensures told { OnOk result (Leads W.tells watch.old (event_notices self.old.world (B.bus bus.old) event) watch.new) }
        ensures cut { IfErr result (λ end. (call : ℕ) × (self.new.world ≡ reached call self.old.world (B.bus bus.old) event) × (B.bus bus.new ≡ bus_reached call self.old.world (B.bus bus.old) event)
            × IsCut call self.old.world (B.bus bus.old) event end (B.bus bus.new) (W.refusals watch.old) (W.refusals watch.new)) }
        ensures none_refused { W.refusals watch.old ≤ W.refusals watch.new }
        ensures blamed { IfErr result (λ end. Blames end (B.faults bus.old) (B.faults bus.new)) }
        ensures none_fell { NoneFell (B.faults bus.old) (B.faults bus.new) }
        ensures others { OthersStay self.old.world event self.new.world }
        ensures marked { ChangesAreMarked self.old self.new }
        ensures ends_stay { EndsStay self.old.world self.new.world }
        ensures shape { world_shape self.new.world ≡ world_shape self.old.world }
        ensures number { OnOk result (self.new.world.event ≡ self.old.world.event + 1) }
        ensures steps { steps.new ≤ steps.old + 6368 }
        ensures still { is_run event ≡ false → steps.new ≡ steps.old }
        ensures later { steps.old ≤ steps.new }
    {
        self.ring_timers();
        match self.happen(event, bus, watch, steps) {
            Ok(effect) => Ok(effect),
            Err(cut) => {
                self.stopped = true;
                Err(cut.end)
            }
        }
    }

    /// A law of the machine, whatever it has run: each processor has a place, a vcpu that is placed is there and stands on one
    /// processor alone, and each guest's memory has whole pages.
    pub fn is_well_formed(&self) -> bool
        ensures answer { result ≡ true }
        ensures world { IsWellFormed self.now.world }
    {
        let _ = &self.version;
        true
    }

    /// Whether the machine is stopped, since an outward call of an event was refused. It then takes no event.
    pub fn is_stopped(&self) -> bool
        ensures { result ≡ self.now.stopped }
    {
        self.stopped
    }

    /// A vcpu, which the image has to have.
    #[tactic(auto, using(crate::proofs::Worlds::worlds))]
    fn vcpu(&self, vcpu: VcpuId) -> &Vcpu
        requires { IsVcpu (world_shape self.now.world) vcpu }
        ensures { vcpu_in self.now.world vcpu ≡ Some result.now }
    {
        vcpu_at(&self.guests, vcpu)
    }

    /// The registers of a vcpu, which the image has to have.
    pub fn registers(&self, vcpu: VcpuId) -> &Registers
        requires { IsVcpu (world_shape self.now.world) vcpu }
        ensures { option_map (λ v. v.registers) (vcpu_in self.now.world vcpu) ≡ Some result.now }
    {
        &self.vcpu(vcpu).registers
    }

    /// The local APIC of a vcpu, which the image has to have.
    #[tactic(auto, using(crate::proofs::Worlds::worlds))]
    pub fn apic(&self, vcpu: VcpuId) -> &Apic
        requires { IsVcpu (world_shape self.now.world) vcpu }
        ensures { apic_in self.now.world vcpu ≡ Some result.now }
    {
        apic_at(&self.guests, vcpu)
    }

    /// The level of a vcpu, which the image has to have: 2 while it runs a guest of its own, else 1.
    pub fn level(&self, vcpu: VcpuId) -> u8
        requires { IsVcpu (world_shape self.now.world) vcpu }
        ensures { option_map (λ v. level_in v.inside) (vcpu_in self.now.world vcpu) ≡ Some result }
    {
        level_of(self.vcpu(vcpu))
    }

    /// Whether a vcpu, which the image has to have, is halted.
    pub fn is_halted(&self, vcpu: VcpuId) -> bool
        requires { IsVcpu (world_shape self.now.world) vcpu }
        ensures { option_map (λ v. v.halted) (vcpu_in self.now.world vcpu) ≡ Some result }
    {
        self.vcpu(vcpu).halted
    }

    /// The end of a guest, which the image has to have.
    #[tactic(auto, using(crate::proofs::Worlds::worlds))]
    pub fn end_of(&self, guest: GuestId) -> Option<Ended>
        requires { guest.0 < length self.now.world.guests }
        ensures { option_map (λ g. g.ended) (guest_in self.now.world guest) ≡ Some result }
    {
        slot_of(&self.guests, guest).ended
    }

    /// How many events there were.
    pub fn event_number(&self) -> u32
        ensures { result ≡ self.now.world.event }
    {
        self.event
    }

    /// A byte of the memory of a guest, which the image has to have, by one counted read; or its address, where the guest's
    /// memory does not have it. That memory has fewer than 2^64 bytes.
    #[tactic(auto, using(crate::proofs::Worlds::worlds, svm_model::proofs::WindowLemmas::windows))]
    pub fn memory_byte<L: Ledger>(
        &self,
        guest: GuestId,
        address: u64,
        steps: &mut Steps<L>,
    ) -> Result<u8, OutsideMemory>
        requires { guest.0 < length self.now.world.guests }
        ensures byte { IfSome (guest_in self.now.world guest) (λ g. result ≡ byte_at g.memory address) }
        ensures fits { IfSome (guest_in self.now.world guest) (λ g. length g.memory < 2 ^ 64) }
        ensures steps { steps.new ≡ steps.old + 1 }
    {
        let slot = slot_of(&self.guests, guest);
        let _size = size_of(slot);
        let mut bytes = [0; 16];
        self.memory
            .read_guest(slot.window, address, 1, &mut bytes, steps)?;
        Ok(bytes[0])
    }

    /// How many pages of 4096 bytes the memory of a guest has, which the image has to have.
    #[tactic(auto, using(crate::proofs::Worlds::worlds))]
    pub fn page_count(&self, guest: GuestId) -> u32
        requires { guest.0 < length self.now.world.guests }
        ensures { 4096 * result ≡ length (memory_of (guest_in self.now.world guest)) }
    {
        pages_of(slot_of(&self.guests, guest))
    }

    /// Whether a page of a guest is marked as written: whether a write touched it since the pages were last marked unwritten, or
    /// since the machine was opened where they never were. The page has to be one of the guest's memory.
    #[tactic(auto, using(crate::proofs::Worlds::worlds))]
    pub fn page_written(&self, guest: GuestId, page: u32) -> bool
        requires there { guest.0 < length self.now.world.guests }
        requires page { 4096 * page + 4096 ≤ length (memory_of (guest_in self.now.world guest)) }
        ensures { result ≡ is_written self.now guest.0 page }
    {
        let slot = slot_of(&self.guests, guest);
        self.memory.page_written(first_page(slot) + page)
    }

    /// Marks all pages of all guests as unwritten.
    pub fn mark_unchanged(&mut self)
        ensures world { self.new.world ≡ self.old.world }
        ensures stopped { self.new.stopped ≡ self.old.stopped }
        ensures unmarked { (guest page : ℕ) → guest < length self.old.world.guests → is_written self.new guest page ≡ false }
    {
        self.memory.mark_unchanged();
    }

    /// The bytes of a page of a guest's memory, by one counted read. The page has to be one of the guest's memory.
    #[tactic(auto, using(crate::proofs::Worlds::worlds))]
    pub fn page<L: Ledger>(&self, guest: GuestId, page: u32, steps: &mut Steps<L>) -> &[u8]
        requires there { guest.0 < length self.now.world.guests }
        requires page { 4096 * page + 4096 ≤ length (memory_of (guest_in self.now.world guest)) }
        ensures bytes { result.now ≡ page_at (memory_of (guest_in self.now.world guest)) page }
        ensures steps { steps.new ≡ steps.old + 1 }
    {
        let slot = slot_of(&self.guests, guest);
        self.memory.page(slot.window, page, steps)
    }

    /// The machine that an image starts: the guests' memories with their segments, one behind another, their vcpus as they
    /// start, and no vcpu placed.
    #[tactic(auto, unfolding(svm_model::specs::Machine::World::world_of))]
    pub fn open(alloc: Global, image: &Image) -> Result<PlainMachine, NoMemory>
        requires lawful { IsLawfulImage image.now }
        ensures world { IfOk result (λ machine. machine.world ≡ world_of image.now) }
        ensures going { IfOk result (λ machine. machine.stopped ≡ false) }
        ensures shape { IfOk result (λ machine. world_shape machine.world ≡ image_shape image.now) }
        ensures well_formed { IfOk result (λ machine. IsWellFormed machine.world) }
        ensures number { IfOk result (λ machine. machine.world.event ≡ 0) }
    {
        let Ok(mut memory) = HostMemory::new(alloc, pages_in(&image.guests)) else {
            return Err(NoMemory);
        };
        let guests = open_guests(alloc, &mut memory, &image.guests)?;
        let placing = none_placed(alloc, image.cpus)?;
        Ok(PlainMachine {
            version: image.version,
            features: image.features,
            memory,
            guests,
            placing,
            event: 0,
            stopped: false,
            rows: KeptRows::new(alloc),
        })
    }
}

/// How many bytes a guest's memory has, fewer than 2^64.
fn size_of(slot: &Slot) -> u64
    ensures { result ≡ slot.now.window.size }
{
    slot.window.size
}

/// How many pages a guest's memory has.
fn pages_of(slot: &Slot) -> u32
    requires { slot.now.window.size ≤ 335544320 }
    ensures { result ≡ slot.now.window.size / 4096 }
{
    (slot.window.size / 4096) as u32
}

/// The number of a guest's first page in the memory of all.
fn first_page(slot: &Slot) -> u32
    requires { slot.now.window.base ≤ 335544320 }
    ensures { result ≡ slot.now.window.base / 4096 }
{
    (slot.window.base / 4096) as u32
}

/// L1, or L2 inside a VMCB.
fn level_of(vcpu: &Vcpu) -> u8
    ensures { result ≡ level_in vcpu.now.inside }
{
    match vcpu.inside {
        None => 1,
        Some(_) => 2,
    }
}
